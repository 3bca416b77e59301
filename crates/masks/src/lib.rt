// Glushkov sets of a pattern, as 64-bit words.
// zero[x], one[x]  nodes that reach leaf x by empty steps, entered with flag 0 / flag 1
// takers[c]        leaves that accept letter c
// They are made once a pattern, by loops over the lines of its table.
// Loops, since a recursion for each leaf would copy the table for each node. Over the table and its count, since a pattern by value in each loop
// doubles the time of the check.
#![tactic(auto)]

ghost use Rattle.std.specs.Prelude.{◌≡◌, ◌-◌};
ghost use Rattle.std.specs.Int.Bits.{bit_or};
ghost use Rattle.syntax.specs.Trees.{tree_of};
ghost use Rattle.bits.specs.Unions.{pick};
ghost use Rattle.table.specs.Cells.{line_in};
ghost use Rattle.masks.specs.Masks.{LeafMasks};
ghost use Rattle.masks.specs.Making.{Maskable, Blank};

mod firsts; // firsts.rt: first and nullable of each node
mod follows; // follows.rt: follow of each node
pub mod scatter; // scatter.rt: each line's bit, to the leaves and letters it belongs to

use firsts::{First, put_firsts};
use follows::{Follow, put_follows};
use scatter::{ends_of, put_columns};

// A cell for each letter: letters are below this.
pub const LETTER_CELLS: usize = 256;

// The word, joined with the mask where it is chosen.
fn join(word: u64, mask: u64, chosen: bool) -> u64
    ensures { result ≡ bit_or word (pick chosen mask) }
{
    if chosen { word | mask } else { word }
}

// Makes the sets of the leaves among the lines below count, into lent arrays of zeros. Gives the flag 1 state set of the tape's end.
pub fn put_masks(table: &[u64; 64], count: usize, zero: &mut [u64; 64], one: &mut [u64; 64]) -> u64
    requires { Maskable table.now count × Blank zero.old one.old }
    ensures { LeafMasks (tree_of (line_in table.now) (count - 1)) count zero.new one.new result }
{
    let mut firsts = [First::default(); 64];
    let mut follows = [Follow::default(); 64];
    put_firsts(table, count, &mut firsts);
    put_follows(table, count, &firsts, &mut follows);
    put_columns(count, &firsts, &follows, false, zero);
    put_columns(count, &firsts, &follows, true, one);
    ends_of(count, &firsts, &follows)
}
