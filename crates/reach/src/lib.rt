// Where a tape breaks, for a caller whose tape is refused as unreadable (5): how many of its first letters begin some tape of the pattern, at most,
// and from which position on its letters end one, at least.
// From the start a set is a word: before a letter the nodes that are entered with flag 1, at first the root; then the leaves that take the letter
// and that one of these nodes reaches by empty steps; after it their followers. The tape is read until no leaf is left.
// From the end the first sweep's step is made for each letter, and one word is kept: the letters from a position on end a tape exactly if its flag 1
// word is not 0. So no words are lent, and none are stored: the words of a tape would take 57 KB of stack.
#![tactic(auto)]

ghost use Rattle.std.specs.Prelude.{◌≡◌, ◌≤◌};
ghost use Rattle.syntax.specs.Trees.{root};
ghost use Rattle.table.specs.Cells.{Holds};
ghost use Rattle.reach.specs.Locate.{Tells, Locates};
ghost use Rattle.reach.specs.FrontWords.{matched_leaves, state_word, following, reach_words, resume_words};
ghost use Rattle.reach.specs.Reaching.{Locatable};

use bits::ones::Ones;
use checks::check_tape;
use masks::scatter::put_takers;
use masks::{LETTER_CELLS, put_masks};
use refusals::Refusal;
use steps::step;
use syntax::Pattern;
use table::{follower_at, table_of};

// Where a tape breaks: how many of its first letters begin some tape of the pattern, at most, and from which position on its letters end one, at least.
#[derive(Clone, Copy, Debug, PartialEq, Eq)]
pub struct Positions {
    pub reach: u16,
    pub resume: u16,
}

// The leaves that take a letter and that one of the nodes reaches.
fn matched(one: &[u64; 64], nodes: u64, takers: u64) -> u64
    ensures { result ≡ matched_leaves one.now nodes takers }
{
    let mut leaves = 0;
    for i in Ones(takers) {
        leaves |= u64::from(one[i] & nodes != 0) << i;
    }
    leaves
}

// A state's bit: a node's, none for the end.
fn state_bit(state: u8) -> u64
    ensures { result ≡ state_word state }
{
    if state < 64 { 1 << state } else { 0 }
}

// The nodes that follow leaves.
fn follow(table: &[u64; 64], leaves: u64) -> u64
    ensures { result ≡ following table.now leaves }
{
    let mut nodes = 0;
    for i in Ones(leaves) {
        nodes |= state_bit(follower_at(table, i));
    }
    nodes
}

// The reach, over the masks of a pattern. It stops where no leaf is matched, not where no node follows: the end has no bit.
fn reach_over(
    one: &[u64; 64],
    table: &[u64; 64],
    takers: &[u64; LETTER_CELLS],
    count: usize,
    tape: &[u8],
) -> usize
    requires { (1 ≤ count) × (count ≤ 64) }
    ensures { result ≡ reach_words one.now table.now takers.now count tape.now }
{
    let mut nodes = 1 << (count - 1);
    for (i, &c) in tape.iter().enumerate() {
        let leaves = matched(one, nodes, takers[usize::from(c)]);
        if leaves == 0 {
            return i;
        }
        nodes = follow(table, leaves);
    }
    tape.len()
}

// The position at which a tape resumes, over the masks of a pattern: the first whose flag 1 word is not 0. `end` is the flag 1 word of the tape's end,
// which decides nothing here: no letters always end a tape.
fn resume_over(
    zero: &[u64; 64],
    one: &[u64; 64],
    table: &[u64; 64],
    takers: &[u64; LETTER_CELLS],
    end: u64,
    tape: &[u8],
) -> usize
    ensures { result ≡ resume_words zero.now one.now table.now takers.now end tape.now }
{
    let mut next = end;
    let mut last = true;
    let mut found = tape.len();
    for (i, &c) in tape.iter().enumerate().rev() {
        next = step(zero, one, table, takers[usize::from(c)], next, last).one;
        last = false;
        if next != 0 {
            found = i;
        }
    }
    found
}

// Both positions, over one set of masks.
fn positions_of(p: Pattern, table: &[u64; 64], tape: &[u8]) -> Positions
    requires { Locatable p tape.now × Holds p table.now }
    ensures { Tells (root p) tape.now (Ok result) }
{
    let mut zero = [0; 64];
    let mut one = [0; 64];
    let end = put_masks(table, p.count, &mut zero, &mut one);
    let mut takers = [0; LETTER_CELLS];
    put_takers(table, p.count, &mut takers);
    let reach = reach_over(&one, table, &takers, p.count, tape);
    let resume = resume_over(&zero, &one, table, &takers, end, tape);
    Positions {
        reach: reach as u16,
        resume: resume as u16,
    }
}

// WHERE A TAPE BREAKS: the reach, and the position at which it resumes, or the first cause in the service's order. Of a readable tape they are its
// length and 0.
pub fn locate(p: Pattern, tape: &[u8]) -> Result<Positions, Refusal>
    ensures { Locates p tape.now result }
{
    check_tape(p, tape)?;
    let table = table_of(p);
    Ok(positions_of(p, &table, tape))
}
