// The masks, line by line: each line's bit goes to the cells of the leaves that it comes to, and of the letters that it takes.
ghost use Rattle.std.specs.Prelude.{◌≡◌, true, ◌<◌, ◌≤◌, length};
ghost use Rattle.syntax.specs.Letter.{is_letter, in_range};
ghost use Rattle.syntax.specs.Table.{leaf_good, node_good};
ghost use Rattle.bits.specs.Bits.{test_bit, word_of};
ghost use Rattle.table.specs.Cells.{line_in, Good};
ghost use Rattle.masks.specs.Leaves.{letter_cells};
ghost use Rattle.masks.specs.Masks.{Filled, row, comes_to_end, column, leaf_takes, node_takes, line_takers};
ghost use Rattle.masks.specs.Scatter.{Marked, between};

use super::firsts::First;
use super::follows::Follow;
use super::{LETTER_CELLS, join};
use bits::ones::Ones;
use syntax::{Leaf, Node, Pattern};
use table::node_at;

// Joins the bit of line i to the cells of a row: those whose bits are set in it.
fn put_row(cells: &mut [u64; 64], row: u64, i: usize)
    requires { (i < 64) × (length cells.old ≡ 64) }
    ensures { Marked (test_bit row) i cells.old cells.new }
{
    let mark = 1 << i;
    for x in Ones(row) {
        cells[x] |= mark;
    }
}

// For each leaf the nodes that reach it by empty steps when entered with a flag, 0 or 1: each line's bit goes to the leaves of its first and,
// where it is nullable, to those of its follow with that flag.
pub(crate) fn put_columns(
    count: usize,
    firsts: &[First; 64],
    follows: &[Follow; 64],
    flag: bool,
    cells: &mut [u64; 64],
)
    requires { (count ≤ 64) × Filled 0 (λ x. 0) 64 64 cells.old }
    ensures { Filled 0 (column count (row firsts.now follows.now flag)) 64 count cells.new }
{
    for i in 0..count {
        let first = firsts[i];
        put_row(
            cells,
            join(first.leaves, follows[i].leaves(flag), first.nullable),
            i,
        );
    }
}

// The nodes that come to the end with flag 1.
pub(crate) fn ends_of(count: usize, firsts: &[First; 64], follows: &[Follow; 64]) -> u64
    requires { count ≤ 64 }
    ensures { result ≡ word_of count (comes_to_end firsts.now follows.now) }
{
    let mut word = 0;
    for i in 0..count {
        word += u64::from(firsts[i].nullable && follows[i].end) << i;
    }
    word
}

// Joins the bit of line i to the cells from low to high, to none where high is below low.
fn put_between(cells: &mut [u64; LETTER_CELLS], low: u8, high: u8, i: usize)
    requires { (i < 64) × (high < letter_cells) × (length cells.old ≡ letter_cells) }
    ensures { Marked (between low high) i cells.old cells.new }
{
    let mark = 1 << i;
    for c in usize::from(low)..=usize::from(high) {
        cells[c] |= mark;
    }
}

// Joins the bit of line i to the cells of the letters from low to high: those up to the gap, then those after it.
fn put_range(cells: &mut [u64; LETTER_CELLS], low: u8, high: u8, i: usize)
    requires { (i < 64) × (length cells.old ≡ letter_cells) × (is_letter low ≡ true) × (is_letter high ≡ true) }
    ensures { Marked (in_range low high) i cells.old cells.new }
{
    let cold = high.min(Pattern::LAST_LETTER);
    let hot = low.max(Pattern::FIRST_HOT_LETTER);
    put_between(cells, low, cold, i);
    put_between(cells, hot, high, i);
}

fn put_leaf(cells: &mut [u64; LETTER_CELLS], leaf: Leaf, i: usize)
    requires { (i < 64) × (length cells.old ≡ letter_cells) × (leaf_good leaf ≡ true) }
    ensures { Marked (leaf_takes leaf) i cells.old cells.new }
{
    match leaf {
        Leaf::Nothing => {}
        Leaf::Letter(c) => put_between(cells, c, c, i),
        Leaf::Range(low, high) => put_range(cells, low, high, i),
    }
}

// Joins the bit of line i to the cells of the letters that its node takes.
fn put_node(cells: &mut [u64; LETTER_CELLS], node: Node, i: usize)
    requires { (i < 64) × (length cells.old ≡ letter_cells) × (node_good node ≡ true) }
    ensures { Marked (node_takes node) i cells.old cells.new }
{
    match node {
        Node::Leaf(leaf) => put_leaf(cells, leaf, i),
        Node::Sequence(_, _) | Node::Alternative(_, _) | Node::Star(_, _) => {}
    }
}

// For each letter the leaves that take it, into a lent array of zeros. It is not part of `put_masks`, so that its cells can lie where the arrays
// lay that the other masks are made from.
pub fn put_takers(table: &[u64; 64], count: usize, takers: &mut [u64; LETTER_CELLS])
    requires { (count ≤ 64) × Good table.now × Filled 0 (λ x. 0) letter_cells letter_cells takers.old }
    ensures { Filled 0 (λ c. line_takers (line_in table.now) c count) letter_cells letter_cells takers.new }
{
    for i in 0..count {
        put_node(takers, node_at(table, i), i);
    }
}
