// The table of a pattern, packed: a line a cell, its numbers one above the other in 64 bits. From the lowest: kind, first, second, account
// and follower, 8 bits each, and a bit that is 1 where the follower is a star above. Walks and sweeps read it thousands of times by one
// reference, where a table by value would be copied at each call.
// Every kind's number from 6 on means a lazy star, so that each cell has a node and no reader needs a fault case. Followers are handed down from the
// last line to the first, by one law (specs/HandDown) that also gives the follow sets of crate masks.
// Kept: numbers packed in one word, and kinds as numbers, since sweeps read a cell at each step: one word a line is fast to read, and lent whole.
#![tactic(auto)]

ghost use Rattle.std.specs.Prelude.{◌≡◌, ◌-◌, ◌≤◌, ◌<◌, ◌/◌, ◌%◌, length, replicate};
ghost use Rattle.syntax.specs.TreeLaws.{Rules};
ghost use Rattle.table.specs.HandDown.{first_part, second_part, Rooted};
ghost use Rattle.table.specs.Cells.{row, row_of, node_from, cell_line, line_in, node_in, account_in, Holds};
ghost use Rattle.table.specs.Cells.{field, first_place, second_place, account_place, half};
ghost use Rattle.table.specs.Cells.{cell_follower, cell_follower_in, follower_in, loops_in};
ghost use Rattle.table.specs.CellLaws.{Filled, FollowerPut, first_follower, Follows};

use syntax::{Leaf, Line, Node, Pattern};

// A cell's fields of 8 bits. Kind is the lowest; of each other, what 1 in it is worth in the cell.
const FIELD: u64 = 256;

const FIRST: u64 = 256;

const SECOND: u64 = 65536;

const ACCOUNT: u64 = 16777216;

// The upper half of a cell has the follower, with the mark of a star above.
const HALF: u64 = 4294967296;

const ABOVE: u64 = 256;

// A node as three numbers. Which of them a kind uses, and for what, `node_of` says.
#[derive(Clone, Copy)]
pub struct Numbers {
    pub kind: u8,
    pub first: u8,
    pub second: u8,
}

impl Numbers {
    pub const NOTHING: u8 = 0;

    pub const LETTER: u8 = 1;

    pub const RANGE: u8 = 2;

    pub const SEQUENCE: u8 = 3;

    pub const ALTERNATIVE: u8 = 4;

    pub const STAR: u8 = 5;

    pub const LAZY_STAR: u8 = 6;
}

fn row(kind: u8, first: u8, second: u8) -> Numbers
    ensures { result ≡ row kind first second }
{
    Numbers {
        kind,
        first,
        second,
    }
}

fn row_of(node: Node) -> Numbers
    ensures { result ≡ row_of node }
{
    match node {
        Node::Leaf(Leaf::Nothing) => row(Numbers::NOTHING, 0, 0),
        Node::Leaf(Leaf::Letter(c)) => row(Numbers::LETTER, c, 0),
        Node::Leaf(Leaf::Range(a, b)) => row(Numbers::RANGE, a, b),
        Node::Sequence(p, q) => row(Numbers::SEQUENCE, p, q),
        Node::Alternative(p, q) => row(Numbers::ALTERNATIVE, p, q),
        Node::Star(false, p) => row(Numbers::STAR, p, 0),
        Node::Star(true, p) => row(Numbers::LAZY_STAR, p, 0),
    }
}

fn pack(kind: u8, first: u8, second: u8, account: u8) -> u64
    ensures { (result % field ≡ kind) × (result / first_place % field ≡ first) × (result / second_place % field ≡ second) × (result / account_place % field ≡ account) }
{
    u64::from(kind)
        + u64::from(first) * FIRST
        + u64::from(second) * SECOND
        + u64::from(account) * ACCOUNT
}

#[tactic(auto, using(crate::specs::CellLaws::cell_packed))]
fn cell_of(line: Line) -> u64
    ensures { cell_line result ≡ line }
{
    let row = row_of(line.node);
    pack(row.kind, row.first, row.second, line.account)
}

// The lines of a pattern, packed; lines at or past its count are nothing.
fn put_lines(p: Pattern, table: &mut [u64])
    requires { (p.count ≤ 64) × (table.old ≡ replicate 64 0) }
    ensures { Filled p table.new p.count }
{
    for (i, line) in p.lines[..p.count].iter().enumerate() {
        table[i] = cell_of(*line);
    }
}

fn node_of(kind: u8, first: u8, second: u8) -> Node
    ensures { result ≡ node_from kind first second }
{
    match kind {
        Numbers::NOTHING => Node::Leaf(Leaf::Nothing),
        Numbers::LETTER => Node::Leaf(Leaf::Letter(first)),
        Numbers::RANGE => Node::Leaf(Leaf::Range(first, second)),
        Numbers::SEQUENCE => Node::Sequence(first, second),
        Numbers::ALTERNATIVE => Node::Alternative(first, second),
        Numbers::STAR => Node::Star(false, first),
        _ => Node::Star(true, first),
    }
}

// The node of a line, so that a walk over a packed table is a match on the node.
#[tactic(auto, unfolding(crate::specs::Cells::cell_node))]
pub fn node_at(table: &[u64; 64], l: usize) -> Node
    requires { l < 64 }
    ensures { result ≡ node_in table.now l }
{
    let cell = table[l];
    let kind = (cell % FIELD) as u8;
    let first = (cell / FIRST % FIELD) as u8;
    let second = (cell / SECOND % FIELD) as u8;
    node_of(kind, first, second)
}

// The account of a line, 0 for none.
#[tactic(auto, unfolding(crate::specs::Cells::cell_account))]
pub fn account_at(table: &[u64; 64], l: usize) -> u8
    requires { l < 64 }
    ensures { result ≡ account_in table.now l }
{
    (table[l] / ACCOUNT % FIELD) as u8
}

// The node that follows a line (01: its follower), 64 for the end.
#[tactic(auto, unfolding(crate::specs::Cells::cell_follower))]
pub fn follower_at(table: &[u64; 64], l: usize) -> u8
    requires { l < 64 }
    ensures { result ≡ follower_in table.now l }
{
    (table[l] / HALF % FIELD) as u8
}

// Whether the node that follows a line is a star above it.
#[tactic(auto, unfolding(crate::specs::Cells::cell_follower))]
pub fn loops_at(table: &[u64; 64], l: usize) -> bool
    requires { l < 64 }
    ensures { result ≡ loops_in table.now l }
{
    table[l] / HALF / ABOVE % 2 == 1
}

// The parts of line i: a star has one, and a leaf stands for its own.
pub fn first_part(node: Node, i: usize) -> usize
    ensures { result ≡ first_part i node }
{
    match node {
        Node::Leaf(_) => i,
        Node::Sequence(p, _) | Node::Alternative(p, _) | Node::Star(_, p) => usize::from(p),
    }
}

pub fn second_part(node: Node, i: usize) -> usize
    ensures { result ≡ second_part i node }
{
    match node {
        Node::Leaf(_) => i,
        Node::Sequence(_, q) | Node::Alternative(_, q) | Node::Star(_, q) => usize::from(q),
    }
}

// What a cell says of the follower: its number, and 256 more where it is a star above.
#[tactic(auto, unfolding(crate::specs::Cells::cell_follower))]
fn follower(cell: u64) -> u64
    ensures { (result ≡ cell_follower cell) × (result < half) }
{
    cell / HALF
}

// The same for the first part of line i, from that of the line: the second part of a sequence follows, and the star itself.
fn first_follower(node: Node, i: usize, line: u64) -> u64
    requires { (i < 64) × (line < half) }
    ensures { (result ≡ first_follower i node line) × (result < half) }
{
    match node {
        Node::Leaf(_) | Node::Alternative(..) => line,
        Node::Sequence(_, q) => u64::from(q),
        Node::Star(..) => i as u64 + ABOVE,
    }
}

fn put_follower(table: &mut [u64], l: usize, follower: u64)
    requires { (l < length table.old) × (follower < half) }
    ensures { FollowerPut table.old l follower table.new }
{
    table[l] = table[l] % HALF + follower * HALF;
}

// The followers of all lines, from that of the last: each line hands on to its parts.
fn put_followers(table: &mut [u64; 64], count: usize)
    requires { Rooted (line_in table.old) count × (length table.old ≡ 64) × (cell_follower_in table.old (count - 1) ≡ 64) }
    ensures { Follows table.old count table.new }
{
    for i in (0..count).rev() {
        let node = node_at(table, i);
        let line = follower(table[i]);
        put_follower(table, second_part(node, i), line);
        put_follower(table, first_part(node, i), first_follower(node, i, line));
    }
}

// The packed table of a pattern that obeys the rules, with its followers. The end follows the last line.
pub fn table_of(p: Pattern) -> [u64; 64]
    requires { Rules p }
    ensures { Holds p result }
{
    let mut table = [0u64; 64];
    put_lines(p, &mut table);
    put_follower(&mut table, p.count - 1, 64);
    put_followers(&mut table, p.count);
    table
}
