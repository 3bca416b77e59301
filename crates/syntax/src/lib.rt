// Patterns: the table of nodes, the test of the pattern rules, and letters.
// Everything else speaks of patterns, and this crate needs nothing. A table can be made by hand, so every service asks `obeys_rules`; its
// promise is one truth value for the code, and law `obeys_iff` gives proofs the rules as facts.
#![tactic(auto)]

ghost use Rattle.std.specs.Prelude.{◌≡◌};
ghost use Rattle.syntax.specs.Letter.{is_letter, in_range, first_bad};
ghost use Rattle.syntax.specs.Table.{no_lines, obeys};

pub mod naming; // naming.rt: which nodes are named as parts
mod table; // table.rt: the form of a table's lines

use naming::tree_fault_of;
use table::good_lines;

// A leaf of the pattern.
#[derive(Clone, Copy)]
pub enum Leaf {
    Nothing,
    Letter(u8),
    Range(u8, u8),
}

// A node. The parts of one that is no leaf are indices into the table. A star has the bit that it writes before each round: false, written 0,
// for the greedy star (01: kind `K`), true, written 1, for the lazy one (02: kind `Z`). It writes the other bit to stop.
#[derive(Clone, Copy)]
pub enum Node {
    Leaf(Leaf),
    Sequence(u8, u8),
    Alternative(u8, u8),
    Star(bool, u8),
}

// A line of the table: a node and its account, 0 for none.
#[derive(Clone, Copy)]
pub struct Line {
    pub account: u8,
    pub node: Node,
}

// The table of a pattern. Lines at or past the count mean nothing.
#[derive(Clone, Copy)]
pub struct Pattern {
    pub count: usize,
    pub lines: [Line; Pattern::MAX_LINES],
}

impl Pattern {
    pub const MAX_LINES: usize = 64;

    pub const MAX_LETTERS: usize = 3600;

    pub const MAX_CODE_BYTES: usize = 65536;

    pub const MAX_CODE_BITS: u32 = 524288;

    // Accounts are 1 to this; 0 stands for none.
    pub const MAX_ACCOUNT: u8 = 200;

    // How many totals there are: of accounts 0 to `MAX_ACCOUNT`.
    pub const ACCOUNTS: usize = 201;

    // The account of litres that are "stale" (02): what is at or under a node of it stays in it.
    pub const STALE_ACCOUNT: u8 = 9;

    pub const FIRST_LETTER: u8 = 33;

    pub const LAST_LETTER: u8 = 126;

    // Letters of the hot side lie above a gap of bytes that are no letters.
    pub const FIRST_HOT_LETTER: u8 = 161;

    pub const LAST_HOT_LETTER: u8 = 254;

    // A table of no lines, which obeys no pattern rules: what callers of a refused load go on with.
    #[tactic(auto, unfolding(crate::specs::Table::no_lines))]
    pub fn new() -> Pattern
        ensures { result ≡ no_lines }
    {
        let node = Node::Leaf(Leaf::Nothing);
        let line = Line { account: 0, node };
        Pattern {
            count: 0,
            lines: [line; Pattern::MAX_LINES],
        }
    }
}

// Whether a byte is a letter. Both ranges are asked, with no branch between: this is asked of each letter of a tape, and at each call of all that a desk holds.
#[tactic(auto, unfolding(crate::specs::Letter::is_letter))]
pub fn is_letter(c: u8) -> bool
    ensures { result ≡ is_letter c }
{
    matches!(c, Pattern::FIRST_LETTER..=Pattern::LAST_LETTER)
        | matches!(c, Pattern::FIRST_HOT_LETTER..=Pattern::LAST_HOT_LETTER)
}

// Whether a byte is a letter of a range. A range may run across the gap, so that what lies between its ends is not always a letter.
#[tactic(auto, unfolding(crate::specs::Letter::in_range))]
pub fn in_range(low: u8, high: u8, c: u8) -> bool
    ensures { result ≡ in_range low high c }
{
    is_letter(c) && (low..=high).contains(&c)
}

// The position of the first byte that is no letter, the tape's length where there is none.
pub fn first_bad(tape: &[u8]) -> usize
    ensures { result ≡ first_bad tape.now }
{
    tape.iter()
        .position(|c| !is_letter(*c))
        .unwrap_or(tape.len())
}

// Whether a table obeys the pattern rules. Nothing at or past its count is looked at.
#[tactic(auto, unfolding(crate::specs::Table::obeys))]
pub fn obeys_rules(p: Pattern) -> bool
    ensures { result ≡ obeys p }
{
    (1..=Pattern::MAX_LINES).contains(&p.count) && good_lines(p) && tree_fault_of(p).is_none()
}
