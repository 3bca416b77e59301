// The memo of steps made before. On a tape of readings the same few pairs of state sets come again and again. So pairs are numbered as they come, up
// to 40 of them, and a table of bytes notes which pair a step leads to: a step that was made before is one byte read. A row is the pair that the
// step starts from, a column the leaves that take the letter, so letters that the same leaves take share one. A column is chosen by the lowest
// of these leaves and belongs to the first leaves that ask for it; others make their steps each time.
// A tape with more pairs, or with many new steps, goes on without numbers: there the table would cost more than it saves.
ghost use Rattle.std.specs.Prelude.{◌≡◌, ℕ, List, ◌≤◌, ◌<◌, IfSome};
ghost use Rattle.std.specs.List.{position};
ghost use Rattle.steps.specs.Memo.{same_words, Remembers, Knows, Numbers, Claims, Notes, Learns};

use super::Words;

// At most so many pairs are numbered.
const PAIRS: usize = 40;
// A column for each leaf.
const COLUMNS: usize = 64;
// A cell for each column and pair. It is PAIRS × column + pair, not by rows: the column is known early and the pair last, so only one sum is left
// to do when it is (measured).
const WAYS: usize = 2560;

#[derive(Drop)]
pub struct Memo {
    // The pairs that are numbered, and how many are.
    pub pairs: [Words; PAIRS],
    pub count: usize,
    // How many steps may still be noted.
    pub left: u64,
    // The leaves that each column belongs to: no leaf, the word 0, where it belongs to none.
    pub owners: [u64; COLUMNS],
    // One more than the number of the pair that the step leads to, or 0 where it is not noted.
    // Kept: an Option of a byte takes two bytes, so that the table would be 5 KB of stack in place of 2.5.
    pub ways: [u8; WAYS],
}

// The column of a letter, by the lowest of the leaves that take it.
fn column_of(takers: u64) -> usize
    ensures { result < 64 }
{
    (takers.trailing_zeros() % 64) as usize
}

// The number of a pair among those numbered.
fn find(pairs: &[Words], w: Words) -> Option<usize>
    ensures { result ≡ position (same_words w) pairs.now }
{
    pairs.iter().position(|p| *p == w)
}

// Whether a column belongs to these leaves. If it belongs to none, it does from now on.
fn claims(owners: &mut [u64; COLUMNS], column: usize, takers: u64) -> bool
    requires { column < 64 }
    ensures { Claims owners.old owners.new column takers result }
{
    if owners[column] == 0 {
        owners[column] = takers;
    }
    takers != 0 && owners[column] == takers
}

// Notes which pair a step leads to, if the column belongs to the leaves of the step.
fn note(owners: &mut [u64; COLUMNS], ways: &mut [u8; WAYS], takers: u64, pair: usize, to: usize)
    requires { (pair < 40) × (to < 40) }
    ensures { Notes owners.old ways.old takers pair to owners.new ways.new }
{
    let column = column_of(takers);
    if claims(owners, column, takers) {
        ways[PAIRS * column + pair] = to as u8 + 1;
    }
}

impl Memo {
    // A memo of no step, that notes as many as are given.
    pub fn new(left: u64) -> Memo
        ensures { (zs os ts : List ℕ) → Remembers zs os ts result }
    {
        Memo {
            pairs: [Words { zero: 0, one: 0 }; PAIRS],
            count: 0,
            left,
            owners: [0; COLUMNS],
            ways: [0; WAYS],
        }
    }

    // The number of a pair: its own, or a new one if there is room for it.
    fn number_of(&mut self, w: Words) -> Option<usize>
        requires { self.old.count ≤ 40 }
        ensures { Numbers self.old self.new w result }
    {
        if let Some(n) = find(&self.pairs[..self.count], w) {
            return Some(n);
        }
        let n = self.count;
        if n == PAIRS {
            return None;
        }
        self.pairs[n] = w;
        self.count = n + 1;
        Some(n)
    }

    // Learns a step from a pair, or from none that is numbered: numbers the pair that it leads to and, if there is room, notes it. Gives that
    // number, or nothing if pairs are no longer numbered.
    pub fn learn(&mut self, takers: u64, from: Option<usize>, w: Words) -> Option<usize>
        requires { (self.old.count ≤ 40) × IfSome from (λ s. s < 40) }
        ensures { Learns self.old takers from w self.new result }
    {
        if self.left == 0 {
            return None;
        }
        self.left -= 1;
        let Some(to) = self.number_of(w) else {
            self.left = 0;
            return None;
        };
        if let Some(pair) = from {
            note(&mut self.owners, &mut self.ways, takers, pair, to);
        }
        Some(to)
    }

    // The pair that a step from a pair leads to, if the step is noted. It is asked for each letter, so it is small enough to become part of the
    // sweep's loop: as a call it took three times as long (measured).
    pub fn known(&self, takers: u64, from: Option<usize>) -> Option<usize>
        requires { IfSome from (λ s. s < 40) }
        ensures { Knows self.now takers from result }
    {
        let pair = from?;
        let column = column_of(takers);
        if self.owners[column] != takers {
            return None;
        }
        (self.ways[PAIRS * column + pair] as usize).checked_sub(1)
    }
}
