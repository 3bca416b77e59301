// Digests of cells: each value below 2^32 in turn is added to the digest before it, multiplied by 65,599, modulo the
// largest prime below 2^32.
ghost use Rattle.std.specs.Prelude.{◌≡◌, ℕ};
ghost use Rattle.vector_text.specs.Cases.{part, digest_step, word_step, digest_by};

use crate::parts::part;

const PRIME: u64 = 4294967291;

const HALF: u64 = 4294967296;

// What a digest starts from.
pub const START: u64 = 1;

// What a case shows cells of: as a number, and by what they add to a digest.
pub trait Cell: Copy {
    ghost value_of: { Self → ℕ };

    ghost added_to: { ℕ → Self → ℕ };

    fn value(self) -> u64
        ensures { result ≡ value_of self };

    // The digest with this cell taken in.
    fn add_to(self, digest: u64) -> u64
        ensures { result ≡ added_to digest self };
}

impl Cell for u8 {
    ghost value_of = { λ n. n };

    ghost added_to = { digest_step };

    fn value(self) -> u64 {
        u64::from(self)
    }

    fn add_to(self, digest: u64) -> u64 {
        step(digest, self.value())
    }
}

impl Cell for u32 {
    ghost value_of = { λ n. n };

    ghost added_to = { digest_step };

    fn value(self) -> u64 {
        u64::from(self)
    }

    fn add_to(self, digest: u64) -> u64 {
        step(digest, self.value())
    }
}

impl Cell for u64 {
    ghost value_of = { λ n. n };

    ghost added_to = { word_step };

    fn value(self) -> u64 {
        self
    }

    // A word counts as two halves, the low one first.
    fn add_to(self, digest: u64) -> u64 {
        step(step(digest, self), self / HALF)
    }
}

fn step(digest: u64, value: u64) -> u64
    ensures { result ≡ digest_step digest value }
{
    (digest % PRIME * 65599 + value % HALF) % PRIME
}

// Goes on from `start` over the cells from position `from` to before `to`.
pub fn digest_of<C: Cell>(start: u64, cells: &[C], from: usize, to: usize) -> u64
    ensures { result ≡ digest_by C.added_to start (part from to cells.now) }
{
    part(cells, from, to)
        .iter()
        .fold(start, |digest, cell| cell.add_to(digest))
}
