// Cells shown: bytes whole, or as a digest where they are many, and what a call leaves in lent buffers.
ghost use Rattle.std.specs.Prelude.{◌≡◌, cond, eqb, map};
ghost use Rattle.text.specs.Text.{Puts, field};
ghost use Rattle.vector_text.specs.Cases.{part, digest_by, shown_text, left_text, numbers_text};

use crate::digest::{Cell, START, digest_of};
use crate::parts::part;
use text::{put_byte, put_hex, put_parted};

const SHOWN_BYTES: usize = 64;

// A tab and the first `count` bytes in hexadecimal, or where they are many, # and their digest.
pub fn put_shown(out: &mut [u8], at: usize, bytes: &[u8], count: usize) -> usize
    ensures { Puts out.old at (shown_text count bytes.now) out.new result }
{
    let end = put_byte(out, at, b'\t');
    if count <= SHOWN_BYTES {
        put_hex(out, end, part(bytes, 0, count))
    } else {
        put_parted(out, end, b'#', digest_of(START, bytes, 0, count))
    }
}

// A tab stands before the first number of a list, commas before the others.
fn part_before(i: usize) -> u8
    ensures { result ≡ cond (eqb i 0) 9 44 }
{
    if i == 0 { b'\t' } else { b',' }
}

// The cells as numbers.
pub fn put_numbers<C: Cell>(out: &mut [u8], at: usize, cells: &[C]) -> usize
    ensures { Puts out.old at (numbers_text 0 (map C.value_of cells.now)) out.new result }
{
    let mut end = at.min(out.len());
    for (i, cell) in cells.iter().enumerate() {
        end = put_parted(out, end, part_before(i), cell.value());
    }
    end
}

// The digest of the cells from position `from` to before `to`.
pub fn put_digest<C: Cell>(out: &mut [u8], at: usize, cells: &[C], from: usize, to: usize) -> usize
    ensures { Puts out.old at (field (digest_by C.added_to 1 (part from to cells.now))) out.new result }
{
    put_parted(out, at, b'\t', digest_of(START, cells, from, to))
}

// The digest of the words lent, the code bytes lent, and one digest of all cells past those lent, of the words and then
// of the code, which goes on from `digest`.
pub fn put_left(
    out: &mut [u8],
    at: usize,
    digest: u64,
    words: &[u64],
    lent: usize,
    code: &[u8],
    bytes: usize,
) -> usize
    ensures { Puts out.old at (left_text digest words.now lent code.now bytes) out.new result }
{
    let a = put_digest(out, at, words, 0, lent);
    let b = put_shown(out, a, code, bytes);
    let past = digest_of(digest, words, lent, words.len());
    put_parted(out, b, b'\t', digest_of(past, code, bytes, code.len()))
}
