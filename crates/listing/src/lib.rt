// The listing of a tape, out of a pattern's text and a tape's bytes: every byte that the program `tapelist` prints.
#![tactic(auto)]

ghost use Rattle.std.specs.Prelude.{◌≡◌, length};
ghost use Rattle.bits.specs.Bits.{byte_limit};
ghost use Rattle.listing.specs.Listing.{listing, pattern_listing, listing_of, tape_of, word_limit, Lists};
ghost use Rattle.listing.specs.ListingLaws.{Read, Shows};
ghost use Rattle.semantics.specs.Sweeps.{greedy};
ghost use Rattle.syntax.specs.Trees.{root};

use bits::bytes_for;
use listing_lines::{put_accounts, put_open, put_tape};
use loading::load;
use parser::parse;
use syntax::Pattern;
use text::put_cause;
use totals::totals;

// Bytes that hold every listing: at most 131,100 for the first line, 30 for each of 201 accounts, 27 for each of 3,601 positions.
pub const MAX_LISTING: usize = 262144;

// Mark words for the longest tape: two for each position, and one position more than letters.
const MAX_WORDS: usize = 2 * (Pattern::MAX_LETTERS + 1);

// The lines of a tape that has been read. Its code is not refused.
fn list_read(
    p: Pattern,
    tape: &[u8],
    words: &[u64],
    code: &[u8],
    count: u32,
    out: &mut [u8],
) -> usize
    requires { Read p tape.now words.now code.now count }
    ensures { Shows out.old (listing p tape.now (greedy (root p) tape.now)) out.new result }
{
    let litres = totals(p, code, count).unwrap();
    let n = tape.len();
    let first = put_tape(out, 0, n as u64, u64::from(count), code);
    let second = put_accounts(out, first, &litres);
    put_open(out, second, words, n)
}

// Reads the tape in work buffers that always suffice.
fn list_with(p: Pattern, tape: &[u8], words: &mut [u64], code: &mut [u8], out: &mut [u8]) -> usize
    requires { (length words.old ≡ word_limit) × (length code.old ≡ byte_limit) }
    ensures { Shows out.old (pattern_listing p tape.now) out.new result }
{
    match parse(p, tape, words, code) {
        Ok(count) => {
            let n = bytes_for(count);
            list_read(p, tape, words, &code[..n], count, out)
        }
        Err(why) => put_cause(out, 0, why),
    }
}

// Words and code bytes for the longest tape suffice for every tape.
fn list_tape(p: Pattern, tape: &[u8], out: &mut [u8]) -> usize
    ensures { Shows out.old (pattern_listing p tape.now) out.new result }
{
    let mut words = [0u64; MAX_WORDS];
    let mut code = [0u8; Pattern::MAX_CODE_BYTES];
    list_with(p, tape, &mut words, &mut code, out)
}

// The letters of a tape file: its bytes before one closing byte 10.
pub fn letters_of(tape: &[u8]) -> &[u8]
    ensures { result.now ≡ tape_of tape.now }
{
    tape.strip_suffix(b"\n").unwrap_or(tape)
}

// The pattern is judged first.
fn list_text(text: &[u8], tape: &[u8], out: &mut [u8]) -> usize
    ensures { Shows out.old (listing_of text.now tape.now) out.new result }
{
    match load(text) {
        Ok(p) => list_tape(p, letters_of(tape), out),
        Err(why) => put_cause(out, 0, why),
    }
}

// The listing of a pattern's text and a tape file's bytes, put in front of `out`, refusals too: how many bytes it has. None
// where `out` is shorter than MAX_LISTING.
pub fn list(text: &[u8], tape: &[u8], out: &mut [u8]) -> Option<usize>
    ensures { Lists text.now tape.now out.old out.new result }
{
    if out.len() < MAX_LISTING {
        return None;
    }
    Some(list_text(text, tape, out))
}
