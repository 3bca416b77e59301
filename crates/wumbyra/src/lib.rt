// The services for callers from C, each on a pattern's text. An answer is one number: the cause's number (0: none) in its
// upper 32 bits, the value beside it in the lower 32. A slice is passed as a pointer and a length. include/wumbyra.h declares the calls.
// Contracts unpack an answer, as a caller does: quotient and remainder need no condition. Load, flatten, span, totals and opening a desk are
// equations; parse, canonicalize, locate, and putting and withdrawing a page hand on the promise of their service, so that nothing is said twice.
#![tactic(auto)]

ghost use Rattle.std.specs.Prelude.{◌≡◌};
ghost use Rattle.loading.specs.Load.{load_answer};
ghost use Rattle.packing.specs.Packing.{unpacked};
ghost use Rattle.wumbyra.specs.Packed.{version_number, ParsesText, FlattensText, CanonicalizesText, LocatesText};
ghost use Rattle.wumbyra.specs.Packed.{span_text, total_text, TotalsText, TermTotalsText};
ghost use Rattle.wumbyra.specs.Packed.{DeskOpensText, DeskPutsText, DeskWithdrawsText};

use calendar::date_of;
use canonical::canonicalize;
use codes::flatten;
use desk::{open, put, withdraw};
use loading::{load, pattern_of};
use packing::{
    DESK_BYTES, desk_of, give_litres, halves, litres_of, of_answer, of_cause, of_located,
    of_other_length, packed, put_desk,
};
use parser::parse;
use reach::locate;
use refusals::Cause;
use spans::span;
use terms::{Term, term_totals};
use totals::totals;

// The version of the interface. A change that a caller may notice raises one of these numbers, and the header's with it.
const VERSION_MAJOR: u32 = 1;

const VERSION_MINOR: u32 = 7;

const VERSION_PATCH: u32 = 0;

const VERSION_NUMBER: u32 = VERSION_MAJOR * 10000 + VERSION_MINOR * 100 + VERSION_PATCH;

#[unsafe(no_mangle)]
pub extern "C" fn wumbyra_version() -> u32
    ensures { result ≡ version_number }
{
    VERSION_NUMBER
}

#[unsafe(no_mangle)]
pub extern "C" fn wumbyra_load(text: &[u8]) -> u64
    ensures { unpacked result ≡ load_answer text.now }
{
    match load(text) {
        Ok(pattern) => packed(0, pattern.count as u32),
        Err(why) => of_cause(&why),
    }
}

#[unsafe(no_mangle)]
pub extern "C" fn wumbyra_parse(text: &[u8], tape: &[u8], words: &mut [u64], code: &mut [u8]) -> u64
    ensures { ParsesText text.now tape.now words.old words.new
        code.old code.new result }
{
    of_answer(parse(pattern_of(text), tape, words, code))
}

#[unsafe(no_mangle)]
pub extern "C" fn wumbyra_flatten(text: &[u8], code: &[u8], count: u32, tape: &mut [u8]) -> u64
    ensures { FlattensText text.now code.now count tape.old tape.new result }
{
    of_answer(flatten(pattern_of(text), code, count, tape))
}

#[unsafe(no_mangle)]
pub extern "C" fn wumbyra_canonicalize(
    text: &[u8],
    code: &[u8],
    count: u32,
    tape: &mut [u8],
    words: &mut [u64],
    canonical: &mut [u8],
) -> u64
    ensures { CanonicalizesText text.now code.now count tape.old tape.new
        words.old words.new canonical.old canonical.new result }
{
    let settled = canonicalize(pattern_of(text), code, count, tape, words, canonical);
    of_answer(settled)
}

// The value of a piece that is shown: its start in the upper 16 bits, its length in the lower 16.
#[unsafe(no_mangle)]
pub extern "C" fn wumbyra_span(
    text: &[u8],
    tape: &[u8],
    code: &[u8],
    count: u32,
    node: u32,
    visit: u32,
) -> u64
    ensures { unpacked result ≡ span_text text.now tape.now code.now count node visit }
{
    match span(pattern_of(text), tape, code, count, node, visit) {
        Ok(shown) => packed(0, halves(shown.start, shown.length)),
        Err(why) => of_cause(&why),
    }
}

// Where a tape breaks: the reach in the upper 16 bits of the value, the position at which the tape resumes in the lower 16.
#[unsafe(no_mangle)]
pub extern "C" fn wumbyra_locate(text: &[u8], tape: &[u8]) -> u64
    ensures { LocatesText text.now tape.now result }
{
    of_located(locate(pattern_of(text), tape))
}

// The litres of one account. The value beside a cause's number is 0 here, as the totals are that are refused.
#[unsafe(no_mangle)]
pub extern "C" fn wumbyra_total(text: &[u8], code: &[u8], count: u32, account: u32) -> u64
    ensures { unpacked result ≡ total_text text.now code.now count account }
{
    match totals(pattern_of(text), code, count) {
        Ok(litres) => packed(0, litres_of(&litres, account)),
        Err(why) => packed(why.number(), 0),
    }
}

#[unsafe(no_mangle)]
pub extern "C" fn wumbyra_totals(text: &[u8], code: &[u8], count: u32, litres: &mut [u32]) -> u64
    ensures { TotalsText text.now code.now count litres.old litres.new result }
{
    give_litres(&totals(pattern_of(text), code, count), litres)
}

// Dates are numbers: year × 10000 + month × 100 + day.
#[unsafe(no_mangle)]
pub extern "C" fn wumbyra_term_totals(
    text: &[u8],
    code: &[u8],
    count: u32,
    start: u32,
    first: u32,
    last: u32,
    litres: &mut [u32],
) -> u64
    ensures { TermTotalsText text.now code.now count start first last
        litres.old litres.new result }
{
    let term = Term {
        first: date_of(first),
        last: date_of(last),
    };
    let totals = term_totals(pattern_of(text), code, count, date_of(start), term);
    give_litres(&totals, litres)
}

// A page desk is 31 bytes: the count, and behind it the 30 lengths. One of another length is 13, at opening after 6.
#[unsafe(no_mangle)]
pub extern "C" fn wumbyra_desk_open(text: &[u8], desk: &mut [u8], words: &mut [u64]) -> u64
    ensures { DeskOpensText text.now desk.old desk.new words.old words.new result }
{
    let pattern = pattern_of(text);
    if desk.len() != DESK_BYTES {
        return of_other_length(pattern, words.len());
    }
    let mut held = desk_of(desk);
    let answer = open(&mut held, pattern, words);
    put_desk(held, desk);
    of_answer(answer)
}

#[unsafe(no_mangle)]
pub extern "C" fn wumbyra_desk_put(
    text: &[u8],
    desk: &mut [u8],
    page: &[u8],
    letters: &mut [u8],
    words: &mut [u64],
) -> u64
    ensures { DeskPutsText text.now desk.old desk.new page.now
        letters.old letters.new words.old words.new result }
{
    let mut held = desk_of(desk);
    let answer = put(&mut held, pattern_of(text), page, letters, words);
    put_desk(held, desk);
    of_answer(answer)
}

#[unsafe(no_mangle)]
pub extern "C" fn wumbyra_desk_withdraw(text: &[u8], desk: &mut [u8], letters: &[u8]) -> u64
    ensures { DeskWithdrawsText text.now desk.old desk.new letters.now result }
{
    let mut held = desk_of(desk);
    let answer = withdraw(&mut held, pattern_of(text), letters);
    put_desk(held, desk);
    of_answer(answer)
}
