// Spelling, totalling and settling a code: what they answer and leave in the lent buffers, a line each, fields parted by
// tabs. Behind the pattern's text a case has the code's bytes in hexadecimal, the code's bit count, and how many tape
// cells, words and code bytes are lent, in decimal. The lent parts are the starts of larger arrays, whose cells are
// set before each call. Each `put_` function puts its bytes into `out` from `at` on and answers where they end. What does
// not fit is left out.
ghost use Rattle.totals.specs.Totals.{totals_outcome};
ghost use Rattle.text.specs.Text.{Puts};
ghost use Rattle.vector_codes.specs.Answers.{answer_text, Shown, PutsTotals, letters_text, settled_text};

use canonical::canonicalize;
use codes::flatten;
use refusals::Refusal;
use std::io;
use syntax::Pattern;
use text::{put_answer, put_pair, put_refusal};
use totals::{totalled_litres, totals};
use vector_text::{
    ALL_BYTES, ALL_WORDS, BYTE_BEFORE, MAX_CODE, START, WORD_BEFORE, decode_all, digest_of, field,
    number, print_line, put_digest, put_left, put_numbers, rest, say_bad,
};

// Cells of the array whose start is lent as a tape.
const ALL_LETTERS: usize = 3700;

// So many totals stand in a line at least, those of 01's accounts, so that a line of before 02's Job 7 is as it was.
const FIRST_TOTALS: usize = 10;

// How many totals a line has: the first ones always, and behind them up to the last that is not 0.
fn shown(litres: &[u32]) -> usize
    ensures { Shown litres.now result }
{
    for n in (FIRST_TOTALS..litres.len()).rev() {
        if litres[n] != 0 {
            return n + 1;
        }
    }
    FIRST_TOTALS.min(litres.len())
}

pub(crate) fn put_totals(out: &mut [u8], at: usize, litres: &[u32]) -> usize
    ensures { PutsTotals litres.now out.old at out.new result }
{
    let n = shown(litres);
    put_numbers(out, at, &litres[..n])
}

// The digests of the cells lent and of those past them.
fn put_letters(out: &mut [u8], at: usize, tape: &[u8], lent: usize) -> usize
    ensures { Puts out.old at (letters_text lent tape.now) out.new result }
{
    let end = put_digest(out, at, tape, 0, lent);
    put_digest(out, end, tape, lent, tape.len())
}

// How many tape cells, words and code bytes are lent.
#[derive(Clone, Copy)]
struct Lent {
    letters: usize,
    words: usize,
    bytes: usize,
}

// The digest of the tape's cells lent, and what is left in words and code. All cells past those lent have one digest, the
// tape's first.
fn put_settled(
    out: &mut [u8],
    at: usize,
    tape: &[u8],
    words: &[u64],
    code: &[u8],
    lent: Lent,
) -> usize
    ensures { Puts out.old at (settled_text lent tape.now words.now code.now) out.new result }
{
    let letters = lent.letters;
    let end = put_digest(out, at, tape, 0, letters);
    let past = digest_of(START, tape, letters, tape.len());
    put_left(out, end, past, words, lent.words, code, lent.bytes)
}

// Spells the code with the first cells of a tape lent, as many as are asked for and are there, and prints the line of it.
// This line and the next two take less than 1,024 bytes.
fn run_spelling(
    rt: &impl Print,
    p: Pattern,
    code: &[u8],
    count: u32,
    most: usize,
) -> io::Result<()> {
    let mut tape = [BYTE_BEFORE; ALL_LETTERS];
    let lent = most.min(ALL_LETTERS);
    let answer = flatten(p, code, count, &mut tape[..lent]);
    let mut out = [0u8; 1024];
    let a = put_answer(&mut out, 0, answer);
    let b = put_letters(&mut out, a, &tape, lent);
    print_line(rt, &mut out, b)
}

// Number and value, from the start of `out`: an accepted call has value 0.
fn put_outcome(out: &mut [u8], totalled: Result<[u32; Pattern::ACCOUNTS], Refusal>) -> usize
    ensures { Puts out.old 0 (answer_text (totals_outcome totalled)) out.new result }
{
    match totalled {
        Ok(_) => put_pair(out, 0, 0, 0),
        Err(why) => put_refusal(out, 0, why),
    }
}

// The line of totalling.
fn print_totals(
    rt: &impl Print,
    totalled: Result<[u32; Pattern::ACCOUNTS], Refusal>,
) -> io::Result<()> {
    let mut out = [0u8; 1024];
    let a = put_outcome(&mut out, totalled);
    let b = put_totals(&mut out, a, &totalled_litres(totalled));
    print_line(rt, &mut out, b)
}

// Settles the code with the first cells, words and bytes lent, of each as many as are asked for and are there, and prints
// the line of it.
fn run_settling(
    rt: &impl Print,
    p: Pattern,
    code: &[u8],
    count: u32,
    most: Lent,
) -> io::Result<()> {
    let mut tape = [BYTE_BEFORE; ALL_LETTERS];
    let mut words = [WORD_BEFORE; ALL_WORDS];
    let mut canonical = [BYTE_BEFORE; ALL_BYTES];
    let lent = Lent {
        letters: most.letters.min(ALL_LETTERS),
        words: most.words.min(ALL_WORDS),
        bytes: most.bytes.min(ALL_BYTES),
    };
    let answer = canonicalize(
        p,
        code,
        count,
        &mut tape[..lent.letters],
        &mut words[..lent.words],
        &mut canonical[..lent.bytes],
    );
    let mut out = [0u8; 1024];
    let a = put_answer(&mut out, 0, answer);
    let b = put_settled(&mut out, a, &tape, &words, &canonical, lent);
    print_line(rt, &mut out, b)
}

// Behind the bit count: how many tape cells, words and code bytes are lent.
fn run_sizes(rt: &impl Print, p: Pattern, code: &[u8], count: u32, line: &[u8]) -> io::Result<()> {
    let second = rest(line);
    let third = rest(second);
    if third.is_empty() {
        return say_bad(rt);
    }
    let most = Lent {
        letters: number(field(line)) as usize,
        words: number(field(second)) as usize,
        bytes: number(third) as usize,
    };
    run_spelling(rt, p, code, count, most.letters)?;
    print_totals(rt, totals(p, code, count))?;
    run_settling(rt, p, code, count, most)
}

pub fn run_code(rt: &impl Print, p: Pattern, line: &[u8]) -> io::Result<()> {
    let mut code = [0u8; MAX_CODE];
    let Some(size) = decode_all(field(line), &mut code) else {
        return say_bad(rt);
    };
    let second = rest(line);
    run_sizes(rt, p, &code[..size], number(field(second)), rest(second))
}
