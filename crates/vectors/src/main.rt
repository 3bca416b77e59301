// For tests alone: runs each case of standard input, one a line, and prints what the services answer and leave in the lent
// buffers. The first field of a line is one letter, the case's kind: `l` loads a text, `p` reads a tape, `c` spells, totals
// and settles a code, `s` shows a visit's piece, `t` totals within a billing term, `b` tells where a tape breaks, `a` does one of
// these on a table with another account, `d` runs calls of a page desk, `f` totals by the calls from C. The pattern's text in
// hexadecimal comes next; the fields behind it stand in the kind's module, here or in crates vector_codes and vector_desk. Fields
// are parted by spaces. Byte 10 ends each line of the input; what stands after the last one is left out.
// Asked for more cells than its arrays have, the program lends all of them; no such case is stored.
#![tactic(auto)]

mod load_cases; // load_cases.rt: loading a text
mod locate_cases; // locate_cases.rt: where a tape breaks
mod parse_cases; // parse_cases.rt: reading a tape
mod table_cases; // table_cases.rt: tables that no text gives

use load_cases::print_loaded;
use loading::{load, pattern_of};
use locate_cases::run_locate;
use parse_cases::run_parse;
use std::io;
use std::io::Read;
use syntax::Pattern;
use table_cases::with_account;
use vector_codes::{run_code, run_span, run_term};
use vector_desk::{run_desk, run_litres};
use vector_text::{Input, MAX_TEXT, Step, advance, decode_all, field, number, rest, say_bad};

// Bytes held of a line.
const MAX_LINE: usize = 20480;

// `line` is what stands behind the pattern's text.
fn run_service(rt: &impl Print, kind: u8, p: Pattern, line: &[u8]) -> io::Result<()> {
    // Kept: the kind is a letter of the input, and a match says plainly what it runs.
    match kind {
        b'p' => run_parse(rt, p, line),
        b'c' => run_code(rt, p, line),
        b's' => run_span(rt, p, line),
        b't' => run_term(rt, p, line),
        b'b' => run_locate(rt, p, line),
        _ => say_bad(rt),
    }
}

// Behind the pattern's text: a line of the table and its account, in decimal, then a case's kind and what it has behind its text.
fn run_altered(rt: &impl Print, p: Pattern, line: &[u8]) -> io::Result<()> {
    let behind = rest(line);
    let service = rest(behind);
    let (Some(&kind), Ok(account)) = (service.first(), u8::try_from(number(field(behind)))) else {
        return say_bad(rt);
    };
    let table = with_account(p, number(field(line)) as usize, account);
    run_service(rt, kind, table, rest(service))
}

// A text that does not load has a table of no lines, which every service refuses.
fn run_kind(rt: &impl Print, kind: u8, text: &[u8], line: &[u8]) -> io::Result<()> {
    match kind {
        b'l' => print_loaded(rt, load(text)),
        b'a' => run_altered(rt, pattern_of(text), line),
        _ => run_service(rt, kind, pattern_of(text), line),
    }
}

fn run_case(rt: &impl Print, line: &[u8]) -> io::Result<()> {
    let Some(&kind) = line.first() else {
        return say_bad(rt);
    };
    let fields = rest(line);
    let digits = field(fields);
    let mut text = [0u8; MAX_TEXT];
    let Some(size) = decode_all(digits, &mut text) else {
        return say_bad(rt);
    };
    match kind {
        b'd' => run_desk(rt, digits, rest(fields)),
        b'f' => run_litres(rt, &text[..size], rest(fields)),
        _ => run_kind(rt, kind, &text[..size], rest(fields)),
    }
}

// Runs a line that is complete. A size above that of `line` is that of one that did not fit.
fn run_line(rt: &impl Print, line: &[u8], size: usize) -> io::Result<()> {
    match line.get(..size) {
        Some(case) => run_case(rt, case),
        None => say_bad(rt),
    }
}

// Nothing says that the input ends, so the loop has a number of turns that no run uses up.
fn run_all(
    rt: &impl Print,
    reader: &mut impl Read,
    line: &mut [u8],
    chunk: &mut [u8],
) -> io::Result<()> {
    let mut input = Input::new();
    for _ in 0..u64::MAX {
        input = advance(reader, line, chunk, input);
        match input.step {
            Step::Within => {}
            Step::Complete => run_line(rt, line, input.size)?,
            Step::Ended => break,
        }
    }
    Ok(())
}

// A write that fails ends the run.
fn main(rt: HostRuntime) -> io::Result<()> {
    let mut line = [0u8; MAX_LINE];
    let mut chunk = [0u8; 4096];
    run_all(&rt, &mut rt.stdin(), &mut line, &mut chunk)
}
