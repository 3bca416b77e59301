// Showing a visit's piece: what the services answer, one line a case, fields parted by tabs. Behind the pattern's text a
// case has the tape and the code's bytes, both in hexadecimal, and the code's bit count, the node and the visit, in
// decimal.
ghost use Rattle.std.specs.Prelude.{◌≡◌};
ghost use Rattle.spans.specs.Spans.{span_outcome, span_given};
ghost use Rattle.text.specs.Text.{Puts};
ghost use Rattle.vector_codes.specs.Answers.{answer_text, piece_text};

use refusals::Refusal;
use spans::{Span, piece, span};
use std::io;
use syntax::Pattern;
use text::{put_pair, put_parted, put_refusal};
use vector_text::{
    MAX_CODE, MAX_TAPE, decode_all, field, number, print_line, put_shown, rest, say_bad,
};

// Number and value, from the start of `out`: an accepted call has value 0.
fn put_outcome(out: &mut [u8], spanned: Result<Span, Refusal>) -> usize
    ensures { Puts out.old 0 (answer_text (span_outcome spanned)) out.new result }
{
    match spanned {
        Ok(_) => put_pair(out, 0, 0, 0),
        Err(why) => put_refusal(out, 0, why),
    }
}

// Where the piece starts and how long it is: 0 and 0 where the call is refused.
fn shown_of(spanned: Result<Span, Refusal>) -> Span
    ensures { result ≡ span_given spanned }
{
    spanned.unwrap_or(Span {
        start: 0,
        length: 0,
    })
}

// Where the piece starts and how long it is, and the piece with its own length.
fn put_piece(out: &mut [u8], at: usize, start: u32, length: u32, piece: &[u8]) -> usize
    ensures { Puts out.old at (piece_text start length piece.now) out.new result }
{
    let a = put_parted(out, at, b'\t', u64::from(start));
    let b = put_parted(out, a, b'\t', u64::from(length));
    let c = put_parted(out, b, b'\t', piece.len() as u64);
    put_shown(out, c, piece, piece.len())
}

// Prints the line of a case, which takes less than 1,024 bytes: number, value, start, length, and the piece with its own
// length.
fn print_spanned(rt: &impl Print, spanned: Result<Span, Refusal>, piece: &[u8]) -> io::Result<()> {
    let mut out = [0u8; 1024];
    let a = put_outcome(&mut out, spanned);
    let shown = shown_of(spanned);
    let b = put_piece(&mut out, a, shown.start, shown.length, piece);
    print_line(rt, &mut out, b)
}

// Behind the bit count: node and visit. Each service is called for itself.
fn run_numbers(
    rt: &impl Print,
    p: Pattern,
    tape: &[u8],
    code: &[u8],
    line: &[u8],
) -> io::Result<()> {
    let second = rest(line);
    let third = rest(second);
    if third.is_empty() {
        return say_bad(rt);
    }
    let count = number(field(line));
    let node = number(field(second));
    let visit = number(third);
    let spanned = span(p, tape, code, count, node, visit);
    let part = piece(p, tape, code, count, node, visit);
    print_spanned(rt, spanned, part)
}

fn run_tape(rt: &impl Print, p: Pattern, tape: &[u8], line: &[u8]) -> io::Result<()> {
    let mut code = [0u8; MAX_CODE];
    let Some(size) = decode_all(field(line), &mut code) else {
        return say_bad(rt);
    };
    run_numbers(rt, p, tape, &code[..size], rest(line))
}

pub fn run_span(rt: &impl Print, p: Pattern, line: &[u8]) -> io::Result<()> {
    let mut tape = [0u8; MAX_TAPE];
    let Some(size) = decode_all(field(line), &mut tape) else {
        return say_bad(rt);
    };
    run_tape(rt, p, &tape[..size], rest(line))
}
