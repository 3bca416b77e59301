// Totals within a billing term: what the service answers, one line a case, in the form of the line of totalling. Behind the
// pattern's text a case has the code's bytes in hexadecimal, and in decimal the code's bit count and nine numbers: year,
// month and day of the tape's start, of the term's first date and of its last.
ghost use Rattle.std.specs.Prelude.{◌≡◌};
ghost use Rattle.terms.specs.Terms.{term_outcome};
ghost use Rattle.text.specs.Text.{Puts};
ghost use Rattle.vector_codes.specs.Answers.{answer_text, date_read, behind_date};

use crate::code_cases::put_totals;
use calendar::Date;
use std::io;
use syntax::Pattern;
use terms::{Term, TermRefusal, term_litres, term_totals};
use text::{put_pair, put_refusal};
use vector_text::{MAX_CODE, decode_all, field, number, print_line, rest, say_bad};

// Number and value, from the start of `out`: an accepted call has value 0.
fn put_outcome(out: &mut [u8], totalled: Result<[u32; Pattern::ACCOUNTS], TermRefusal>) -> usize
    ensures { Puts out.old 0 (answer_text (term_outcome totalled)) out.new result }
{
    match totalled {
        Ok(_) => put_pair(out, 0, 0, 0),
        Err(why) => put_refusal(out, 0, why),
    }
}

// Prints the line of a case, which takes less than 1,024 bytes: number, value, and the totals that are shown.
fn print_totalled(
    rt: &impl Print,
    totalled: Result<[u32; Pattern::ACCOUNTS], TermRefusal>,
) -> io::Result<()> {
    let mut out = [0u8; 1024];
    let a = put_outcome(&mut out, totalled);
    let b = put_totals(&mut out, a, &term_litres(totalled));
    print_line(rt, &mut out, b)
}

// The date that the first three fields write.
fn date_at(line: &[u8]) -> Date
    ensures { result ≡ date_read line.now }
{
    let second = rest(line);
    let third = rest(second);
    Date {
        year: number(field(line)),
        month: number(field(second)),
        day: number(field(third)),
    }
}

// What stands behind them.
fn after_date(line: &[u8]) -> &[u8]
    ensures { result.now ≡ behind_date line.now }
{
    rest(rest(rest(line)))
}

// Behind the bit count: the start, the first date and the last.
fn run_dates(rt: &impl Print, p: Pattern, code: &[u8], count: u32, line: &[u8]) -> io::Result<()> {
    let first = after_date(line);
    let last = after_date(first);
    if rest(rest(last)).is_empty() {
        return say_bad(rt);
    }
    let term = Term {
        first: date_at(first),
        last: date_at(last),
    };
    print_totalled(rt, term_totals(p, code, count, date_at(line), term))
}

pub fn run_term(rt: &impl Print, p: Pattern, line: &[u8]) -> io::Result<()> {
    let mut code = [0u8; MAX_CODE];
    let Some(size) = decode_all(field(line), &mut code) else {
        return say_bad(rt);
    };
    let second = rest(line);
    run_dates(rt, p, &code[..size], number(field(second)), rest(second))
}
