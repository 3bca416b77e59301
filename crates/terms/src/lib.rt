// Litres by account within a billing term: the days from a first date to a last one, both included.
// The code's entries are gathered as for totals. A letter's date is the start, stepped once for each `D` before it. No date falls along the tape,
// and a step of what is no date leaves it as it is, so all letters have a date if the last one has.
#![tactic(auto)]

ghost use Rattle.std.specs.Prelude.{◌≡◌, ◌≤◌, length};
ghost use Rattle.syntax.specs.Letter.{letter_limit};
ghost use Rattle.entries.specs.Gather.{pairs, Owned};
ghost use Rattle.terms.specs.declared.TermRefusal.TheVariants.{Base};
ghost use Rattle.terms.specs.Terms.{term_number, term_value, term_litres, DatesTotals, TermTotals};

mod days; // days.rt: the dates of letters, and which of them lie in a term
mod selection; // selection.rt: selecting the entries of a term

use calendar::{Date, is_date};
use days::{is_term, last_date};
use entries::gather;
use refusals::{Cause, Refusal};
use selection::select_term;
use syntax::Pattern;
use totals::add_up;

// A billing term: its first and its last day, both included. Any two dates, of which `is_term` says whether they are those of a term.
#[derive(Clone, Copy)]
pub struct Term {
    pub first: Date,
    pub last: Date,
}

// Why totalling within a term refuses: as totalling does, or for its dates.
#[derive(Clone, Copy, Debug, PartialEq, Eq)]
pub enum TermRefusal {
    Base(Refusal),
    TapeUndated,
    NotATerm,
}

impl From<Refusal> for TermRefusal {
    ghost from_gives = { λ base why. why ≡ Base base };

    fn from(base: Refusal) -> TermRefusal {
        TermRefusal::Base(base)
    }
}

// 02 gives 11 and 12, with the value 0, and 01's table the others.
impl Cause for TermRefusal {
    ghost number_of = { term_number };

    ghost value_of = { term_value };

    fn number(&self) -> u32 {
        match *self {
            TermRefusal::Base(base) => base.number(),
            TermRefusal::TapeUndated => 11,
            TermRefusal::NotATerm => 12,
        }
    }

    fn value(&self) -> u32 {
        match *self {
            TermRefusal::Base(base) => base.value(),
            TermRefusal::TapeUndated | TermRefusal::NotATerm => 0,
        }
    }
}

// The totals of the first n entries within a term, once their dates and the term's are tested.
fn total_dates(
    letters: &mut [u8],
    accounts: &mut [u8],
    n: usize,
    start: Date,
    term: Term,
) -> Result<[u32; Pattern::ACCOUNTS], TermRefusal>
    requires { (n ≤ length letters.old) × (n ≤ letter_limit) × Owned accounts.old n }
    ensures { DatesTotals start term (pairs n letters.old accounts.old) result }
{
    if !is_date(last_date(letters, n, start)) {
        return Err(TermRefusal::TapeUndated);
    }
    if !is_term(term) {
        return Err(TermRefusal::NotATerm);
    }
    let kept = select_term(letters, accounts, n, start, term);
    Ok(add_up(letters, accounts, kept))
}

// Litres by account within a term, of a tape whose first letter has the date `start`.
pub fn term_totals(
    p: Pattern,
    code: &[u8],
    count: u32,
    start: Date,
    term: Term,
) -> Result<[u32; Pattern::ACCOUNTS], TermRefusal>
    ensures { TermTotals p code.now count start term result }
{
    let mut letters = [0; Pattern::MAX_LETTERS];
    let mut accounts = [0; Pattern::MAX_LETTERS];
    let n = gather(p, code, count, &mut letters, &mut accounts)?;
    total_dates(&mut letters, &mut accounts, n, start, term)
}

// The litres of all accounts within a term, 0 of each where totalling is refused.
pub fn term_litres(
    totalled: Result<[u32; Pattern::ACCOUNTS], TermRefusal>,
) -> [u32; Pattern::ACCOUNTS]
    ensures { result ≡ term_litres totalled }
{
    totalled.unwrap_or([0; Pattern::ACCOUNTS])
}
