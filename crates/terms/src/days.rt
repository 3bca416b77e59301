// The dates of letters, and which dates lie in a term.
ghost use Rattle.std.specs.Prelude.{◌≡◌, ◌-◌, ◌≤◌, length, take};
ghost use Rattle.terms.specs.Terms.{after_letter, in_term, is_term};
ghost use Rattle.terms.specs.Days.{date_behind, day_of};

use crate::Term;
use calendar::{Date, is_date, next_date};

// The letter that ends a day.
pub(crate) const DAY_END: u8 = b'D';

// The date behind a letter. The letter that ends a day still belongs to that day.
#[tactic(auto, unfolding(crate::specs::Terms::after_letter))]
fn after_letter(c: u8, date: Date) -> Date
    ensures { result ≡ after_letter c date }
{
    if c == DAY_END { next_date(date) } else { date }
}

// The date of the last of the first n letters, the start where there are none.
pub(crate) fn last_date(letters: &[u8], n: usize, start: Date) -> Date
    requires { n ≤ length letters.now }
    ensures { result ≡ date_behind start (take (n - 1) letters.now) }
{
    let mut date = start;
    for &c in &letters[..n.saturating_sub(1)] {
        date = after_letter(c, date);
    }
    date
}

// Whether a date lies in a term, first and last date included.
#[tactic(auto, unfolding(crate::specs::Terms::in_term, calendar::specs::Dates::is_after))]
fn in_term(term: Term, date: Date) -> bool
    ensures { result ≡ in_term term date }
{
    (term.first..=term.last).contains(&date)
}

// Whether there is such a term: two dates, the last one not before the first.
#[tactic(auto, unfolding(crate::specs::Terms::is_term, calendar::specs::Dates::is_after))]
pub(crate) fn is_term(term: Term) -> bool
    ensures { result ≡ is_term term }
{
    is_date(term.first) && is_date(term.last) && term.first <= term.last
}

// A date, and whether it lies in the term: asked once a day, not once a letter.
#[derive(Clone, Copy)]
pub(crate) struct Day {
    pub date: Date,
    pub inside: bool,
}

pub(crate) fn day_of(term: Term, date: Date) -> Day
    ensures { result ≡ day_of term date }
{
    let inside = in_term(term, date);
    Day { date, inside }
}
