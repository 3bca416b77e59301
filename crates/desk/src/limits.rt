// What a desk holds: its letters, and whether it keeps the limits.
ghost use Rattle.std.specs.Prelude.{◌≡◌, ◌≤◌, length};
ghost use Rattle.syntax.specs.Letter.{letter_limit};
ghost use Rattle.desk.specs.Desks.{page_limit, good_page};
ghost use Rattle.desk.specs.Limits.{pages_limits, desk_limits, held_limits};

use crate::Desk;
use syntax::{Pattern, first_bad};

// Whether a page may have so many letters.
pub(crate) fn good_page(n: usize) -> bool
    ensures { result ≡ good_page n }
{
    (1..=Desk::MAX_PAGE_LETTERS).contains(&n)
}

// How many letters pages of these lengths have, or nothing if one of the lengths is wrong.
fn sum_pages(pages: &[u8]) -> Option<usize>
    requires { length pages.now ≤ page_limit }
    ensures { result ≡ pages_limits pages.now }
{
    let mut held = 0;
    for n in pages {
        let n = usize::from(*n);
        if !good_page(n) {
            return None;
        }
        held += n;
    }
    Some(held)
}

// How many letters a desk holds, or nothing if it breaks the limits. Lengths at or past the count are not looked at.
fn limits_of(desk: &Desk) -> Option<usize>
    ensures { result ≡ desk_limits desk.now }
{
    sum_pages(desk.lengths.get(..usize::from(desk.count))?)
}

// The same, where the cells that a desk holds are looked at too: a byte there that is no letter breaks the limits.
pub(crate) fn limits_held(desk: &Desk, letters: &[u8]) -> Option<usize>
    requires { letter_limit ≤ length letters.now }
    ensures { result ≡ held_limits desk.now letters.now }
{
    let held = limits_of(desk)?;
    let from = Pattern::MAX_LETTERS - held;
    let bad = first_bad(&letters[from..Pattern::MAX_LETTERS]);
    (held <= bad).then_some(held)
}
