// The checks of an opening and of a put, in 02's order, and those that a withdrawal shares.
ghost use Rattle.std.specs.Prelude.{◌≤◌, length};
ghost use Rattle.syntax.specs.Letter.{letter_limit};
ghost use Rattle.desk.specs.Desks.{held, open_order, lent_order, page_order, put_order};
ghost use Rattle.desk.specs.Checking.{Checks, ChecksFirst};

use crate::limits::{good_page, limits_held};
use crate::{Desk, DeskRefusal};
use refusals::Refusal;
use syntax::{Pattern, first_bad, obeys_rules};

// The causes of an opening. A caller that holds a desk in another form tests these before its own.
pub fn check_open(p: Pattern, words: usize) -> Result<(), DeskRefusal>
    ensures { ChecksFirst (open_order p words) result }
{
    if !obeys_rules(p) {
        return Err(Refusal::Tree(0).into());
    }
    if words < 2 {
        return Err(Refusal::WordsTooShort(2).into());
    }
    Ok(())
}

// The causes that a put and a withdrawal test first: the table, and the cells lent for letters.
pub(crate) fn check_lent(p: Pattern, cells: usize) -> Result<(), DeskRefusal>
    ensures { ChecksFirst (lent_order p cells) result }
{
    if !obeys_rules(p) {
        return Err(Refusal::Tree(0).into());
    }
    if cells < Pattern::MAX_LETTERS {
        return Err(Refusal::TapeTooShort(Pattern::MAX_LETTERS as u32).into());
    }
    Ok(())
}

// The others of a put. The answer is how many letters are held before it.
fn check_page(desk: &Desk, page: &[u8], letters: &[u8], words: usize) -> Result<usize, DeskRefusal>
    requires { letter_limit ≤ length letters.now }
    ensures { Checks (page_order desk.now page.now letters.now words) (held desk.now) result }
{
    let n = page.len();
    if !good_page(n) {
        return Err(DeskRefusal::DeskLimits);
    }
    let held = limits_held(desk, letters).ok_or(DeskRefusal::DeskLimits)?;
    if Desk::MAX_PAGES <= usize::from(desk.count) {
        return Err(DeskRefusal::DeskFull);
    }
    let bad = first_bad(page);
    if bad < n {
        return Err(Refusal::TapeByte(bad as u32).into());
    }
    let needed = 2 * (held + n + 1);
    if words < needed {
        return Err(Refusal::WordsTooShort(needed as u32).into());
    }
    Ok(held)
}

pub(crate) fn check_put(
    desk: &Desk,
    p: Pattern,
    page: &[u8],
    letters: &[u8],
    words: usize,
) -> Result<usize, DeskRefusal>
    ensures { Checks (put_order desk.now p page.now letters.now words) (held desk.now) result }
{
    check_lent(p, letters.len())?;
    check_page(desk, page, letters, words)
}
