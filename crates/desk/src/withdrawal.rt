// The checks of a withdrawal, in 02's order.
ghost use Rattle.std.specs.Prelude.{◌≤◌, length};
ghost use Rattle.syntax.specs.Letter.{letter_limit};
ghost use Rattle.desk.specs.Desks.{held, held_order, withdraw_order};
ghost use Rattle.desk.specs.Checking.{Checks};

use crate::checks::check_lent;
use crate::limits::limits_held;
use crate::{Desk, DeskRefusal};
use syntax::Pattern;

// The causes behind those of what is lent. The answer is how many letters are held.
fn check_held(desk: &Desk, letters: &[u8]) -> Result<usize, DeskRefusal>
    requires { letter_limit ≤ length letters.now }
    ensures { Checks (held_order desk.now letters.now) (held desk.now) result }
{
    let held = limits_held(desk, letters).ok_or(DeskRefusal::DeskLimits)?;
    if desk.count == 0 {
        return Err(DeskRefusal::DeskEmpty);
    }
    Ok(held)
}

pub(crate) fn check_withdraw(desk: &Desk, p: Pattern, letters: &[u8]) -> Result<usize, DeskRefusal>
    ensures { Checks (withdraw_order desk.now p letters.now) (held desk.now) result }
{
    check_lent(p, letters.len())?;
    check_held(desk, letters)
}
