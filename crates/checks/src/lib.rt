// What every service that is handed a tape tests first: the table, the tape's length, its bytes.
#![tactic(auto)]

ghost use Rattle.checks.specs.TapeOrder.{ChecksTape};

use refusals::Refusal;
use syntax::{Pattern, first_bad, obeys_rules};

// Whether a service may read the tape: the first of these causes that holds, if one does.
#[tactic(auto, using(crate::specs::TapeLaws::check_3))]
pub fn check_tape(p: Pattern, tape: &[u8]) -> Result<(), Refusal>
    ensures { ChecksTape p tape.now result }
{
    if !obeys_rules(p) {
        return Err(Refusal::Tree(0));
    }
    let n = tape.len();
    if Pattern::MAX_LETTERS < n {
        return Err(Refusal::TapeTooLong);
    }
    let bad = first_bad(tape);
    if bad < n {
        return Err(Refusal::TapeByte(bad as u32));
    }
    Ok(())
}
