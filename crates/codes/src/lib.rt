// Services on codes: spelling a code, and whether a code spells a tape. Each walks a code once, into cells of its own, and
// nothing of the caller's is written before the whole code is tested.
#![tactic(auto)]

ghost use Rattle.std.specs.Prelude.{◌≡◌, ◌≤◌, ◌<◌, length};
ghost use Rattle.syntax.specs.Letter.{letter_limit};
ghost use Rattle.table.specs.Cells.{Good, tree_in};
ghost use Rattle.codes.specs.Spells.{code_of_tape};
ghost use Rattle.codes.specs.Flatten.{Flattens};

use entries::enter;
use refusals::Refusal;
use syntax::{Pattern, obeys_rules};
use table::table_of;

// Whether a code of node l spells a tape: its letters are written and compared.
pub fn spells(table: &[u64; 64], l: usize, code: &[u8], count: u32, tape: &[u8]) -> bool
    requires good { Good table.now }
    requires l_bound { (l < 64) × (length tape.now ≤ letter_limit) }
    ensures { result ≡ code_of_tape (tree_in table.now l) tape.now code.now count }
{
    let mut own = [0; Pattern::MAX_LETTERS];
    let Some(letters) = enter(table, l, code, count, &mut own, &mut []) else {
        return false;
    };
    letters as usize == tape.len() && own.starts_with(tape)
}

// Spells a code, and answers how many letters: they come to stand in front of the tape, copied there once they are known to fit. It does not begin
// with `gather` of entries, whose tests it makes: as so short a function it was compiled into settling, which then held its array while it parsed,
// for 3,632 bytes of stack more.
pub fn flatten(p: Pattern, code: &[u8], count: u32, tape: &mut [u8]) -> Result<u32, Refusal>
    ensures { Flattens p code.now count tape.old tape.new result }
{
    if !obeys_rules(p) {
        return Err(Refusal::Tree(0));
    }
    let table = table_of(p);
    let root = p.count - 1;
    let mut own = [0; Pattern::MAX_LETTERS];
    let measured = enter(&table, root, code, count, &mut own, &mut []);
    let letters = measured.ok_or(Refusal::NotACode)?;
    let n = letters as usize;
    if Pattern::MAX_LETTERS < n {
        return Err(Refusal::TapeTooLong);
    }
    if tape.len() < n {
        return Err(Refusal::TapeTooShort(letters));
    }
    tape[..n].copy_from_slice(&own[..n]);
    Ok(letters)
}
