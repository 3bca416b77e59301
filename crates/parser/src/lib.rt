// Reading a tape: the tests, the state sets by the first sweep, and the bits of the preferred parse by the second.
// The sweeps are crates of their own, so that the edits of this service do not cost their proofs again.
#![tactic(auto)]

ghost use Rattle.std.specs.Prelude.{◌<◌};
ghost use Rattle.table.specs.Cells.{Good};
ghost use Rattle.checks.specs.TapeLaws.{IsTaken};
ghost use Rattle.parser.specs.Parse.{Parses};
ghost use Rattle.parser.specs.Writing.{Writable, Misses, WritesAll};

use bits::{bytes_for, is_open};
use checks::check_tape;
use first_sweep::fill;
use refusals::Refusal;
use second_sweep::sweep;
use syntax::Pattern;
use table::table_of;

// How many bytes the code of node l needs, where a buffer has fewer. Bits are counted only where the buffer might not hold them: with at most 64
// choices no code of n letters takes more than 17n + 8 bytes.
pub fn bytes_missing(
    table: &[u64; 64],
    words: &[u64],
    tape: &[u8],
    l: usize,
    size: usize,
) -> Option<usize>
    requires { Good table.now × (l < 64) × Writable table.now words.now tape.now l }
    ensures { Misses table.now words.now tape.now l size result }
{
    if 17 * tape.len() + 8 <= size {
        return None;
    }
    let counted = sweep(table, words, tape, l, 0, true, &mut [], 0);
    let needed = bytes_for(counted.at);
    (size < needed).then_some(needed)
}

// The code of a tape whose words are filled, and its bit count. A code buffer that is too short is found before a bit is written, so that it is left
// as it was.
pub fn write_code(
    table: &[u64; 64],
    words: &[u64],
    tape: &[u8],
    l: usize,
    code: &mut [u8],
) -> Result<u32, Refusal>
    requires { Good table.now × (l < 64) × Writable table.now words.now tape.now l }
    ensures { WritesAll table.now words.now tape.now l code.old code.new result }
{
    if let Some(needed) = bytes_missing(table, words, tape, l, code.len()) {
        return Err(Refusal::CodeTooShort(needed as u32));
    }
    let swept = sweep(table, words, tape, l, 0, true, code, 0);
    Ok(swept.at)
}

// Reads a tape that is taken.
fn read(p: Pattern, tape: &[u8], words: &mut [u64], code: &mut [u8]) -> Result<u32, Refusal>
    requires { IsTaken p tape.now }
    ensures { Parses p tape.now words.old words.new code.old code.new result }
{
    let needed = 2 * (tape.len() + 1);
    if words.len() < needed {
        return Err(Refusal::WordsTooShort(needed as u32));
    }
    let table = table_of(p);
    fill(p, &table, tape, words);
    let root = p.count - 1;
    if !is_open(words, 0, true, root) {
        return Err(Refusal::Unreadable);
    }
    write_code(&table, words, tape, root, code)
}

// Reads a tape: the bit count of its code, which is written in front of `code`, or the first cause in the service's order. `words` is worked in.
pub fn parse(p: Pattern, tape: &[u8], words: &mut [u64], code: &mut [u8]) -> Result<u32, Refusal>
    ensures { Parses p tape.now words.old words.new code.old code.new result }
{
    check_tape(p, tape)?;
    read(p, tape, words, code)
}
