// For tests alone: the cases of the page desk. A case is a run of calls, each on the desk, letters and words that the step before it left. Behind
// the pattern's text stand the steps, each a letter and its fields; pages, lengths, bytes and texts are in hexadecimal, the others in decimal:
//   o words                     opens the desk, with so many words lent
//   p page cells words          puts a page, with so many cells and words lent
//   w cells                     withdraws a page, with so many cells lent
//   h count lengths bytes at    is no call: writes a desk, and bytes into the letters from a cell on
//   t text                      is no call: the pattern's text for the calls behind it
// Each call prints a line. The calls are crate desk's own `open`, `put` and `withdraw`, on a desk that is lent, the form that 01 names. Those from C,
// and what they make of texts and of the desk's bytes, are run from C: tests/differential, tests/guard and the tests of the bindings.
// Totals in lent cells have a module of their own, since only these calls have cells that can be too few.
#![tactic(auto)]

mod calls; // calls.rt: the steps
mod litres; // litres.rt: totals in lent cells
mod shown; // shown.rt: the line of a call

use calls::{Next, run_step};
pub use litres::run_litres;
use packing::DESK_BYTES;
use std::io;
use vector_text::{ALL_WORDS, BYTE_BEFORE, MAX_TEXT, WORD_BEFORE, decode};

// Cells of the array whose start is lent for letters.
const ALL_LETTERS: usize = 3700;

// Runs the steps of a line. Each takes at least a byte, so there are no more steps than bytes.
fn run_steps(
    rt: &impl Print,
    text: &mut [u8],
    size: usize,
    line: &[u8],
    desk: &mut [u8; DESK_BYTES],
    letters: &mut [u8],
    words: &mut [u64],
) -> io::Result<()> {
    let end = line.len();
    let mut next = Next { left: end, size };
    for _ in 0..end {
        let at = end - next.left.min(end);
        if at == end {
            return Ok(());
        }
        next = run_step(rt, text, next.size, &line[at..], desk, letters, words)?;
    }
    Ok(())
}

// `digits` are the pattern's text of the first call; `line` is what stands behind it.
pub fn run_desk(rt: &impl Print, digits: &[u8], line: &[u8]) -> io::Result<()> {
    let mut text = [0u8; MAX_TEXT];
    let size = decode(digits, &mut text);
    let mut desk = [BYTE_BEFORE; DESK_BYTES];
    let mut letters = [BYTE_BEFORE; ALL_LETTERS];
    let mut words = [WORD_BEFORE; ALL_WORDS];
    run_steps(
        rt,
        &mut text,
        size,
        line,
        &mut desk,
        &mut letters,
        &mut words,
    )
}
