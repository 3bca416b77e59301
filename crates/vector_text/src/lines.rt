// The lines of the input, which comes in chunks. Byte 10 ends a line.
ghost use Rattle.std.specs.Prelude.{◌≡◌, ◌<◌, ◌≤◌};
ghost use Rattle.vector_text.specs.Cases.{before_input, kept_size, Holds, Refills};

use crate::parts::{before, part};
use std::io::Read;
use text::put_bytes;

// What a step on in the input came to.
#[derive(Clone, Copy, PartialEq, Eq)]
pub enum Step {
    // The line goes on.
    Within,
    // The line is complete, and is to be used before the next step.
    Complete,
    // The input has ended.
    Ended,
}

// The bytes of the chunk from `from` to before `to` are still to be held. `size` counts those of the line so far, up to
// one above the length of the buffer that holds them: then the line does not fit.
#[derive(Clone, Copy)]
pub struct Input {
    pub from: usize,
    pub to: usize,
    pub size: usize,
    pub step: Step,
}

impl Input {
    // Nothing is read yet.
    pub fn new() -> Input
        ensures { result ≡ before_input }
    {
        Input {
            from: 0,
            to: 0,
            size: 0,
            step: Step::Within,
        }
    }

    // A line that was complete is no longer held.
    fn kept(&self) -> usize
        ensures { result ≡ kept_size self.now }
    {
        match self.step {
            Step::Complete => 0,
            Step::Within | Step::Ended => self.size,
        }
    }
}

// Holds the bytes of the chunk up to the next byte 10, which is passed.
fn hold(line: &mut [u8], chunk: &[u8], input: Input) -> Input
    ensures { Holds line.old chunk.now input line.new result }
{
    let left = part(chunk, input.from, input.to);
    let held = before(left, b'\n');
    let kept = input.kept();
    put_bytes(line, kept, held);
    let from = input.from + held.len();
    let to = input.to;
    let size = kept.saturating_add(held.len()).min(line.len() + 1);
    if held.len() < left.len() {
        Input {
            from: from + 1,
            to,
            size,
            step: Step::Complete,
        }
    } else {
        Input {
            from,
            to,
            size,
            step: Step::Within,
        }
    }
}

// A read that fails ends the input too.
fn refill(reader: &mut impl Read, chunk: &mut [u8], input: Input) -> Input
    ensures { Refills chunk.new input result }
{
    let to = reader.read(chunk).unwrap_or(0);
    let step = if to == 0 { Step::Ended } else { Step::Within };
    Input {
        from: 0,
        to,
        size: input.kept(),
        step,
    }
}

// One step on: what is left of the chunk is held up to the next byte 10, or a new chunk is read where nothing is left.
pub fn advance(reader: &mut impl Read, line: &mut [u8], chunk: &mut [u8], input: Input) -> Input
    ensures holds { input.from < input.to → Holds line.old chunk.old input line.new result × (chunk.new ≡ chunk.old) }
    ensures line_unchanged { input.to ≤ input.from → (line.new ≡ line.old) × Refills chunk.new input result }
{
    if input.from < input.to {
        hold(line, chunk, input)
    } else {
        refill(reader, chunk, input)
    }
}
