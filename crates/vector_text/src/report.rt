// What cases of more than one kind share.
ghost use Rattle.std.specs.Prelude.{◌≡◌, [], ◌∷◌};
ghost use Rattle.std.proofs.lemmas.List.Edits.{sets};

use std::io;
use text::put_byte;

// Bytes held of a pattern's text, of a tape, and of a code.
pub const MAX_TEXT: usize = 3072;

pub const MAX_TAPE: usize = 4096;

pub const MAX_CODE: usize = 4096;

// Cells of the arrays whose starts are lent, and what they hold before.
pub const ALL_WORDS: usize = 7210;

pub const ALL_BYTES: usize = 8192;

pub const WORD_BEFORE: u64 = 0x5555555555555555;

pub const BYTE_BEFORE: u8 = 0xAA;

// The only error is that of the write.
pub fn say_bad(rt: &impl Print) -> io::Result<()> {
    rt.write_all(b"not a case\n")
}

// Ends the line in `out` at `at` with byte 10, and prints it. The only error is that of the write, and `out` is the same behind it.
pub fn print_line(rt: &impl Print, out: &mut [u8], at: usize) -> io::Result<()>
    ensures { out.new ≡ sets out.old at (10 ∷ []) }
{
    let size = put_byte(out, at, b'\n');
    rt.write_all(&out[..size])
}
