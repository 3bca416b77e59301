// For tests alone: the text of the vectors. The lines of the input, the fields of a case's line, and cells shown.
// A line is read by steps, and the loop stays in the program: a step holds what is left of a chunk, promised in full, or
// reads a new one, of whose bytes nothing can be promised.
#![tactic(auto)]

mod cells; // cells.rt: cells shown whole or as digests
mod digest; // digest.rt: digests of cells
mod fields; // fields.rt: the fields of a case's line
mod hex; // hex.rt: bytes from hexadecimal digits
mod lines; // lines.rt: the lines of the input
mod parts; // parts.rt: parts of cells
mod report; // report.rt: lines printed, and cells lent

pub use cells::{put_digest, put_left, put_numbers, put_shown};
pub use digest::{Cell, START, digest_of};
pub use fields::{field, number, rest};
pub use hex::{decode, decode_all};
pub use lines::{Input, Step, advance};
pub use report::{
    ALL_BYTES, ALL_WORDS, BYTE_BEFORE, MAX_CODE, MAX_TAPE, MAX_TEXT, WORD_BEFORE, print_line,
    say_bad,
};
