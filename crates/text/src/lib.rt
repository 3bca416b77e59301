// Text for people, put into a lent buffer: bytes, numbers in decimal, bytes in hexadecimal, lines of fields parted by tabs,
// and refusals. Each function puts its bytes into `out` from `at` on and answers where they end. What does not fit is left
// out, so nothing is asked of the buffer; where all of it fits, law `puts_front` says exactly what is put.
#![tactic(auto)]

mod digits; // digits.rt: numbers in decimal, bytes in hexadecimal
mod lines; // lines.rt: fields, lines and refusals
mod put; // put.rt: bytes as they are

pub use digits::{put_decimal, put_hex};
pub use lines::{
    put_answer, put_cause, put_entry, put_line, put_pair, put_parted, put_refusal, put_refused,
};
pub use put::{put_byte, put_bytes};
