// Fields parted by tabs, lines ended by byte 10, and refusals.
ghost use Rattle.std.specs.Prelude.{◌≤◌, length, IfOk, IfErr};
ghost use Rattle.refusals.specs.Refusals.{answer};
ghost use Rattle.text.specs.Text.{Puts, parted, pair, entry, line, refused_line};

use crate::digits::put_decimal;
use crate::put::{put_byte, put_bytes};
use refusals::Cause;

// A number behind the byte that parts it from what stands before it.
pub fn put_parted(out: &mut [u8], at: usize, by: u8, n: u64) -> usize
    ensures { Puts out.old at (parted by n) out.new result }
{
    let end = put_byte(out, at, by);
    put_decimal(out, end, n)
}

// Two numbers.
pub fn put_pair(out: &mut [u8], at: usize, a: u64, b: u64) -> usize
    ensures { Puts out.old at (pair a b) out.new result }
{
    let end = put_decimal(out, at, a);
    put_parted(out, end, b'\t', b)
}

// A word and two numbers.
pub fn put_entry(out: &mut [u8], at: usize, word: &[u8], a: u64, b: u64) -> usize
    ensures { Puts out.old at (entry word.now a b) out.new result }
{
    let first = put_bytes(out, at, word);
    let second = put_byte(out, first, b'\t');
    put_pair(out, second, a, b)
}

// The same as a line.
pub fn put_line(out: &mut [u8], at: usize, word: &[u8], a: u64, b: u64) -> usize
    ensures { Puts out.old at (line word.now a b) out.new result }
{
    let end = put_entry(out, at, word, a, b);
    put_byte(out, end, b'\n')
}

// A refusal's number and value.
pub fn put_refusal<C: Cause + Copy>(out: &mut [u8], at: usize, why: C) -> usize
    ensures { Puts out.old at (pair (C.number_of why) (C.value_of why)) out.new result }
{
    put_pair(out, at, u64::from(why.number()), u64::from(why.value()))
}

// What a service answers: 0 and a value of its own, or its refusal's number and value.
pub fn put_answer<C: Cause + Copy>(out: &mut [u8], at: usize, answer: Result<u32, C>) -> usize
    ensures ok { IfOk answer (λ n. Puts out.old at (pair 0 n) out.new result) }
    ensures err { IfErr answer (λ why. Puts out.old at (pair (C.number_of why) (C.value_of why)) out.new result) }
{
    match answer {
        Ok(n) => put_pair(out, at, 0, u64::from(n)),
        Err(why) => put_refusal(out, at, why),
    }
}

// The line of a refusal, of any enum by its number and value. It has at most 30 bytes.
pub fn put_refused(out: &mut [u8], at: usize, number: u32, value: u32) -> usize
    ensures puts { Puts out.old at (refused_line (answer number value)) out.new result }
    ensures value_len_bound { length (refused_line (answer number value)) ≤ 30 }
{
    put_line(out, at, b"refused", u64::from(number), u64::from(value))
}

// The same of a cause.
pub fn put_cause<C: Cause + Copy>(out: &mut [u8], at: usize, why: C) -> usize
    ensures puts { Puts out.old at (refused_line (answer (C.number_of why) (C.value_of why))) out.new result }
    ensures value_len_bound { length (refused_line (answer (C.number_of why) (C.value_of why))) ≤ 30 }
{
    put_refused(out, at, why.number(), why.value())
}
