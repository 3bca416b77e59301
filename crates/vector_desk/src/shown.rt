// The line of a call, fields parted by tabs: number and value, the desk's count and lengths, digests of all cells of letters and of all words; behind
// an accepted call the letters held, and of few the words. Each `put_` function puts its bytes into `out` from `at` on and answers where they end.
use desk::DeskRefusal;
use packing::DESK_BYTES;
use std::io;
use syntax::Pattern;
use text::{put_answer, put_parted};
use vector_text::{print_line, put_digest, put_numbers, put_shown};

// The words of so many letters are shown.
const SHOWN_LETTERS: usize = 4;

fn put_state(
    out: &mut [u8],
    at: usize,
    desk: &[u8; DESK_BYTES],
    letters: &[u8],
    words: &[u64],
) -> usize {
    let a = put_parted(out, at, b'\t', u64::from(desk[0]));
    let b = put_shown(out, a, &desk[1..], DESK_BYTES - 1);
    let c = put_digest(out, b, letters, 0, letters.len());
    put_digest(out, c, words, 0, words.len())
}

fn put_held(out: &mut [u8], at: usize, letters: &[u8], words: &[u64], held: usize) -> usize {
    let end = Pattern::MAX_LETTERS.min(letters.len());
    let from = end.saturating_sub(held);
    let a = put_shown(out, at, &letters[from..end], held);
    if SHOWN_LETTERS < held {
        return a;
    }
    let count = (2 * (held + 1)).min(words.len());
    put_numbers(out, a, &words[..count])
}

// Prints the line, which takes less than 1,024 bytes.
pub(crate) fn print_call(
    rt: &impl Print,
    answer: Result<u32, DeskRefusal>,
    desk: &[u8; DESK_BYTES],
    letters: &[u8],
    words: &[u64],
) -> io::Result<()> {
    let mut out = [0u8; 1024];
    let a = put_answer(&mut out, 0, answer);
    let b = put_state(&mut out, a, desk, letters, words);
    let end = match answer {
        Ok(held) => put_held(&mut out, b, letters, words, held as usize),
        Err(_) => b,
    };
    print_line(rt, &mut out, end)
}
