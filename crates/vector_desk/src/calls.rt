// The steps of a run. `line` is what stands behind the step's letter; how many bytes are left of it is answered. Asked for more cells than
// there are, a step lends all of them. A text that does not load has a table that every call refuses with 2, as from C.
use crate::shown::print_call;
use desk::{open, put, withdraw};
use loading::pattern_of;
use packing::{DESK_BYTES, desk_of, put_desk};
use std::io;
use text::{put_byte, put_bytes};
use vector_text::{MAX_TAPE, decode, field, number, rest, say_bad};

// What is left to do: bytes of the line; and bytes of the pattern's text.
#[derive(Clone, Copy)]
pub(crate) struct Next {
    pub(crate) left: usize,
    pub(crate) size: usize,
}

fn run_open(
    rt: &impl Print,
    text: &[u8],
    line: &[u8],
    desk: &mut [u8; DESK_BYTES],
    letters: &[u8],
    words: &mut [u64],
) -> io::Result<usize> {
    let lent = (number(field(line)) as usize).min(words.len());
    let mut held = desk_of(desk);
    let answer = open(&mut held, pattern_of(text), &mut words[..lent]);
    put_desk(held, desk);
    print_call(rt, answer, desk, letters, words)?;
    Ok(rest(line).len())
}

// Behind the page: how many cells and words are lent.
fn put_lent(
    rt: &impl Print,
    text: &[u8],
    page: &[u8],
    line: &[u8],
    desk: &mut [u8; DESK_BYTES],
    letters: &mut [u8],
    words: &mut [u64],
) -> io::Result<usize> {
    let last = rest(line);
    let cells = (number(field(line)) as usize).min(letters.len());
    let lent = (number(field(last)) as usize).min(words.len());
    let mut held = desk_of(desk);
    let answer = put(
        &mut held,
        pattern_of(text),
        page,
        &mut letters[..cells],
        &mut words[..lent],
    );
    put_desk(held, desk);
    print_call(rt, answer, desk, letters, words)?;
    Ok(rest(last).len())
}

fn run_put(
    rt: &impl Print,
    text: &[u8],
    line: &[u8],
    desk: &mut [u8; DESK_BYTES],
    letters: &mut [u8],
    words: &mut [u64],
) -> io::Result<usize> {
    let mut page = [0u8; MAX_TAPE];
    let size = decode(field(line), &mut page);
    put_lent(rt, text, &page[..size], rest(line), desk, letters, words)
}

fn run_withdraw(
    rt: &impl Print,
    text: &[u8],
    line: &[u8],
    desk: &mut [u8; DESK_BYTES],
    letters: &[u8],
    words: &[u64],
) -> io::Result<usize> {
    let cells = (number(field(line)) as usize).min(letters.len());
    let mut held = desk_of(desk);
    let answer = withdraw(&mut held, pattern_of(text), &letters[..cells]);
    put_desk(held, desk);
    print_call(rt, answer, desk, letters, words)?;
    Ok(rest(line).len())
}

fn hand_desk(desk: &mut [u8; DESK_BYTES], count: u8, digits: &[u8]) {
    let mut lengths = [0u8; MAX_TAPE];
    let size = decode(digits, &mut lengths);
    let from = put_byte(desk, 0, count);
    put_bytes(desk, from, &lengths[..size]);
}

fn hand_letters(letters: &mut [u8], at: usize, digits: &[u8]) {
    let mut bytes = [0u8; MAX_TAPE];
    let size = decode(digits, &mut bytes);
    put_bytes(letters, at, &bytes[..size]);
}

// A desk and letters as a caller might write them.
fn run_hand(line: &[u8], desk: &mut [u8; DESK_BYTES], letters: &mut [u8]) -> usize {
    let lengths = rest(line);
    let bytes = rest(lengths);
    let last = rest(bytes);
    let count = u8::try_from(number(field(line))).unwrap_or(u8::MAX);
    hand_desk(desk, count, field(lengths));
    hand_letters(letters, number(field(last)) as usize, field(bytes));
    rest(last).len()
}

fn run_call(
    rt: &impl Print,
    kind: u8,
    text: &[u8],
    line: &[u8],
    desk: &mut [u8; DESK_BYTES],
    letters: &mut [u8],
    words: &mut [u64],
) -> io::Result<usize> {
    // Kept: the kind is a letter of the input, and a match says plainly what it runs.
    match kind {
        b'o' => run_open(rt, text, line, desk, letters, words),
        b'p' => run_put(rt, text, line, desk, letters, words),
        b'w' => run_withdraw(rt, text, line, desk, letters, words),
        b'h' => Ok(run_hand(line, desk, letters)),
        _ => {
            say_bad(rt)?;
            Ok(0)
        }
    }
}

pub(crate) fn run_step(
    rt: &impl Print,
    text: &mut [u8],
    size: usize,
    line: &[u8],
    desk: &mut [u8; DESK_BYTES],
    letters: &mut [u8],
    words: &mut [u64],
) -> io::Result<Next> {
    let Some((&kind, _)) = line.split_first() else {
        return Ok(Next { left: 0, size });
    };
    let fields = rest(line);
    if kind == b't' {
        let size = decode(field(fields), text);
        let left = rest(fields).len();
        return Ok(Next { left, size });
    }
    let end = size.min(text.len());
    let left = run_call(rt, kind, &text[..end], fields, desk, letters, words)?;
    Ok(Next { left, size })
}
