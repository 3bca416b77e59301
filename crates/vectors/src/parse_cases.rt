// Reading a tape: what it answers and what it leaves in the lent buffers, one line a case, fields parted by tabs. Behind
// the pattern's text a case has the tape in hexadecimal, and how many words and code bytes are lent, in decimal. The
// lent parts are the starts of larger arrays, whose cells are set before each case. Each `put_` function puts its bytes
// into `out` from `at` on and answers where they end. What does not fit is left out.
use parser::parse;
use std::io;
use syntax::Pattern;
use text::put_answer;
use vector_text::{
    ALL_BYTES, ALL_WORDS, BYTE_BEFORE, MAX_TAPE, START, WORD_BEFORE, decode_all, field, number,
    print_line, put_left, put_numbers, rest, say_bad,
};

// The words of tapes up to this many letters are shown, and so many of them.
const SHOWN_LETTERS: usize = 8;

const SHOWN_WORDS: usize = 20;

// For short tapes the first of the words lent.
fn put_words(out: &mut [u8], at: usize, words: &[u64], letters: usize) -> usize {
    if SHOWN_LETTERS < letters {
        return at;
    }
    let shown = SHOWN_WORDS.min(words.len());
    put_numbers(out, at, &words[..shown])
}

// Reads the tape with the first `most_words` words and the first `most_bytes` bytes lent, as far as there are any, and prints the
// line of the case, which takes less than 1,024 bytes.
fn run_lent(
    rt: &impl Print,
    p: Pattern,
    tape: &[u8],
    most_words: usize,
    most_bytes: usize,
) -> io::Result<()> {
    let mut words = [WORD_BEFORE; ALL_WORDS];
    let mut code = [BYTE_BEFORE; ALL_BYTES];
    let lent = most_words.min(ALL_WORDS);
    let bytes = most_bytes.min(ALL_BYTES);
    let parsed = parse(p, tape, &mut words[..lent], &mut code[..bytes]);
    let mut out = [0u8; 1024];
    let a = put_answer(&mut out, 0, parsed);
    let b = put_left(&mut out, a, START, &words, lent, &code, bytes);
    let c = put_words(&mut out, b, &words[..lent], tape.len());
    print_line(rt, &mut out, c)
}

fn run_sizes(rt: &impl Print, p: Pattern, tape: &[u8], line: &[u8]) -> io::Result<()> {
    let last = rest(line);
    if last.is_empty() {
        return say_bad(rt);
    }
    let words = number(field(line)) as usize;
    let bytes = number(last) as usize;
    run_lent(rt, p, tape, words, bytes)
}

pub(crate) fn run_parse(rt: &impl Print, p: Pattern, line: &[u8]) -> io::Result<()> {
    let mut tape = [0u8; MAX_TAPE];
    let Some(size) = decode_all(field(line), &mut tape) else {
        return say_bad(rt);
    };
    run_sizes(rt, p, &tape[..size], rest(line))
}
