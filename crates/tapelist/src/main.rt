// Prints the listing of the pattern in `pattern.tsv` and the tape in `tape.txt`, both in the working folder. A file that
// cannot be opened or read gives a message on standard error and nothing on standard output. The listing is what
// `listing::list` gives. Started with an argument, whatever it is, the program prints one line more, where the tape breaks: the
// word `located` and the two positions that `reach::locate` gives, or the line of its refusal.
#![tactic(auto)]

ghost use Rattle.std.specs.Prelude.{◌≤◌, IfOk, IfSome, length};
ghost use Rattle.text.specs.Text.{Puts};
ghost use Rattle.tapelist.specs.Printing.{text_least, tape_least, Prints, located_line, Tells};

use listing::{MAX_LISTING, letters_of, list};
use loading::load;
use reach::{Positions, locate};
use refusals::Refusal;
use std::env::{Env, FillError};
use std::fs::File;
use std::io;
use std::io::Read;
use std::rt::Files;
use syntax::Pattern;
use text::{put_cause, put_line};

// Bytes held of each file. The first `text_bytes` bytes of a pattern's text, 1,025, and the first 3,602 of a tape give the listing
// of the whole files: law `listing_short` of crate listing.
const MAX_TEXT: usize = 4096;

const MAX_TAPE: usize = 4096;

// Reads until the file ends or the buffer is full: how many bytes are held. The only error is that of a read, behind which nothing
// is said of the buffer's bytes.
fn read_all(file: &mut impl Read, buf: &mut [u8]) -> io::Result<usize>
    ensures { IfOk result (λ held. held ≤ length buf.old) }
{
    let mut at = 0;
    while at < buf.len() {
        match file.read(&mut buf[at..])? {
            0 => break,
            got => at += got,
        }
    }
    Ok(at)
}

fn read_open<R: Files>(rt: &R, name: &str, buf: &mut [u8]) -> io::Result<usize>
    ensures { IfOk result (λ held. held ≤ length buf.old) }
{
    let mut file = File::open(rt, name)?;
    read_all(&mut file, buf)
}

// Says on standard error what failed, and why. Where that fails too, nothing is left to say.
fn fail(rt: &impl Eprint, what: &str, why: io::Error) {
    let _ = eprintln!(rt; "{what}: {why}");
}

// Reads the file of this name: how many bytes are held, or none where it cannot be read, which is said on standard error.
fn read_file<R: Files + Eprint>(rt: &R, name: &str, buf: &mut [u8]) -> Option<usize>
    ensures { IfSome result (λ held. held ≤ length buf.old) }
{
    match read_open(rt, name, buf) {
        Ok(held) => Some(held),
        Err(why) => {
            fail(rt, name, why);
            None
        }
    }
}

// Hands bytes to standard output. Only `print` and `tell` call it, whose contracts say which bytes.
fn write<R: Print + Eprint>(rt: &R, bytes: &[u8]) {
    if let Err(why) = rt.write_all(bytes) {
        fail(rt, "standard output", why);
    }
}

// Writes a listing to standard output. The files' bytes are passed so that the contract can speak of them: what is handed to the
// system is their listing. Nothing but this and `tell` writes there.
fn print<R: Print + Eprint>(rt: &R, text: &[u8], tape: &[u8], bytes: &[u8])
    requires { Prints text.now tape.now bytes.now }
{
    write(rt, bytes);
}

// The buffer has room for every listing.
fn print_listing<R: Print + Eprint>(rt: &R, text: &[u8], tape: &[u8]) {
    let mut out = [0u8; MAX_LISTING];
    let n = list(text, tape, &mut out).unwrap();
    print(rt, text, tape, &out[..n]);
}

// Bytes of a line with a word of seven letters and two numbers: at most 30.
const MAX_LINE: usize = 32;

// Writes to standard output where a tape breaks.
fn tell<R: Print + Eprint>(rt: &R, text: &[u8], tape: &[u8], bytes: &[u8])
    requires { Tells text.now tape.now bytes.now }
{
    write(rt, bytes);
}

fn put_located(located: Result<Positions, Refusal>, out: &mut [u8]) -> usize
    ensures puts { Puts out.old 0 (located_line located) out.new result }
    ensures located_len_bound { length (located_line located) ≤ 30 }
{
    match located {
        // Kept: `as` tells that a position has 16 bits, on which the line's length rests; what `u64::from` promises does not.
        Ok(Positions { reach, resume }) => put_line(
            out,
            0,
            b"located",
            reach as u64,
            resume as u64,
        ),
        Err(why) => put_cause(out, 0, why),
    }
}

// A text that does not load has a table of no lines, which locating refuses.
fn print_break<R: Print + Eprint>(rt: &R, text: &[u8], tape: &[u8]) {
    let p = load(text).unwrap_or(Pattern::new());
    let located = locate(p, letters_of(tape));
    let mut out = [0u8; MAX_LINE];
    let size = put_located(located, &mut out);
    tell(rt, text, tape, &out[..size]);
}

// Whether the program was started with an argument behind its name.
fn has_argument(rt: &impl Env) -> bool {
    !matches!(rt.arg(1, &mut []), Err(FillError::NotPresent))
}

// Prints nothing where one of the files cannot be read. The buffers hold as many bytes as decide the listing.
fn list_files<R: Files + Env + Print + Eprint>(rt: &R, text: &mut [u8], tape: &mut [u8])
    requires { (text_least ≤ length text.old) × (tape_least ≤ length tape.old) }
{
    let Some(m) = read_file(rt, "pattern.tsv", text) else {
        return;
    };
    let Some(n) = read_file(rt, "tape.txt", tape) else {
        return;
    };
    print_listing(rt, &text[..m], &tape[..n]);
    if has_argument(rt) {
        print_break(rt, &text[..m], &tape[..n]);
    }
}

fn main(rt: HostRuntime) {
    let mut text = [0u8; MAX_TEXT];
    let mut tape = [0u8; MAX_TAPE];
    list_files(&rt, &mut text, &mut tape);
}
