// Where a tape breaks: what the service answers, one line a case, fields parted by tabs. Behind the pattern's text a case has
// the tape in hexadecimal. The line has 0, the reach and the position at which the tape resumes, or a refusal's number and
// value.
use reach::{Positions, locate};
use refusals::Refusal;
use std::io;
use syntax::Pattern;
use text::{put_pair, put_parted, put_refusal};
use vector_text::{MAX_TAPE, decode_all, field, print_line, say_bad};

// From the start of `out`.
fn put_located(out: &mut [u8], located: Result<Positions, Refusal>) -> usize {
    match located {
        Ok(Positions { reach, resume }) => {
            let end = put_pair(out, 0, 0, u64::from(reach));
            put_parted(out, end, b'\t', u64::from(resume))
        }
        Err(why) => put_refusal(out, 0, why),
    }
}

// Prints the line of a case, which takes less than 32 bytes.
pub(crate) fn run_locate(rt: &impl Print, p: Pattern, line: &[u8]) -> io::Result<()> {
    let mut tape = [0u8; MAX_TAPE];
    let Some(size) = decode_all(field(line), &mut tape) else {
        return say_bad(rt);
    };
    let mut out = [0u8; 32];
    let end = put_located(&mut out, locate(p, &tape[..size]));
    print_line(rt, &mut out, end)
}
