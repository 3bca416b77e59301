// Totals by the calls from C, which write into lent cells. Behind the pattern's text a case has the code's bytes in hexadecimal, and in decimal
// the code's bit count, how many cells are lent, and three dates as these calls take them: the tape's start, the term's first and its last. It
// prints two lines, of all litres and of those of the term: number, value, and each cell of the array whose start is lent.
use std::io;
use text::put_pair;
use vector_text::{MAX_CODE, decode_all, field, number, print_line, put_numbers, rest, say_bad};
use wumbyra::{wumbyra_term_totals, wumbyra_totals};

// Cells of that array, and what each holds before.
const ALL_CELLS: usize = 204;

const CELL_BEFORE: u32 = 7777;

const HALF: u64 = 4294967296;

// Prints a line, which takes less than 2,048 bytes.
fn print_litres(rt: &impl Print, answer: u64, litres: &[u32]) -> io::Result<()> {
    let mut out = [0u8; 2048];
    let a = put_pair(&mut out, 0, answer / HALF, answer % HALF);
    let b = put_numbers(&mut out, a, litres);
    print_line(rt, &mut out, b)
}

// Behind the bit count: the cells and the dates. Asked for more cells than there are, both calls lend all of them.
fn run_cells(rt: &impl Print, text: &[u8], code: &[u8], count: u32, line: &[u8]) -> io::Result<()> {
    let dates = rest(line);
    let behind = rest(dates);
    if rest(behind).is_empty() {
        return say_bad(rt);
    }
    let lent = (number(field(line)) as usize).min(ALL_CELLS);
    let mut all = [CELL_BEFORE; ALL_CELLS];
    let answer = wumbyra_totals(text, code, count, &mut all[..lent]);
    print_litres(rt, answer, &all)?;
    let start = number(field(dates));
    let first = number(field(behind));
    let last = number(rest(behind));
    let mut dated = [CELL_BEFORE; ALL_CELLS];
    let answer = wumbyra_term_totals(text, code, count, start, first, last, &mut dated[..lent]);
    print_litres(rt, answer, &dated)
}

pub fn run_litres(rt: &impl Print, text: &[u8], line: &[u8]) -> io::Result<()> {
    let mut code = [0u8; MAX_CODE];
    let Some(size) = decode_all(field(line), &mut code) else {
        return say_bad(rt);
    };
    let behind = rest(line);
    run_cells(rt, text, &code[..size], number(field(behind)), rest(behind))
}
