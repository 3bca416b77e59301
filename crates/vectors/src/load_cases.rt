// What loading a text answers: the outcome's number and value, and after them the table's nodes, one a line, fields parted
// by tabs, numbers in decimal. Each `put_` function puts its bytes into `out` from `at` on and answers where they end. What
// does not fit is left out.
use refusals::Refusal;
use std::io;
use syntax::{Leaf, Line, Node, Pattern};
use text::{put_byte, put_pair, put_parted, put_refusal};
use vector_text::print_line;

// The fields of a node's line: kind, account and what the kind needs, 0 where it needs less.
#[derive(Clone, Copy)]
struct Row(u8, u8, u8, u8);

fn row_of_leaf(account: u8, leaf: Leaf) -> Row {
    match leaf {
        Leaf::Nothing => Row(b'E', account, 0, 0),
        Leaf::Letter(c) => Row(b'L', account, c, 0),
        Leaf::Range(a, b) => Row(b'R', account, a, b),
    }
}

fn star_kind(again: bool) -> u8 {
    if again { b'Z' } else { b'K' }
}

fn row_of(line: Line) -> Row {
    let account = line.account;
    match line.node {
        Node::Leaf(leaf) => row_of_leaf(account, leaf),
        Node::Sequence(p, q) => Row(b'S', account, p, q),
        Node::Alternative(p, q) => Row(b'A', account, p, q),
        Node::Star(again, p) => Row(star_kind(again), account, p, 0),
    }
}

// A field that is not the first of its line.
fn put_field(out: &mut [u8], at: usize, x: u8) -> usize {
    put_parted(out, at, b'\t', u64::from(x))
}

// A node's line, with the byte 10 that ends the line before it.
fn put_row(out: &mut [u8], at: usize, row: Row) -> usize {
    let start = put_byte(out, at, b'\n');
    let a = put_byte(out, start, row.0);
    let b = put_field(out, a, row.1);
    let c = put_field(out, b, row.2);
    put_field(out, c, row.3)
}

fn put_lines(out: &mut [u8], at: usize, p: &Pattern) -> usize {
    let mut end = at;
    for &line in p.lines.iter().take(p.count) {
        end = put_row(out, end, row_of(line));
    }
    end
}

// Prints 0 and the line count, or the refusal, then the table's lines: a refused load has none. All take less than 1,024
// bytes.
pub(crate) fn print_loaded(rt: &impl Print, loaded: Result<Pattern, Refusal>) -> io::Result<()> {
    let mut out = [0u8; 1024];
    let end = match loaded {
        Ok(p) => {
            let head = put_pair(&mut out, 0, 0, p.count as u64);
            put_lines(&mut out, head, &p)
        }
        Err(why) => put_refusal(&mut out, 0, why),
    };
    print_line(rt, &mut out, end)
}
