// The lines of a listing, each put into a buffer from `at` on. The answer is where it ends; what does not fit is left out.
#![tactic(auto)]

ghost use Rattle.std.specs.Prelude.{suc, ◌+◌, ◌*◌, ◌≤◌, length};
ghost use Rattle.text.specs.Text.{Puts};
ghost use Rattle.syntax.specs.Table.{account_limit};
ghost use Rattle.listing_lines.specs.LineBytes.{tape_line, account_line, account_lines, open_lines};
ghost use Rattle.listing_lines.specs.Lines.{account_line_limit};

use bits::open_nodes;
use text::{put_byte, put_entry, put_hex, put_line};

// Letters, bits, and the code in hexadecimal.
pub fn put_tape(out: &mut [u8], at: usize, letters: u64, bits: u64, code: &[u8]) -> usize
    ensures { Puts out.old at (tape_line letters bits code.now) out.new result }
{
    let first = put_entry(out, at, b"tape", letters, bits);
    let second = put_byte(out, first, b'\t');
    let end = put_hex(out, second, code);
    put_byte(out, end, b'\n')
}

// Nothing for an account without litres.
fn put_account(out: &mut [u8], at: usize, account: u64, litres: u32) -> usize
    ensures { Puts out.old at (account_line account litres) out.new result }
{
    if litres == 0 {
        return at.min(out.len());
    }
    put_line(out, at, b"account", account, u64::from(litres))
}

// The accounts from 0 on, rising. A bound on their number bounds the digits of an account, and so the bytes of all lines.
pub fn put_accounts(out: &mut [u8], at: usize, litres: &[u32]) -> usize
    requires { length litres.now ≤ account_limit + 1 }
    ensures puts { Puts out.old at (account_lines 0 litres.now) out.new result }
    ensures litres_len_bound { length (account_lines 0 litres.now) ≤ account_line_limit * length litres.now }
{
    let mut end = at.min(out.len());
    for (i, &litre) in litres.iter().enumerate() {
        end = put_account(out, end, i as u64, litre);
    }
    end
}

// Positions 0 to `letters`, each with the ones of its flag 1 word.
pub fn put_open(out: &mut [u8], at: usize, words: &[u64], letters: usize) -> usize
    requires { 2 * (letters + 1) ≤ length words.now }
    ensures { Puts out.old at (open_lines words.now 0 (suc letters)) out.new result }
{
    let mut end = at.min(out.len());
    for i in 0..=letters {
        let open = open_nodes(words[2 * i + 1]);
        end = put_line(out, end, b"open", i as u64, u64::from(open));
    }
    end
}
