// Numbers in decimal, and bytes in hexadecimal.
ghost use Rattle.std.specs.Prelude.{◌≡◌, ◌<◌};
ghost use Rattle.text.specs.Text.{Puts, decimal, hex_digit, hex_byte, hex};

use crate::put::put_byte;

// The digits of the number's tenth, then its last digit. Calls go twenty deep for the greatest number.
pub fn put_decimal(out: &mut [u8], at: usize, n: u64) -> usize
    ensures { Puts out.old at (decimal n) out.new result }
{
    let last = b'0' + (n % 10) as u8;
    if n < 10 {
        return put_byte(out, at, last);
    }
    let end = put_decimal(out, at, n / 10);
    put_byte(out, end, last)
}

fn hex_digit(d: u8) -> u8
    requires { d < 16 }
    ensures { result ≡ hex_digit d }
{
    match d {
        0..=9 => b'0' + d,
        _ => b'a' - 10 + d,
    }
}

fn put_hex_byte(out: &mut [u8], at: usize, byte: u8) -> usize
    ensures { Puts out.old at (hex_byte byte) out.new result }
{
    let end = put_byte(out, at, hex_digit(byte / 16));
    put_byte(out, end, hex_digit(byte % 16))
}

pub fn put_hex(out: &mut [u8], at: usize, bytes: &[u8]) -> usize
    ensures { Puts out.old at (hex bytes.now) out.new result }
{
    let mut end = at.min(out.len());
    for &byte in bytes {
        end = put_hex_byte(out, end, byte);
    }
    end
}
