// The fields of a case's line, parted by spaces.
ghost use Rattle.std.specs.Prelude.{◌≡◌, min};
ghost use Rattle.vector_text.specs.Cases.{before_byte, behind_byte, appended, most_number, number_of_text};

use crate::parts::before;

pub fn field(line: &[u8]) -> &[u8]
    ensures { result.now ≡ before_byte 32 line.now }
{
    before(line, b' ')
}

// What stands behind the first field and its space: nothing where there is no space.
pub fn rest(line: &[u8]) -> &[u8]
    ensures { result.now ≡ behind_byte 32 line.now }
{
    let start = (field(line).len() + 1).min(line.len());
    &line[start..]
}

// The number with one decimal digit more; the greatest there is, where that does not fit. Other bytes are left out.
fn append(n: u32, digit: u8) -> u32
    ensures { result ≡ min (appended n digit) most_number }
{
    match digit {
        b'0'..=b'9' => n.saturating_mul(10).saturating_add(u32::from(digit - b'0')),
        _ => n,
    }
}

pub fn number(digits: &[u8]) -> u32
    ensures { result ≡ number_of_text digits.now }
{
    let mut n = 0;
    for &digit in digits {
        n = append(n, digit);
    }
    n
}
