// Bytes from hexadecimal digits in lower case.
ghost use Rattle.std.specs.Prelude.{◌≡◌, ◌*◌, ◌<◌, drop, IfSome};
ghost use Rattle.io.specs.Counts.{IsPrefixLen};
ghost use Rattle.text.specs.Text.{Puts};
ghost use Rattle.vector_text.specs.Cases.{hex_value, hex_bytes};
ghost use Rattle.vector_text.specs.Hexadecimal.{first_pair};

// The value of a digit, none for any other byte.
fn value_of_digit(digit: u8) -> Option<u8>
    ensures value { result ≡ hex_value digit }
    ensures upper_bound { IfSome result (λ value. value < 16) }
{
    match digit {
        b'0'..=b'9' => Some(digit - b'0'),
        b'a'..=b'f' => Some(digit - b'a' + 10),
        _ => None,
    }
}

// The byte that pair `n` of the digits writes, none where there is no such pair.
fn byte_at(digits: &[u8], n: usize) -> Option<u8>
    ensures { result ≡ first_pair (drop (2 * n) digits.now) }
{
    if digits.len() / 2 <= n {
        return None;
    }
    let high = value_of_digit(digits[2 * n])?;
    let low = value_of_digit(digits[2 * n + 1])?;
    Some(16 * high + low)
}

// Puts the bytes that pairs of digits write at the start of `text`, and answers how many there are. It stops at a pair
// that writes none, and where `text` is full.
pub fn decode(digits: &[u8], text: &mut [u8]) -> usize
    ensures puts { Puts text.old 0 (hex_bytes digits.now) text.new result }
    ensures prefix_len { IsPrefixLen result text.new }
{
    for n in 0..text.len() {
        let Some(byte) = byte_at(digits, n) else {
            return n;
        };
        text[n] = byte;
    }
    text.len()
}

// The same, where all of the digits write bytes that fit: nothing else.
pub fn decode_all(digits: &[u8], text: &mut [u8]) -> Option<usize>
    ensures puts { IfSome result (λ size. Puts text.old 0 (hex_bytes digits.now) text.new size) }
    ensures prefix_len { IfSome result (λ size. IsPrefixLen size text.new) }
{
    let size = decode(digits, text);
    if size + size == digits.len() {
        Some(size)
    } else {
        None
    }
}
