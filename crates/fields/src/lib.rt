// One field of a pattern text, and the values that fields have.
#![tactic(auto)]

ghost use Rattle.std.specs.Prelude.{◌≡◌, ◌≤◌, ◌<◌, length, drop, None, Some, MatchOption};
ghost use Rattle.fields.specs.Text.{digit, place, no_account, account};
ghost use Rattle.fields.specs.Fields.{below, field_size, FieldAt, one_byte, longer, number};

use syntax::Pattern;

const TAB: u8 = b'\t';

const NEWLINE: u8 = b'\n';

// The bytes of the longest account, with the one that ends it.
pub const ACCOUNT_BYTES: usize = 4;

// The same of any other field.
pub const FIELD_BYTES: usize = 3;

// Node indices are below it.
const PLACES: u8 = Pattern::MAX_LINES as u8;

// The bytes of a field, whether it is the last of its line, and the position behind the tab or the newline that ends it.
#[derive(Clone, Copy)]
pub struct Field<'a> {
    pub bytes: &'a [u8],
    pub last: bool,
    pub next: usize,
}

// The size of the field at the front of a text. None where nothing ends it within so many bytes; no more are looked at.
#[tactic(auto, unfolding(crate::specs::Fields::field_size))]
fn size_of_field(text: &[u8], within: usize) -> Option<usize>
    ensures { result ≡ field_size within text.now }
{
    text.iter()
        .take(within)
        .position(|b| *b == TAB || *b == NEWLINE)
}

// The field at a position, if a tab or a newline ends it within so many bytes.
pub fn field_from(text: &[u8], at: usize, within: usize) -> Option<Field<'_>>
    requires { at ≤ length text.now }
    ensures { MatchOption result (field_size within (drop at text.now) ≡ None)
        (λ f. FieldAt text.now at f.bytes.now f.last f.next × (length f.bytes.now < within)) }
{
    let rest = &text[at..];
    let size = size_of_field(rest, within)?;
    Some(Field {
        bytes: &rest[..size],
        last: rest[size] == NEWLINE,
        next: at + size + 1,
    })
}

// The byte of a field of one byte.
pub fn single_of(field: &[u8]) -> Option<u8>
    ensures { result ≡ one_byte field.now }
{
    match field {
        [b] => Some(*b),
        _ => None,
    }
}

// The value of a decimal digit.
#[tactic(auto, unfolding(crate::specs::Text::digit))]
fn digit_of(b: u8) -> Option<u8>
    ensures { result ≡ below 10 (digit b) }
{
    match b {
        b'0'..=b'9' => Some(b - b'0'),
        _ => None,
    }
}

// The node index that a field writes.
#[tactic(auto, using(crate::specs::Fields::place_short, crate::specs::Fields::place_long, crate::specs::Fields::place_none), unfolding(crate::specs::Text::one_digit, crate::specs::Text::two_digits))]
pub fn place_of(field: &[u8]) -> Option<u8>
    ensures { result ≡ below 64 (place field.now) }
{
    match field {
        [a] => digit_of(*a),
        [a, b] => {
            let n = 10 * digit_of(*a)? + digit_of(*b)?;
            if 10 <= n && n < PLACES { Some(n) } else { None }
        }
        _ => None,
    }
}

// A number with one digit more behind it, if that is an account.
#[tactic(auto, unfolding(crate::specs::Fields::longer))]
fn longer(n: u8, b: u8) -> Option<u8>
    ensures { result ≡ longer n b }
{
    let n = n.checked_mul(10)?.checked_add(digit_of(b)?)?;
    (n <= Pattern::MAX_ACCOUNT).then_some(n)
}

// The number that digits write, if it is an account.
#[tactic(auto, unfolding(crate::specs::Fields::number))]
fn number_of(digits: &[u8]) -> Option<u8>
    ensures { result ≡ number 0 digits.now }
{
    let mut n = 0;
    for b in digits {
        n = longer(n, *b)?;
    }
    Some(n)
}

// The account that a field writes, 0 for a dash.
#[tactic(auto, using(crate::specs::AccountLaws::account_dash, crate::specs::AccountLaws::account_digits, crate::specs::AccountLaws::account_none))]
pub fn account_of(field: &[u8]) -> Option<u8>
    ensures { result ≡ below no_account (account field.now) }
{
    match *field.first()? {
        b'1'..=b'9' => number_of(field),
        b'-' if field.len() == 1 => Some(0),
        _ => None,
    }
}
