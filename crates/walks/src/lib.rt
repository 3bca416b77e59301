// What a walk over a code asks of its bits, whatever it is for: which side an alternative takes, and whether a star stops. What a whole code is
// (specs/Whole) is said here for every service on codes, and what a walk sees at each kind of node (specs/Looks) for any function of the value.
#![tactic(auto)]

ghost use Rattle.std.specs.Prelude.{◌≡◌, cond, ◌*◌, ◌<◌, length};
ghost use Rattle.bits.specs.Bits.{bit_at};
ghost use Rattle.walks.specs.Looks.{stops};

use bits::bit_at;

// The part that the bit at `at` chooses: 0 for the left, 1 for the right.
pub fn side_at(code: &[u8], at: u32, left: u8, right: u8) -> u8
    requires { at < 8 * length code.now }
    ensures { result ≡ cond (bit_at 8 code.now at) right left }
{
    if bit_at(code, at) { right } else { left }
}

// Whether the bit at `at` ends a star that takes another round for the bit `again`.
pub fn stops_at(code: &[u8], at: u32, again: bool) -> bool
    requires { at < 8 * length code.now }
    ensures { result ≡ stops again (bit_at 8 code.now at) }
{
    bit_at(code, at) != again
}
