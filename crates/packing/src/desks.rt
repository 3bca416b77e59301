// A page desk for callers from C: 31 bytes, the count and behind it the 30 lengths.
ghost use Rattle.std.specs.Prelude.{◌≡◌};
ghost use Rattle.packing.specs.Packing.{unpacked};
ghost use Rattle.packing.specs.DeskBytes.{desk_of_bytes, other_opened, desk_laid};

use crate::of_cause;
use desk::{Desk, DeskRefusal, check_open};
use syntax::Pattern;

// The bytes of a desk.
pub const DESK_BYTES: usize = 1 + Desk::MAX_PAGES;

// Kept: bytes of another number are no None but a desk with a count that no desk has. The desk's own checks then refuse it with 13 at 13's
// place, behind the causes that the contract of each call puts before it.
const BROKEN_COUNT: u8 = 31;

// The desk that stands in the bytes. If there are not 31 bytes, the desk has a count of 31, which breaks the limits.
pub fn desk_of(bytes: &[u8]) -> Desk
    ensures { result ≡ desk_of_bytes bytes.now }
{
    let mut lengths = [0; Desk::MAX_PAGES];
    if bytes.len() != DESK_BYTES {
        return Desk {
            count: BROKEN_COUNT,
            lengths,
        };
    }
    lengths.copy_from_slice(&bytes[1..]);
    Desk {
        count: bytes[0],
        lengths,
    }
}

// Writes a desk into its bytes. Bytes of another number are left as they are.
pub fn put_desk(desk: Desk, bytes: &mut [u8])
    ensures { bytes.new ≡ desk_laid desk bytes.old }
{
    if bytes.len() == DESK_BYTES {
        bytes[0] = desk.count;
        bytes[1..].copy_from_slice(&desk.lengths);
    }
}

// The answer of an opening whose desk is not 31 bytes long: 2 or 6 if they hold, else 13.
pub fn of_other_length(p: Pattern, words: usize) -> u64
    ensures { unpacked result ≡ other_opened p words }
{
    let why = check_open(p, words)
        .err()
        .unwrap_or(DeskRefusal::DeskLimits);
    of_cause(&why)
}
