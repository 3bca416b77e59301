// One step of the first sweep: the two state sets of a position out of the next position's (01: marks); and the memo of steps made before.
// `step` is told whether the next position is the tape's end: the next flag 1 state set does not say it, since for the pattern `a` it is 0 at the
// end and 0 where nothing can be read. It asks nothing of its arrays, so that a caller may keep its words elsewhere.
#![tactic(auto)]

ghost use Rattle.std.specs.Prelude.{◌≡◌, ◌*◌, ◌≤◌};
ghost use Rattle.bits.specs.Bits.{bit};
ghost use Rattle.steps.specs.Steps.{open_next, step_of};

pub mod memory; // memory.rt: steps that were made before

use bits::ones::Ones;
use table::follower_at;

// The two state sets of a position: with flag 0 and with flag 1.
#[derive(Clone, Copy, PartialEq)]
pub struct Words {
    pub zero: u64,
    pub one: u64,
}

// 1 if a state, a node or 64 for the end, is open at the next position with flag 1, else 0.
fn open_bit(state: u8, next: u64, last: bool) -> u64
    ensures { (result ≡ bit (open_next next last state)) × (result ≤ 1) }
{
    if state < 64 {
        (next >> state) % 2
    } else {
        u64::from(last)
    }
}

// The mask, or 0, without a branch.
fn times(mask: u64, e: u64) -> u64
    requires { e ≤ 1 }
    ensures { result ≡ mask * e }
{
    mask * e
}

// The two state sets of a position, from the leaves that take its letter and the flag 1 state set of the next position. `last` says
// that the next position is the tape's end. Where words are stored does not matter here. A leaf's masks are multiplied by 1 or 0, so that
// no branch depends on what is open.
pub fn step(
    zero: &[u64; 64],
    one: &[u64; 64],
    table: &[u64; 64],
    takers: u64,
    next: u64,
    last: bool,
) -> Words
    ensures { result ≡ step_of zero.now one.now table.now takers next last }
{
    let mut a = 0;
    let mut b = 0;
    for i in Ones(takers) {
        let e = open_bit(follower_at(table, i), next, last);
        a |= times(zero[i], e);
        b |= times(one[i], e);
    }
    Words { zero: a, one: b }
}
