// The second sweep: the bits of the preferred parse, from the state sets of the first. It asks the state sets only and never backs up.
// Its promise speaks of the letters and bits of the best value, not of the value, whose type changes with the tree. It asks of the words only
// that the bits of the nodes below are the first sweep's, and that a star's follower says whether the star may stop (`Knows`), so that no
// place in the root's tree is carried through the recursion.
// Positions on the tape have 16 bits: a sweep asks for a tape of at most 3,600 letters (`CanSweep`), so none of them and no sum of them wraps.
// Bits keep 32, since a code can have 478,801 of them.
#![tactic(auto)]

ghost use Rattle.std.specs.Prelude.{◌≡◌, ◌&&◌, ◌||◌, not, eqb, ltb, ◌+◌, ◌*◌, ◌≤◌, ◌<◌, length};
ghost use Rattle.bits.specs.Bits.{bits_of};
ghost use Rattle.semantics.specs.Code.{code_limit};
ghost use Rattle.table.specs.Cells.{Good, loops_in};
ghost use Rattle.second_sweep.specs.Sweeping.{put, Puts, is_open, Chooses, may_stop, goes_on, Stops, LeafReady, LeafSwept, Ready, SweptAll};

use bits::{is_open, set_bit, set_byte};
use syntax::{Leaf, Node};
use table::{follower_at, loops_at, node_at};

// The number of the end as a follower.
// Kept: crate table packs followers as numbers of states, nodes from 0 on and then the end, and its contract and the promises of the first sweep
// (`state_index`, `open_next`) speak of these numbers.
const END: usize = 64;

// The bit behind the bits written, and the position behind the letters read.
#[derive(Clone, Copy)]
pub struct Swept {
    pub at: u32,
    pub position: u16,
}

// A bit is written where it fits. Over a buffer that is too short the sweep counts its bits all the same.
fn put_bit(code: &mut [u8], at: u32, value: bool)
    requires { at ≤ code_limit }
    ensures { Puts value at code.old code.new }
{
    if (at as usize) / 8 < code.len() {
        set_bit(code, at, value);
    }
}

// The letter of a range, in eight bits.
fn put_letter(code: &mut [u8], at: u32, value: u8)
    requires { at ≤ code_limit }
    ensures { code.new ≡ put code.old at (bits_of 8 value) }
{
    if (at as usize + 7) / 8 < code.len() {
        set_byte(code, at, value);
    }
}

fn sweep_leaf(leaf: Leaf, tape: &[u8], i: u16, code: &mut [u8], at: u32) -> Swept
    requires { LeafReady leaf tape.now i at }
    ensures { LeafSwept leaf tape.now i at code.old code.new result }
{
    // where a leaf ends that takes a letter
    let next = i + 1;
    match leaf {
        Leaf::Nothing => Swept { position: i, at },
        Leaf::Letter(_) => Swept { position: next, at },
        Leaf::Range(_, _) => {
            put_letter(code, at, tape[i as usize]);
            Swept {
                position: next,
                at: at + 8,
            }
        }
    }
}

// Writes which side of an alternative is read, and gives it: the left one where it can be.
fn choose(words: &[u64], i: u16, taken: bool, p: u8, q: u8, code: &mut [u8], at: u32) -> u8
    requires { (2 * i + 1 < length words.now) × (p < 64) × (at ≤ code_limit) }
    ensures { Chooses (is_open words.now i taken p) p q at code.old code.new result }
{
    let left = is_open(words, i as usize, taken, p as usize);
    put_bit(code, at, !left);
    if left { p } else { q }
}

// Whether a step to node l's follower is allowed: to a star above only once the round has taken a letter.
fn passes(table: &[u64; 64], l: usize, flag: bool) -> bool
    requires { l < 64 }
    ensures { result ≡ (not (loops_in table.now l) || flag) }
{
    flag || !loops_at(table, l)
}

// The end accepts behind the last letter, with flag 1.
fn ends(i: u16, size: u16, flag: bool) -> bool
    ensures { result ≡ (flag && eqb i size) }
{
    flag && i == size
}

// Whether what follows node l can be read from position i on. A star's own bit in the state sets does not tell: it is set, too, where
// only another round can be read.
fn may_stop(table: &[u64; 64], words: &[u64], size: u16, l: usize, i: u16, flag: bool) -> bool
    requires { (l < 64) × (2 * i + 1 < length words.now) }
    ensures { result ≡ may_stop table.now words.now size l i flag }
{
    if !passes(table, l, flag) {
        return false;
    }
    let follower = follower_at(table, l) as usize;
    if follower < END {
        is_open(words, i as usize, flag, follower)
    } else {
        ends(i, size, flag)
    }
}

// Whether a star takes another round of its part p. The greedy one does wherever a round can be read, the lazy one only where it must.
fn goes_on(
    table: &[u64; 64],
    words: &[u64],
    size: u16,
    l: usize,
    i: u16,
    flag: bool,
    again: bool,
    p: u8,
) -> bool
    requires { (l < 64) × (p < 64) × (2 * i + 1 < length words.now) }
    ensures { result ≡ goes_on table.now words.now size l i flag again p }
{
    if again {
        !may_stop(table, words, size, l, i, flag)
    } else {
        is_open(words, i as usize, false, p as usize)
    }
}

// Writes that a star ends at position i: the other bit than that of another round.
fn stop(i: u16, code: &mut [u8], at: u32, again: bool) -> Swept
    requires { at ≤ code_limit }
    ensures { Stops again i at code.old code.new result }
{
    put_bit(code, at, !again);
    Swept {
        position: i,
        at: at + 1,
    }
}

// The flag behind a part: whether it, or what was before it in the round, took a letter.
fn flag_behind(taken: bool, from: u16, to: u16) -> bool
    ensures { result ≡ (taken || ltb from to) }
{
    taken || from < to
}

// Reads node l from position i on and writes its bits from bit `at` on, by calls for its parts. `taken` is the flag. Rounds are a loop, so
// that calls go no deeper than the tree, however many rounds there are. A sequence's second part and an alternative's side are swept by one
// call at the end: each call in the text takes room in every frame.
pub fn sweep(
    table: &[u64; 64],
    words: &[u64],
    tape: &[u8],
    l: usize,
    i: u16,
    taken: bool,
    code: &mut [u8],
    at: u32,
) -> Swept
    requires { Good table.now × (l < 64) × Ready table.now words.now tape.now l i taken at }
    ensures { SweptAll table.now words.now tape.now l i taken at code.old code.new result }
{
    let mut here: Swept;
    let mut flag = taken;
    let last = match node_at(table, l) {
        Node::Leaf(leaf) => return sweep_leaf(leaf, tape, i, code, at),
        Node::Sequence(p, q) => {
            here = sweep(table, words, tape, p as usize, i, taken, code, at);
            flag = flag_behind(taken, i, here.position);
            q
        }
        Node::Alternative(p, q) => {
            here = Swept {
                position: i,
                at: at + 1,
            };
            choose(words, i, taken, p, q, code, at)
        }
        Node::Star(again, p) => {
            here = Swept { position: i, at };
            let size = tape.len() as u16;
            while goes_on(table, words, size, l, here.position, flag, again, p) {
                put_bit(code, here.at, again);
                let part = p as usize;
                let next = here.at + 1;
                here = sweep(table, words, tape, part, here.position, false, code, next);
                flag = true;
            }
            return stop(here.position, code, here.at, again);
        }
    };
    let from = here.position;
    // by way of `here`: else the result lies in memory on every way, and a leaf's is read whole right behind the writes of its two parts,
    // which takes as long as the leaf itself
    here = sweep(table, words, tape, last as usize, from, flag, code, here.at);
    here
}
