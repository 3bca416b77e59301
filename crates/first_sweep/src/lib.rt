// The first sweep: the state sets of a tape's positions (01: marks), from the tape's end to its start. `fill` has the tape as a whole, and
// counts its words from the first position; `put_end` and `grow` have it in pages, the latest letters first, and count from the end.
#![tactic(auto)]

ghost use Rattle.std.specs.Prelude.{◌≡◌, [], ◌+◌, ◌*◌, ◌≤◌, ◌<◌, eqb, length, get_or};
ghost use Rattle.std.proofs.lemmas.List.Edits.{sets};
ghost use Rattle.syntax.specs.Letter.{letter_limit};
ghost use Rattle.syntax.specs.TreeLaws.{Rules};
ghost use Rattle.bits.specs.Bits.{in_front};
ghost use Rattle.table.specs.Cells.{Holds};
ghost use Rattle.steps.specs.StateSets.{words as words_of};
ghost use Rattle.first_sweep.specs.Sweep.{cell_at, stored_step, PutsWords, Sweepable, Sweeps};
ghost use Rattle.first_sweep.specs.Fill.{Fillable};
ghost use Rattle.first_sweep.specs.Tail.{tail_words};
ghost use Rattle.first_sweep.specs.Grow.{grown};
ghost use Rattle.first_sweep.specs.Growing.{Growable};

use masks::scatter::put_takers;
use masks::{LETTER_CELLS, put_masks};
use steps::memory::Memo;
use steps::step;
use syntax::Pattern;

// How many steps of a fill are noted at most, and how many of a page. Tapes of readings need fewer; a tape with more new steps would pay more for
// noting them than it gains.
const FILL_NOTES: u64 = 192;

const PAGE_NOTES: u64 = 32;

// What a sweep over some letters starts from, and where their words go.
#[derive(Clone, Copy)]
struct Start {
    // The flag 1 word of the position after the letters, and whether that position is the tape's end: the word does not say it.
    next: u64,
    last: bool,
    // How many letters the tape has, from the first of these on, and whether words are counted from its end.
    count: usize,
    turned: bool,
    // How many steps are noted at most.
    notes: u64,
}

// What steps are made from: the masks of a pattern, and its table.
#[derive(Clone, Copy)]
struct Masks<'a> {
    zero: &'a [u64; 64],
    one: &'a [u64; 64],
    table: &'a [u64; 64],
    takers: &'a [u64; LETTER_CELLS],
}

// The cell of a position's flag 0 word.
fn cell_of(count: usize, turned: bool, i: usize) -> usize
    requires { (i ≤ count) × (count ≤ letter_limit) }
    ensures { result ≡ cell_at count turned i }
{
    if turned { 2 * (count - i) } else { 2 * i }
}

// The two words of a position, that of flag 0 first.
fn put_words(words: &mut [u64], at: usize, zero: u64, one: u64)
    requires { at + 1 < length words.old }
    ensures { PutsWords zero one at words.old words.new }
{
    words[at] = zero;
    words[at + 1] = one;
}

// The state sets of some letters, over the masks of a pattern, from the last letter to the first, by noted steps as long as pairs are numbered. Tapes
// and pages share this loop. The cell of a position is computed for each letter, and that cannot be seen in the time of either (measured).
fn sweep(masks: Masks, letters: &[u8], start: Start, words: &mut [u64])
    requires { Sweepable letters.now start.count words.old }
    ensures { Sweeps (stored_step masks.entry.zero.now masks.entry.one.now masks.entry.table.now masks.entry.takers.now) start letters.now words.old words.new }
{
    let mut memo = Memo::new(start.notes);
    let mut next = start.next;
    let mut last = start.last;
    let mut pair = None;
    for i in (0..letters.len()).rev() {
        let k = masks.takers[letters[i] as usize];
        let w = match memo.known(k, pair) {
            Some(n) => {
                pair = Some(n);
                memo.pairs[n]
            }
            None => {
                let w = step(masks.zero, masks.one, masks.table, k, next, last);
                pair = memo.learn(k, pair, w);
                w
            }
        };
        put_words(words, cell_of(start.count, start.turned, i), w.zero, w.one);
        next = w.one;
        last = false;
    }
}

// THE FIRST SWEEP: fills words 2i and 2i + 1 with the state sets of position i, flag 0 and flag 1, for each position of the tape, its end
// included. No other word changes. The parser's service makes the tests that this asks for, and the table.
pub fn fill(p: Pattern, table: &[u64; 64], tape: &[u8], words: &mut [u64])
    requires { Fillable p tape.now words.old × Holds p table.now }
    ensures { words.new ≡ in_front (words_of p tape.now) words.old }
{
    let mut zero = [0u64; 64];
    let mut one = [0u64; 64];
    let end = put_masks(table, p.count, &mut zero, &mut one);
    let mut takers = [0u64; LETTER_CELLS];
    put_takers(table, p.count, &mut takers);
    let n = tape.len();
    put_words(words, 2 * n, 0, end);
    let start = Start {
        next: end,
        last: true,
        count: n,
        turned: false,
        notes: FILL_NOTES,
    };
    let masks = Masks {
        zero: &zero,
        one: &one,
        table,
        takers: &takers,
    };
    sweep(masks, tape, start, words);
}

// GROWING: the words of a page that is put before the letters held, from word 2 × (held + 1) on, those of the page's last letter first. It
// starts from the flag 1 word of the letters held as it stands. No other word changes.
pub fn grow(p: Pattern, table: &[u64; 64], page: &[u8], held: usize, words: &mut [u64])
    requires { Growable p page.now held words.old × Holds p table.now }
    ensures { words.new ≡
        sets words.old (2 * (held + 1)) (grown p (get_or words.old (2 * held + 1) 0) (eqb held 0) page.now) }
{
    let mut zero = [0u64; 64];
    let mut one = [0u64; 64];
    put_masks(table, p.count, &mut zero, &mut one);
    let mut takers = [0u64; LETTER_CELLS];
    put_takers(table, p.count, &mut takers);
    let next = words[2 * held + 1];
    let count = held + page.len();
    let start = Start {
        next: next,
        last: held == 0,
        count: count,
        turned: true,
        notes: PAGE_NOTES,
    };
    let masks = Masks {
        zero: &zero,
        one: &one,
        table,
        takers: &takers,
    };
    sweep(masks, page, start, words);
}

// The two words of the tape's end, from which pages grow. No other word changes.
pub fn put_end(p: Pattern, table: &[u64; 64], words: &mut [u64])
    requires { Rules p × Holds p table.now × (2 ≤ length words.old) }
    ensures { words.new ≡ in_front (tail_words p []) words.old }
{
    let mut zero = [0u64; 64];
    let mut one = [0u64; 64];
    let end = put_masks(table, p.count, &mut zero, &mut one);
    put_words(words, 0, 0, end);
}
