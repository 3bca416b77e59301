// The walk over a code that looks for a visit of a node, on a code that is known to be whole. Rounds are a loop, so that calls go no deeper than
// the tree, however many rounds there are.
// A visit is found before its size is known, so the search goes on into its parts. It finds nothing there, since no node stands inside itself, and
// the visit ends at the letter where that search ends.
ghost use Rattle.std.specs.Prelude.{◌≡◌, cond, ◌&&◌, ◌*◌, ◌-◌, ◌≤◌, ◌<◌, eqb, length};
ghost use Rattle.semantics.specs.Code.{code_limit};
ghost use Rattle.table.specs.Cells.{Good, tree_in};
ghost use Rattle.spans.specs.Traces.{trace_at, inside_at, end_of, ended};
ghost use Rattle.spans.specs.TraceLaws.{step_of};
ghost use Rattle.spans.specs.Seeks.{Seeking, Finds};

use std::ops::ControlFlow;
use syntax::{Leaf, Node};
use table::node_at;
use walks::{side_at, stops_at};

// Where the piece of a visit starts and how long it is, in letters of the tape.
#[derive(Clone, Copy, Default)]
pub struct Span {
    pub start: u32,
    pub length: u32,
}

// Visits were passed: the bit of the code and the letter of the tape where the search goes on, and how many visits are still to be passed.
#[derive(Clone, Copy)]
pub struct Passed {
    pub at: u32,
    pub letter: u32,
    pub left: u32,
}

// How many bits a leaf takes, and how many letters.
#[derive(Clone, Copy)]
pub struct Step {
    pub bits: u32,
    pub letters: u32,
}

fn step_of(leaf: Leaf) -> Step
    ensures { result ≡ step_of leaf }
{
    let (bits, letters) = match leaf {
        Leaf::Nothing => (0, 0),
        Leaf::Letter(_) => (0, 1),
        Leaf::Range(_, _) => (8, 1),
    };
    Step { bits, letters }
}

fn is_here(l: usize, node: u32, k: u32) -> bool
    ensures { result ≡ (eqb l node && eqb k 0) }
{
    l == node as usize && k == 0
}

// How many visits are left to pass inside node l: one fewer if its own is passed.
fn left_inside(l: usize, node: u32, k: u32) -> u32
    ensures { result ≡ cond (eqb l node) (k - 1) k }
{
    if l == node as usize {
        k.saturating_sub(1)
    } else {
        k
    }
}

// The visit that starts at letter `start` and ends where the search of its parts ended. A part that was found is handed on, which never comes.
fn ended(start: u32, inside: ControlFlow<Span, Passed>) -> ControlFlow<Span, Passed>
    requires { start ≤ end_of start inside }
    ensures { result ≡ ended start inside }
{
    let length = inside?.letter - start;
    ControlFlow::Break(Span { start, length })
}

// Looks for visit k of a node among those of node l, whose bits start at `at` and whose letters start at `i`. The visit breaks the search.
#[cycle(find_find_inside)]
pub(crate) fn find(
    table: &[u64; 64],
    l: usize,
    code: &[u8],
    count: u32,
    at: u32,
    i: u32,
    node: u32,
    k: u32,
) -> ControlFlow<Span, Passed>
    requires good { Good table.now }
    requires l_bound { (l < 64) × (at ≤ count) × (count ≤ 8 * length code.now) × (count ≤ code_limit) }
    requires seeking { Seeking (trace_at code.now count (tree_in table.now l) at) i }
    ensures { Finds (trace_at code.now count (tree_in table.now l) at) i node k result }
{
    let left = left_inside(l, node, k);
    let inside = find_inside(table, l, code, count, at, i, node, left);
    if is_here(l, node, k) {
        ended(i, inside)
    } else {
        inside
    }
}

// Looks among the visits inside node l, without its own.
#[cycle(find_find_inside)]
fn find_inside(
    table: &[u64; 64],
    l: usize,
    code: &[u8],
    count: u32,
    at: u32,
    i: u32,
    node: u32,
    k: u32,
) -> ControlFlow<Span, Passed>
    requires good { Good table.now }
    requires l_bound { (l < 64) × (at ≤ count) × (count ≤ 8 * length code.now) × (count ≤ code_limit) }
    requires seeking { Seeking (inside_at code.now count (tree_in table.now l) at) i }
    ensures { Finds (inside_at code.now count (tree_in table.now l) at) i node k result }
{
    match node_at(table, l) {
        Node::Leaf(leaf) => {
            let step = step_of(leaf);
            ControlFlow::Continue(Passed {
                at: at + step.bits,
                letter: i + step.letters,
                left: k,
            })
        }
        Node::Sequence(p, q) => {
            let one = find(table, usize::from(p), code, count, at, i, node, k)?;
            find(
                table,
                usize::from(q),
                code,
                count,
                one.at,
                one.letter,
                node,
                one.left,
            )
        }
        Node::Alternative(p, q) => {
            let side = side_at(code, at, p, q);
            find(table, usize::from(side), code, count, at + 1, i, node, k)
        }
        Node::Star(again, p) => {
            let part = usize::from(p);
            let mut here = Passed {
                at,
                letter: i,
                left: k,
            };
            while !stops_at(code, here.at, again) {
                here = find(
                    table,
                    part,
                    code,
                    count,
                    here.at + 1,
                    here.letter,
                    node,
                    here.left,
                )?;
            }
            ControlFlow::Continue(Passed {
                at: here.at + 1,
                ..here
            })
        }
    }
}
