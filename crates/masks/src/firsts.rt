// First and nullable, Glushkov's sets of a node: the leaves inside it that can be reached by empty steps, and whether empty steps lead through it.
// They go up: a line's are made of its parts'.
ghost use Rattle.std.specs.Prelude.{◌≡◌, ◌≤◌, ◌<◌, length};
ghost use Rattle.syntax.specs.TreeLaws.{Below};
ghost use Rattle.table.specs.Cells.{line_in, node_in, Good};
ghost use Rattle.masks.specs.Firsts.{leaf_first, in_turn, either_of, first_line, first_here, Firsts};

use super::join;
use syntax::{Leaf, Node};
use table::{first_part, node_at, second_part};

#[derive(Clone, Copy, Default)]
pub struct First {
    pub leaves: u64,
    pub nullable: bool,
}

fn leaf_first(leaf: Leaf, i: usize) -> First
    requires { i < 64 }
    ensures { result ≡ leaf_first i leaf }
{
    match leaf {
        Leaf::Nothing => First {
            leaves: 0,
            nullable: true,
        },
        Leaf::Letter(_) | Leaf::Range(_, _) => First {
            leaves: 1 << i,
            nullable: false,
        },
    }
}

// One part after the other: the second counts where the first is nullable.
fn in_turn(a: First, b: First) -> First
    ensures { result ≡ in_turn a b }
{
    First {
        leaves: join(a.leaves, b.leaves, a.nullable),
        nullable: a.nullable && b.nullable,
    }
}

fn either_of(a: First, b: First) -> First
    ensures { result ≡ either_of a b }
{
    First {
        leaves: a.leaves | b.leaves,
        nullable: a.nullable || b.nullable,
    }
}

// The first of line i, from those of its first and second part.
fn first_of(node: Node, i: usize, a: First, b: First) -> First
    requires { i < 64 }
    ensures { result ≡ first_line i node a b }
{
    match node {
        Node::Leaf(leaf) => leaf_first(leaf, i),
        Node::Sequence(_, _) => in_turn(a, b),
        Node::Alternative(_, _) => either_of(a, b),
        Node::Star(_, _) => First {
            leaves: a.leaves,
            nullable: true,
        },
    }
}

// The first of line i, from those of the lines below it.
fn line_first(table: &[u64; 64], i: usize, firsts: &[First; 64]) -> First
    requires { (i < 64) × Below i (node_in table.now i) }
    ensures { result ≡ first_here (line_in table.now) i firsts.now }
{
    let node = node_at(table, i);
    let a = firsts[first_part(node, i)];
    let b = firsts[second_part(node, i)];
    first_of(node, i, a, b)
}

// The firsts of all lines, into a lent array.
pub(crate) fn put_firsts(table: &[u64; 64], count: usize, firsts: &mut [First; 64])
    requires { (count ≤ 64) × Good table.now × (length firsts.old ≡ 64) }
    ensures { Firsts (line_in table.now) count firsts.new }
{
    for i in 0..count {
        firsts[i] = line_first(table, i, firsts);
    }
}
