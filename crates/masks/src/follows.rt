// Follow, Glushkov's set of a node: the leaves that can be reached after it by empty steps. It goes down: a line hands on to its parts.
ghost use Rattle.std.specs.Prelude.{◌≡◌, ◌<◌, length};
ghost use Rattle.syntax.specs.TreeLaws.{Below};
ghost use Rattle.table.specs.Cells.{line_in};
ghost use Rattle.table.specs.HandDown.{Rooted};
ghost use Rattle.masks.specs.Firsts.{Firsts};
ghost use Rattle.masks.specs.Follows.{leaves_of, before_second, before_round, to_first, Handed, Down};

use super::firsts::First;
use super::join;
use syntax::Node;
use table::{first_part, node_at, second_part};

// Leaves that can be reached after a node by empty steps, with flag 0 and with flag 1; and whether the end can be, with flag 1.
#[derive(Clone, Copy, Default)]
pub struct Follow {
    pub zero: u64,
    pub one: u64,
    pub end: bool,
}

impl Follow {
    pub(crate) fn leaves(self, flag: bool) -> u64
        ensures { result ≡ leaves_of self flag }
    {
        if flag { self.one } else { self.zero }
    }
}

// The follow of the first part of a sequence: the first of the second part, and the follow of that where it is nullable.
fn before_second(second: First, follow: Follow) -> Follow
    ensures { result ≡ before_second second follow }
{
    Follow {
        zero: join(second.leaves, follow.zero, second.nullable),
        one: join(second.leaves, follow.one, second.nullable),
        end: second.nullable && follow.end,
    }
}

// The follow of a star's child: the star, with flag 1 only.
fn before_round(child: First, follow: Follow) -> Follow
    ensures { result ≡ before_round child follow }
{
    Follow {
        zero: 0,
        one: child.leaves | follow.one,
        end: follow.end,
    }
}

// The follow of the first part of a line, from the first of its second part and the follow of the line.
fn to_first(node: Node, second: First, follow: Follow) -> Follow
    ensures { result ≡ to_first second node follow }
{
    match node {
        Node::Leaf(_) | Node::Alternative(_, _) => follow,
        Node::Sequence(_, _) => before_second(second, follow),
        Node::Star(_, _) => before_round(second, follow),
    }
}

// Line i hands on to its parts, from the first of its second part.
fn hand_on(node: Node, i: usize, second: First, follows: &mut [Follow; 64])
    requires { (i < 64) × Below i node × (length follows.old ≡ 64) }
    ensures { Handed i node second follows.old follows.new }
{
    let follow = follows[i];
    follows[second_part(node, i)] = follow;
    follows[first_part(node, i)] = to_first(node, second, follow);
}

// What follows each line, into a lent array. The end follows the last line.
pub(crate) fn put_follows(
    table: &[u64; 64],
    count: usize,
    firsts: &[First; 64],
    follows: &mut [Follow; 64],
)
    requires { Rooted (line_in table.now) count × Firsts (line_in table.now) count firsts.now × (length follows.old ≡ 64) }
    ensures { Down (line_in table.now) count 0 follows.new }
{
    follows[count - 1] = Follow {
        end: true,
        ..Follow::default()
    };
    for i in (0..count).rev() {
        let node = node_at(table, i);
        hand_on(node, i, firsts[second_part(node, i)], follows);
    }
}
