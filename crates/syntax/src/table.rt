// The form of a table's lines: letters, ranges and accounts.
ghost use Rattle.std.specs.Prelude.{◌≡◌, ◌&&◌, ◌≤◌, leb};
ghost use Rattle.syntax.specs.Letter.{is_letter};
ghost use Rattle.syntax.specs.Table.{leaf_good, node_good, line_good, badly_formed, is_none, lowest};

use super::{Leaf, Line, Node, Pattern, is_letter};

fn good_range(a: u8, b: u8) -> bool
    ensures { result ≡ ((is_letter a && is_letter b) && leb a b) }
{
    is_letter(a) && is_letter(b) && a <= b
}

fn good_leaf(leaf: Leaf) -> bool
    ensures { result ≡ leaf_good leaf }
{
    match leaf {
        Leaf::Nothing => true,
        Leaf::Letter(c) => is_letter(c),
        Leaf::Range(a, b) => good_range(a, b),
    }
}

fn good_node(node: Node) -> bool
    ensures { result ≡ node_good node }
{
    match node {
        Node::Leaf(leaf) => good_leaf(leaf),
        Node::Sequence(_, _) | Node::Alternative(_, _) | Node::Star(_, _) => true,
    }
}

#[tactic(auto, unfolding(crate::specs::Table::line_good))]
fn good_line(line: Line) -> bool
    ensures { result ≡ line_good line }
{
    line.account <= Pattern::MAX_ACCOUNT && good_node(line.node)
}

pub(crate) fn good_lines(p: Pattern) -> bool
    requires { p.count ≤ 64 }
    ensures { result ≡ is_none (lowest (badly_formed p) 0 p.count) }
{
    p.lines[..p.count].iter().all(|line| good_line(*line))
}
