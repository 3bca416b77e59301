// Which nodes are named as parts, and the first tree fault of a table.
ghost use Rattle.std.specs.Prelude.{◌≡◌, ◌≤◌};
ghost use Rattle.syntax.specs.Table.{parts, tree_fault};
ghost use Rattle.syntax.specs.Naming.{name_one, name_all, NamesWrongly, first_unnamed};

use super::{Node, Pattern};

// For each node, whether it is named.
type Flags = [bool; Pattern::MAX_LINES];

// Names one part of the node in line i: which nodes are named then, nothing where the part is wrongly named.
#[tactic(auto, unfolding(crate::specs::Naming::name_one))]
fn name_part(mut named: Flags, i: usize, part: u8) -> Option<Flags>
    requires { i ≤ 64 }
    ensures { result ≡ name_one i named part }
{
    let q = usize::from(part);
    if i <= q || named[q] {
        return None;
    }
    named[q] = true;
    Some(named)
}

// Names the parts of the node in line i: which nodes are named then, nothing where a part is wrongly named.
fn name_parts(named: Flags, i: usize, node: Node) -> Option<Flags>
    requires { i ≤ 64 }
    ensures { result ≡ name_all i named (parts node) }
{
    match node {
        Node::Leaf(_) => Some(named),
        Node::Sequence(p, q) | Node::Alternative(p, q) => name_part(name_part(named, i, p)?, i, q),
        Node::Star(_, p) => name_part(named, i, p),
    }
}

// Which nodes are named, or the first line with a wrongly named part.
fn names_of(p: Pattern) -> Result<Flags, usize>
    requires { p.count ≤ 64 }
    ensures { NamesWrongly p result }
{
    let mut named = [false; Pattern::MAX_LINES];
    let mut i = 0;
    // Kept: the scope has the scan over lines as a loop that yields the faulty line by break.
    let fault = loop {
        if p.count <= i {
            break None;
        }
        let Some(next) = name_parts(named, i, p.lines[i].node) else {
            break Some(i);
        };
        named = next;
        i += 1;
    };
    match fault {
        Some(line) => Err(line),
        None => Ok(named),
    }
}

// The lowest node but the last that is not named.
fn unnamed_of(named: Flags, count: usize) -> Option<usize>
    requires { count ≤ 64 }
    ensures { result ≡ first_unnamed named count }
{
    let mut l = 0;
    // Kept: the scope has the scan over lines as a loop that yields the faulty line by break.
    loop {
        if count <= l + 1 {
            break None;
        }
        if !named[l] {
            break Some(l);
        }
        l += 1;
    }
}

// The line of the first tree fault: the first with a wrongly named part, or else the lowest but the last that no line names.
#[tactic(auto, using(crate::specs::Names::fault_wrong, crate::specs::Names::fault_unnamed))]
pub fn tree_fault_of(p: Pattern) -> Option<usize>
    requires { p.count ≤ 64 }
    ensures { result ≡ tree_fault p }
{
    match names_of(p) {
        Ok(named) => unnamed_of(named, p.count),
        Err(line) => Some(line),
    }
}
