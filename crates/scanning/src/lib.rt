// One line of a pattern text, read field by field. A line is refused as soon as a field decides it.
#![tactic(auto)]

ghost use Rattle.std.specs.Prelude.{◌≡◌, ◌≤◌, ◌<◌, ◌⊎◌, length, drop, MatchOption, true, false};
ghost use Rattle.syntax.specs.Letter.{is_letter};
ghost use Rattle.fields.specs.Text.{single, when, node_of_none, node_of_one, range_of, node_of_two, node_of};
ghost use Rattle.fields.specs.Fields.{FieldAt, field_size};
ghost use Rattle.scanning.specs.Scans.{behind, scanned};

use fields::{ACCOUNT_BYTES, FIELD_BYTES, Field, account_of, field_from, place_of, single_of};
use syntax::{Leaf, Line, Node, is_letter};

// The letter that a field holds.
#[tactic(auto, using(crate::specs::Parsing::letter_none, crate::specs::Parsing::letter_some))]
fn letter_of(field: &[u8]) -> Option<u8>
    ensures { result ≡ when (is_letter (single field.now)) (single field.now) }
{
    let c = single_of(field)?;
    is_letter(c).then_some(c)
}

// The node of a kind that needs no field.
#[tactic(auto, unfolding(fields::specs::Text::node_of_none))]
fn parse_none(kind: u8) -> Option<Node>
    ensures { result ≡ node_of_none kind }
{
    match kind {
        b'E' => Some(Node::Leaf(Leaf::Nothing)),
        _ => None,
    }
}

// The node of a kind and the one field that it needs: a letter, or a star of either kind, which takes another round for the bit that it has.
#[tactic(auto, unfolding(fields::specs::Text::node_of_one))]
fn parse_one(kind: u8, x: &[u8]) -> Option<Node>
    ensures { result ≡ node_of_one kind x.now }
{
    match kind {
        b'L' => Some(Node::Leaf(Leaf::Letter(letter_of(x)?))),
        b'K' => Some(Node::Star(false, place_of(x)?)),
        b'Z' => Some(Node::Star(true, place_of(x)?)),
        _ => None,
    }
}

// The range of two fields, the first letter not above the second.
#[tactic(auto, unfolding(fields::specs::Text::range_of))]
fn parse_range(x: &[u8], y: &[u8]) -> Option<Node>
    ensures { result ≡ range_of (single x.now) (single y.now) }
{
    let a = letter_of(x)?;
    let b = letter_of(y)?;
    if a <= b {
        Some(Node::Leaf(Leaf::Range(a, b)))
    } else {
        None
    }
}

// The node of a kind and the two fields that it needs: a range, a sequence or a choice.
#[tactic(auto, unfolding(fields::specs::Text::node_of_two, fields::specs::Text::parts_of))]
fn parse_two(kind: u8, x: &[u8], y: &[u8]) -> Option<Node>
    ensures { result ≡ node_of_two kind x.now y.now }
{
    match kind {
        b'R' => parse_range(x, y),
        b'S' => Some(Node::Sequence(place_of(x)?, place_of(y)?)),
        b'A' => Some(Node::Alternative(place_of(x)?, place_of(y)?)),
        _ => None,
    }
}

// The field behind another, as `field_from` reads it; none where that is its line's last.
fn field_behind<'a>(text: &'a [u8], field: Field, within: usize) -> Option<Field<'a>>
    requires { field.next ≤ length text.now }
    ensures { MatchOption result
        ((field.entry.last ≡ true) ⊎ (field_size within (drop field.entry.next text.now) ≡ None))
        (λ f. ((field.entry.last ≡ false) × FieldAt text.now field.entry.next f.bytes.now f.last f.next)
        × (length f.bytes.now < within)) }
{
    if field.last {
        None
    } else {
        field_from(text, field.next, within)
    }
}

// The node that a kind and the fields behind the account's write, with the position behind the line.
#[tactic(auto, using(fields::specs::Fields::next_inside, crate::specs::Scanning::node_alone, crate::specs::Scanning::node_no_field, crate::specs::Scanning::node_no_second_field, crate::specs::Scanning::node_more))]
fn scan_node(text: &[u8], kind: u8, account: Field) -> Option<(Node, usize)>
    requires { account.next ≤ length text.now }
    ensures { result ≡ behind (node_of kind) text.now account.entry.last account.entry.next }
{
    if account.last {
        return Some((parse_none(kind)?, account.next));
    }
    let x = field_from(text, account.next, FIELD_BYTES)?;
    if x.last {
        return Some((parse_one(kind, x.bytes)?, x.next));
    }
    let y = field_from(text, x.next, FIELD_BYTES)?;
    if y.last {
        return Some((parse_two(kind, x.bytes, y.bytes)?, y.next));
    }
    None
}

// Line i of the text, which begins at position `at`, with the position behind it. None where the line's form is at fault.
#[tactic(auto, using(fields::specs::Fields::next_inside, fields::specs::Fields::below_none, fields::specs::Fields::below_some, crate::specs::Scanning::line_no_field, crate::specs::Scanning::line_misplaced))]
pub fn scan_line(text: &[u8], at: usize, i: usize) -> Option<(Line, usize)>
    requires { (at ≤ length text.now) × (i < 64) }
    ensures { result ≡ scanned i at (drop at text.now) }
{
    let place = field_from(text, at, FIELD_BYTES)?;
    if usize::from(place_of(place.bytes)?) != i {
        return None;
    }
    let kind = field_behind(text, place, FIELD_BYTES)?;
    let number = field_behind(text, kind, ACCOUNT_BYTES)?;
    let account = account_of(number.bytes)?;
    let (node, next) = scan_node(text, single_of(kind.bytes)?, number)?;
    Some((Line { account, node }, next))
}
