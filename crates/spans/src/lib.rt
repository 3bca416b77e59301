// Services on codes: the spans of a code's visits.
// They are apart from crate codes because no other service needs their walk and its laws. Whether the code is the tape's is asked of
// `codes::spells`, so that a code is tested once and `find` goes over one that is known to be whole.
#![tactic(auto)]

ghost use Rattle.std.specs.Prelude.{◌≡◌};
ghost use Rattle.spans.specs.Spans.{Spans, span_shown};
ghost use Rattle.spans.specs.Parts.{Part-of-tape};

mod find; // find.rt: the walk that looks for a visit

use checks::check_tape;
use codes::spells;
pub use find::Span;
use find::find;
use refusals::Refusal;
use syntax::Pattern;
use table::table_of;

// Start and length of a visit's piece. A visit is looked for only when the tape is taken and the code is known to be the tape's.
pub fn span(
    p: Pattern,
    tape: &[u8],
    code: &[u8],
    count: u32,
    node: u32,
    visit: u32,
) -> Result<Span, Refusal>
    ensures { Spans p tape.now code.now count node visit result }
{
    check_tape(p, tape)?;
    let table = table_of(p);
    let root = p.count - 1;
    if !spells(&table, root, code, count, tape) {
        return Err(Refusal::NotACode);
    }
    let found = find(&table, root, code, count, 0, 0, node, visit);
    found.break_value().ok_or(Refusal::NoSuchVisit)
}

// The part of the tape that a visit covers, where it lies in the tape; empty if refused.
pub fn piece<'a>(
    p: Pattern,
    tape: &'a [u8],
    code: &[u8],
    count: u32,
    node: u32,
    visit: u32,
) -> &'a [u8]
    ensures { Part-of-tape (span_shown p tape.now code.now count node visit) tape.entry result }
{
    let shown = span(p, tape, code, count, node, visit).unwrap_or_default();
    let from = shown.start as usize;
    let to = from + shown.length as usize;
    &tape[from..to]
}
