// Loading a pattern: the table that a text writes, or the first line at fault.
// It is apart from crate syntax because only callers with texts need it. A text is read from front to back and no further than decides it; crate
// scanning reads a line, crate fields a field.
#![tactic(auto)]

ghost use Rattle.std.specs.Prelude.{◌≡◌};
ghost use Rattle.loading.specs.Load.{Loads, load_table};

mod lines; // lines.rt: the lines of a text

use lines::read_lines;
use refusals::Refusal;
use syntax::Pattern;
use syntax::naming::tree_fault_of;

// Loads a pattern text: the table that it writes, or the first line at fault.
pub fn load(text: &[u8]) -> Result<Pattern, Refusal>
    ensures { Loads text.now result }
{
    let pattern = read_lines(text)?;
    if pattern.count == 0 {
        return Err(Refusal::LineForm(0));
    }
    match tree_fault_of(pattern) {
        Some(line) => Err(Refusal::Tree(line as u32)),
        None => Ok(pattern),
    }
}

// The table of a text, whatever text it is. One that is refused has a table of no lines, which every service refuses.
pub fn pattern_of(text: &[u8]) -> Pattern
    ensures { result ≡ load_table text.now }
{
    match load(text) {
        Ok(pattern) => pattern,
        Err(_) => Pattern::new(),
    }
}
