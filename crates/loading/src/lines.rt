// The lines of a pattern text, read once from front to back.
ghost use Rattle.std.specs.Prelude.{◌≡◌};
ghost use Rattle.fields.specs.Text.{forms, rows};
ghost use Rattle.loading.specs.ReadLines.{read_as};

use refusals::Refusal;
use scanning::scan_line;
use syntax::Pattern;

// The table of a text's lines, or the first form fault.
pub(crate) fn read_lines(text: &[u8]) -> Result<Pattern, Refusal>
    ensures { result ≡ read_as (forms 0 (rows text.now)) }
{
    let mut p = Pattern::new();
    let mut at = 0;
    // Kept: the scope has the scan over lines as a loop that yields the faulty line by break.
    let fault = loop {
        if text.len() <= at {
            break None;
        }
        let i = p.count;
        if i == Pattern::MAX_LINES {
            break Some(Pattern::MAX_LINES);
        }
        let Some((line, next)) = scan_line(text, at, i) else {
            break Some(i);
        };
        p.lines[i] = line;
        p.count = i + 1;
        at = next;
    };
    match fault {
        Some(line) => Err(Refusal::LineForm(line as u32)),
        None => Ok(p),
    }
}
