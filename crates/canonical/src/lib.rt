// Settling a code: it is spelled, and what it spells is read. 01: the settled code; here: the canonical code.
// The third demand (specs/Demand) rests on the contracts of the two stages and on the theory, never on this text.
#![tactic(auto)]

ghost use Rattle.canonical.specs.Canonicalize.{Canonicalizes};

use codes::flatten;
use parser::parse;
use refusals::Refusal;
use syntax::Pattern;

// Settles a code: the bit count of the settled code, which is written in front of `canonical`, or the first cause in the service's order. The letters
// come to stand in front of `tape`, and `words` is worked in.
pub fn canonicalize(
    p: Pattern,
    code: &[u8],
    count: u32,
    tape: &mut [u8],
    words: &mut [u64],
    canonical: &mut [u8],
) -> Result<u32, Refusal>
    ensures { Canonicalizes p code.now count tape.old tape.new
        words.old words.new canonical.old canonical.new result }
{
    // Kept: the scope has each stage's answer taken apart by `let .. else`, which passes its refusal on.
    let flattened = flatten(p, code, count, tape);
    let Ok(n) = flattened else {
        return flattened;
    };
    let parsed = parse(p, &tape[..n as usize], words, canonical);
    let Ok(bits) = parsed else {
        return parsed;
    };
    Ok(bits)
}
