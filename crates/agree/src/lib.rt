// The third demand on one run: two codes are settled, each settled code again, and the two are compared.
// Nothing is built on it. It is apart because each of its edits costs a whole check, which would be settling's too.
#![tactic(auto)]

ghost use Rattle.std.specs.Prelude.{◌≡◌, true, ◌↔◌};
ghost use Rattle.canonical.specs.Demand.{Equal};
ghost use Rattle.agree.specs.Agree.{worked, ComesBack, Agrees};

use bits::bytes_for;
use canonical::canonicalize;
use refusals::Refusal;
use syntax::Pattern;

// Whether two codes are equal, in bit count and in every byte.
fn equal(one: &[u8], n: u32, two: &[u8], m: u32) -> bool
    ensures { (result ≡ true) ↔ Equal one.now two.now n m }
{
    n == m && one == two
}

// Settles two settled codes again, and says whether each came back as it was and the two are equal.
fn settle_again(
    p: Pattern,
    one: &[u8],
    n: u32,
    two: &[u8],
    m: u32,
    tape: &mut [u8],
    words: &mut [u64],
    again: &mut [u8],
) -> Result<bool, Refusal>
    ensures { ComesBack p one.now n two.now m
        (worked tape.old words.old again.old)
        (worked tape.new words.new again.new) result }
{
    let k = canonicalize(p, one, n, tape, words, again)?;
    let one_back = equal(one, n, &again[..bytes_for(k)], k);
    let l = canonicalize(p, two, m, tape, words, again)?;
    let two_back = equal(two, m, &again[..bytes_for(l)], l);
    Ok(one_back && two_back && equal(one, n, two, m))
}

// Runs the third demand: settles both codes, each settled code again, and answers whether the settled codes agree, or the cause of the first call
// that refused. Both codes are settled even where the first is refused, and the settled codes are left in front of a and b; tape and words are
// worked in, and what comes back of the second settling goes into `again`.
pub fn agree(
    p: Pattern,
    one: &[u8],
    n: u32,
    two: &[u8],
    m: u32,
    tape: &mut [u8],
    words: &mut [u64],
    a: &mut [u8],
    b: &mut [u8],
    again: &mut [u8],
) -> Result<bool, Refusal>
    ensures { Agrees p one.now n two.now m
        (worked tape.old words.old again.old)
        (worked tape.new words.new again.new)
        a.old a.new b.old b.new result }
{
    let first = canonicalize(p, one, n, tape, words, a);
    let second = canonicalize(p, two, m, tape, words, b);
    let (k, l) = (first?, second?);
    settle_again(
        p,
        &a[..bytes_for(k)],
        k,
        &b[..bytes_for(l)],
        l,
        tape,
        words,
        again,
    )
}
