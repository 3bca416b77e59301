// Litres by account. The entries of the code are gathered into arrays of the service's own, and nothing is added before the whole code is tested.
#![tactic(auto)]

ghost use Rattle.std.specs.Prelude.{◌≡◌, ◌≤◌, length};
ghost use Rattle.syntax.specs.Letter.{letter_limit};
ghost use Rattle.semantics.specs.Accounts.{litres, totals};
ghost use Rattle.entries.specs.Gather.{pairs, Owned};
ghost use Rattle.totals.specs.Totals.{totalled_litres, Totals};

use entries::gather;
use refusals::Refusal;
use syntax::Pattern;

#[tactic(auto, unfolding(semantics::specs::Accounts::litres))]
fn litres_of(c: u8) -> u32
    ensures { result ≡ litres c }
{
    match c {
        b'0'..=b'9' => u32::from(c - b'0'),
        _ => 0,
    }
}

// The totals of the first n entries. No sum passes nine litres a letter. Public for terms, which select before they add.
pub fn add_up(letters: &[u8], accounts: &[u8], n: usize) -> [u32; Pattern::ACCOUNTS]
    requires { (n ≤ length letters.now) × (n ≤ letter_limit) × Owned accounts.now n }
    ensures { result ≡ totals (pairs n letters.now accounts.now) }
{
    let mut sums = [0; Pattern::ACCOUNTS];
    for (&c, &account) in letters[..n].iter().zip(&accounts[..n]) {
        sums[usize::from(account)] += litres_of(c);
    }
    sums
}

// The litres of accounts 0 to `Pattern::MAX_ACCOUNT`. The whole code is walked before anything is added.
pub fn totals(p: Pattern, code: &[u8], count: u32) -> Result<[u32; Pattern::ACCOUNTS], Refusal>
    ensures { Totals p code.now count result }
{
    let mut letters = [0; Pattern::MAX_LETTERS];
    let mut accounts = [0; Pattern::MAX_LETTERS];
    let n = gather(p, code, count, &mut letters, &mut accounts)?;
    Ok(add_up(&letters, &accounts, n))
}

// The litres of all accounts, 0 of each where totalling is refused.
pub fn totalled_litres(
    totalled: Result<[u32; Pattern::ACCOUNTS], Refusal>,
) -> [u32; Pattern::ACCOUNTS]
    ensures { result ≡ totalled_litres totalled }
{
    totalled.unwrap_or([0; Pattern::ACCOUNTS])
}
