// The entries of a code: each letter that it spells, with the account that its litres go to. One walk tests a code and writes them into two
// lent slices (`enter`). Totals, of a whole tape or of a term,
// begin with `gather`, which tests the table too and answers the causes of a code.
// The walk is not handed the bit count: over a whole code it stops behind the last bit, whatever bits follow, since no code begins another. It
// writes into arrays of the service's own, so that no cell of the caller's is touched before the code is known to be whole; where it is not, they
// hold anything and nobody reads them. Spelling and comparing lend no cells for accounts. Totals, of a whole tape or of a
// term, are a loop over what is written, and later tariffs are too.
#![tactic(auto)]

ghost use Rattle.std.specs.Prelude.{◌≡◌, true, ◌+◌, ◌*◌, ◌≤◌, ◌<◌, length, set};
ghost use Rattle.syntax.specs.Letter.{letter_limit};
ghost use Rattle.bits.specs.Bits.{byte_limit};
ghost use Rattle.semantics.specs.Accounts.{handed_down};
ghost use Rattle.table.specs.Cells.{Good, tree_in};
ghost use Rattle.walks.specs.Lines.{range_node};
ghost use Rattle.entries.specs.Entries.{leaf_tree};
ghost use Rattle.entries.specs.Entering.{Ready, cap, went, Enters};
ghost use Rattle.entries.specs.Measures.{Reads};
ghost use Rattle.entries.specs.Gather.{Gathers};

use bits::{byte_at, handed_good};
use refusals::Refusal;
use syntax::{Leaf, Node, Pattern, in_range, obeys_rules};
use table::{account_at, node_at, table_of};
use walks::{side_at, stops_at};

// Where a walk stopped: the position behind the bits read and the cell behind the entries.
#[derive(Clone, Copy)]
pub struct Entered {
    pub at: u32,
    pub n: u32,
}

// Stands for every number of letters above `Pattern::MAX_LETTERS`: a letter takes no bit, so that a short code may spell very many.
const MANY: u32 = Pattern::MAX_LETTERS as u32 + 1;

// The cell behind, up to `MANY`.
fn next_cell(n: u32) -> u32
    requires { n ≤ letter_limit + 1 }
    ensures { result ≡ cap (n + 1) }
{
    (n + 1).min(MANY)
}

// The account that a node hands down: what is handed the stale account hands it down; else its own, or the one from above if it has none.
fn handed_down(own: u8, above: u8) -> u8
    ensures { result ≡ handed_down own above }
{
    if above == Pattern::STALE_ACCOUNT || own == 0 {
        above
    } else {
        own
    }
}

// How many bits the bytes hold.
fn bits_in(code: &[u8]) -> u32
    requires { length code.now ≤ byte_limit }
    ensures { result ≡ length code.now * 8 }
{
    code.len() as u32 * 8
}

// A cell that was not lent is not written.
fn put_cell(cells: &mut [u8], n: u32, value: u8)
    ensures { cells.new ≡ set cells.old n value }
{
    // Kept: an index, since of a slice's `get_mut` a proof knows the length alone, and no cell.
    let i = n as usize;
    if i < cells.len() {
        cells[i] = value;
    }
}

// Writes an entry, a letter and its account, and answers where the walk goes on.
fn put_entry(
    letters: &mut [u8],
    accounts: &mut [u8],
    n: u32,
    c: u8,
    account: u8,
    at: u32,
) -> Entered
    requires { n ≤ letter_limit + 1 }
    ensures { (letters.new ≡ set letters.old n c) × (accounts.new ≡ set accounts.old n account)
        × (result ≡ went at (cap (n + 1))) }
{
    put_cell(letters, n, c);
    put_cell(accounts, n, account);
    Entered {
        at,
        n: next_cell(n),
    }
}

// A range takes eight bits, and only a letter of the range is a reading.
fn put_range(
    low: u8,
    high: u8,
    account: u8,
    code: &[u8],
    at: u32,
    letters: &mut [u8],
    accounts: &mut [u8],
    n: u32,
) -> Option<Entered>
    requires { Ready code.now letters.old accounts.old at n }
    ensures { Enters code.now (leaf_tree (range_node low high)) account at n
        letters.old accounts.old letters.new accounts.new result }
{
    if bits_in(code) < at + 8 {
        return None;
    }
    let c = byte_at(code, at);
    if !in_range(low, high, c) {
        return None;
    }
    Some(put_entry(letters, accounts, n, c, account, at + 8))
}

// A leaf that has been handed its account.
fn put_leaf(
    leaf: Leaf,
    account: u8,
    code: &[u8],
    at: u32,
    letters: &mut [u8],
    accounts: &mut [u8],
    n: u32,
) -> Option<Entered>
    requires { Ready code.now letters.old accounts.old at n }
    ensures { Enters code.now (leaf_tree leaf) account at n
        letters.old accounts.old letters.new accounts.new result }
{
    match leaf {
        Leaf::Nothing => Some(Entered { at, n }),
        Leaf::Letter(c) => Some(put_entry(letters, accounts, n, c, account, at)),
        Leaf::Range(low, high) => put_range(low, high, account, code, at, letters, accounts, n),
    }
}

// Writes the entries of node l, whose bits start at `at`, from cell n on; `above` is the account that the nodes above hand down. Rounds are a
// loop: calls go no deeper than the tree.
fn put_entries(
    table: &[u64; 64],
    l: usize,
    above: u8,
    code: &[u8],
    at: u32,
    letters: &mut [u8],
    accounts: &mut [u8],
    n: u32,
) -> Option<Entered>
    requires good { Good table.now × (l < 64) }
    requires ready { Ready code.now letters.old accounts.old at n }
    ensures { Enters code.now (tree_in table.now l) above at n
        letters.old accounts.old letters.new accounts.new result }
{
    let own = account_at(table, l);
    let owner = handed_down(own, above);
    match node_at(table, l) {
        Node::Leaf(leaf) => put_leaf(leaf, owner, code, at, letters, accounts, n),
        Node::Sequence(p, q) => {
            let first = usize::from(p);
            let second = usize::from(q);
            let one = put_entries(table, first, owner, code, at, letters, accounts, n)?;
            put_entries(table, second, owner, code, one.at, letters, accounts, one.n)
        }
        Node::Alternative(p, q) => {
            if bits_in(code) <= at {
                return None;
            }
            let side = usize::from(side_at(code, at, p, q));
            put_entries(table, side, owner, code, at + 1, letters, accounts, n)
        }
        Node::Star(again, p) => {
            let part = usize::from(p);
            let end = bits_in(code);
            let mut here = at;
            let mut m = n;
            while here < end {
                if stops_at(code, here, again) {
                    return Some(Entered { at: here + 1, n: m });
                }
                let one = put_entries(table, part, owner, code, here + 1, letters, accounts, m)?;
                here = one.at;
                m = one.n;
            }
            None
        }
    }
}

// Tests a code of node l and writes its entries in one walk, and answers how many letters it spells; None where it is no whole code, and the
// slices then hold anything.
pub fn enter(
    table: &[u64; 64],
    l: usize,
    code: &[u8],
    count: u32,
    letters: &mut [u8],
    accounts: &mut [u8],
) -> Option<u32>
    requires good { Good table.now × (l < 64) }
    requires letters_len_bound { (length letters.old ≤ letter_limit) × (length accounts.old ≤ letter_limit) }
    ensures { Reads code.now (tree_in table.now l) count
        letters.old accounts.old letters.new accounts.new result }
{
    if !handed_good(code, count) {
        return None;
    }
    let entered = put_entries(table, l, 0, code, 0, letters, accounts, 0)?;
    if entered.at != count {
        return None;
    }
    Some(entered.n)
}

// Tests the table and the code, and lays the code's letters in front of one buffer and their accounts in front of another. Refused, the
// buffers hold anything. It is no service: services lend it arrays of their own, which are long enough for any tape.
pub fn gather(
    p: Pattern,
    code: &[u8],
    count: u32,
    letters: &mut [u8],
    accounts: &mut [u8],
) -> Result<usize, Refusal>
    requires { (length letters.old ≡ letter_limit) × (length accounts.old ≡ letter_limit) }
    ensures { Gathers p code.now count letters.new accounts.new result }
{
    if !obeys_rules(p) {
        return Err(Refusal::Tree(0));
    }
    let table = table_of(p);
    let root = p.count - 1;
    let measured = enter(&table, root, code, count, letters, accounts);
    let n = measured.ok_or(Refusal::NotACode)? as usize;
    if Pattern::MAX_LETTERS < n {
        return Err(Refusal::TapeTooLong);
    }
    Ok(n)
}
