// Answers for callers from C, each one number: the cause's number (0: none) in its upper 32 bits, the value beside it in the lower 32.
#![tactic(auto)]

ghost use Rattle.std.specs.Prelude.{◌≡◌, ◌+◌, ◌*◌, ◌<◌, get_or};
ghost use Rattle.refusals.specs.Refusals.{answer, answer_by};
ghost use Rattle.totals.specs.Totals.{no_litres};
ghost use Rattle.reach.specs.Locate.{located_answer};
ghost use Rattle.packing.specs.Packing.{unpacked, in_cells};
ghost use Rattle.packing.specs.Cells.{beyond, outcome_by, litres_by, Gives};

mod desks; // desks.rt: a page desk in bytes

pub use desks::{DESK_BYTES, desk_of, of_other_length, put_desk};
use reach::Positions;
use refusals::{Cause, Refusal};
use syntax::Pattern;

// The one cause that is the calls' own: an account without a cell has litres.
// Kept: a number and no enum, since it is a cause of the C interface alone, where causes are numbers.
pub const CELLS_TOO_FEW: u32 = 20;

// A cause of any enum is packed by its number and value.
pub fn packed(number: u32, value: u32) -> u64
    ensures { unpacked result ≡ answer number value }
{
    u64::from(number) << 32 | u64::from(value)
}

// Two numbers of 16 bits in one value.
pub fn halves(upper: u32, lower: u32) -> u32
    requires { (upper < 65536) × (lower < 65536) }
    ensures { result ≡ upper * 65536 + lower }
{
    upper << 16 | lower
}

// A refusal, by the number of its cause and the value beside it.
pub fn of_cause<E: Cause>(why: &E) -> u64
    ensures { unpacked result ≡ answer (E.number_of why.now) (E.value_of why.now) }
{
    packed(why.number(), why.value())
}

// What a service that finds a number or a cause answers.
pub fn of_answer<E: Cause + Drop>(found: Result<u32, E>) -> u64
    ensures { unpacked result ≡ answer_by (λ why. answer (E.number_of why) (E.value_of why)) found }
{
    match found {
        Ok(n) => packed(0, n),
        Err(why) => of_cause(&why),
    }
}

// The value has the reach in its upper 16 bits, and the position at which the tape resumes in its lower 16.
pub fn of_located(located: Result<Positions, Refusal>) -> u64
    ensures { unpacked result ≡ located_answer located }
{
    match located {
        Ok(at) => packed(0, halves(at.reach.into(), at.resume.into())),
        Err(why) => of_cause(&why),
    }
}

// The litres of an account, 0 for one that there is not.
pub fn litres_of(litres: &[u32], account: u32) -> u32
    ensures { result ≡ get_or litres.now account 0 }
{
    litres.get(account as usize).copied().unwrap_or(0)
}

// As many totals as there are cells, from account 0 on. The cells behind them are left as they are.
pub fn put_totals(totals: &[u32], cells: &mut [u32])
    ensures { cells.new ≡ in_cells totals.now cells.old }
{
    let n = totals.len().min(cells.len());
    cells[..n].copy_from_slice(&totals[..n]);
}

// Whether an account without a cell has litres.
#[tactic(auto, unfolding(crate::specs::Cells::beyond))]
pub fn litres_beyond(totals: &[u32], cells: usize) -> bool
    ensures { result ≡ beyond totals.now cells }
{
    totals.iter().skip(cells).any(|litres| 0 < *litres)
}

// No litres in the cells, from account 0 on.
fn no_totals(cells: &mut [u32])
    ensures { cells.new ≡ in_cells no_litres cells.old }
{
    let n = cells.len().min(Pattern::ACCOUNTS);
    cells[..n].fill(0);
}

// Totals of all accounts, handed out in the cells that are lent. If there is no cell for an account with litres, the answer is 20 and the
// cells are 0: no litre is left out in silence.
pub fn give_totals(answer: u64, totals: &[u32], cells: &mut [u32]) -> u64
    ensures { Gives (unpacked answer) totals.now cells.old cells.new result }
{
    if litres_beyond(totals, cells.len()) {
        no_totals(cells);
        packed(CELLS_TOO_FEW, 0)
    } else {
        put_totals(totals, cells);
        answer
    }
}

// The same of what a service answers. The cells are 0 too if the totals are refused.
pub fn give_litres<E: Cause>(totals: &Result<[u32; Pattern::ACCOUNTS], E>, cells: &mut [u32]) -> u64
    ensures { Gives (outcome_by (λ why. answer (E.number_of why) (E.value_of why)) totals.now) (litres_by totals.now) cells.old cells.new result }
{
    match totals {
        Ok(litres) => give_totals(packed(0, 0), litres, cells),
        Err(why) => {
            no_totals(cells);
            of_cause(why)
        }
    }
}
