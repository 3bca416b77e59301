// The page desk: a tape that arrives in pages, the latest letters first. A page is put before the letters held, and the last page put can be
// withdrawn.
#![tactic(auto)]

ghost use Rattle.std.specs.Prelude.{◌≡◌};
ghost use Rattle.desk.specs.declared.DeskRefusal.TheVariants.{Base};
ghost use Rattle.desk.specs.Desks.{desk_number, desk_value, Opens, Puts, Withdraws};

mod checks; // checks.rt: the checks of an opening and of a put, in 02's order
mod limits; // limits.rt: what a desk holds, and whether it keeps the limits
mod pages; // pages.rt: the length of a page
mod withdrawal; // withdrawal.rt: the checks of a withdrawal, in 02's order

// A caller that holds a desk in another form, as in bytes, makes a desk of it, calls these, and stores the desk that they leave.
pub use checks::check_open;
use checks::check_put;
use first_sweep::{grow, put_end};
use pages::{put_on, take_off};
use refusals::{Cause, Refusal};
use syntax::Pattern;
use table::table_of;
use text::put_bytes;
use withdrawal::check_withdraw;

// How many pages are held, and how many letters each has, in the order of their putting. Lengths at or past the count mean nothing.
#[derive(Clone, Copy)]
pub struct Desk {
    pub count: u8,
    pub lengths: [u8; Desk::MAX_PAGES],
}

impl Desk {
    pub const MAX_PAGES: usize = 30;

    pub const MAX_PAGE_LETTERS: usize = 120;
}

// Why a call of the desk refuses: for a cause that 01 has, or for one of the desk's own.
#[derive(Clone, Copy, Debug, PartialEq, Eq)]
pub enum DeskRefusal {
    Base(Refusal),
    DeskLimits,
    DeskFull,
    DeskEmpty,
}

impl From<Refusal> for DeskRefusal {
    ghost from_gives = { λ base why. why ≡ Base base };

    fn from(base: Refusal) -> DeskRefusal {
        DeskRefusal::Base(base)
    }
}

impl Cause for DeskRefusal {
    ghost number_of = { desk_number };

    ghost value_of = { desk_value };

    // 02 gives 13, 14 and 15, 01's table the others.
    fn number(&self) -> u32 {
        match *self {
            DeskRefusal::Base(base) => base.number(),
            DeskRefusal::DeskLimits => 13,
            DeskRefusal::DeskFull => 14,
            DeskRefusal::DeskEmpty => 15,
        }
    }

    // 0 for a cause that 02 adds.
    fn value(&self) -> u32 {
        match *self {
            DeskRefusal::Base(base) => base.value(),
            DeskRefusal::DeskLimits | DeskRefusal::DeskFull | DeskRefusal::DeskEmpty => 0,
        }
    }
}

// Opens a desk: it is empty then, whatever it held before, and the two words of the tape's end are written. The answer is 0. A call that is
// refused leaves all as it was, here and below.
pub fn open(desk: &mut Desk, p: Pattern, words: &mut [u64]) -> Result<u32, DeskRefusal>
    ensures { Opens p desk.old desk.new words.old words.new result }
{
    check_open(p, words.len())?;
    let table = table_of(p);
    put_end(p, &table, words);
    *desk = Desk {
        count: 0,
        lengths: [0; Desk::MAX_PAGES],
    };
    Ok(0)
}

// Puts a page before the letters held: its letters, its words, its length. The answer is how many letters are held then.
pub fn put(
    desk: &mut Desk,
    p: Pattern,
    page: &[u8],
    letters: &mut [u8],
    words: &mut [u64],
) -> Result<u32, DeskRefusal>
    ensures { Puts p page.now desk.old desk.new letters.old letters.new
        words.old words.new result }
{
    let held = check_put(desk, p, page, letters, words.len())?;
    let n = page.len();
    let total = held + n;
    let table = table_of(p);
    grow(p, &table, page, held, words);
    put_bytes(letters, Pattern::MAX_LETTERS - total, page);
    put_on(desk, n);
    Ok(total as u32)
}

// Withdraws the last page put: nothing but the desk changes. The answer is how many letters are held then.
pub fn withdraw(desk: &mut Desk, p: Pattern, letters: &[u8]) -> Result<u32, DeskRefusal>
    ensures { Withdraws p desk.old desk.new letters.now result }
{
    let held = check_withdraw(desk, p, letters)?;
    let left = take_off(desk, held);
    Ok(left as u32)
}
