// Selecting the entries of a term: they move to the front of the two arrays, where totals' own loop adds them up.
ghost use Rattle.std.specs.Prelude.{◌≡◌, ◌≤◌, length};
ghost use Rattle.entries.specs.Gather.{Owned};
ghost use Rattle.terms.specs.Selection.{Selects};

use crate::Term;
use crate::days::{DAY_END, day_of};
use calendar::{Date, next_date};

// Keeps those of the first n entries whose dates lie in the term, and answers how many they are. The day changes in a branch: handed back by
// a function, it is copied in memory for each letter.
pub(crate) fn select_term(
    letters: &mut [u8],
    accounts: &mut [u8],
    n: usize,
    start: Date,
    term: Term,
) -> usize
    requires { (n ≤ length letters.old) × Owned accounts.old n }
    ensures { Selects start term n letters.old accounts.old letters.new accounts.new result }
{
    let mut day = day_of(term, start);
    let mut kept = 0;
    for i in 0..n {
        let c = letters[i];
        if day.inside {
            letters[kept] = c;
            accounts[kept] = accounts[i];
            kept += 1;
        }
        if c == DAY_END {
            day = day_of(term, next_date(day.date));
        }
    }
    kept
}
