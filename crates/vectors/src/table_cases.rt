// A table that no text gives, as a caller of the services may hand it over: the loaded one with another account on one line.
use syntax::Pattern;

// A line that the table has no room for changes nothing.
pub(crate) fn with_account(p: Pattern, at: usize, account: u8) -> Pattern {
    let mut changed = p;
    if at < Pattern::MAX_LINES {
        changed.lines[at].account = account;
    }
    changed
}
