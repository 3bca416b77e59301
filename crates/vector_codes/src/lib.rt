// For tests alone: the cases of codes. Each prints what the services answer and leave in the lent buffers.
// They are apart from crate vectors because the two together took 50 s to check.
#![tactic(auto)]

mod code_cases; // code_cases.rt: spelling, totalling and settling a code
mod span_cases; // span_cases.rt: showing a visit's piece
mod term_cases; // term_cases.rt: totals within a term

pub use code_cases::run_code;
pub use span_cases::run_span;
pub use term_cases::run_term;
