// Why services refuse, and 01's numbers for it, for callers that know no enum. A later service has an enum of its own that wraps this one.
#![tactic(auto)]

ghost use Rattle.std.specs.Prelude.{◌≡◌, ℕ};
ghost use Rattle.refusals.specs.Refusals.{number, value};

// Why a service refuses, with the value returned beside the cause's number.
#[derive(Clone, Copy, Debug, PartialEq, Eq)]
pub enum Refusal {
    LineForm(u32),
    Tree(u32),
    TapeTooLong,
    TapeByte(u32),
    Unreadable,
    WordsTooShort(u32),
    CodeTooShort(u32),
    NotACode,
    TapeTooShort(u32),
    NoSuchVisit,
}

// A cause of a refusal, of this enum or of one that wraps it: its number, and the value that is returned beside it.
pub trait Cause {
    ghost number_of: { Self → ℕ };

    ghost value_of: { Self → ℕ };

    fn number(&self) -> u32
        ensures { result ≡ number_of self.now };

    fn value(&self) -> u32
        ensures { result ≡ value_of self.now };
}

impl Cause for Refusal {
    ghost number_of = { number };

    ghost value_of = { value };

    // The column "Number" of 01's table of causes.
    fn number(&self) -> u32 {
        match *self {
            Refusal::LineForm(_) => 1,
            Refusal::Tree(_) => 2,
            Refusal::TapeTooLong => 3,
            Refusal::TapeByte(_) => 4,
            Refusal::Unreadable => 5,
            Refusal::WordsTooShort(_) => 6,
            Refusal::CodeTooShort(_) => 7,
            Refusal::NotACode => 8,
            Refusal::TapeTooShort(_) => 9,
            Refusal::NoSuchVisit => 10,
        }
    }

    // The column "Returned beside it".
    fn value(&self) -> u32 {
        match *self {
            Refusal::LineForm(line) | Refusal::Tree(line) => line,
            Refusal::TapeByte(position) => position,
            Refusal::WordsTooShort(words) => words,
            Refusal::CodeTooShort(bytes) => bytes,
            Refusal::TapeTooShort(letters) => letters,
            Refusal::TapeTooLong | Refusal::Unreadable | Refusal::NotACode | Refusal::NoSuchVisit =>
                0,
        }
    }
}
