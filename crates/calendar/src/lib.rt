// Dates of the Gregorian calendar, from 2000 to 2099: which there are, the next one, and which of two is the later.
// A date is three numbers that anybody may hand over, so every function takes any numbers. A step of what is no date leaves it as it is: no
// step overflows, and the step of 31 December 2099, which is 1 January 2100, is the end of all steps.
#![tactic(auto)]

ghost use Rattle.std.specs.Prelude.{◌≡◌};
ghost use Rattle.calendar.specs.Dates.{leap, leap_day, month_length};
ghost use Rattle.calendar.specs.Dates.{is_date, next_date, is_after, date_of};

// The days of the months of a year that is no leap year.
const MONTH_LENGTHS: [u32; 12] = [31, 28, 31, 30, 31, 30, 31, 31, 30, 31, 30, 31];

// A date: any three numbers, of which `is_date` says whether there is such a day. Dates are in order by year, then month, then day.
#[derive(Clone, Copy, PartialEq, Eq, PartialOrd, Ord)]
pub struct Date {
    pub year: u32,
    pub month: u32,
    pub day: u32,
}

impl Date {
    pub const FIRST_YEAR: u32 = 2000;

    pub const LAST_YEAR: u32 = 2099;

    pub const MONTHS: u32 = 12;
}

// Every fourth year is a leap year; of the years that end a century every fourth.
#[tactic(auto, unfolding(crate::specs::Dates::leap))]
pub fn is_leap(year: u32) -> bool
    ensures { result ≡ leap year }
{
    if year % 100 == 0 {
        year % 400 == 0
    } else {
        year % 4 == 0
    }
}

// 1 for the February of a leap year, 0 for any other month.
#[tactic(auto, unfolding(crate::specs::Dates::leap_day))]
fn leap_day(year: u32, month: u32) -> u32
    ensures { result ≡ leap_day year month }
{
    u32::from(month == 2 && is_leap(year))
}

// The days of a month, 0 where there is no such month.
#[tactic(auto, unfolding(crate::specs::Dates::month_length))]
pub fn month_length(year: u32, month: u32) -> u32
    ensures { result ≡ month_length year month }
{
    match month {
        1..=Date::MONTHS => MONTH_LENGTHS[month as usize - 1] + leap_day(year, month),
        _ => 0,
    }
}

// Whether there is such a day in the years 2000 to 2099.
#[tactic(auto, unfolding(crate::specs::Dates::is_date))]
pub fn is_date(d: Date) -> bool
    ensures { result ≡ is_date d }
{
    (Date::FIRST_YEAR..=Date::LAST_YEAR).contains(&d.year)
        && (1..=month_length(d.year, d.month)).contains(&d.day)
}

// The day after a date. What is no date stays as it is.
#[tactic(auto, unfolding(crate::specs::Dates::next_date))]
pub fn next_date(d: Date) -> Date
    ensures { result ≡ next_date d }
{
    if !is_date(d) {
        d
    } else if d.day < month_length(d.year, d.month) {
        Date {
            day: d.day + 1,
            ..d
        }
    } else if d.month < Date::MONTHS {
        Date {
            month: d.month + 1,
            day: 1,
            ..d
        }
    } else {
        Date {
            year: d.year + 1,
            month: 1,
            day: 1,
        }
    }
}

// Whether a is a later day than b: by year, then month, then day, of any numbers.
#[tactic(auto, unfolding(crate::specs::Dates::is_after))]
pub fn is_after(a: Date, b: Date) -> bool
    ensures { result ≡ is_after a b }
{
    a > b
}

// The date that a number writes: year × 10000 + month × 100 + day. Every number is one date or none.
// Kept: a function and no `From`, since its name says that the number is digits of a date, and no count of days.
pub fn date_of(number: u32) -> Date
    ensures { result ≡ date_of number }
{
    Date {
        year: number / 10000,
        month: number / 100 % 100,
        day: number % 100,
    }
}
