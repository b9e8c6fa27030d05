//! Conversion from a day number to a date.

ghost use Rattle.std.specs.Prelude.{◌≡◌, ℕ, ℤ, ◌+◌, ◌-◌, ◌*◌, ◌<◌, ◌≤◌, pos, neg_ℤ, ◌+ℤ◌, ◌≤ℤ◌};
ghost use Rattle.amqp_calendar.specs.Cycles.{days_of};
ghost use Rattle.amqp_calendar.specs.Dates.{IsDate, day_number, month_length, months_before};
ghost use Rattle.amqp_calendar.specs.Years.{is_leap_year, year_length};

// The number of days in 400 years.
const CYCLE: u64 = 146_097;

// The number of 400-year cycles from the first counted year to the year 1.
const CYCLES: i64 = 730_700;

// The number of days from the first counted day to day 0, which is 1 January 1970.
const EPOCH: i64 = CYCLES * 146_097 + 719_162;

/// Returns the year, month and day of a day number, in the proleptic Gregorian calendar with a year
/// 0.
///
/// Day 0 is 1 January 1970. The valid days are those of all milliseconds that an `i64` counts: from
/// -106,751,991,168 to 106,751,991,167. Months and days are counted from 1. No other date has this
/// day number, over all integer years.
///
/// # Memory
/// Allocates nothing.
///
/// # Example
/// Day 11,016 is (2000, 2, 29).
pub fn civil_from_days(days: i64) -> (i64, u32, u32)
    requires low { neg_ℤ (pos 106_751_991_168) ≤ℤ days }
    requires high { days ≤ℤ pos 106_751_991_167 }
    ensures valid { IsDate result.0 result.1 result.2 }
    ensures value { day_number result.0 result.1 result.2 ≡ days }
    ensures only { (y : ℤ) (m d : ℕ) → IsDate y m d → day_number y m d ≡ days →
        (y ≡ result.0) × (m ≡ result.1) × (d ≡ result.2) }
{
    let (years, day) = year_of(day_count(days));
    let year = year_number(years);
    let (month, day) = month_of(year, day);
    (year, month, day)
}

// Returns the number of days from the first counted day to `days`.
fn day_count(days: i64) -> u64
    requires low { neg_ℤ (pos 106_751_991_168) ≤ℤ days }
    requires high { days ≤ℤ pos 106_751_991_167 }
    ensures value { days +ℤ pos (730_700 * 146_097 + 719_162) ≡ pos result }
    ensures bound { result < 300_000_000_000 }
{
    (days + EPOCH) as u64
}

// Returns the year that follows `years` counted years.
fn year_number(years: u64) -> i64
    requires { years < 900_000_000 }
    ensures { result +ℤ pos 292_280_000 ≡ pos (years + 1) }
{
    years as i64 + 1 - 400 * CYCLES
}

// Returns the number of complete years before a day, and the offset of the day in its year. The
// leap year is the last of each group of years.
fn year_of(days: u64) -> (u64, u32)
    requires { days < 300_000_000_000 }
    ensures value { days_of result.0 + result.1 ≡ days }
    ensures within { days < days_of (result.0 + 1) }
    ensures bound { result.0 < 900_000_000 }
    ensures day_bound { result.1 < 366 }
{
    let in_cycle = days % CYCLE;
    let century = (in_cycle / 36_524).min(3);
    let in_century = in_cycle - 36_524 * century;
    let four = in_century / 1_461;
    let in_four = in_century - 1_461 * four;
    let year = (in_four / 365).min(3);
    let day = in_four - 365 * year;
    (
        400 * (days / CYCLE) + 100 * century + 4 * four + year,
        day as u32,
    )
}

// Returns the month of the day at an offset in the year, and the day of that month.
#[tactic(auto, using(crate::proofs::MonthLemmas::months))]
fn month_of(year: i64, day: u32) -> (u32, u32)
    requires { day < year_length year }
    ensures valid { IsDate year result.0 result.1 }
    ensures value { months_before year (result.0 - 1) + (result.1 - 1) ≡ day }
{
    let mut left = day;
    for month in 1..12 {
        let length = length_of(year, month);
        if left < length {
            return (month, left + 1);
        }
        left -= length;
    }
    (12, left + 1)
}

fn length_of(year: i64, month: u32) -> u32
    requires low { 1 ≤ month }
    requires high { month ≤ 12 }
    ensures { result ≡ month_length year month }
{
    match month {
        2 => { if is_leap(year) { 29 } else { 28 } }
        4 | 6 | 9 | 11 => 30,
        _ => 31,
    }
}

fn is_leap(year: i64) -> bool
    ensures { result ≡ is_leap_year year }
{
    let years = year.unsigned_abs();
    years % 4 == 0 && years % 100 != 0 || years % 400 == 0
}
