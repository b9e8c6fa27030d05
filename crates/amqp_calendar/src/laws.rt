//! Laws of dates. Each law is a function with an empty body whose contract states the law.

ghost use Rattle.std.specs.Prelude.{◌≡◌, ℕ, ℤ};
ghost use Rattle.amqp_calendar.specs.DateOf.{date_of};
ghost use Rattle.amqp_calendar.specs.Dates.{IsDate, day_number};

/// Each day, over all integers, has a date, which `date_of` computes year by year and month by
/// month.
///
/// # Memory
/// Allocates nothing.
pub fn each_day_has_a_date()
    ensures valid { (day : ℤ) → let p = date_of day in IsDate p.0 p.1 p.2 }
    ensures value { (day : ℤ) → let p = date_of day in day_number p.0 p.1 p.2 ≡ day }
{}

/// No two dates have the same day number.
///
/// # Memory
/// Allocates nothing.
pub fn a_day_has_one_date()
    ensures { (y : ℤ) (m d : ℕ) (z : ℤ) (n e : ℕ) → IsDate y m d → IsDate z n e →
        day_number y m d ≡ day_number z n e →
        (y ≡ z) × (m ≡ n) × (d ≡ e) }
{}
