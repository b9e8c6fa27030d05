//! The calendar: the date of a day, and the text of a timestamp.
//!
//! This is the proleptic Gregorian calendar with a year 0, for the days of all milliseconds that an
//! `i64` counts from the Unix epoch. The crate has no dependencies. `amqp_data` re-exports
//! `civil_from_days`.
#![tactic(auto)]

mod civil;
pub mod laws;
mod moment;

pub use civil::civil_from_days;
pub use moment::write_moment;
