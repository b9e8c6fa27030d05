//! Timestamps as instants of `jiff`, for dates, times of day and time zones.
//!
//! No other library depends on this crate: list it with `jiff` where it is used.
#![tactic(auto)]

mod instants;

pub use instants::{from_jiff, to_jiff};
