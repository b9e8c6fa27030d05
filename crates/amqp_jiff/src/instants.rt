//! Conversions between timestamps and instants.

ghost use Rattle.std.specs.Prelude.{◌≡◌, ◌↔◌, ◌*ℤ◌, pos, int_div, IsSome, IfSome};
ghost use Rattle.amqp_data.specs.Fixed.{milliseconds_of};
ghost use Rattle.jiff.specs.Words.{IsTimestampNanos};

use amqp_data::Timestamp;
use jiff::Timestamp as Instant;

/// Returns the instant of a timestamp, or `None` outside the years -9999 to 9999, the range of
/// `jiff`.
///
/// # Example
/// For the timestamp encoded as `83000000000000000d`, the instant 1970-01-01T00:00:00.013Z.
pub fn to_jiff(timestamp: Timestamp) -> Option<Instant>
    ensures range { IsSome result ↔ IsTimestampNanos (milliseconds_of timestamp *ℤ pos 1_000_000) }
    ensures value { IfSome result
        (λ instant. instant.nanosecond ≡ milliseconds_of timestamp *ℤ pos 1_000_000) }
{
    match Instant::from_millisecond(timestamp.milliseconds()) {
        Ok(instant) => Some(instant),
        Err(_) => None,
    }
}

/// Returns the timestamp of an instant, rounded toward the epoch to a millisecond.
///
/// # Example
/// For the instant 1970-01-01T00:00:00.0139Z, the timestamp encoded as `83000000000000000d`.
pub fn from_jiff(instant: Instant) -> Timestamp
    ensures { milliseconds_of result ≡ int_div instant.nanosecond (pos 1_000_000) }
{
    Timestamp::from_milliseconds(instant.as_millisecond())
}
