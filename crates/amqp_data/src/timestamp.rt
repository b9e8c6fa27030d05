//! Timestamps (AMQP 1.0 part 1, section 1.6.17).

ghost use Rattle.std.specs.Prelude.{◌≡◌, Some};
ghost use Rattle.amqp_calendar.specs.Moment.{moment_text};
ghost use Rattle.amqp_data.specs.Fixed.{milliseconds_of};

use amqp_calendar::write_moment;
use std::fmt;
use std::fmt::{Formatter, Write};

/// A point in time, in milliseconds since the Unix epoch (1 January 1970, 00:00 UTC).
///
/// # Encoding
/// `83` and eight bytes, in two's complement.
///
/// # Example
/// 13 milliseconds are encoded as `83000000000000000d`.
#[derive(Debug, PartialEq, Eq, PartialOrd, Ord, Hash, Clone, Copy)]
pub struct Timestamp(i64);

impl Timestamp {
    /// Creates the timestamp `milliseconds` after the epoch, or before it if the number is
    /// negative.
    ///
    /// # Example
    /// -1 gives the timestamp displayed as `1969-12-31T23:59:59.999Z` and encoded as
    /// `83ffffffffffffffff`.
    pub fn from_milliseconds(milliseconds: i64) -> Timestamp
        ensures { milliseconds_of result ≡ milliseconds }
    {
        Timestamp(milliseconds)
    }

    /// Returns the milliseconds since the epoch.
    ///
    /// # Example
    /// For the timestamp displayed as `1970-01-01T00:00:00.013Z` and encoded as
    /// `83000000000000000d`, returns 13.
    pub fn milliseconds(&self) -> i64
        ensures { result ≡ milliseconds_of self.now }
    {
        self.0
    }

    /// Returns a reference to the milliseconds since the epoch.
    ///
    /// # Example
    /// For the timestamp encoded as `83ffffffffffffffff`, returns -1.
    pub fn as_inner(&self) -> &i64
        ensures { result.now ≡ milliseconds_of self.now }
    {
        &self.0
    }

    /// Consumes the timestamp and returns the milliseconds since the epoch.
    ///
    /// # Example
    /// For the timestamp displayed as `1970-01-02T00:00:00.000Z` and encoded as
    /// `830000000005265c00`, returns 86,400,000.
    pub fn into_inner(self) -> i64
        ensures { result ≡ milliseconds_of self }
    {
        self.0
    }
}

impl From<i64> for Timestamp {
    ghost from_gives = { λ milliseconds timestamp. milliseconds_of timestamp ≡ milliseconds };

    fn from(milliseconds: i64) -> Timestamp {
        Timestamp::from_milliseconds(milliseconds)
    }
}

/// Writes the date and time as `Y-MM-DDThh:mm:ss.mmmZ`, in the proleptic Gregorian calendar with a
/// year 0. A year from 0 to 9999 has four digits. Any other year has a sign and at least six
/// digits.
///
/// # Example
/// -1 millisecond is displayed as `1969-12-31T23:59:59.999Z`.
impl fmt::Display for Timestamp {
    ghost output = { λ timestamp. Some (moment_text (milliseconds_of timestamp)) };

    fn fmt<W: Write>(&self, f: &mut Formatter<W>) -> fmt::Result {
        write_moment(self.0, f)
    }
}
