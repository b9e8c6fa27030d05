//! Faults of reading and writing.

ghost use Rattle.std.specs.Prelude.{◌<◌, ◌≤◌};

/// Why nothing was read or written.
#[derive(Clone, Copy, Debug, PartialEq, Eq)]
pub enum Fault {
    /// The bytes end before the value does.
    Truncated,
    /// A byte is no format code.
    Code,
    /// The bytes encode no value, for another reason.
    Value,
    /// More levels than the limit.
    Depth,
    /// The cursor is not one of these bytes, or a value is written where none can be.
    Misuse,
    /// A length or a count past the limits of the standard.
    Long,
    /// The buffer is too small.
    Room,
}

impl Fault {
    /// Returns its number, from 1 to 7. 0 is no fault.
    #[inline(always)]
    pub fn number(self) -> u8
        ensures first { 0 < result }
        ensures last { result ≤ 7 }
    {
        self as u8 + 1
    }
}
