//! The error type of all calls.

ghost use Rattle.std.specs.Prelude.{◌≡◌};
ghost use Rattle.amqp_data.specs.declared.error.Error.TheVariants.{OutOfMemory};

use std::alloc::{AllocError, AllocFailed};
use thiserror::Error as ThisError;

/// The reason why a call failed.
///
/// # Example
/// `OutOfMemory` is displayed as `out of memory`, and `Message("no such name")` as `no such name`.
#[derive(Debug, PartialEq, Eq, Drop, ThisError)]
pub enum Error {
    /// An allocation failed.
    #[error("out of memory")]
    OutOfMemory,
    /// A length or a count exceeds its limit.
    #[error("too long")]
    TooLong,
    /// A value has the wrong kind, a tree is not writable for a reason other than a limit, or a
    /// compound was misused.
    #[error("invalid value")]
    InvalidValue,
    /// A byte is not an accepted format code (AMQP 1.0 part 1, section 1.2).
    #[error("invalid format code")]
    InvalidFormatCode,
    /// The input ends before the value does.
    #[error("unexpected end of input")]
    UnexpectedEof,
    /// A read or a write failed.
    #[error("input or output failed")]
    Io,
    /// A message from a visitor.
    #[error("{0}")]
    Message(&'static str),
}

impl From<AllocError> for Error {
    ghost from_gives = { λ _ e. e ≡ OutOfMemory };

    fn from(_error: AllocError) -> Error {
        Error::OutOfMemory
    }
}

impl<T: Drop> From<AllocFailed<T>> for Error {
    ghost from_gives = { λ _ e. e ≡ OutOfMemory };

    fn from(_error: AllocFailed<T>) -> Error {
        Error::OutOfMemory
    }
}
