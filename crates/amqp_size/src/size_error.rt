//! Why a pass over a value fails.

ghost use Rattle.std.specs.Prelude.{◌≡◌};
ghost use Rattle.amqp_size.specs.Refused.{error_of};

use amqp_data::Error;

/// Why a pass over a value fails. It is one byte long, so that a `Result` with it is smaller than
/// one with `Error`, which can contain a text.
#[derive(Clone, Copy, Debug, PartialEq, Eq)]
pub enum SizeError {
    /// An allocation failed.
    OutOfMemory,
    /// A length or a count exceeds its limit.
    TooLong,
    /// A value of the wrong kind, a tree that is not writable for another reason than a limit, or
    /// misuse of a compound.
    InvalidValue,
}

impl From<SizeError> for Error {
    ghost from_gives = { λ error e. e ≡ error_of error };

    #[inline(always)]
    fn from(error: SizeError) -> Error {
        match error {
            SizeError::OutOfMemory => Error::OutOfMemory,
            SizeError::TooLong => Error::TooLong,
            SizeError::InvalidValue => Error::InvalidValue,
        }
    }
}
