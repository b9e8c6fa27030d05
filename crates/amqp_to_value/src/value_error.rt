//! Why a value cannot be serialized to an untyped value.

ghost use Rattle.std.specs.Prelude.{◌≡◌};
ghost use Rattle.amqp_to_value.specs.ImageOf.{error_of};
ghost use Rattle.amqp_to_value.specs.declared.value_error.ValueError.TheVariants.{OutOfMemory};

use amqp_data::Error;
use std::alloc::{AllocError, AllocFailed};

/// Why a value cannot be serialized to an untyped value. It contains no text, unlike `Error`.
#[derive(Clone, Copy, Debug, PartialEq, Eq)]
pub enum ValueError {
    /// An allocation failed.
    OutOfMemory,
    /// A value of the wrong kind, or misuse of a compound.
    InvalidValue,
    /// A byte of a lazy value is not an accepted format code.
    InvalidFormatCode,
    /// The bytes of a lazy value end before the value does.
    UnexpectedEof,
    /// No function returns it. It gives the type two words: with a type of one byte, `to_value` of
    /// numbers takes 1.3 times the instructions, since a `Result` is copied byte by byte.
    Padding(u64, u64),
}

impl From<ValueError> for Error {
    ghost from_gives = { λ error e. e ≡ error_of error };

    #[inline(always)]
    fn from(error: ValueError) -> Error {
        match error {
            ValueError::OutOfMemory => Error::OutOfMemory,
            ValueError::InvalidValue | ValueError::Padding(_, _) => Error::InvalidValue,
            ValueError::InvalidFormatCode => Error::InvalidFormatCode,
            ValueError::UnexpectedEof => Error::UnexpectedEof,
        }
    }
}

impl From<AllocError> for ValueError {
    ghost from_gives = { λ _ e. e ≡ OutOfMemory };

    fn from(_error: AllocError) -> ValueError {
        ValueError::OutOfMemory
    }
}

impl<T: Drop> From<AllocFailed<T>> for ValueError {
    ghost from_gives = { λ _ e. e ≡ OutOfMemory };

    fn from(_error: AllocFailed<T>) -> ValueError {
        ValueError::OutOfMemory
    }
}
