//! Conversions from `Value`.
//!
//! The conversion to a scalar returns the content, or the value itself if it is of another type.
//! The conversion to a container converts the elements one by one.

ghost use Rattle.std.specs.Prelude.{◌≡◌};
ghost use Rattle.amqp_value.specs.FaultError.{error_of};
ghost use Rattle.amqp_value.specs.declared.try_from.ConvertFault.TheVariants.{Memory};

mod lists;
mod maps;
mod pairs;
mod scalars;

use crate::Value;
use amqp_data::Error;
use std::alloc::{AllocError, AllocFailed};
use thiserror::Error as ThisError;

/// The error of a conversion to a container. It converts to [`Error`]: `Unfit` to `InvalidValue`,
/// and `Memory` to `OutOfMemory`.
///
/// # Example
/// To a `Vec<u8>`, the ubyte 1 gives `Unfit(Ubyte(1))`, and the list of the ubyte 1 and null gives
/// `Unfit(Null)`.
#[derive(Debug, PartialEq, Eq, Drop, ThisError)]
pub enum ConvertFault {
    /// The value that cannot be converted: the argument, if it is not of the container's type;
    /// otherwise the first element, key or value that cannot be converted, in order, a key before
    /// its value. The rest is dropped.
    #[error("invalid value")]
    Unfit(Value),
    /// An allocation failed, which can happen only if the first element or entry can be converted.
    /// The argument is dropped.
    #[error("out of memory")]
    Memory,
}

impl From<ConvertFault> for Error {
    ghost from_gives = { λ fault error. error ≡ error_of fault };

    fn from(fault: ConvertFault) -> Error {
        match fault {
            ConvertFault::Unfit(_) => Error::InvalidValue,
            ConvertFault::Memory => Error::OutOfMemory,
        }
    }
}

impl From<AllocError> for ConvertFault {
    ghost from_gives = { λ _ fault. fault ≡ Memory };

    fn from(_error: AllocError) -> ConvertFault {
        ConvertFault::Memory
    }
}

impl<T: Drop> From<AllocFailed<T>> for ConvertFault {
    ghost from_gives = { λ _ fault. fault ≡ Memory };

    fn from(_error: AllocFailed<T>) -> ConvertFault {
        ConvertFault::Memory
    }
}
