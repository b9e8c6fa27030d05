//! The error of reading without an untyped value.

use amqp_data::Error;
use std::alloc::{AllocError, AllocFailed};

/// Nothing was read: the bytes do not encode a value of the type, an allocation failed, or this way
/// of reading does not support the type.
///
/// It has no cause, since the bytes are then read by way of an untyped value, which succeeds or
/// returns one.
#[derive(Debug, PartialEq, Eq, Clone, Copy)]
pub struct GaveUp;

impl From<AllocError> for GaveUp {
    fn from(_error: AllocError) -> GaveUp {
        GaveUp
    }
}

impl<T: Drop> From<AllocFailed<T>> for GaveUp {
    fn from(_error: AllocFailed<T>) -> GaveUp {
        GaveUp
    }
}

impl From<Error> for GaveUp {
    fn from(_error: Error) -> GaveUp {
        GaveUp
    }
}
