//! Encodes a value as a lazy value.

ghost use Rattle.amqp_wire.specs.LazyOf.{IsLazyOf};

use crate::encode::to_vec;
use amqp_data::Error;
use amqp_frame::LazyValue;
use amqp_ser::Serialize;
use bytes::Bytes;
use std::alloc::Global;

/// Returns the encoding of `value` as a lazy value.
///
/// Unless an allocation fails, it succeeds if and only if the tree of the value is writable and its
/// encoding is one encoded value. The encoding of a transparent vector is one encoded value only if
/// the vector contains exactly one; the encoding of any other writable tree always is.
///
/// # Encoding
/// The bytes of [`to_vec`], in the buffer that it allocated.
///
/// # Errors
/// Returns `OutOfMemory` if an allocation fails. Returns `TooLong` only if a limit is exceeded, and
/// `InvalidValue` only if the tree is not writable for another reason or its bytes are not exactly
/// one encoded value. Returns one of them if the value has no tree.
///
/// # Memory
/// Allocates from `alloc` as `to_vec` does, and once more so that the buffer can be shared.
///
/// # Example
/// The string `Hello, World!` is `a10d48656c6c6f2c20576f726c6421`.
#[tactic(auto, using(crate::proofs::LazyRoot::root_transparent))]
pub fn to_lazy_value<T: Serialize>(alloc: Global, value: &T) -> Result<LazyValue, Error>
    ensures { IsLazyOf (T.tree value.now) result }
{
    LazyValue::try_from(Bytes::from_vec(to_vec(alloc, value)?)?)
}
