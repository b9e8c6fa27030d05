//! Writes the encoding of a value.

ghost use Rattle.std.specs.Prelude.{◌≤◌, IsErrOf};
ghost use Rattle.amqp_frame.specs.Reader.{Failed};
ghost use Rattle.serde_amqp.specs.Encoded.{PutsBytesOf};

use crate::write::Write;
use amqp_data::Error;
use amqp_ser::Serialize;
use amqp_wire::to_vec;
use std::alloc::Global;

/// Writes the encoding of `value` to `writer`, in one call of [`Write::put`].
///
/// # Encoding
/// The bytes of [`to_vec`](crate::to_vec).
///
/// # Errors
/// Returns the errors of [`to_vec`](crate::to_vec), after which nothing was written, and those of
/// [`Write::put`], after which a prefix of the bytes was written.
///
/// # Memory
/// Allocates from `alloc` as [`to_vec`](crate::to_vec) does, and what the writer allocates. For
/// many values, an [`Encoder`](crate::Encoder) keeps its buffers: pass its bytes to [`Write::put`].
///
/// # Example
/// For the list of the strings `a` and `bc`, writes `c00802a10161a1026263`.
pub fn write_to<T: Serialize, W: Write>(
    alloc: Global,
    writer: &mut W,
    value: &T,
) -> Result<(), Error>
    ensures bytes { PutsBytesOf (T.tree value.now) result
        (W.written writer.old) (W.written writer.new) }
    ensures io { IsErrOf result Error.Io → Failed (W.failures writer.old) (W.failures writer.new) }
    ensures count { W.failures writer.old ≤ W.failures writer.new }
{
    match to_vec(alloc, value) {
        Ok(bytes) => writer.put(bytes.as_slice()),
        Err(error) => Err(error),
    }
}
