//! Writes a value if its encoding fits into a given number of bytes.
//!
//! For newcomers who send values in frames: shows `serialized_size` and `to_vec`, and a contract
//! that states the bytes of the result.

ghost use Rattle.std.specs.Prelude.{◌≡◌, ◌≤◌, IfOk, Some, length};
ghost use Rattle.serde_amqp.specs.Encoding.{encoding};
ghost use Rattle.serde_amqp.specs.Tree.{Tree};

use serde_amqp::ser::Serialize;
use serde_amqp::{Error, serialized_size, to_vec};
use std::alloc::Global;

/// Returns the encoding of `value`, which has at most `room` bytes.
///
/// # Errors
/// Returns `Error::TooLong` if the encoding has more than `room` bytes, and otherwise the error of
/// `serialized_size` or `to_vec`.
///
/// # Memory
/// Allocates what `to_vec` allocates from `alloc`; nothing if the encoding has more than `room`
/// bytes.
///
/// # Example
/// The string `a` is `a10161` if `room` is 3. If `room` is 2, the error is `TooLong`.
pub fn bytes_for_frame<T: Serialize>(
    alloc: Global,
    value: &T,
    room: usize,
) -> Result<Vec<u8>, Error>
    ensures fits { IfOk result (λ bytes. length bytes.items ≤ room) }
    ensures bytes { IfOk result (λ bytes.
        (t : Tree) → T.tree value.now ≡ Some t → bytes.items ≡ encoding t) }
{
    if serialized_size(value)? > room {
        return Err(Error::TooLong);
    }
    to_vec(alloc, value)
}
