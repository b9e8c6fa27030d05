//! Encodes values that strict peers read.

ghost use Rattle.amqp_wire.specs.ResultBytes.{result_bytes};
ghost use Rattle.amqp_wire.specs.Strict.{AreStrictBytesOf};

use crate::encode::to_vec;
use crate::search::has_empty_array;
use amqp_data::Error;
use amqp_ser::Serialize;
use std::alloc::Global;

/// Returns the encoding of `value`, like `to_vec`, if it has no array without elements.
///
/// # Encoding
/// The bytes of `to_vec`. The bytes of a lazy value are not looked into.
///
/// # Errors
/// Returns `InvalidValue` if the tree of the value is or contains an array without elements, and
/// otherwise the errors of `to_vec`.
///
/// # Memory
/// Allocates from `alloc` as `to_vec` does, and nothing for a value that it refuses for its array.
///
/// # Example
/// The list of the strings `a` and `bc` is `c00802a10161a1026263`. A list of an `Array<u8>` without
/// elements is refused; `to_vec` returns `c00401e00100`.
pub fn to_vec_strict<T: Serialize>(alloc: Global, value: &T) -> Result<Vec<u8>, Error>
    ensures { AreStrictBytesOf (T.tree value.now) (result_bytes result) }
{
    match has_empty_array(value) {
        Ok(true) => Err(Error::InvalidValue),
        _ => to_vec(alloc, value),
    }
}
