//! Whether a value has an array without elements.

ghost use Rattle.std.specs.Prelude.{◌≡◌, IfErr};
ghost use Rattle.amqp_data.specs.declared.error.Error.TheVariants.{InvalidValue};
ghost use Rattle.amqp_wire.specs.EmptyArrays.{Finds};

use crate::finder::Finder;
use amqp_data::Error;
use amqp_ser::Serialize;

/// Returns whether the tree of `value` is or contains, at any depth, an array without elements.
///
/// Such an array has no constructor, and some implementations of AMQP do not read it: Qpid Proton
/// drops what follows it. The bytes of a lazy value are not looked into.
///
/// # Encoding
/// An array without elements is `e00100`, and `0000000400000000` as an element of another array.
///
/// # Errors
/// Returns `InvalidValue` if and only if the value has no tree.
///
/// # Memory
/// None.
///
/// # Example
/// `true` for an `Array<u8>` without elements, `e00100`, and `false` for the empty list, `45`.
pub fn has_empty_array<T: Serialize>(value: &T) -> Result<bool, Error>
    ensures found { Finds (T.tree value.now) result }
    ensures invalid { IfErr result (λ e. e ≡ InvalidValue) }
{
    match value.serialize(&mut Finder::new()) {
        Ok(found) => Ok(found),
        Err(_) => Err(Error::InvalidValue),
    }
}
