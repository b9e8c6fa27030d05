//! Conversion of a serializable value to its untyped value.

ghost use Rattle.std.specs.Prelude.{IfOk, Option, Result};
ghost use Rattle.amqp_ser.specs.Tree.{Tree};
ghost use Rattle.amqp_value.specs.Sound.{IsSound};
ghost use Rattle.amqp_to_value.specs.ImageOf.{IsImageOf};

use crate::serializer::Serializer;
use amqp_data::Error;
use amqp_ser::Serialize;
use amqp_value::Value;
use std::alloc::Global;

/// Returns the untyped value that represents the argument: its tree is the image of the argument's
/// tree.
///
/// Each kind of tree becomes the `Value` variant of that kind. An enum variant becomes the map of
/// one entry, from its index as a uint to its payload. A transparent vector becomes the list of its
/// elements. The entries of a map are inserted in order: a repeated key keeps its position and gets
/// the new value. So no map in the result has a key twice, and the result is sound. A lazy value,
/// at any depth, becomes the value that its bytes encode, which is at most 256 deep.
///
/// # Errors
/// Returns `Error::OutOfMemory` if an allocation fails. Otherwise returns an error if and only if
/// the argument has no tree, or a lazy value in it encodes no value: the error of `decode_value`
/// for the bytes of a lazy value, and `Error::InvalidValue` in other cases.
///
/// # Memory
/// Allocates from `alloc`.
///
/// # Example
/// The vector of the strings `a` and `bc` gives the list of the two, which is encoded as
/// `c00802a10161a1026263`. The vector of the lazy values `43` and `5001` gives the list of the uint
/// 0 and the ubyte 1.
#[tactic(auto, using(crate::proofs::SoundLemmas::answer_sound))]
pub fn to_value<T: Serialize>(alloc: Global, value: &T) -> Result<Value, Error>
    ensures image { IsImageOf (T.tree value.now) result }
    ensures sound { IfOk result IsSound }
{
    let mut serializer = Serializer::new(alloc);
    Ok(value.serialize(&mut serializer)?)
}

/// A type to which any serializable value can be converted.
///
/// # Implementer notes
/// `gives` and `try_from_serializable` are required. The result of `try_from_serializable` must be
/// one that `gives` permits for the tree of the argument, or for no tree if the argument has none.
pub trait TryFromSerializable: Sized {
    ghost use Rattle.amqp_data.specs.declared.error.Error.{Error};

    /// The results that are permitted for a tree, or for none.
    ghost gives: { Option Tree → Result Self Error → Type 0 };

    /// Converts the value to this type.
    ///
    /// # Errors
    /// Returns `Error::OutOfMemory` if an allocation fails, and the errors that the type documents.
    ///
    /// # Memory
    /// Allocates from `alloc`.
    fn try_from_serializable<T: Serialize>(alloc: Global, value: &T) -> Result<Self, Error>
        ensures { gives (T.tree value.now) result };
}

/// Like `to_value`. The result is sound.
impl TryFromSerializable for Value {
    ghost gives = { λ t r. IsImageOf t r × IfOk r IsSound };

    fn try_from_serializable<T: Serialize>(alloc: Global, value: &T) -> Result<Value, Error> {
        to_value(alloc, value)
    }
}
