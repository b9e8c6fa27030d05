//! The trait of values that can be serialized.

ghost use Rattle.std.specs.Prelude.{Option, Result};
ghost use Rattle.amqp_ser.specs.Tree.{Tree};

use crate::serializer::Serializer;

/// A value that can be serialized. It has one data tree, or none.
///
/// # Implementer notes
/// `tree` is the data tree of the value. `serialize` must return what the serializer permits for
/// this tree. If there is no tree, every serializer returns an error. Open a compound with a method
/// of the serializer, serialize each element, key, value or field once and in order, and return
/// each error to the caller; or call the `Serialize` implementation of an inner value.
///
/// # Example
/// The tree of `(1u8, true)` is the list of a ubyte and a boolean, `c00402500141`. The tree of
/// `Some(true)` is the tree of `true`, `41`.
pub trait Serialize {
    /// The data tree of the value, if it has one.
    ghost tree: { Self → Option Tree };

    /// Serializes the value. The result is the serializer's result for the tree of the value.
    ///
    /// # Errors
    /// Returns the serializer's error for the tree. Always returns an error if the value has no
    /// tree.
    ///
    /// # Example
    /// `true` is `41`, the list of the strings `a` and `bc` is `c00802a10161a1026263`.
    fn serialize<S: Serializer>(&self, serializer: &mut S) -> Result<S::Ok, S::Error>
        ensures { S.permits serializer.old (tree self.now) result serializer.new };
}
