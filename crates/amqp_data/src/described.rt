//! Described values (AMQP 1.0 part 1, section 1.1.2).

ghost use Rattle.std.specs.Prelude.{◌≡◌};

use crate::Descriptor;

/// A value with its descriptor.
///
/// # Encoding
/// `00`, the descriptor, the value.
///
/// # Example
/// The code 1 with an empty list is encoded as `00530145`.
#[derive(Debug, PartialEq, Eq, PartialOrd, Ord, Hash, Clone, Drop)]
pub struct Described<T> {
    /// The descriptor of the value.
    pub descriptor: Descriptor,
    /// The value.
    pub value: T,
}

impl<T> Described<T> {
    /// Returns the value with the descriptor, which is a `Symbol`, a `u64` or a `Descriptor`.
    ///
    /// # Example
    /// `Described::new(1u64, true)` is encoded as `00530141`.
    pub fn new<D: Into<Descriptor>>(descriptor: D, value: T) -> Described<T>
        ensures descriptor { D.converts descriptor result.descriptor }
        ensures value { result.value ≡ value }
    {
        Described {
            descriptor: descriptor.into(),
            value,
        }
    }
}
