//! Types whose values can be converted to untyped values or written, and read back.

ghost use Rattle.std.specs.Prelude.{◌≡◌, MatchResult, IfSome};
ghost use Rattle.amqp_data.specs.declared.error.Error.TheVariants.{OutOfMemory};
ghost use Rattle.amqp_from_value.specs.HasImage.{HasImage};
ghost use Rattle.amqp_from_value.specs.FromReader.{HasDecodable};

use crate::laws::bytes_have_the_image;
use amqp_data::Error;
use amqp_de::{Deserialize, Readable, from_slice, from_value};
use amqp_ser::Serialize;
use amqp_to_value::to_value;
use amqp_wire::to_vec;
use std::alloc::Global;

/// A type that can be read from the untyped value that it is converted to.
///
/// # Implementer notes
/// `law` is required and does nothing. Its contract is the law: it relates what the type reads
/// to what it writes. The body calls the function that states it for the shape of the type, such as
/// [`parts_return`](crate::parts_return). Without a shape, it calls `law` of the type of each field
/// or element, and the functions of `laws` for lists and described values.
pub trait RoundTrip: Serialize + Deserialize {
    /// States that a restorable value has a tree, which contains nothing lazy, and that the tree's
    /// image is the image declared for the value.
    fn law()
        ensures { (x : Self) → Self.restorable x → HasImage (Self.tree x) (Self.image x) };
}

/// A [`Readable`] type that can be read from the untyped value that it is converted to. Each
/// implements [`RoundTrip`].
///
/// # Implementer notes
/// `readable_law` is required and does nothing. Its contract is the law. The body calls the
/// function that states it for the shape of the type, such as
/// [`parts_return`](crate::parts_return).
pub trait RoundTripReadable: Serialize + Readable {
    /// States that a restorable value has a tree, which contains nothing lazy, and that the tree's
    /// image is the image declared for the value.
    fn readable_law()
        ensures { (x : Self) → Self.laws.restorable x →
            HasImage (Self.tree x) (Self.laws.image x) };
}

impl<T: RoundTripReadable> RoundTrip for T {
    fn law() {
        T::readable_law();
    }
}

/// Converts a value to its untyped value and reads it back.
///
/// A restorable value round-trips: `T::same` holds for the result and the value.
///
/// # Errors
/// For a restorable value, returns only `Error::OutOfMemory`, if an allocation fails.
///
/// # Memory
/// Allocates from `alloc`.
pub fn round_trip<T: RoundTrip>(alloc: Global, value: &T) -> Result<T, Error>
    ensures { T.restorable value.now →
        MatchResult result (λ y. T.same y value.now) (λ e. e ≡ OutOfMemory) }
{
    T::law();
    match to_value(alloc, value) {
        Ok(untyped) => match from_value::<T>(alloc, untyped) {
            Ok(read) => Ok(read),
            Err(error) => Err(error),
        },
        Err(error) => Err(error),
    }
}

/// Writes a value and reads it from its bytes.
///
/// A restorable value round-trips, if its tree is writable, at most 256 deep, and without lazy and
/// transparent parts: `T::same` holds for the result and the value.
///
/// # Errors
/// For such a value, returns only `Error::OutOfMemory`, if an allocation fails. Otherwise returns
/// the errors of `to_vec` and `from_slice`.
///
/// # Memory
/// Allocates from `alloc` as `to_vec` and `from_slice` do.
pub fn round_trip_bytes<T: RoundTrip>(alloc: Global, value: &T) -> Result<T, Error>
    ensures { T.restorable value.now → HasDecodable (T.tree value.now) →
        MatchResult result (λ y. T.same y value.now) (λ e. e ≡ OutOfMemory) }
{
    bytes_have_the_image::<T>();
    match to_vec(alloc, value) {
        Ok(bytes) => match from_slice::<T>(alloc, bytes.as_slice()) {
            Ok(read) => Ok(read),
            Err(error) => Err(error),
        },
        Err(error) => Err(error),
    }
}
