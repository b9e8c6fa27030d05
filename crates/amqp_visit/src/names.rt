//! The names of structs and enums that select what they are read from.

ghost use Rattle.std.specs.Prelude.{◌≡◌};
ghost use Rattle.amqp_ser.specs.Marked.{is_descriptor_name, is_value_name};
ghost use Rattle.amqp_visit.specs.Events.{is_array_name, is_described_name, read_marker};

use amqp_data::markers;
use amqp_ser::{Marker, marker_named};

/// Returns `true` if and only if a struct of this name is read from a described value.
///
/// # Example
/// `true` only for `DESCRIBED_BASIC`, `DESCRIBED_LIST` and `DESCRIBED_MAP`.
pub fn is_described_name(name: &str) -> bool
    ensures { result ≡ is_described_name name.now }
{
    name == markers::DESCRIBED_BASIC
        || name == markers::DESCRIBED_LIST
        || name == markers::DESCRIBED_MAP
}

/// Returns `true` if and only if an enum of this name is read as an untyped value.
///
/// # Example
/// `true` only for `VALUE`.
pub fn is_value_name(name: &str) -> bool
    ensures { result ≡ is_value_name name.now }
{
    name == markers::VALUE
}

/// Returns `true` if and only if an enum of this name is read as the elements of an array, or as
/// the format code of another value.
///
/// # Example
/// `true` only for `ARRAY`.
pub fn is_array_name(name: &str) -> bool
    ensures { result ≡ is_array_name name.now }
{
    name == markers::ARRAY
}

/// Returns `true` if and only if an enum of this name is read as a descriptor.
///
/// # Example
/// `true` only for `DESCRIPTOR`.
pub fn is_descriptor_name(name: &str) -> bool
    ensures { result ≡ is_descriptor_name name.now }
{
    name == markers::DESCRIPTOR
}

/// Returns the marker that the name of a newtype denotes when it is read.
///
/// A borrowed symbol is never read, so `SYMBOL_REF` is a name like any other.
///
/// # Example
/// `Marker::Symbol` for `SYMBOL`, `Marker::Other` for `SYMBOL_REF` and for `Celsius`.
pub fn marker_read(name: &str) -> Marker
    ensures { result ≡ read_marker name.now }
{
    if name == markers::SYMBOL_REF {
        Marker::Other
    } else {
        marker_named(name)
    }
}
