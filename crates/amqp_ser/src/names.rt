//! The names of structs, fields and enums that select a form or a descriptor.

ghost use Rattle.std.specs.Prelude.{◌≡◌};
ghost use Rattle.amqp_ser.specs.Marked.{is_descriptor_name, is_value_name};
ghost use Rattle.amqp_ser.specs.Structs.{is_basic_name, is_tagged};

use amqp_data::markers;

/// Returns whether a tuple struct with this name has exactly one field after its descriptor.
///
/// # Memory
/// None.
///
/// # Example
/// `true` only for `DESCRIBED_BASIC`.
#[inline(always)]
pub fn is_basic_name(name: &str) -> bool
    ensures { result ≡ is_basic_name name.now }
{
    name.len() == markers::DESCRIBED_BASIC.len() && name == markers::DESCRIBED_BASIC
}

/// Returns whether the first field of a tuple struct with this name is its descriptor.
///
/// # Memory
/// None.
///
/// # Example
/// `true` only for `DESCRIBED_BASIC` and `DESCRIBED_LIST`.
pub fn is_tagged(name: &str) -> bool
    ensures { result ≡ is_tagged name.now }
{
    is_basic_name(name) || name == markers::DESCRIBED_LIST
}

/// Returns whether a newtype variant of an enum with this name is written as its value, without the
/// index.
///
/// # Memory
/// None.
///
/// # Example
/// `true` only for `VALUE`.
pub fn is_value_name(name: &str) -> bool
    ensures { result ≡ is_value_name name.now }
{
    name == markers::VALUE
}

/// Returns whether a field with this key is the descriptor of its struct. A newtype variant of an
/// enum with this name is a misuse.
///
/// # Memory
/// None.
///
/// # Example
/// `true` only for `DESCRIPTOR`.
#[inline(always)]
pub fn is_descriptor_name(key: &str) -> bool
    ensures { result ≡ is_descriptor_name key.now }
{
    key.len() == markers::DESCRIPTOR.len() && key == markers::DESCRIPTOR
}
