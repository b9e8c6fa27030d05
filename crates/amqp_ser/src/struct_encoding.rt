//! The form of the fields of a struct, determined by the name of the struct.

ghost use Rattle.std.specs.Prelude.{◌≡◌};
ghost use Rattle.amqp_ser.specs.Structs.{struct_encoding};

use crate::names::is_basic_name;
use amqp_data::markers;

/// The form in which the fields of a struct are serialized.
///
/// # Example
/// The one field `x`, the ubyte 1, is `c003015001` as a list, `c10602a101785001` as a map and
/// `5001` as a single value.
#[derive(Clone, Copy)]
pub enum StructEncoding {
    /// A list of the fields.
    List,
    /// A map from the names of the fields to their values.
    Map,
    /// The one field itself.
    Single,
}

/// Returns the form of the fields of a struct with this name.
///
/// # Memory
/// None.
///
/// # Example
/// `StructEncoding::Map` for `DESCRIBED_MAP`, `StructEncoding::Single` for `DESCRIBED_BASIC` and
/// `StructEncoding::List` for `Point`.
#[inline(always)]
pub fn struct_encoding(name: &str) -> StructEncoding
    ensures { result ≡ struct_encoding name.now }
{
    if is_basic_name(name) {
        StructEncoding::Single
    } else if name.len() == markers::DESCRIBED_MAP.len() && name == markers::DESCRIBED_MAP {
        StructEncoding::Map
    } else {
        StructEncoding::List
    }
}
