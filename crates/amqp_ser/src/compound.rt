//! Compounds that are being serialized, generic over the serializer.
//!
//! Each contains a reference to the serializer and the serializer's open compound. If serializing
//! an element, key, value or field fails, the compound is unchanged and keeps accepting parts.

pub(crate) mod any_field;
pub(crate) mod body;
pub(crate) mod described;
mod list_field;
mod map;
pub(crate) mod part;
mod results;
mod sequence;
mod struct_variant;
mod structs;
pub(crate) mod tuple_struct;
mod variant;

pub use map::SerializeMap;
pub use results::Compound;
pub use sequence::{SerializeSeq, SerializeTuple};
pub use struct_variant::SerializeStructVariant;
pub use structs::SerializeStruct;
pub use tuple_struct::SerializeTupleStruct;
pub use variant::SerializeTupleVariant;
