//! Conversion of any serializable value to an untyped value.
//!
//! `to_value` returns the value whose tree is the image of the tree of its argument. It uses
//! `Serializer`, which can also be used on its own, element by element. `amqp_decode` decodes the
//! bytes of a lazy value.
//!
//! A plain value and its image have the same encoding. Of other values the encodings can differ:
//! the image of a transparent vector is a list, a map keeps one of two keys with the same image,
//! and the bytes of a lazy value can be longer than the encoding of the value that they encode.
#![tactic(auto)]

mod compounds;
mod image;
pub mod laws;
mod lazy;
mod next_capacity;
mod open_map;
mod open_value;
mod parts;
mod pending_descriptors;
mod scalars;
mod serializer;
mod value_error;

pub use compounds::{
    MapSerializer, SeqSerializer, StructSerializer, StructSerializerKind, StructVariantSerializer,
    TupleSerializer, TupleStructSerializer, TupleStructSerializerKind, VariantSerializer,
};
pub use image::{TryFromSerializable, to_value};
pub use serializer::Serializer;
pub use value_error::ValueError;
