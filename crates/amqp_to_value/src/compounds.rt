//! The open compounds of the value serializer: type aliases, and the forms of structs.

use crate::serializer::Serializer;
use amqp_ser::{
    SerializeMap, SerializeSeq, SerializeStruct, SerializeStructVariant, SerializeTuple,
    SerializeTupleStruct, SerializeTupleVariant,
};
use amqp_value::Value;

/// A list that is being serialized to a value.
pub type SeqSerializer<'a> = SerializeSeq<'a, Serializer>;

/// A tuple that is being serialized to a value, as a list.
pub type TupleSerializer<'a> = SerializeTuple<'a, Serializer>;

/// A map that is being serialized to a value.
pub type MapSerializer<'a> = SerializeMap<'a, Serializer>;

/// A tuple struct that is being serialized to a value.
pub type TupleStructSerializer<'a> = SerializeTupleStruct<'a, Serializer>;

/// A struct that is being serialized to a value.
pub type StructSerializer<'a> = SerializeStruct<'a, Serializer>;

/// A variant with unnamed fields that is being serialized to a value.
pub type VariantSerializer<'a> = SerializeTupleVariant<'a, Serializer>;

/// A variant with named fields that is being serialized to a value.
pub type StructVariantSerializer<'a> = SerializeStructVariant<'a, Serializer>;

/// The forms of a struct that is being serialized to a value, after its descriptor.
///
/// # Example
/// `StructSerializerKind::Map` of a map with the key `x` is the form of a struct named
/// `DESCRIBED_MAP`.
#[derive(Drop)]
pub enum StructSerializerKind<'a> {
    /// The one field itself.
    Basic {
        /// The serializer of the field.
        se: &'a mut Serializer,
        /// The value of the field, once it is serialized.
        val: Option<Value>,
    },
    /// A list of the fields.
    List(SeqSerializer<'a>),
    /// A map from the names of the fields to their values.
    Map(MapSerializer<'a>),
}

/// The forms of a tuple struct that is being serialized to a value, after its descriptor.
///
/// # Example
/// `TupleStructSerializerKind::List` of an empty list is the form of a tuple struct without fields.
#[derive(Drop)]
pub enum TupleStructSerializerKind<'a> {
    /// The one field itself.
    Basic {
        /// The serializer of the field.
        se: &'a mut Serializer,
        /// The value of the field, once it is serialized.
        val: Option<Value>,
    },
    /// A list of the fields.
    List(SeqSerializer<'a>),
}
