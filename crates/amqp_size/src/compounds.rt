//! Type aliases for the open compounds of the size serializer.

use crate::serializer::SizeSerializer;
use amqp_ser::{
    SerializeMap, SerializeSeq, SerializeStruct, SerializeStructVariant, SerializeTuple,
    SerializeTupleStruct, SerializeTupleVariant,
};

/// A list that is being measured.
pub type SeqSerializer<'a> = SerializeSeq<'a, SizeSerializer>;

/// A tuple that is being measured.
pub type TupleSerializer<'a> = SerializeTuple<'a, SizeSerializer>;

/// A map that is being measured.
pub type MapSerializer<'a> = SerializeMap<'a, SizeSerializer>;

/// A tuple struct that is being measured.
pub type TupleStructSerializer<'a> = SerializeTupleStruct<'a, SizeSerializer>;

/// A struct that is being measured.
pub type StructSerializer<'a> = SerializeStruct<'a, SizeSerializer>;

/// A variant with unnamed fields that is being measured.
pub type VariantSerializer<'a> = SerializeTupleVariant<'a, SizeSerializer>;

/// A variant with named fields that is being measured.
pub type StructVariantSerializer<'a> = SerializeStructVariant<'a, SizeSerializer>;
