//! Serializer that builds an untyped value.

pub use amqp_to_value::{
    MapSerializer, SeqSerializer, Serializer, StructSerializer, StructSerializerKind,
    StructVariantSerializer, TupleSerializer, TupleStructSerializer, TupleStructSerializerKind,
    ValueError, VariantSerializer,
};
