//! Serialization: the traits, the encoding of a value, and helpers for user-defined serializers.

pub use crate::fields;
pub use amqp_data::markers;
pub use amqp_ser::{
    Compound, CompoundKind, Field, Fields, Fixed, Hint, Keys, ListOf, MapOf, Marker, Name,
    OptionalField, Pending, Serialize, SerializeCompounds, SerializeMap, SerializeScalars,
    SerializeSeq, SerializeStruct, SerializeStructVariant, SerializeTuple, SerializeTupleStruct,
    SerializeTupleVariant, Serializer, StructEncoding, SymbolMapOf, VariantOf, Whole, marker_named,
};
pub use amqp_wire::{to_lazy_value, to_vec};
