//! Length of a value's encoding, computed without allocating; the serializer that computes it; and
//! the lengths of headers.

pub use amqp_size::{
    MapSerializer, SeqSerializer, SizeError, SizeSerializer, StructSerializer,
    StructVariantSerializer, TupleSerializer, TupleStructSerializer, VariantSerializer,
    serialized_size, width,
};
