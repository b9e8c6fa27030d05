//! Measures the encoding of a value without allocating.
//!
//! `serialized_size` succeeds if and only if the tree of the value is writable, and returns the
//! length of its encoding. `SizeSerializer` is the serializer that it uses.
//!
//! `amqp_wire` also uses `ResolvedKind`, `ScalarEncoding` and `ScalarMarker`; `width` has the
//! lengths of headers.
#![tactic(auto)]

mod compounds;
mod context;
mod descriptor;
mod limits;
mod open_compound;
mod position;
mod resolved_kind;
mod scalar_encoding;
mod scalar_marker;
mod serializer;
mod size_error;
mod tree_sizes;
mod whole_values;
pub mod width;

pub use compounds::{
    MapSerializer, SeqSerializer, StructSerializer, StructVariantSerializer, TupleSerializer,
    TupleStructSerializer, VariantSerializer,
};
pub use open_compound::OpenCompound;
pub use resolved_kind::ResolvedKind;
pub use scalar_encoding::ScalarEncoding;
pub use scalar_marker::ScalarMarker;
pub use serializer::{SizeSerializer, serialized_size};
pub use size_error::SizeError;
