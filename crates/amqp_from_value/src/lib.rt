//! Typed values from encoded bytes within limits, with the place of a fault or from a reader, and
//! proofs that values round-trip.
//!
//! Reads any `amqp_de::Deserialize` type from the bytes of one encoded value within limits, or with
//! the place of a fault; `from_reader` from the next encoded value of a reader, and `ReadLazy` from
//! a lazy value. Each reads the type from the bytes in one pass. If that fails, it decodes the
//! bytes to an untyped value, at most 256 deep, and reads the type from it.
#![tactic(auto)]

mod alternatives;
mod entries;
mod fields;
mod holders;
pub mod laws;
mod lazy;
mod limited;
mod limited_located;
mod located;
mod map_key;
mod maps;
mod reader;
mod returns;
mod round_trips;
mod scalars;
mod shapes;
mod tuples;

pub use alternatives::{RoundTripAlternatives, RoundTripComposite};
pub use fields::{RoundTripField, RoundTripFields};
pub use lazy::ReadLazy;
pub use limited::{Limits, from_slice_limited, from_slice_with};
pub use limited_located::from_slice_limited_located;
pub use located::{SliceError, from_slice_located};
pub use map_key::MapKey;
pub use reader::{from_reader, from_reader_limited};
pub use returns::{
    after_name_returns, composite_returns, named_after_name_returns, named_composite_returns,
    named_parts_return, parts_return,
};
pub use round_trips::{RoundTrip, RoundTripReadable, round_trip, round_trip_bytes};
pub use shapes::ShapeTree;
