//! Decodes the bytes of one encoded value into an untyped value.
//!
//! Every encoding of AMQP data is accepted, not only the one that this library writes: short and
//! long forms, also as elements of arrays. One relation defines which bytes encode which tree.
//! `decode_value` returns the value that the bytes encode by this relation, and an error if they
//! encode none or an allocation fails.
#![tactic(auto)]

mod decode;
mod fixed;
pub mod laws;
mod limit;
mod located;
mod payload;
pub mod prefix;
mod push;
mod read;
mod reserve;
mod run;
mod scalar;
mod scalar_check;
mod skip;

pub use decode::{decode_value, decode_value_limited, decode_value_to_depth};
pub use located::{
    Located, Place, decode_value_limited_located, decode_value_located, fault_place,
    fault_place_to_depth,
};
