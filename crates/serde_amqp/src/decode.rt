//! Decoding of one encoded value, in any of its encodings, into an untyped value.

pub use amqp_decode::{
    Located, Place, decode_value, decode_value_limited, decode_value_limited_located,
    decode_value_located, decode_value_to_depth, fault_place, laws,
};
