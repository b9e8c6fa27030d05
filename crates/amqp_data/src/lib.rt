//! AMQP data types that have no counterpart in Rust, and the error type of all calls.
//!
//! The other crates of the workspace depend on this one, except `amqp_calendar`. Each type stores
//! its content unchanged. Equality, order and hash depend on the content only.
#![tactic(auto)]

mod array;
mod bits;
mod byte_buf;
mod decimal;
mod described;
mod descriptor;
mod distinct_keys;
mod error;
mod format_code;
mod hexadecimal;
mod index;
mod keys;
pub mod laws;
mod map_index;
pub mod markers;
mod multiple;
mod ordered_map;
mod ordered_map_builder;
mod parts;
mod symbol;
mod timestamp;
mod transparent_vec;
mod uuid;

pub use amqp_calendar::civil_from_days;
pub use array::Array;
pub use bits::{F32Bits, F64Bits};
pub use byte_buf::ByteBuf;
pub use decimal::{Dec32, Dec64, Dec128};
pub use described::Described;
pub use descriptor::Descriptor;
pub use distinct_keys::finds_distinct_keys;
pub use error::Error;
pub use format_code::EncodingCodes;
pub use hexadecimal::{hexadecimal_digit, write_hexadecimal};
pub use keys::{
    MAX_HASHED_BINARY, MAX_HASHED_TEXT, MAX_PAIRED_LONG, MIN_INDEXED, ascends, keys_differ,
    once_each, once_each_by_order, once_each_by_pairs, once_each_unordered, ordered_keys_differ,
};
pub use map_index::MapIndex;
pub use multiple::Multiple;
pub use ordered_map::{Entry, Iter, IterMut, Keys, OrderedMap, Values, ValuesMut};
pub use ordered_map_builder::OrderedMapBuilder;
pub use symbol::{Symbol, SymbolRef};
pub use timestamp::Timestamp;
pub use transparent_vec::TransparentVec;
pub use uuid::Uuid;
