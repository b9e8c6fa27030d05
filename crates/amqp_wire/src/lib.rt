//! Encodes a value in two passes, with one allocation for the bytes.
//!
//! `to_vec` makes two passes over a value, of one serializer with two sinks. The first pass counts
//! the bytes and notes a hint, the length and the number of parts, for each compound. Then the
//! buffer is allocated, and the second pass writes into it without allocating, and compares each
//! compound with its hint. Unless an allocation fails, `to_vec` succeeds if and only if the tree of
//! the value is writable, and returns the encoding of the tree.
//!
//! `append_to` appends the encoding to a vector. An `Encoder` encodes one value after another and
//! allocates nothing once its buffers are large enough. Both write the bytes of `to_vec`.
//!
//! An array without elements is encoded without a constructor (`e00100`), since no element
//! determines one. Some implementations refuse it. `has_empty_array` returns whether a value has
//! one, and `to_vec_strict` refuses to encode such a value.
#![tactic(auto)]

mod appender;
mod counter;
mod encode;
mod encoder;
mod finder;
mod header;
mod hints;
mod lazy_value;
mod pass;
mod pass_begin;
mod pass_compound;
mod pass_serializer;
mod position;
mod put;
mod search;
mod sink;
mod strict;

pub use encode::{append_to, append_value, error_of, measure, to_vec};
pub use encoder::Encoder;
pub use hints::Hints;
pub use lazy_value::to_lazy_value;
pub use search::has_empty_array;
pub use strict::to_vec_strict;
