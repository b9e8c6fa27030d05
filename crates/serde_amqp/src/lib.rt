//! AMQP 1.0 data: values, their encoding and its length.
//!
//! One `Serialize` implementation provides the length of a value's encoding ([`serialized_size`],
//! without allocating), the encoding ([`to_vec`]) and the untyped [`Value`] ([`to_value`]). One
//! `Deserialize` implementation reads a type from bytes ([`from_slice`]), from a reader
//! ([`from_reader`]) and from a [`Value`] ([`from_value`]). [`lazy::LazyValue`] reads one encoded
//! value from any reader without decoding its content; [`lazy::ReadLazy`] reads a type from it, and
//! [`to_value`] decodes it, as [`decode::decode_value`] decodes bytes.
//!
//! This crate is the top of the workspace. Its modules re-export items of the crates below under
//! the names of the Rust crate `serde_amqp`. It adds [`Write`], the counterpart of [`read::Read`],
//! and [`run_cut`] and [`run_lines`], the two functions that the program `amqpv` runs, for any
//! reader and writer. Their output is a function of the bytes read.
#![tactic(auto)]

mod cut;
pub mod de;
pub mod decode;
pub mod derive;
pub mod described;
pub mod descriptor;
mod encoded;
pub mod extensions;
pub mod format_code;
mod hexadecimal;
mod input;
pub mod laws;
pub mod lazy;
mod lines;
mod macros;
pub mod primitives;
pub mod read;
pub mod ser;
pub mod size_ser;
mod split_lines;
pub mod value;
mod write;
mod writers;

pub use amqp_data::Error;
pub use amqp_de::{Fault, FaultKind, from_slice, from_value, from_value_located};
pub use amqp_from_value::{
    Limits, SliceError, from_reader, from_reader_limited, from_slice_limited,
    from_slice_limited_located, from_slice_located, from_slice_with, round_trip_bytes,
};
pub use amqp_size::serialized_size;
pub use amqp_to_value::to_value;
pub use amqp_value::Value;
pub use amqp_wire::{Encoder, append_to, has_empty_array, to_vec, to_vec_strict};
pub use cut::run_cut;
pub use encoded::write_to;
pub use lines::run_lines;
pub use write::Write;
pub use writers::{IoWriter, VecWriter};

/// Version of this library, the first one in `CHANGELOG.md`.
///
/// # Example
/// `0.1.0`.
pub const VERSION: &str = "0.1.0";
