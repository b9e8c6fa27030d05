//! Writes AMQP data into a buffer of the caller, without memory.
//!
//! A [`Writer`] is an offset and a count. It is plain data without a pointer, so that callers
//! outside Rattle can hold it. Every call accepts every writer and every buffer. Nothing past a
//! buffer that is too small is written, and [`Writer::most`] says how much room is needed. The
//! first fault stays, and [`finish`] returns it.
#![tactic(auto)]

mod fault;
mod form;
pub mod kinds;
mod numbers;
mod put;
mod room;
mod runs;
mod writer;

pub use fault::Fault;
pub use numbers::{
    put_bool, put_byte, put_char, put_double, put_float, put_int, put_long, put_null, put_short,
    put_timestamp, put_ubyte, put_uint, put_ulong, put_ushort,
};
pub use put::{put_bytes, put_code, put_encoded, put_name};
pub use runs::put_uints;
pub use writer::{Opened, Writer, close, finish, open};
