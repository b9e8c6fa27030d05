//! Reads AMQP data in place, without memory.
//!
//! A [`Cursor`] is two offsets and a count, which [`next`] moves over encoded values. It is plain
//! data without a pointer, so that callers outside Rattle can hold it. Every call accepts every
//! cursor and all bytes.
#![tactic(auto)]

mod begins;
mod contents;
mod cursor;
mod faults;
mod node;
mod numbers;
mod pieces;

pub use begins::{Beginning, begins_with};
pub use cursor::{ANY, Cursor, Step, next, root};
pub use faults::{FaultAt, check};
pub use node::{Node, read_node};
