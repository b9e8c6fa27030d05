//! Reads encoded values of AMQP data from any reader.
//!
//! An encoded value is a format code with its payload, or 00 with a descriptor and a value (AMQP
//! 1.0 part 1, section 1.2). Its end is determined by its format codes and sizes only. The content
//! of a payload is not examined. No encoded value is a proper prefix of another, so the end of the
//! next encoded value is unique.
#![tactic(auto)]

mod code;
mod encoded_value;
pub mod laws;
mod lazy;
mod read;
mod readers;
mod take_value;

pub use code::{Category, category_of};
pub use encoded_value::{frame_len, is_encoded_value};
pub use lazy::LazyValue;
pub use read::Read;
pub use readers::{IoReader, SliceReader};
