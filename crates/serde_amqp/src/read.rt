//! Sources of bytes.

pub use amqp_frame::{IoReader, Read, SliceReader};
