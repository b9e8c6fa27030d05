//! The bytes of one encoded value, kept without decoding them.

pub use amqp_frame::{LazyValue, frame_len, is_encoded_value};
pub use amqp_from_value::ReadLazy;
pub use amqp_wire::to_lazy_value;
