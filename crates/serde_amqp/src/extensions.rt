//! Vectors that are encoded without a header.

pub use amqp_data::TransparentVec;
