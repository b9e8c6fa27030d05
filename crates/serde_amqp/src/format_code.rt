//! Format codes by name (AMQP 1.0 part 1, section 1.6).

pub use amqp_data::EncodingCodes;
