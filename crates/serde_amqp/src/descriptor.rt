//! Descriptor of a described value: a symbol or a number (AMQP 1.0 part 1, section 1.5).

pub use amqp_data::Descriptor;
