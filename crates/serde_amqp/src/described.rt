//! Values with a descriptor (AMQP 1.0 part 1, section 1.1.2).

pub use amqp_data::Described;
