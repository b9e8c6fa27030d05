//! Deserializer that reads a type from an untyped value.

pub use amqp_de::from_value;
pub use amqp_visit::{Deserializer, MapAccess, SeqAccess, VariantAccess};
