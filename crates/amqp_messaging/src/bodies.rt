//! The sections of the body of a message.

mod derived;

use serde_amqp::Value;
use serde_amqp::primitives::ByteBuf;

/// A body of bytes, or a part of it (AMQP 1.0 part 3, section 3.2.6).
///
/// # Encoding
/// The value, described by the code 0x75.
// amqp: encoding = "basic", code = 0x75, name = "amqp:data:binary"
#[derive(Debug, Clone, PartialEq, Drop)]
pub struct Data(pub ByteBuf);

/// A body of a list of values, or a part of it (AMQP 1.0 part 3, section 3.2.7).
///
/// # Encoding
/// The value, described by the code 0x76.
// amqp: encoding = "basic", code = 0x76, name = "amqp:amqp-sequence:list"
#[derive(Debug, Clone, PartialEq, Drop)]
pub struct AmqpSequence(pub Vec<Value>);

/// A body of one value (AMQP 1.0 part 3, section 3.2.8).
///
/// # Encoding
/// The value, described by the code 0x77.
// amqp: encoding = "basic", code = 0x77, name = "amqp:amqp-value:*"
#[derive(Debug, Clone, PartialEq, Drop)]
pub struct AmqpValue(pub Value);
