//! The states that a delivery can reach.

mod derived;

use crate::error::AmqpError;
use serde_amqp::Value;
use serde_amqp::primitives::{OrderedMap, Symbol};

/// How much of a message has been received (AMQP 1.0 part 3, section 3.4.1).
///
/// # Encoding
/// A list of the fields, described by the code 0x23.
// amqp: encoding = "list", code = 0x23, name = "amqp:received:list", rename_all = "kebab-case", new
#[derive(Debug, Clone, PartialEq, Drop)]
pub struct Received {
    /// The section that was received in part, from 0.
    pub section_number: u32,
    /// How many bytes of the section were received.
    pub section_offset: u64,
}

/// The message was processed (AMQP 1.0 part 3, section 3.4.2).
///
/// # Encoding
/// A list of the fields, described by the code 0x24.
// amqp: encoding = "list", code = 0x24, name = "amqp:accepted:list"
#[derive(Debug, Clone, Default, PartialEq, Drop)]
pub struct Accepted;

/// The message is invalid and cannot be processed (AMQP 1.0 part 3, section 3.4.3).
///
/// # Encoding
/// A list of the fields, described by the code 0x25.
// amqp: encoding = "list", code = 0x25, name = "amqp:rejected:list", rename_all = "kebab-case"
#[derive(Debug, Clone, Default, PartialEq, Drop)]
pub struct Rejected {
    /// Why the message was rejected.
    pub error: Option<AmqpError>,
}

/// The message was not processed (AMQP 1.0 part 3, section 3.4.4).
///
/// # Encoding
/// A list of the fields, described by the code 0x26.
// amqp: encoding = "list", code = 0x26, name = "amqp:released:list"
#[derive(Debug, Clone, Default, PartialEq, Drop)]
pub struct Released;

/// The message was not processed, and was changed (AMQP 1.0 part 3, section 3.4.5).
///
/// # Encoding
/// A list of the fields, described by the code 0x27.
// amqp: encoding = "list", code = 0x27, name = "amqp:modified:list", rename_all = "kebab-case"
#[derive(Debug, Clone, Default, PartialEq, Drop)]
pub struct Modified {
    /// Whether the delivery counts as failed.
    pub delivery_failed: Option<bool>,
    /// Whether the message must not be delivered to this link again.
    pub undeliverable_here: Option<bool>,
    /// Annotations to merge into those of the message.
    pub message_annotations: Option<OrderedMap<Symbol, Value>>,
}
