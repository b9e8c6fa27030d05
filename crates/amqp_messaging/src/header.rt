//! The header of a message.

mod derived;

/// How a message is delivered (AMQP 1.0 part 3, section 3.2.1).
///
/// # Encoding
/// A list of the fields, described by the code 0x70.
// amqp: encoding = "list", code = 0x70, name = "amqp:header:list", rename_all = "kebab-case"
#[derive(Debug, Clone, Default, PartialEq, Drop)]
pub struct Header {
    /// Whether the message must survive a failure of a node.
    // amqp: default = false
    pub durable: Option<bool>,
    /// The priority, at most 9 where a node has ten.
    // amqp: default = 4
    pub priority: Option<u8>,
    /// How long the message is of use, in milliseconds.
    pub ttl: Option<u32>,
    /// Whether no other link has acquired the message before.
    // amqp: default = false
    pub first_acquirer: Option<bool>,
    /// How many deliveries of the message failed before.
    // amqp: default = 0
    pub delivery_count: Option<u32>,
}
