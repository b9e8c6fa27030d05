//! The frame that updates the windows of a session and the credit of a link.

mod derived;

use serde_amqp::Value;
use serde_amqp::primitives::{OrderedMap, Symbol};

/// Updates the windows of a session, and the credit of a link (AMQP 1.0 part 2, section 2.7.4).
///
/// # Encoding
/// A list of the fields, described by the code 0x13.
// amqp: encoding = "list", code = 0x13, name = "amqp:flow:list", rename_all = "kebab-case", new
#[derive(Debug, Clone, PartialEq, Drop)]
pub struct Flow {
    /// The number of the next transfer that the sender expects.
    pub next_incoming_id: Option<u32>,
    /// How many transfers the sender can receive.
    pub incoming_window: u32,
    /// The number of the next transfer of the sender.
    pub next_outgoing_id: u32,
    /// How many transfers the sender can send.
    pub outgoing_window: u32,
    /// The handle of the link. Without it, the frame is about the session alone.
    pub handle: Option<u32>,
    /// The delivery count of the link.
    pub delivery_count: Option<u32>,
    /// How many more deliveries the receiving end accepts.
    pub link_credit: Option<u32>,
    /// How many deliveries the sending end has ready.
    pub available: Option<u32>,
    /// Whether the sending end must use up the credit at once.
    // amqp: default = false
    pub drain: Option<bool>,
    /// Whether the sender wants a flow frame as answer.
    // amqp: default = false
    pub echo: Option<bool>,
    /// Other properties of the link.
    pub properties: Option<OrderedMap<Symbol, Value>>,
}
