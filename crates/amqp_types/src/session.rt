//! The frame that begins a session.

mod derived;

use serde_amqp::Value;
use serde_amqp::primitives::{Multiple, OrderedMap, Symbol};

/// Begins a session on a channel (AMQP 1.0 part 2, section 2.7.2).
///
/// # Encoding
/// A list of the fields, described by the code 0x11.
// amqp: encoding = "list", code = 0x11, name = "amqp:begin:list", rename_all = "kebab-case", new
#[derive(Debug, Clone, PartialEq, Drop)]
pub struct Begin {
    /// The channel of the begin that this one answers.
    pub remote_channel: Option<u16>,
    /// The number of the next transfer of the sender.
    pub next_outgoing_id: u32,
    /// How many transfers the sender can receive.
    pub incoming_window: u32,
    /// How many transfers the sender can send.
    pub outgoing_window: u32,
    /// The highest handle that the sender accepts.
    // amqp: default = 4294967295
    pub handle_max: Option<u32>,
    /// The extensions that the sender supports.
    pub offered_capabilities: Option<Multiple<Symbol>>,
    /// The extensions that the sender may use if the receiver supports them.
    pub desired_capabilities: Option<Multiple<Symbol>>,
    /// Other properties of the session.
    pub properties: Option<OrderedMap<Symbol, Value>>,
}
