//! The frame that opens a connection.

mod derived;

use serde_amqp::Value;
use serde_amqp::primitives::{Multiple, OrderedMap, Symbol};

/// Opens a connection, and states the limits and capabilities of the sender (AMQP 1.0 part 2,
/// section 2.7.1).
///
/// # Encoding
/// A list of the fields, described by the code 0x10.
// amqp: encoding = "list", code = 0x10, name = "amqp:open:list", rename_all = "kebab-case", new
#[derive(Debug, Clone, PartialEq, Drop)]
pub struct Open {
    /// The name of the container that sends the frame.
    pub container_id: String,
    /// The host that the sender wants to reach.
    pub hostname: Option<String>,
    /// The size of the largest frame that the sender accepts.
    // amqp: default = 4294967295
    pub max_frame_size: Option<u32>,
    /// The highest channel number that the sender accepts.
    // amqp: default = 65535
    pub channel_max: Option<u16>,
    /// How long the sender waits for a frame, in milliseconds.
    pub idle_time_out: Option<u32>,
    /// The languages in which the sender can write texts.
    pub outgoing_locales: Option<Multiple<Symbol>>,
    /// The languages in which the sender wants texts.
    pub incoming_locales: Option<Multiple<Symbol>>,
    /// The extensions that the sender supports.
    pub offered_capabilities: Option<Multiple<Symbol>>,
    /// The extensions that the sender may use if the receiver supports them.
    pub desired_capabilities: Option<Multiple<Symbol>>,
    /// Other properties of the connection.
    pub properties: Option<OrderedMap<Symbol, Value>>,
}
