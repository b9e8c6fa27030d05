//! The performatives that carry a message and tell the state of deliveries.

mod derived;

use crate::modes::{ReceiverSettleMode, Role};
use amqp_messaging::DeliveryState;
use serde_amqp::primitives::ByteBuf;

/// Carries a message, or a part of it, as its payload (AMQP 1.0 part 2, section 2.7.5).
///
/// # Encoding
/// A list of the fields, described by the code 0x14.
// amqp: encoding = "list", code = 0x14, name = "amqp:transfer:list", rename_all = "kebab-case", new
#[derive(Debug, Clone, PartialEq, Drop)]
pub struct Transfer {
    /// The handle of the link.
    pub handle: u32,
    /// The number of the delivery, in its first frame.
    pub delivery_id: Option<u32>,
    /// The tag of the delivery, at most 32 bytes, in its first frame.
    pub delivery_tag: Option<ByteBuf>,
    /// The format of the message. 0 is a message of the standard.
    pub message_format: Option<u32>,
    /// Whether the sender has settled the delivery.
    pub settled: Option<bool>,
    /// Whether more frames of the delivery follow.
    // amqp: default = false
    pub more: Option<bool>,
    /// How the receiving end settles the delivery.
    pub rcv_settle_mode: Option<ReceiverSettleMode>,
    /// The state of the delivery at the sender.
    pub state: Option<DeliveryState>,
    /// Whether the delivery was begun before the link was attached again.
    // amqp: default = false
    pub resume: Option<bool>,
    /// Whether the sender takes the delivery back.
    // amqp: default = false
    pub aborted: Option<bool>,
    /// Whether the answer may wait for others.
    // amqp: default = false
    pub batchable: Option<bool>,
}

/// Tells the state of a range of deliveries (AMQP 1.0 part 2, section 2.7.6).
///
/// # Encoding
/// A list of the fields, described by the code 0x15.
// amqp: encoding = "list", code = 0x15, name = "amqp:disposition:list", rename_all = "kebab-case", new
#[derive(Debug, Clone, PartialEq, Drop)]
pub struct Disposition {
    /// Which end the sender of the frame is.
    pub role: Role,
    /// The first delivery.
    pub first: u32,
    /// The last delivery. Without it, there is one.
    pub last: Option<u32>,
    /// Whether the sender has settled the deliveries.
    // amqp: default = false
    pub settled: Option<bool>,
    /// The state of the deliveries at the sender.
    pub state: Option<DeliveryState>,
    /// Whether the answer may wait for others.
    // amqp: default = false
    pub batchable: Option<bool>,
}
