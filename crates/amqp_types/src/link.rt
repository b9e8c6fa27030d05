//! The frame that attaches a link.

mod derived;

use crate::coordinator::AnyTarget;
use crate::modes::{ReceiverSettleMode, Role, SenderSettleMode};
use crate::source::Source;
use amqp_messaging::DeliveryState;
use serde_amqp::Value;
use serde_amqp::primitives::{ByteBuf, Multiple, OrderedMap, Symbol};

/// Attaches a link to a session (AMQP 1.0 part 2, section 2.7.3).
///
/// # Encoding
/// A list of the fields, described by the code 0x12.
// amqp: encoding = "list", code = 0x12, name = "amqp:attach:list", rename_all = "kebab-case", new
#[derive(Debug, Clone, PartialEq, Drop)]
pub struct Attach {
    /// The name of the link.
    pub name: String,
    /// The number of the link while it is attached.
    pub handle: u32,
    /// Which end of the link the sender of the frame is.
    pub role: Role,
    /// How the sending end settles deliveries.
    pub snd_settle_mode: Option<SenderSettleMode>,
    /// How the receiving end settles deliveries.
    pub rcv_settle_mode: Option<ReceiverSettleMode>,
    /// Where the messages come from.
    pub source: Option<Source>,
    /// Where the messages go to.
    pub target: Option<AnyTarget>,
    /// The states of the unsettled deliveries, by their tags.
    pub unsettled: Option<OrderedMap<ByteBuf, Option<DeliveryState>>>,
    /// Whether `unsettled` lists only some of the deliveries.
    // amqp: default = false
    pub incomplete_unsettled: Option<bool>,
    /// The delivery count of the sending end, which only it sets.
    pub initial_delivery_count: Option<u32>,
    /// The size of the largest message that the sender accepts. 0 is no limit.
    pub max_message_size: Option<u64>,
    /// The extensions that the sender supports.
    pub offered_capabilities: Option<Multiple<Symbol>>,
    /// The extensions that the sender may use if the receiver supports them.
    pub desired_capabilities: Option<Multiple<Symbol>>,
    /// Other properties of the link.
    pub properties: Option<OrderedMap<Symbol, Value>>,
}

impl Attach {
    ghost use Rattle.std.specs.Prelude.{◌≡◌};
    ghost use Rattle.serde_amqp.specs.Derive.{value_or};
    ghost use Rattle.amqp_types.specs.declared.modes.SenderSettleMode.TheVariants as sender_settle_mode;
    ghost use Rattle.amqp_types.specs.declared.modes.ReceiverSettleMode.TheVariants as receiver_settle_mode;

    /// Returns `snd_settle_mode`, or `SenderSettleMode::Mixed` if it is absent.
    pub fn snd_settle_mode_or_default(&self) -> SenderSettleMode
        ensures { result ≡ value_or sender_settle_mode.Mixed self.now.snd_settle_mode }
    {
        self.snd_settle_mode.unwrap_or(SenderSettleMode::Mixed)
    }

    /// Returns `rcv_settle_mode`, or `ReceiverSettleMode::First` if it is absent.
    pub fn rcv_settle_mode_or_default(&self) -> ReceiverSettleMode
        ensures { result ≡ value_or receiver_settle_mode.First self.now.rcv_settle_mode }
    {
        self.rcv_settle_mode.unwrap_or(ReceiverSettleMode::First)
    }
}
