//! The properties of a message.

mod derived;

use crate::identifiers::{Address, MessageId};
use serde_amqp::primitives::{ByteBuf, Symbol, Timestamp};

/// The properties of a message that its sender sets (AMQP 1.0 part 3, section 3.2.4).
///
/// # Encoding
/// A list of the fields, described by the code 0x73.
// amqp: encoding = "list", code = 0x73, name = "amqp:properties:list", rename_all = "kebab-case"
#[derive(Debug, Clone, Default, PartialEq, Drop)]
pub struct Properties {
    /// The identifier of the message.
    pub message_id: Option<MessageId>,
    /// The user who sent the message.
    pub user_id: Option<ByteBuf>,
    /// The node that the message is for.
    pub to: Option<Address>,
    /// What the message is about.
    pub subject: Option<String>,
    /// The node that answers are for.
    pub reply_to: Option<Address>,
    /// The message that this one answers.
    pub correlation_id: Option<MessageId>,
    /// The media type of the data of the body.
    pub content_type: Option<Symbol>,
    /// The coding of the data of the body, such as gzip.
    pub content_encoding: Option<Symbol>,
    /// When the message expires.
    pub absolute_expiry_time: Option<Timestamp>,
    /// When the message was made.
    pub creation_time: Option<Timestamp>,
    /// The group that the message is in.
    pub group_id: Option<String>,
    /// The place of the message in its group.
    pub group_sequence: Option<u32>,
    /// The group that answers are in.
    pub reply_to_group_id: Option<String>,
}
