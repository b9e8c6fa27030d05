//! The sections of a message as user-defined types (AMQP 1.0 part 3, section 3.2).
//!
//! For newcomers: shows how to implement `Serialize` for a described list and for an enum of
//! described values. The `amqp_messaging` crate has the sections with all their fields.

ghost use Rattle.examples.specs.Sections.{of_header, of_properties, of_section};

use serde_amqp::primitives::{ByteBuf, OrderedMap};
use serde_amqp::ser::{ListOf, Serialize, SerializeCompounds, Serializer, fields};

/// The header of a message: details of its delivery (AMQP 1.0 part 3, section 3.2.1). The first
/// three fields.
#[derive(Drop)]
pub struct Header {
    pub durable: Option<bool>,
    pub priority: Option<u8>,
    pub ttl: Option<u32>,
}

impl Serialize for Header {
    ghost tree = { of_header };

    fn serialize<S: Serializer>(&self, serializer: &mut S) -> Result<S::Ok, S::Error> {
        serializer.serialize_described(
            &0x70u64,
            &ListOf(fields! {
                "durable"?: &self.durable,
                "priority"?: &self.priority,
                "ttl"?: &self.ttl,
            }),
        )
    }
}

/// The standard properties of a message (AMQP 1.0 part 3, section 3.2.4). The first four fields.
#[derive(Drop)]
pub struct Properties {
    pub message_id: Option<u64>,
    pub user_id: Option<ByteBuf>,
    pub to: Option<String>,
    pub subject: Option<String>,
}

impl Serialize for Properties {
    ghost tree = { of_properties };

    fn serialize<S: Serializer>(&self, serializer: &mut S) -> Result<S::Ok, S::Error> {
        serializer.serialize_described(
            &0x73u64,
            &ListOf(fields! {
                "message-id"?: &self.message_id,
                "user-id"?: &self.user_id,
                "to"?: &self.to,
                "subject"?: &self.subject,
            }),
        )
    }
}

/// One section of a message.
#[derive(Drop)]
pub enum Section {
    /// Details of the delivery.
    Header(Header),
    /// The standard properties.
    Properties(Properties),
    /// Properties that the application defines, by name (AMQP 1.0 part 3, section 3.2.5).
    ApplicationProperties(OrderedMap<String, i32>),
    /// The body: one AMQP value, here a string (AMQP 1.0 part 3, section 3.2.8).
    Body(String),
}

impl Serialize for Section {
    ghost tree = { of_section };

    fn serialize<S: Serializer>(&self, serializer: &mut S) -> Result<S::Ok, S::Error> {
        match self {
            Section::Header(header) => header.serialize(serializer),
            Section::Properties(properties) => properties.serialize(serializer),
            Section::ApplicationProperties(entries) => {
                serializer.serialize_described(&0x74u64, entries)
            }
            Section::Body(text) => serializer.serialize_described(&0x77u64, text),
        }
    }
}
