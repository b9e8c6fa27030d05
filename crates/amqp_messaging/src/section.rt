//! A section of a message, one of several types.

mod derived;

use crate::annotations::{ApplicationProperties, DeliveryAnnotations, Footer, MessageAnnotations};
use crate::bodies::{AmqpSequence, AmqpValue, Data};
use crate::header::Header;
use crate::properties::Properties;
use crate::unknown::Unknown;

/// A section of a message (AMQP 1.0 part 3, section 3.2).
// amqp: encoding = "described", others
#[derive(Debug, Clone, PartialEq, Drop)]
pub enum Section {
    /// How a message is delivered.
    Header(Header),
    /// Annotations for the next node.
    DeliveryAnnotations(DeliveryAnnotations),
    /// Annotations for all nodes.
    MessageAnnotations(MessageAnnotations),
    /// The properties of a message that its sender sets.
    Properties(Properties),
    /// Properties of the application.
    ApplicationProperties(ApplicationProperties),
    /// A body of bytes, or a part of it.
    Data(Data),
    /// A body of a list of values, or a part of it.
    AmqpSequence(AmqpSequence),
    /// A body of one value.
    AmqpValue(AmqpValue),
    /// Annotations after the body, such as checksums.
    Footer(Footer),
    /// A described value of another type, which is kept.
    Other(Unknown),
}
