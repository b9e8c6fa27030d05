//! The sections of a message that are maps.

mod derived;

use crate::identifiers::AnnotationKey;
use serde_amqp::Value;
use serde_amqp::primitives::OrderedMap;

/// Annotations for the next node (AMQP 1.0 part 3, section 3.2.2).
///
/// # Encoding
/// The value, described by the code 0x71.
// amqp: encoding = "basic", code = 0x71, name = "amqp:delivery-annotations:map"
#[derive(Debug, Clone, PartialEq, Drop)]
pub struct DeliveryAnnotations(pub OrderedMap<AnnotationKey, Value>);

/// Annotations for all nodes (AMQP 1.0 part 3, section 3.2.3).
///
/// # Encoding
/// The value, described by the code 0x72.
// amqp: encoding = "basic", code = 0x72, name = "amqp:message-annotations:map"
#[derive(Debug, Clone, PartialEq, Drop)]
pub struct MessageAnnotations(pub OrderedMap<AnnotationKey, Value>);

/// Properties of the application (AMQP 1.0 part 3, section 3.2.5).
///
/// # Encoding
/// The value, described by the code 0x74.
// amqp: encoding = "basic", code = 0x74, name = "amqp:application-properties:map"
#[derive(Debug, Clone, PartialEq, Drop)]
pub struct ApplicationProperties(pub OrderedMap<String, Value>);

/// Annotations after the body, such as checksums (AMQP 1.0 part 3, section 3.2.9).
///
/// # Encoding
/// The value, described by the code 0x78.
// amqp: encoding = "basic", code = 0x78, name = "amqp:footer:map"
#[derive(Debug, Clone, PartialEq, Drop)]
pub struct Footer(pub OrderedMap<AnnotationKey, Value>);
