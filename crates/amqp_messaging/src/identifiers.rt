//! Identifiers and addresses, which are of several types.

mod derived;

use serde_amqp::primitives::{ByteBuf, Symbol, Uuid};

/// The identifier of a message (sections 3.2.11 to 3.2.14) (AMQP 1.0 part 3, section 3.2.11).
// amqp: encoding = "scalar"
#[derive(Debug, Clone, PartialEq, Drop)]
pub enum MessageId {
    /// A number.
    Ulong(u64),
    /// A UUID.
    Uuid(Uuid),
    /// Bytes.
    Binary(ByteBuf),
    /// A text.
    String(String),
}

/// The address of a node (AMQP 1.0 part 3, section 3.2.15).
// amqp: encoding = "scalar"
#[derive(Debug, Clone, PartialEq, Drop)]
pub enum Address {
    /// A text, the only type that the standard defines.
    String(String),
}

/// The key of an annotation (AMQP 1.0 part 3, section 3.2.10).
// amqp: encoding = "scalar", map_key, write_only
#[derive(Debug, Clone, PartialEq, Eq, Hash, Drop)]
pub enum AnnotationKey {
    /// A symbol.
    Symbol(Symbol),
    /// A number, which the standard reserves.
    Ulong(u64),
}
