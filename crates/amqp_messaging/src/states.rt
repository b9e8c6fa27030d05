//! The outcome and the state of a delivery, also in a transaction.

mod derived;

use crate::delivery::{Accepted, Modified, Received, Rejected, Released};
use crate::transactions::Declared;
use crate::unknown::Unknown;
use serde_amqp::primitives::ByteBuf;

/// The outcome of a delivery (AMQP 1.0 part 3, section 3.4).
// amqp: encoding = "described", others
#[derive(Debug, Clone, PartialEq, Drop)]
pub enum Outcome {
    /// The message was processed.
    Accepted(Accepted),
    /// The message is invalid and cannot be processed.
    Rejected(Rejected),
    /// The message was not processed.
    Released(Released),
    /// The message was not processed, and was changed.
    Modified(Modified),
    /// The coordinator has begun a transaction.
    Declared(Declared),
    /// A described value of another type, which is kept.
    Other(Unknown),
}

/// The state of a delivery in a transaction (AMQP 1.0 part 4, section 4.5.6).
///
/// # Encoding
/// A list of the fields, described by the code 0x34.
// amqp: encoding = "list", code = 0x34, name = "amqp:transactional-state:list", rename_all = "kebab-case", new
#[derive(Debug, Clone, PartialEq, Drop)]
pub struct TransactionalState {
    /// The transaction.
    pub txn_id: ByteBuf,
    /// The outcome, if the transaction succeeds.
    pub outcome: Option<Outcome>,
}

/// The state of a delivery (AMQP 1.0 part 3, section 3.4).
// amqp: encoding = "described", others
#[derive(Debug, Clone, PartialEq, Drop)]
pub enum DeliveryState {
    /// How much of a message has been received.
    Received(Received),
    /// The message was processed.
    Accepted(Accepted),
    /// The message is invalid and cannot be processed.
    Rejected(Rejected),
    /// The message was not processed.
    Released(Released),
    /// The message was not processed, and was changed.
    Modified(Modified),
    /// The coordinator has begun a transaction.
    Declared(Declared),
    /// The state of a delivery in a transaction.
    TransactionalState(TransactionalState),
    /// A described value of another type, which is kept.
    Other(Unknown),
}
