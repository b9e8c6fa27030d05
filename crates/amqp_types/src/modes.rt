//! The role of an end of a link, and how it settles deliveries.

mod derived;

/// An end of a link (AMQP 1.0 part 2, section 2.8.1).
// amqp: encoding = "restricted", source = "bool", values = [false, true]
#[derive(Debug, Clone, Copy, PartialEq, Eq)]
pub enum Role {
    /// The end that sends messages.
    Sender,
    /// The end that receives messages.
    Receiver,
}

/// How the sending end of a link settles deliveries (AMQP 1.0 part 2, section 2.8.2).
// amqp: encoding = "restricted", source = "u8", values = [0, 1, 2]
#[derive(Debug, Clone, Copy, PartialEq, Eq)]
pub enum SenderSettleMode {
    /// It sends all deliveries unsettled.
    Unsettled,
    /// It sends all deliveries settled.
    Settled,
    /// It sends settled and unsettled deliveries.
    Mixed,
}

/// How the receiving end of a link settles deliveries (AMQP 1.0 part 2, section 2.8.3).
// amqp: encoding = "restricted", source = "u8", values = [0, 1]
#[derive(Debug, Clone, Copy, PartialEq, Eq)]
pub enum ReceiverSettleMode {
    /// It settles a delivery at once.
    First,
    /// It settles a delivery after the sender did.
    Second,
}
