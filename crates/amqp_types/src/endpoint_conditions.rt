//! The kinds of errors of a session, a link and a transaction.

mod derived;

/// Kinds of errors of a session (AMQP 1.0 part 2, section 2.8.17).
// amqp: encoding = "restricted", source = "Symbol", values = ["amqp:session:window-violation", "amqp:session:errant-link", "amqp:session:handle-in-use", "amqp:session:unattached-handle"]
#[derive(Debug, Clone, Copy, PartialEq, Eq)]
pub enum SessionCondition {
    /// More transfers than the window permits.
    WindowViolation,
    /// A frame for a link that is detached with an error.
    ErrantLink,
    /// An attach with a handle that is in use.
    HandleInUse,
    /// A frame for a handle without a link.
    UnattachedHandle,
}

/// Kinds of errors of a link (AMQP 1.0 part 2, section 2.8.18).
// amqp: encoding = "restricted", source = "Symbol", values = ["amqp:link:detach-forced", "amqp:link:transfer-limit-exceeded", "amqp:link:message-size-exceeded", "amqp:link:redirect", "amqp:link:stolen"]
#[derive(Debug, Clone, Copy, PartialEq, Eq)]
pub enum LinkCondition {
    /// An operator detached the link.
    DetachForced,
    /// More deliveries than the credit permits.
    TransferLimitExceeded,
    /// A message is longer than the link permits.
    MessageSizeExceeded,
    /// The node is elsewhere.
    Redirect,
    /// The link is attached elsewhere.
    Stolen,
}

/// Kinds of errors of a transaction (AMQP 1.0 part 4, section 4.5.8).
// amqp: encoding = "restricted", source = "Symbol", values = ["amqp:transaction:unknown-id", "amqp:transaction:rollback", "amqp:transaction:timeout"]
#[derive(Debug, Clone, Copy, PartialEq, Eq)]
pub enum TransactionCondition {
    /// There is no such transaction.
    UnknownId,
    /// The transaction was rolled back.
    TransactionRollback,
    /// The transaction took too long.
    TransactionTimeout,
}
