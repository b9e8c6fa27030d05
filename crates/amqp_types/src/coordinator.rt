//! The target of a link that controls transactions.

mod derived;

use crate::target::Target;
use serde_amqp::primitives::{Multiple, Symbol};

/// The target of a link that controls transactions (AMQP 1.0 part 4, section 4.5.1).
///
/// # Encoding
/// A list of the fields, described by the code 0x30.
// amqp: encoding = "list", code = 0x30, name = "amqp:coordinator:list", rename_all = "kebab-case"
#[derive(Debug, Clone, Default, PartialEq, Drop)]
pub struct Coordinator {
    /// What the coordinator supports, such as values of `TxnCapability`.
    pub capabilities: Option<Multiple<Symbol>>,
}

/// What a coordinator supports (AMQP 1.0 part 4, section 4.5.7).
// amqp: encoding = "restricted", source = "Symbol", values = ["amqp:local-transactions", "amqp:distributed-transactions", "amqp:promotable-transactions", "amqp:multi-txns-per-ssn", "amqp:multi-ssns-per-txn"]
#[derive(Debug, Clone, Copy, PartialEq, Eq)]
pub enum TxnCapability {
    /// Transactions of one container.
    LocalTransactions,
    /// Transactions of several containers.
    DistributedTransactions,
    /// Local transactions that become distributed.
    PromotableTransactions,
    /// Several transactions in a session.
    MultiTxnsPerSsn,
    /// Several sessions in a transaction.
    MultiSsnsPerTxn,
}

/// The target of an attach (AMQP 1.0 part 2, section 2.7.3).
// amqp: encoding = "described"
#[derive(Debug, Clone, PartialEq, Drop)]
pub enum AnyTarget {
    /// Where the messages of a link go to.
    Target(Target),
    /// The target of a link that controls transactions.
    Coordinator(Coordinator),
}
