//! Messages to a coordinator, and its answer.

mod derived;

use serde_amqp::Value;
use serde_amqp::primitives::ByteBuf;

/// Asks the coordinator for a transaction (AMQP 1.0 part 4, section 4.5.2).
///
/// # Encoding
/// A list of the fields, described by the code 0x31.
// amqp: encoding = "list", code = 0x31, name = "amqp:declare:list", rename_all = "kebab-case"
#[derive(Debug, Clone, Default, PartialEq, Drop)]
pub struct Declare {
    /// The distributed transaction, which the standard does not define.
    pub global_id: Option<Value>,
}

/// Ends a transaction (AMQP 1.0 part 4, section 4.5.3).
///
/// # Encoding
/// A list of the fields, described by the code 0x32.
// amqp: encoding = "list", code = 0x32, name = "amqp:discharge:list", rename_all = "kebab-case", new
#[derive(Debug, Clone, PartialEq, Drop)]
pub struct Discharge {
    /// The transaction.
    pub txn_id: ByteBuf,
    /// Whether the transaction is rolled back.
    pub fail: Option<bool>,
}

/// The coordinator has begun a transaction (AMQP 1.0 part 4, section 4.5.5).
///
/// # Encoding
/// A list of the fields, described by the code 0x33.
// amqp: encoding = "list", code = 0x33, name = "amqp:declared:list", rename_all = "kebab-case", new
#[derive(Debug, Clone, PartialEq, Drop)]
pub struct Declared {
    /// The transaction.
    pub txn_id: ByteBuf,
}
