//! Errors that are sent to the peer.

mod derived;

use serde_amqp::Value;
use serde_amqp::primitives::{OrderedMap, Symbol};

/// An error, as it is sent to the peer (AMQP 1.0 part 2, section 2.8.14).
///
/// # Encoding
/// A list of the fields, described by the code 0x1d.
// amqp: encoding = "list", code = 0x1d, name = "amqp:error:list", rename_all = "kebab-case", new
#[derive(Debug, Clone, PartialEq, Drop)]
pub struct AmqpError {
    /// The kind of the error, such as a value of `AmqpCondition`.
    pub condition: Symbol,
    /// A text for people.
    pub description: Option<String>,
    /// Details for programs.
    pub info: Option<OrderedMap<Symbol, Value>>,
}
