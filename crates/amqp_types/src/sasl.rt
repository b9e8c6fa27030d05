//! The frames of SASL before its outcome.

mod derived;

use serde_amqp::primitives::{ByteBuf, Multiple, Symbol};

/// The mechanisms of the server (AMQP 1.0 part 5, section 5.3.3.1).
///
/// # Encoding
/// A list of the fields, described by the code 0x40.
// amqp: encoding = "list", code = 0x40, name = "amqp:sasl-mechanisms:list", rename_all = "kebab-case", new
#[derive(Debug, Clone, PartialEq, Drop)]
pub struct SaslMechanisms {
    /// The mechanisms, the preferred one first.
    pub sasl_server_mechanisms: Multiple<Symbol>,
}

/// Chooses a mechanism (AMQP 1.0 part 5, section 5.3.3.2).
///
/// # Encoding
/// A list of the fields, described by the code 0x41.
// amqp: encoding = "list", code = 0x41, name = "amqp:sasl-init:list", rename_all = "kebab-case", new
#[derive(Debug, Clone, PartialEq, Drop)]
pub struct SaslInit {
    /// The mechanism.
    pub mechanism: Symbol,
    /// The first response of the mechanism.
    pub initial_response: Option<ByteBuf>,
    /// The host that the client wants to reach.
    pub hostname: Option<String>,
}

/// A challenge of the mechanism (AMQP 1.0 part 5, section 5.3.3.3).
///
/// # Encoding
/// A list of the fields, described by the code 0x42.
// amqp: encoding = "list", code = 0x42, name = "amqp:sasl-challenge:list", rename_all = "kebab-case", new
#[derive(Debug, Clone, PartialEq, Drop)]
pub struct SaslChallenge {
    /// Its bytes.
    pub challenge: ByteBuf,
}

/// A response to a challenge (AMQP 1.0 part 5, section 5.3.3.4).
///
/// # Encoding
/// A list of the fields, described by the code 0x43.
// amqp: encoding = "list", code = 0x43, name = "amqp:sasl-response:list", rename_all = "kebab-case", new
#[derive(Debug, Clone, PartialEq, Drop)]
pub struct SaslResponse {
    /// Its bytes.
    pub response: ByteBuf,
}
