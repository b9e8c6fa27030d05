//! The frame that ends SASL.

mod derived;

use serde_amqp::primitives::ByteBuf;

/// Ends SASL (AMQP 1.0 part 5, section 5.3.3.5).
///
/// # Encoding
/// A list of the fields, described by the code 0x44.
// amqp: encoding = "list", code = 0x44, name = "amqp:sasl-outcome:list", rename_all = "kebab-case", new
#[derive(Debug, Clone, PartialEq, Drop)]
pub struct SaslOutcome {
    /// Whether the client is authenticated.
    pub code: SaslCode,
    /// The last bytes of the mechanism.
    pub additional_data: Option<ByteBuf>,
}

/// Whether a client is authenticated (AMQP 1.0 part 5, section 5.3.3.6).
// amqp: encoding = "restricted", source = "u8", values = [0, 1, 2, 3, 4]
#[derive(Debug, Clone, Copy, PartialEq, Eq)]
pub enum SaslCode {
    /// It is.
    Ok,
    /// No: it gave wrong credentials.
    Auth,
    /// No: an error of the server.
    Sys,
    /// No: an error that lasts.
    SysPerm,
    /// No: an error that may pass.
    SysTemp,
}
