//! The performatives that detach a link, end a session and close a connection.

mod derived;

use amqp_messaging::AmqpError;

/// Detaches a link (AMQP 1.0 part 2, section 2.7.7).
///
/// # Encoding
/// A list of the fields, described by the code 0x16.
// amqp: encoding = "list", code = 0x16, name = "amqp:detach:list", rename_all = "kebab-case", new
#[derive(Debug, Clone, PartialEq, Drop)]
pub struct Detach {
    /// The handle of the link.
    pub handle: u32,
    /// Whether the link is closed for good.
    // amqp: default = false
    pub closed: Option<bool>,
    /// Why the link is detached, if there is an error.
    pub error: Option<AmqpError>,
}

/// Ends a session (AMQP 1.0 part 2, section 2.7.8).
///
/// # Encoding
/// A list of the fields, described by the code 0x17.
// amqp: encoding = "list", code = 0x17, name = "amqp:end:list", rename_all = "kebab-case"
#[derive(Debug, Clone, Default, PartialEq, Drop)]
pub struct End {
    /// Why the session ends, if there is an error.
    pub error: Option<AmqpError>,
}

/// Closes a connection (AMQP 1.0 part 2, section 2.7.9).
///
/// # Encoding
/// A list of the fields, described by the code 0x18.
// amqp: encoding = "list", code = 0x18, name = "amqp:close:list", rename_all = "kebab-case"
#[derive(Debug, Clone, Default, PartialEq, Drop)]
pub struct Close {
    /// Why the connection is closed, if there is an error.
    pub error: Option<AmqpError>,
}
