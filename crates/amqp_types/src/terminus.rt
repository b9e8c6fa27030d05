//! How long a terminus lives, and which messages it gives.

mod derived;

/// Which state of a terminus survives a failure (AMQP 1.0 part 3, section 3.5.5).
// amqp: encoding = "restricted", source = "u32", values = [0, 1, 2]
#[derive(Debug, Clone, Copy, PartialEq, Eq)]
pub enum TerminusDurability {
    /// None.
    None,
    /// That the terminus exists, and its configuration.
    Configuration,
    /// The states of unsettled deliveries too.
    UnsettledState,
}

/// When the timeout of a terminus begins (AMQP 1.0 part 3, section 3.5.6).
// amqp: encoding = "restricted", source = "Symbol", values = ["link-detach", "session-end", "connection-close", "never"]
#[derive(Debug, Clone, Copy, PartialEq, Eq)]
pub enum TerminusExpiryPolicy {
    /// When the link is detached.
    LinkDetach,
    /// When the session ends.
    SessionEnd,
    /// When the connection closes.
    ConnectionClose,
    /// Never.
    Never,
}

/// What a source does with a message that it transfers (AMQP 1.0 part 3, section 3.5.7).
// amqp: encoding = "restricted", source = "Symbol", values = ["move", "copy"]
#[derive(Debug, Clone, Copy, PartialEq, Eq)]
pub enum DistributionMode {
    /// No other link gets it.
    Move,
    /// Other links get it too.
    Copy,
}
