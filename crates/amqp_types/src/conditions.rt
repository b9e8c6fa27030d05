//! The kinds of errors of any part, and of a connection.

mod derived;

/// Kinds of errors of any part (AMQP 1.0 part 2, section 2.8.15).
// amqp: encoding = "restricted", source = "Symbol", values = ["amqp:internal-error", "amqp:not-found", "amqp:unauthorized-access", "amqp:decode-error", "amqp:resource-limit-exceeded", "amqp:not-allowed", "amqp:invalid-field", "amqp:not-implemented", "amqp:resource-locked", "amqp:precondition-failed", "amqp:resource-deleted", "amqp:illegal-state", "amqp:frame-size-too-small"]
#[derive(Debug, Clone, Copy, PartialEq, Eq)]
pub enum AmqpCondition {
    /// An error of the peer's own.
    InternalError,
    /// There is no such node.
    NotFound,
    /// The client may not do this.
    UnauthorizedAccess,
    /// Bytes could not be decoded.
    DecodeError,
    /// A limit of the peer is reached.
    ResourceLimitExceeded,
    /// The client asked for what is never allowed.
    NotAllowed,
    /// A field has an invalid value.
    InvalidField,
    /// The peer does not implement this.
    NotImplemented,
    /// The resource is in use.
    ResourceLocked,
    /// A condition of the client does not hold.
    PreconditionFailed,
    /// The resource was deleted.
    ResourceDeleted,
    /// A frame is not permitted in this state.
    IllegalState,
    /// The frame does not fit into the peer's largest.
    FrameSizeTooSmall,
}

/// Kinds of errors of a connection (AMQP 1.0 part 2, section 2.8.16).
// amqp: encoding = "restricted", source = "Symbol", values = ["amqp:connection:forced", "amqp:connection:framing-error", "amqp:connection:redirect"]
#[derive(Debug, Clone, Copy, PartialEq, Eq)]
pub enum ConnectionCondition {
    /// An operator closed the connection.
    ConnectionForced,
    /// A frame is malformed.
    FramingError,
    /// The container is elsewhere.
    Redirect,
}
