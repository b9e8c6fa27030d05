//! The errors of messages.

use serde_amqp::{Error, SliceError};
use std::fmt;
use std::fmt::{Formatter, Write};

/// The reason why bytes are no message, or why a message is not written.
///
/// # Example
/// `Repeated` is displayed as `section repeated`.
#[derive(Debug, PartialEq, Eq, Drop)]
pub enum MessageError {
    /// The bytes of a section are not an encoded value.
    Malformed,
    /// A section has a descriptor that no section has, or none.
    UnknownSection,
    /// A section is after one that it precedes in the standard.
    OutOfOrder,
    /// A section of which there is one at most is there twice.
    Repeated,
    /// The body has sections of several kinds.
    MixedBody,
    /// The message has no body.
    NoBody,
    /// A section cannot be read: where its bytes have a fault, or which field.
    Section(SliceError),
    /// A section cannot be written, or an allocation failed.
    Value(Error),
}

impl From<Error> for MessageError {
    ghost use Rattle.std.specs.Prelude.{◌≡◌};
    ghost use Rattle.amqp_messaging.specs.declared.message.error.MessageError.TheVariants.{Value};

    ghost from_gives = { λ error e. e ≡ Value error };

    fn from(error: Error) -> MessageError {
        MessageError::Value(error)
    }
}

impl fmt::Display for MessageError {
    fn fmt<W: Write>(&self, f: &mut Formatter<W>) -> fmt::Result {
        match self {
            MessageError::Malformed => f.write_str("malformed section"),
            MessageError::UnknownSection => f.write_str("unknown section"),
            MessageError::OutOfOrder => f.write_str("section out of order"),
            MessageError::Repeated => f.write_str("section repeated"),
            MessageError::MixedBody => f.write_str("body of several kinds"),
            MessageError::NoBody => f.write_str("no body"),
            MessageError::Section(error) => error.fmt(f),
            MessageError::Value(error) => error.fmt(f),
        }
    }
}
