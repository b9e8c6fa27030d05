//! The errors of frames.

use serde_amqp::{Error, SliceError};
use std::fmt;
use std::fmt::{Formatter, Write};

/// The reason why bytes are no frame, or why a frame is not written.
///
/// # Example
/// `SizeTooSmall` is displayed as `frame shorter than its header`.
#[derive(Debug, PartialEq, Eq, Drop)]
pub enum FrameError {
    /// The bytes end before the frame does.
    Incomplete,
    /// The size is less than 8, the length of the header.
    SizeTooSmall,
    /// The data offset is less than 2.
    OffsetTooSmall,
    /// The data offset is past the end of the frame.
    OffsetPastEnd,
    /// The frame is longer than the limit.
    TooLong,
    /// The body does not begin with an encoded value.
    NoPerformative,
    /// The performative cannot be read: where its bytes have a fault, or which field.
    Performative(SliceError),
    /// A performative cannot be written, an allocation failed outside of its reading, or a read
    /// failed.
    Value(Error),
}

impl From<Error> for FrameError {
    ghost use Rattle.std.specs.Prelude.{◌≡◌};
    ghost use Rattle.amqp_transport.specs.declared.error.FrameError.TheVariants.{Value};

    ghost from_gives = { λ error e. e ≡ Value error };

    fn from(error: Error) -> FrameError {
        FrameError::Value(error)
    }
}

impl fmt::Display for FrameError {
    fn fmt<W: Write>(&self, f: &mut Formatter<W>) -> fmt::Result {
        match self {
            FrameError::Incomplete => f.write_str("incomplete frame"),
            FrameError::SizeTooSmall => f.write_str("frame shorter than its header"),
            FrameError::OffsetTooSmall => f.write_str("data offset inside the header"),
            FrameError::OffsetPastEnd => f.write_str("data offset past the end of the frame"),
            FrameError::TooLong => f.write_str("frame longer than the limit"),
            FrameError::NoPerformative => f.write_str("no performative"),
            FrameError::Performative(error) => error.fmt(f),
            FrameError::Value(error) => error.fmt(f),
        }
    }
}
