//! What is wrong with an input.

use crate::level::Level;
use crate::path::path_to;
use amqp_data::Error;
use amqp_value::ValueKind;
use std::alloc::{AllocError, AllocFailed, Global};

/// Why a run could not go on.
#[derive(Clone, Copy, Debug, PartialEq, Eq)]
pub enum Fault {
    /// An allocation failed.
    OutOfMemory,
    /// A read failed.
    Input,
    /// A write failed.
    Output,
    /// The input ends, and this many bytes more are needed.
    EndOfInput(u64),
    /// A format code was expected.
    FormatCode,
    /// A value takes more bytes than this, which are left of what it is in.
    PastEnd(u64),
    /// The values of a compound end, and this many bytes are left of its size.
    LeftOver(u64),
    /// The size of a compound is too small for its count.
    SmallSize,
    /// The count of a map is odd.
    OddCount,
    /// A payload is not one of this type: a boolean, a character or a text.
    Payload(ValueKind),
    /// A value is deeper than the limit.
    TooDeep,
    /// The size of a frame is less than 8.
    FrameSize(u32),
    /// The data offset of a frame is less than 2 or past its size.
    DataOffset(u8),
    /// The input is a packet capture.
    Capture,
    /// The input is TLS.
    Tls,
    /// The input is a message, and frames are expected.
    Message,
}

impl Fault {
    /// Returns whether the cause is the machine and not the input.
    pub fn is_of_machine(self) -> bool {
        matches!(self, Fault::OutOfMemory | Fault::Input | Fault::Output)
    }
}

impl From<AllocError> for Fault {
    fn from(_error: AllocError) -> Fault {
        Fault::OutOfMemory
    }
}

impl<T: Drop> From<AllocFailed<T>> for Fault {
    fn from(_error: AllocFailed<T>) -> Fault {
        Fault::OutOfMemory
    }
}

/// Returns the fault for an error of a reader or of decoding what was read.
pub(crate) fn input_fault(error: Error) -> Fault {
    match error {
        Error::OutOfMemory => Fault::OutOfMemory,
        _ => Fault::Input,
    }
}

/// A fault, where it is and how to come there.
#[derive(Drop)]
pub struct Found {
    /// What is wrong.
    pub fault: Fault,
    /// The offset of the byte that is wrong.
    pub at: u64,
    /// The byte that is wrong, or `None` at the end of the input.
    pub byte: Option<u8>,
    /// What was expected, in words.
    pub expected: String,
    /// The path to the value that it is in.
    pub path: String,
}

impl Found {
    /// Returns a fault of the value that was begun last.
    pub(crate) fn new(
        alloc: Global,
        fault: Fault,
        at: u64,
        byte: Option<u8>,
        roots: u64,
        levels: &[Level],
    ) -> Result<Found, Fault> {
        let outer = match fault {
            Fault::LeftOver(_) => levels.len().saturating_sub(1),
            _ => levels.len(),
        };
        let (levels, _) = levels.split_at(outer);
        Ok(Found {
            fault,
            at,
            byte,
            expected: expected(alloc, fault)?,
            path: path_to(alloc, roots, levels)?,
        })
    }

    /// Returns the offset, the byte, what was expected and the path, in words.
    pub fn text(&self, alloc: Global) -> Result<String, Fault> {
        let (at, expected, path) = (self.at, &self.expected, &self.path);
        let text = match self.byte {
            Some(byte) => format!(in alloc; "offset {at}, byte {byte:02x}: {expected}, at {path}")?,
            None => format!(in alloc; "offset {at}, end of input: {expected}, at {path}")?,
        };
        Ok(text)
    }
}

// Returns what was expected, in words.
fn expected(alloc: Global, fault: Fault) -> Result<String, Fault> {
    let text = match fault {
        Fault::EndOfInput(1) => "expected 1 byte more",
        Fault::EndOfInput(missing) => {
            return Ok(format!(in alloc; "expected {missing} bytes more")?);
        }
        Fault::PastEnd(0) => "expected a value before the size ends",
        Fault::PastEnd(1) => "expected at most 1 byte before the size ends",
        Fault::PastEnd(left) => {
            return Ok(format!(in alloc; "expected at most {left} bytes before the size ends")?);
        }
        Fault::LeftOver(1) => "expected the size to end, but 1 byte left of it",
        Fault::LeftOver(left) => {
            return Ok(format!(in alloc; "expected the size to end, but {left} bytes left of it")?);
        }
        Fault::FrameSize(size) => {
            return Ok(format!(in alloc; "expected a frame of at least 8 bytes, not {size}")?);
        }
        Fault::DataOffset(offset) => {
            return Ok(format!(in alloc;
                "expected a data offset from 2 on in the frame, not {offset}"
            )?);
        }
        Fault::OutOfMemory => "out of memory",
        Fault::Input => "input failed",
        Fault::Output => "output failed",
        Fault::FormatCode => "expected a format code",
        Fault::SmallSize => "expected a size that includes the count",
        Fault::OddCount => "expected an even count",
        Fault::Payload(ValueKind::Bool) => "expected 00 or 01",
        Fault::Payload(ValueKind::Char) => "expected a Unicode scalar value",
        Fault::Payload(_) => "expected UTF-8",
        Fault::TooDeep => "expected at most 256 levels",
        Fault::Capture =>
            "expected AMQP, not a packet capture: take the bytes of a connection by tshark -q -z follow,tcp,raw,0 -r FILE",
        Fault::Tls => "expected AMQP, not TLS: capture it before it is encrypted",
        Fault::Message => "expected a frame, not a message: leave out --frames",
    };
    Ok(String::from_str(alloc, text)?)
}
