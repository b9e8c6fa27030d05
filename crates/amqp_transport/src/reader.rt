//! Takes frames off a reader.

ghost use Rattle.std.specs.Prelude.{◌≡◌, ◌≤◌, IfOk, IfNone, IfSome, OnOk, length};
ghost use Rattle.std.specs.Io.KnownBytes.{Consumes, IsAtEnd, Keeps};
ghost use Rattle.amqp_frame.specs.Taking.{Moves};
ghost use Rattle.amqp_transport.specs.Frames.{Begins};

use crate::error::FrameError;
use crate::header::FrameHeader;
use serde_amqp::Error;
use serde_amqp::read::Read;
use std::alloc::Global;

// The maximum number of bytes requested at once. It bounds the memory allocated for a declared size
// that exceeds the input.
const PIECE: usize = 4096;

/// Takes the next frame off a reader, or returns `None` at its end. The bytes after the frame
/// remain in the reader. [`frame_of`](crate::frame_of) reads the frame.
///
/// # Errors
/// Returns `Incomplete` if the input ends inside the frame, `SizeTooSmall`, `OffsetTooSmall`,
/// `OffsetPastEnd` or `TooLong` for a header that no frame of at most `limit` bytes has, which is
/// then consumed, `Value(Io)` if a read fails, and `Value(OutOfMemory)` if an allocation fails.
///
/// # Memory
/// Allocates a buffer from `alloc`. Its length grows with the bytes received, by at most 4,096
/// bytes at a time, and not with the size declared in the header.
///
/// # Example
/// From `0000000c020000030053174500`, takes the frame `0000000c0200000300531745`, and `00` remains.
#[tactic(auto, using(crate::proofs::FrameLemmas::at_end))]
pub fn read_frame<R: Read>(
    alloc: Global,
    reader: &mut R,
    limit: u32,
) -> Result<Option<Vec<u8>>, FrameError>
    ensures taken { IfOk result (λ found. IfSome found (λ frame.
        Consumes (R.left reader.old) (R.left reader.new) frame.items)) }
    ensures whole { IfOk result (λ found. IfSome found (λ frame.
        Begins (λ size _. (length frame.items ≡ size) × (size ≤ limit)) frame.items)) }
    ensures end { IfOk result (λ found. IfNone found (IsAtEnd (R.left reader.old)
        × Keeps (R.left reader.old) (R.left reader.new))) }
{
    if reader.peek()?.is_none() {
        return Ok(None);
    }
    let mut frame = Vec::new(alloc);
    if let Err(error) = take_piece(reader, &mut frame, 8) {
        return Err(failure(error));
    }
    let Some(head) = frame.as_slice().first_chunk::<8>() else {
        return Err(FrameError::Incomplete);
    };
    let header = FrameHeader::from_bytes(*head);
    header.check(limit)?;
    match take(reader, &mut frame, header.size as usize - 8) {
        Ok(()) => Ok(Some(frame)),
        Err(error) => Err(failure(error)),
    }
}

// Appends the next `len` bytes.
fn take<R: Read>(reader: &mut R, frame: &mut Vec<u8>, len: usize) -> Result<(), Error>
    ensures { OnOk result (Moves (R.left reader.old) (R.left reader.new)
        frame.old.items frame.new.items (λ bytes. length bytes ≡ len)) }
{
    let mut left = len;
    while left > 0 {
        let count = left.min(PIECE);
        take_piece(reader, frame, count)?;
        left -= count;
    }
    Ok(())
}

// Appends the next `len` bytes, in one read.
fn take_piece<R: Read>(reader: &mut R, frame: &mut Vec<u8>, len: usize) -> Result<(), Error>
    requires { len ≤ 4096 }
    ensures { OnOk result (Moves (R.left reader.old) (R.left reader.new)
        frame.old.items frame.new.items (λ bytes. length bytes ≡ len)) }
{
    let at = frame.len();
    frame.resize(at + len, 0)?;
    reader.read_exact(&mut frame[at..])?;
    Ok(())
}

// Returns the error for a failed read inside a frame.
fn failure(error: Error) -> FrameError {
    match error {
        Error::UnexpectedEof => FrameError::Incomplete,
        error => FrameError::Value(error),
    }
}
