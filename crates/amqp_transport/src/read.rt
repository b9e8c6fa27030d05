//! Frames at the start of bytes.

ghost use Rattle.std.specs.Prelude.{◌≡◌, ◌≤◌, ◌++◌, None, IfOk, IfErr, IfSome, IfNone, length};
ghost use Rattle.amqp_frame.specs.EncodedValue.{IsEncodedValue, HasEncodedValue};
ghost use Rattle.amqp_transport.specs.Frames.{header_bytes, HasLengths, ReadsBody, RefusesBody};
ghost use Rattle.amqp_transport.specs.Frames.{RefusesFrame};

use crate::error::FrameError;
use crate::header::FrameHeader;
use serde_amqp::de::Deserialize;
use serde_amqp::lazy::frame_len;
use serde_amqp::{Limits, from_slice_limited_located};
use std::alloc::Global;

/// A frame, whose parts borrow the bytes that it was read from.
#[derive(Debug, Clone, Copy, PartialEq, Eq)]
pub struct Frame<'a> {
    /// The header.
    pub header: FrameHeader,
    /// The extended header, which has no meaning in AMQP 1.0.
    pub extended: &'a [u8],
    /// The encoded performative and the payload. An empty frame has neither.
    pub body: &'a [u8],
}

/// Reads the frame at the start of `bytes`, and returns it with the bytes after it.
///
/// # Errors
/// Returns `Incomplete` if the bytes end before the frame does, and `SizeTooSmall`,
/// `OffsetTooSmall`, `OffsetPastEnd` or `TooLong` for a header that no frame of at most `limit`
/// bytes has.
///
/// # Memory
/// Allocates nothing, and copies no payload.
///
/// # Example
/// `0000000c0200000300531745` is a frame on channel 3 with the body `00531745`, an end.
pub fn frame_of(bytes: &[u8], limit: u32) -> Result<(Frame<'_>, &[u8]), FrameError>
    ensures whole { IfOk result (λ r. bytes.now
        ≡ header_bytes r.0.header.size r.0.header.offset r.0.header.kind r.0.header.channel
        ++ r.0.extended.now ++ r.0.body.now ++ r.1.now) }
    ensures lengths { IfOk result (λ r. HasLengths r.0.header.size r.0.header.offset
        (length r.0.extended.now) (length r.0.body.now)) }
    ensures limit { IfOk result (λ r. r.0.header.size ≤ limit) }
    ensures refused { IfErr result (RefusesFrame limit bytes.now) }
{
    let Some((head, after)) = bytes.split_first_chunk::<8>() else {
        return Err(FrameError::Incomplete);
    };
    let header = FrameHeader::from_bytes(*head);
    header.check(limit)?;
    let len = header.size as usize - 8;
    if after.len() < len {
        return Err(FrameError::Incomplete);
    }
    let (inside, rest) = after.split_at(len);
    let (extended, body) = inside.split_at(usize::from(header.offset) * 4 - 8);
    let frame = Frame {
        header,
        extended,
        body,
    };
    Ok((frame, rest))
}

impl<'a> Frame<'a> {
    /// Returns the bytes of the performative and the payload after them.
    ///
    /// # Memory
    /// Allocates nothing.
    ///
    /// # Example
    /// The body `0053174501` gives `00531745` and the payload `01`. An empty body gives `None`.
    pub fn split_body(&self) -> Option<(&'a [u8], &'a [u8])>
        ensures some { IfSome result (λ r. IsEncodedValue r.0.now
            × (self.now.body.now ≡ r.0.now ++ r.1.now)) }
        ensures none { IfNone result (¬ HasEncodedValue self.now.body.now) }
    {
        match frame_len(self.body) {
            Some(len) => Some(self.body.split_at(len)),
            None => None,
        }
    }

    /// Reads the performative, and returns it with the payload.
    ///
    /// # Errors
    /// Returns `NoPerformative` if the body does not begin with an encoded value, as in an empty
    /// frame, and the errors of `from_slice_limited_located` as `Performative`: `Error::TooLong` for
    /// one with more array elements without bytes than it has bytes.
    ///
    /// # Memory
    /// Allocates the performative from `alloc`. The payload is not copied.
    ///
    /// # Example
    /// With `Performative`, the body `0053174501` gives an end and the payload `01`.
    pub fn performative<T: Deserialize>(&self, alloc: Global) -> Result<(T, &'a [u8]), FrameError>
        ensures ok { IfOk result (λ r. ReadsBody None T.reads self.now.body.now r.0 r.1.now) }
        ensures refused { IfErr result (RefusesBody None T.reads self.now.body.now) }
    {
        self.performative_with(alloc, None)
    }

    /// Reads the performative like `performative`, within these limits, or for `None` within
    /// `Limits::for_length` of its bytes.
    ///
    /// # Errors
    /// Returns the errors of `performative`, with `Error::TooLong` if a limit is exceeded.
    ///
    /// # Memory
    /// Allocates the performative from `alloc`. The payload is not copied.
    pub fn performative_with<T: Deserialize>(
        &self,
        alloc: Global,
        limits: Option<Limits>,
    ) -> Result<(T, &'a [u8]), FrameError>
        ensures ok { IfOk result (λ r. ReadsBody limits T.reads self.now.body.now r.0 r.1.now) }
        ensures refused { IfErr result (RefusesBody limits T.reads self.now.body.now) }
    {
        let Some((bytes, payload)) = self.split_body() else {
            return Err(FrameError::NoPerformative);
        };
        match from_slice_limited_located::<T>(alloc, bytes, limits) {
            Ok(performative) => Ok((performative, payload)),
            Err(error) => Err(FrameError::Performative(error)),
        }
    }
}
