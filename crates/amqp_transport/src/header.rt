//! The header of a frame.

ghost use Rattle.std.specs.Prelude.{◌≡◌, ◌≤◌, ◌<◌, ◌*◌, IfErr, OnOk};
ghost use Rattle.amqp_transport.specs.Frames.{header_bytes, RefusesHeader};

use crate::error::FrameError;

/// The type of the frames of AMQP.
pub const AMQP: u8 = 0;

/// The type of the frames of SASL.
pub const SASL: u8 = 1;

/// The header of a frame (AMQP 1.0 part 2, section 2.3.1).
///
/// # Encoding
/// The size in four bytes, the data offset, the type, and the channel in two bytes.
///
/// # Example
/// The header `0000000802000003` is that of an empty frame of AMQP on channel 3.
#[derive(Debug, Clone, Copy, PartialEq, Eq)]
pub struct FrameHeader {
    /// The size of the frame in bytes, with the header.
    pub size: u32,
    /// The data offset: where the body begins, in units of four bytes.
    pub offset: u8,
    /// The type: [`AMQP`], [`SASL`], or another.
    pub kind: u8,
    /// The channel. Frames of SASL have none, and ignore it.
    pub channel: u16,
}

impl FrameHeader {
    /// Reads a header. Whether its size and data offset are possible is not checked.
    ///
    /// # Example
    /// `0000000802000003` gives the size 8, the data offset 2, the type 0 and the channel 3.
    #[tactic(auto, using(std::proofs::lemmas::Nat::be_bytes_4, std::proofs::lemmas::Nat::be_bytes_2))]
    pub fn from_bytes(bytes: [u8; 8]) -> FrameHeader
        ensures { bytes ≡ header_bytes result.size result.offset result.kind result.channel }
    {
        let [a, b, c, d, offset, kind, e, f] = bytes;
        FrameHeader {
            size: u32::from_be_bytes([a, b, c, d]),
            offset,
            kind,
            channel: u16::from_be_bytes([e, f]),
        }
    }

    /// Returns the bytes of the header.
    ///
    /// # Example
    /// The size 8, the data offset 2, the type 0 and the channel 3 give `0000000802000003`.
    pub fn to_bytes(&self) -> [u8; 8]
        ensures { result ≡ header_bytes self.now.size self.now.offset self.now.kind self.now.channel }
    {
        let [a, b, c, d] = self.size.to_be_bytes();
        let [e, f] = self.channel.to_be_bytes();
        [a, b, c, d, self.offset, self.kind, e, f]
    }

    /// Returns an error if no frame of at most `limit` bytes has this header.
    ///
    /// # Errors
    /// Returns `SizeTooSmall`, `OffsetTooSmall`, `OffsetPastEnd` or `TooLong`.
    ///
    /// # Example
    /// A size of 8 with the data offset 3 is `OffsetPastEnd`.
    pub fn check(&self, limit: u32) -> Result<(), FrameError>
        ensures size { OnOk result (self.now.offset * 4 ≤ self.now.size) }
        ensures offset { OnOk result (2 ≤ self.now.offset) }
        ensures limit { OnOk result (self.now.size ≤ limit) }
        ensures refused { IfErr result (RefusesHeader limit self.now.size self.now.offset) }
    {
        if self.size < 8 {
            Err(FrameError::SizeTooSmall)
        } else if self.offset < 2 {
            Err(FrameError::OffsetTooSmall)
        } else if self.size < u32::from(self.offset) * 4 {
            Err(FrameError::OffsetPastEnd)
        } else if self.size > limit {
            Err(FrameError::TooLong)
        } else {
            Ok(())
        }
    }
}
