//! The markers of scalars.

ghost use Rattle.std.specs.Prelude.{◌≡◌, None, MatchOption};
ghost use Rattle.amqp_size.specs.MarkedBytes.{IsExact, marked_bytes};

use amqp_data::EncodingCodes;

/// The marker of a scalar.
#[derive(Clone, Copy, Debug)]
pub enum ScalarMarker {
    /// A symbol, serialized as a string.
    Symbol,
    /// A timestamp, serialized as a long.
    Timestamp,
    /// A decimal32, serialized as a binary of 4 bytes.
    Decimal32,
    /// A decimal64, serialized as a binary of 8 bytes.
    Decimal64,
    /// A decimal128, serialized as a binary of 16 bytes.
    Decimal128,
    /// A uuid, serialized as a binary of 16 bytes.
    Uuid,
    /// A lazy value, serialized as a binary that contains one encoded value.
    Lazy,
}

impl ScalarMarker {
    /// Returns the format code of a decimal or uuid with these bytes, or `None` if the marker is
    /// another one or the number of bytes is not that of the type.
    pub fn exact_code(self, bytes: &[u8]) -> Option<u8>
        ensures { MatchOption result
            ((self ≡ ScalarMarker.Lazy → ⊥) → marked_bytes self bytes.now ≡ None)
            (λ code. IsExact self bytes.now code) }
    {
        match self {
            ScalarMarker::Decimal32 if bytes.len() == 4 => Some(EncodingCodes::Decimal32 as u8),
            ScalarMarker::Decimal64 if bytes.len() == 8 => Some(EncodingCodes::Decimal64 as u8),
            ScalarMarker::Decimal128 if bytes.len() == 16 => Some(EncodingCodes::Decimal128 as u8),
            ScalarMarker::Uuid if bytes.len() == 16 => Some(EncodingCodes::Uuid as u8),
            _ => None,
        }
    }
}
