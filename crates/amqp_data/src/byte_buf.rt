//! Binaries (AMQP 1.0 part 1, section 1.6.19).

ghost use Rattle.std.specs.Prelude.{◌≡◌, ◌==◌, length};
ghost use Rattle.amqp_data.specs.Items.{byte_buf_bytes};
ghost use Rattle.amqp_data.specs.Iterates.{GivesRefs};

use std::slice;

/// Bytes that are encoded as one binary. A `Vec<u8>` is encoded as a list.
///
/// # Encoding
/// `a0` with a length of one byte, or `b0` with a length of four bytes.
///
/// # Example
/// An empty binary is encoded as `a000`.
#[derive(Debug, PartialEq, Eq, PartialOrd, Ord, Hash, Clone, Drop)]
pub struct ByteBuf(Vec<u8>);

impl ByteBuf {
    /// Returns the bytes.
    ///
    /// # Example
    /// For the binary encoded as `a003616263`, returns the bytes 61, 62, 63.
    pub fn as_inner(&self) -> &Vec<u8>
        ensures { result.now.items ≡ byte_buf_bytes self.now }
    {
        &self.0
    }

    /// Returns the bytes as a slice.
    ///
    /// # Example
    /// For the binary encoded as `a003616263`, returns the bytes 61, 62, 63.
    pub fn as_slice(&self) -> &[u8]
        ensures { result.now ≡ byte_buf_bytes self.now }
    {
        self.0.as_slice()
    }

    /// Returns the number of bytes.
    ///
    /// # Example
    /// For the binary encoded as `a003616263`, returns 3.
    pub fn len(&self) -> usize
        ensures { result ≡ length (byte_buf_bytes self.now) }
    {
        self.0.len()
    }

    /// Returns whether there are no bytes.
    ///
    /// # Example
    /// True for the binary encoded as `a000`.
    pub fn is_empty(&self) -> bool
        ensures { result ≡ (length (byte_buf_bytes self.now) == 0) }
    {
        self.0.is_empty()
    }

    /// Returns an iterator over references to the bytes, in order.
    ///
    /// # Example
    /// For the binary encoded as `a0026162`: `&0x61`, then `&0x62`, then `None`.
    pub fn iter(&self) -> slice::Iter<'_, u8>
        ensures { GivesRefs (byte_buf_bytes self.now) result }
    {
        self.0.iter()
    }

    /// Consumes the binary and returns the bytes.
    ///
    /// # Example
    /// For the binary encoded as `a000`, returns an empty vector.
    pub fn into_inner(self) -> Vec<u8>
        ensures { result.items ≡ byte_buf_bytes self }
    {
        self.0
    }
}

impl From<Vec<u8>> for ByteBuf {
    ghost from_gives = { λ bytes binary. byte_buf_bytes binary ≡ bytes.items };

    fn from(bytes: Vec<u8>) -> ByteBuf {
        ByteBuf(bytes)
    }
}
