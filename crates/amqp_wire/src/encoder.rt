//! An encoder that keeps its buffers.

ghost use Rattle.std.specs.Prelude.{Ok, Err, MatchResult};
ghost use Rattle.amqp_ser.specs.SizeAndBytes.{AreBytesOf};

use crate::encode::append;
use amqp_data::Error;
use amqp_ser::{Hint, Serialize};
use std::alloc::Global;

/// Encodes one value after another into a buffer that it keeps.
///
/// # Memory
/// None before the first value. The buffers have the capacity of the largest encoding so far, at
/// most doubled, and are freed when the encoder is dropped.
///
/// # Example
/// One encoder encodes `true` as `41`, and then the list of the strings `a` and `bc` as
/// `c00802a10161a1026263`.
#[derive(Drop)]
pub struct Encoder {
    alloc: Global,
    /// The table of the last value, of which only the capacity is used.
    table: Vec<Hint>,
    /// The bytes of the last value.
    bytes: Vec<u8>,
}

impl Encoder {
    /// Creates an encoder.
    ///
    /// # Memory
    /// None.
    pub fn new(alloc: Global) -> Encoder {
        Encoder {
            alloc,
            table: Vec::new(alloc),
            bytes: Vec::new(alloc),
        }
    }

    /// Returns the encoding of `value`, which the next call overwrites. Unless an allocation fails,
    /// it succeeds if and only if the tree of the value is writable.
    ///
    /// # Encoding
    /// The bytes of `to_vec`.
    ///
    /// # Errors
    /// Returns the errors of `to_vec`: `OutOfMemory` if a buffer cannot grow. The encoder can be
    /// used after an error.
    ///
    /// # Memory
    /// Allocates only if the encoding is longer, or the value has more compounds, than the buffers
    /// have room for. A value of the same shape as one before allocates nothing.
    ///
    /// # Example
    /// The list of the strings `a` and `bc` is `c00802a10161a1026263`.
    pub fn encode<T: Serialize>(&mut self, value: &T) -> Result<&[u8], Error>
        ensures { MatchResult result (λ bytes. AreBytesOf (T.tree value.now) (Ok bytes.now))
            (λ e. AreBytesOf (T.tree value.now) (Err e)) }
    {
        self.bytes.clear();
        append(self.alloc, &mut self.table, &mut self.bytes, value)?;
        Ok(self.bytes.as_slice())
    }
}
