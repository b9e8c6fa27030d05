//! The bytes of one encoded value.

ghost use Rattle.std.specs.Prelude.{◌≡◌, ◌≤◌, IfOk, IfErr, OnErr, IfSome, IsOkUnless, MatchResult};
ghost use Rattle.std.specs.Prelude.{length};
ghost use Rattle.std.specs.Io.KnownBytes.{Consumes};
ghost use Rattle.amqp_frame.specs.EncodedValue.{IsEncodedValue};
ghost use Rattle.amqp_frame.specs.Reader.{Takes};
ghost use Rattle.amqp_frame.specs.Taking.{TakesIncomplete, TakesMalformed, RefusesEncodedValue};
ghost use Rattle.amqp_frame.specs.Taking.{RefusesWithin, DecidedBy};

use crate::encoded_value::is_encoded_value;
use crate::read::Read;
use crate::take_value::take_value;
use amqp_data::Error;
use bytes::Bytes;
use std::alloc::{AllocError, Global};
use std::marker::Model;

/// The bytes of exactly one encoded value, not decoded.
///
/// Equality, order and hash depend on the bytes. In contracts, a `LazyValue` is its bytes.
#[derive(Debug, Drop, PartialEq, Eq, PartialOrd, Ord, Hash)]
pub struct LazyValue {
    bytes: Bytes,
}

impl Model for LazyValue {
    ghost use Rattle.std.specs.Prelude.{ℕ, List};
    ghost use Rattle.amqp_frame.specs.EncodedValue.{IsEncodedValue};

    ghost Value = { List ℕ };

    ghost view = { λ value. value.bytes };

    ghost invariant = { λ value. IsEncodedValue value.bytes };

    ghost inverse = { λ bytes. record { bytes = bytes } };
}

impl Clone for LazyValue {
    ghost is_clone = { λ value clone. clone ≡ value };

    /// Returns a lazy value with the same bytes, which are shared and not copied.
    fn clone(&self) -> Result<LazyValue, AllocError> {
        Ok(LazyValue {
            bytes: self.bytes.clone()?,
        })
    }
}

impl LazyValue {
    /// Reads exactly one encoded value. The bytes after it remain in the reader.
    ///
    /// In public names, a frame is an encoded value, as in the crate `serde_amqp`. It is not a
    /// transport frame, which has a header of eight bytes (AMQP 1.0 part 2, section 2.3).
    ///
    /// # Encoding
    ///
    /// AMQP 1.0 part 1, sections 1.2 to 1.2.4. Accepted codes are 00, and 40 to FE with a low
    /// nibble of 0 to E.
    ///
    /// # Errors
    ///
    /// Returns [`Error::InvalidFormatCode`] if the first byte of a value is an invalid code. That
    /// code is the last byte consumed. Returns [`Error::UnexpectedEof`] if the input ends before
    /// the value does. No bytes then remain. Returns [`Error::Io`] if a read fails, and
    /// [`Error::OutOfMemory`] if an allocation fails. After any error, the consumed bytes followed
    /// by the remaining bytes are the bytes that remained before the call.
    ///
    /// # Memory
    ///
    /// Allocates a buffer from `alloc`. Its length grows with the bytes received, by at most 4,096
    /// bytes at a time, and not with the sizes declared in the input. Nested encoded values are
    /// counted, without recursion.
    ///
    /// # Example
    ///
    /// From `500140`, reads `5001`, and `40` remains. From `00a1016145`, reads all five bytes.
    pub fn from_reader<R: Read>(alloc: Global, reader: &mut R) -> Result<LazyValue, Error>
        // What `Ok` contains, and the bytes that remain after success.
        ensures encoded { IfOk result (λ value.
            IsEncodedValue value × Consumes (R.left reader.old) (R.left reader.new) value) }
        // When each result is returned.
        ensures exact { IfSome (R.left reader.old) (λ s. DecidedBy s result) }
        ensures refused { IfErr result (RefusesEncodedValue (R.left reader.old) (R.left reader.new)
            (R.failures reader.old) (R.failures reader.new)
            (TakesIncomplete (R.left reader.old) (R.left reader.new))
            (TakesMalformed (R.left reader.old) (R.left reader.new))) }
        // The bytes that remain after an error, and the count of failures.
        ensures kept { OnErr result (Takes (R.left reader.old) (R.left reader.new)) }
        ensures count { R.failures reader.old ≤ R.failures reader.new }
    {
        match take_value(alloc, reader, usize::MAX) {
            Ok(bytes) => Ok(LazyValue { bytes }),
            Err(error) => Err(error),
        }
    }

    /// Reads exactly one encoded value of at most `limit` bytes, like `from_reader`.
    ///
    /// # Errors
    ///
    /// Returns [`Error::TooLong`] if no encoded value of at most `limit` bytes is next, but a
    /// longer one can be, before a byte after the limit is requested. Returns the errors of
    /// `from_reader` otherwise. After any error, the consumed bytes followed by the remaining bytes
    /// are the bytes that remained before the call.
    ///
    /// # Memory
    ///
    /// Allocates as `from_reader` does, for at most `limit` bytes.
    ///
    /// # Example
    ///
    /// From `a1016145`, reads `a10161` with the limit 3. With the limit 2, the value is too long,
    /// and `6145` remains.
    pub fn from_reader_limited<R: Read>(
        alloc: Global,
        reader: &mut R,
        limit: usize,
    ) -> Result<LazyValue, Error>
        // What `Ok` contains, and the bytes that remain after success.
        ensures encoded { IfOk result (λ value.
            IsEncodedValue value × Consumes (R.left reader.old) (R.left reader.new) value) }
        ensures within { IfOk result (λ value. length value ≤ limit) }
        // When each error is returned.
        ensures refused { IfErr result (RefusesWithin limit (R.left reader.old) (R.left reader.new)
            (R.failures reader.old) (R.failures reader.new)) }
        // The bytes that remain after an error, and the count of failures.
        ensures kept { OnErr result (Takes (R.left reader.old) (R.left reader.new)) }
        ensures count { R.failures reader.old ≤ R.failures reader.new }
    {
        match take_value(alloc, reader, limit) {
            Ok(bytes) => Ok(LazyValue { bytes }),
            Err(error) => Err(error),
        }
    }

    /// Returns the bytes as a slice.
    ///
    /// # Memory
    ///
    /// Allocates nothing.
    pub fn as_slice(&self) -> &[u8]
        ensures bytes { result.now ≡ self.now }
        ensures encoded { IsEncodedValue self.now }
    {
        self.bytes.as_slice()
    }

    /// Returns a reference to the shared buffer of the bytes.
    ///
    /// # Memory
    ///
    /// Allocates nothing.
    pub fn as_bytes(&self) -> &Bytes
        ensures bytes { result.now ≡ self.now }
        ensures encoded { IsEncodedValue self.now }
    {
        &self.bytes
    }

    /// Consumes the lazy value and returns the shared buffer of the bytes.
    ///
    /// # Memory
    ///
    /// Allocates nothing.
    pub fn into_bytes(self) -> Bytes
        ensures bytes { result ≡ self }
        ensures encoded { IsEncodedValue self }
    {
        self.bytes
    }

    /// Consumes the lazy value and returns a copy of the bytes.
    ///
    /// # Errors
    ///
    /// Returns [`Error::OutOfMemory`] if an allocation fails.
    ///
    /// # Memory
    ///
    /// Allocates the copy from `alloc`.
    pub fn try_into_vec(self, alloc: Global) -> Result<Vec<u8>, Error>
        ensures bytes { IfOk result (λ copy. copy.items ≡ self) }
        ensures encoded { IsEncodedValue self }
        ensures memory { IsOkUnless result Error.OutOfMemory }
    {
        Ok(Vec::from_slice(alloc, self.as_slice())?)
    }
}

impl From<LazyValue> for Bytes {
    ghost from_gives = { λ value bytes. bytes ≡ value };

    fn from(value: LazyValue) -> Bytes {
        value.into_bytes()
    }
}

/// Creates a lazy value from a shared buffer of exactly one encoded value, without copying its
/// bytes.
///
/// # Errors
///
/// Returns [`Error::InvalidValue`] if the bytes are not exactly one encoded value. The buffer is
/// then dropped.
///
/// # Memory
///
/// Allocates nothing.
///
/// # Example
///
/// `00a1016145` is accepted. `4040`, `a10561` and an empty buffer are rejected.
impl TryFrom<Bytes> for LazyValue {
    ghost use Rattle.amqp_data.specs.declared.error.Error.TheVariants.{InvalidValue};

    type Error = Error;

    ghost try_from_gives = { λ bytes result. MatchResult result
        (λ value. (value ≡ bytes) × IsEncodedValue bytes)
        (λ e. (e ≡ InvalidValue) × ¬ IsEncodedValue bytes) };

    #[tactic(auto, using(crate::proofs::Whole::encoded_value_passes, crate::proofs::Whole::passes_encoded_value))]
    fn try_from(bytes: Bytes) -> Result<LazyValue, Error> {
        if !is_encoded_value(bytes.as_slice()) {
            return Err(Error::InvalidValue);
        }
        Ok(LazyValue { bytes })
    }
}
