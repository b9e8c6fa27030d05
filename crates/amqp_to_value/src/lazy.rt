//! The value that the bytes of a lazy value encode.

ghost use Rattle.std.specs.Prelude.{◌≡◌, None, false, true};
ghost use Rattle.amqp_frame.specs.Whole.{is_encoded_value};
ghost use Rattle.amqp_ser.specs.Marked.{of_encoded_value};
ghost use Rattle.amqp_to_value.specs.HeldImages.{IsOpenedImage};
ghost use Rattle.amqp_to_value.specs.ImageOf.{Answers, IsFault, error_of};

use crate::value_error::ValueError;
use amqp_data::Error;
use amqp_decode::decode_value;
use amqp_frame::is_encoded_value;
use amqp_value::Value;
use std::alloc::Global;

/// Returns the value that the bytes encode, which must be one encoded value.
///
/// # Errors
/// Returns `OutOfMemory` if an allocation fails. Otherwise returns `InvalidValue` if
/// the bytes are not one encoded value, and the error of `decode_value` if they encode no value.
#[inline(never)]
pub fn lazy_value(alloc: Global, bytes: &[u8]) -> Result<Value, ValueError>
    ensures image { Answers (of_encoded_value bytes.now) result }
    ensures not_encoded_value { is_encoded_value bytes.now ≡ false → IsOpenedImage None result }
{
    match decode_value(alloc, bytes) {
        Ok(value) => Ok(value),
        Err(e) => Err(lazy_error(e, bytes)),
    }
}

// Returns the error for bytes that were not decoded. `OutOfMemory` is unchanged. If the bytes are
// one encoded value, `InvalidFormatCode` and `UnexpectedEof` are unchanged. Any other error becomes
// `InvalidValue`.
fn lazy_error(e: Error, bytes: &[u8]) -> ValueError
    ensures memory { e ≡ Error.OutOfMemory → result ≡ ValueError.OutOfMemory }
    ensures code { e ≡ Error.InvalidFormatCode → is_encoded_value bytes.now ≡ true →
        result ≡ ValueError.InvalidFormatCode }
    ensures end { e ≡ Error.UnexpectedEof → is_encoded_value bytes.now ≡ true →
        result ≡ ValueError.UnexpectedEof }
    ensures not_encoded_value { ¬ (e ≡ Error.OutOfMemory) → is_encoded_value bytes.now ≡ false →
        result ≡ ValueError.InvalidValue }
    ensures other_errors { ¬ (e ≡ Error.OutOfMemory) → ¬ (e ≡ Error.InvalidFormatCode) →
        ¬ (e ≡ Error.UnexpectedEof) → result ≡ ValueError.InvalidValue }
    ensures fault { ¬ (e ≡ Error.OutOfMemory) → IsFault (error_of result) }
{
    match e {
        Error::OutOfMemory => ValueError::OutOfMemory,
        Error::InvalidFormatCode if is_encoded_value(bytes) => ValueError::InvalidFormatCode,
        Error::UnexpectedEof if is_encoded_value(bytes) => ValueError::UnexpectedEof,
        _ => ValueError::InvalidValue,
    }
}
