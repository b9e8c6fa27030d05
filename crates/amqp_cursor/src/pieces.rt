//! Contents at the start of bytes.

ghost use Rattle.std.specs.Prelude.{◌≡◌, IfOk, Some, true};
ghost use Rattle.std.specs.Str.{is_utf8};
ghost use Rattle.amqp_data.specs.declared.format_code.EncodingCodes.{EncodingCodes};
ghost use Rattle.amqp_decode.specs.Codes.{primitive_of};
ghost use Rattle.amqp_decode.specs.Parsed.{sized_at};
ghost use Rattle.amqp_cursor.specs.Contents.{is_wide};

use amqp_data::EncodingCodes;
use amqp_decode::prefix::{GaveUp, split_sized};

/// Splits off the content of a payload of this code.
#[inline(always)]
pub fn split_payload(code: u8, bytes: &[u8]) -> Result<(&[u8], &[u8]), GaveUp>
    ensures read { IfOk result (λ r. sized_at (is_wide code) bytes.now ≡ Some (r.0.now, r.1.now)) }
{
    split_sized(code / 16 % 2 == 1, bytes)
}

/// Splits off the content of a text of this code, which is UTF-8.
#[inline(always)]
pub fn split_text(code: u8, bytes: &[u8]) -> Result<(&[u8], &[u8]), GaveUp>
    ensures read { IfOk result (λ r. sized_at (is_wide code) bytes.now ≡ Some (r.0.now, r.1.now)) }
    ensures utf8 { IfOk result (λ r. is_utf8 r.0.now ≡ true) }
{
    let (content, rest) = split_payload(code, bytes)?;
    match std::str::from_utf8(content) {
        Ok(_) => Ok((content, rest)),
        Err(_) => Err(GaveUp),
    }
}

/// Returns whether a byte is the code of a primitive type.
#[inline(always)]
pub fn is_code(byte: u8) -> bool
    ensures nonzero { result ≡ true → ¬ (byte ≡ 0) }
    ensures named { result ≡ true → (k : EncodingCodes) × (primitive_of byte ≡ Some k) }
{
    byte != 0 && EncodingCodes::try_from(byte).is_ok()
}
