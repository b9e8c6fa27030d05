//! Binaries, strings and symbols, after their format codes.

ghost use Rattle.std.specs.Prelude.{◌≡◌, ◌∷◌, IfOk, true, string_bytes};
ghost use Rattle.std.specs.Str.{is_utf8};
ghost use Rattle.amqp_data.specs.Items.{byte_buf_bytes};
ghost use Rattle.amqp_data.specs.Text.{symbol_text};
ghost use Rattle.amqp_ser.specs.Tree.{binary, string, symbol};
ghost use Rattle.amqp_decode.specs.Prefix.{IsScalar};

use crate::prefix::compounds::split_sized;
use crate::prefix::gave_up::GaveUp;
use crate::scalar::{binary_of, text_of};
use amqp_data::{ByteBuf, Symbol};
use std::alloc::Global;

/// Reads a binary.
///
/// # Encoding
/// The codes `a0` and `b0` (AMQP 1.0 part 1, section 1.6.19).
///
/// # Memory
/// Allocates the bytes of the content from `alloc`.
pub fn read_binary(alloc: Global, code: u8, bytes: &[u8]) -> Result<(ByteBuf, &[u8]), GaveUp>
    ensures { IfOk result (λ r. IsScalar (code ∷ bytes.now) r.1.now (binary (byte_buf_bytes r.0))) }
{
    match code {
        0xa0 => {
            let (content, rest) = split_sized(false, bytes)?;
            let copy = binary_of(alloc, content)?;
            let value = ByteBuf::from(copy);
            Ok((value, rest))
        }
        0xb0 => {
            let (content, rest) = split_sized(true, bytes)?;
            let copy = binary_of(alloc, content)?;
            let value = ByteBuf::from(copy);
            Ok((value, rest))
        }
        _ => Err(GaveUp),
    }
}

/// Reads a string, which is UTF-8.
///
/// # Encoding
/// The codes `a1` and `b1` (AMQP 1.0 part 1, section 1.6.20).
///
/// # Memory
/// Allocates the bytes of the content from `alloc`.
pub fn read_string(alloc: Global, code: u8, bytes: &[u8]) -> Result<(String, &[u8]), GaveUp>
    ensures { IfOk result (λ r. IsScalar (code ∷ bytes.now) r.1.now (string (string_bytes r.0))) }
{
    match code {
        0xa1 => {
            let (content, rest) = split_sized(false, bytes)?;
            let value = text_of(alloc, content)?;
            Ok((value, rest))
        }
        0xb1 => {
            let (content, rest) = split_sized(true, bytes)?;
            let value = text_of(alloc, content)?;
            Ok((value, rest))
        }
        _ => Err(GaveUp),
    }
}

/// Reads a string, which is UTF-8, without copying it.
///
/// # Encoding
/// The codes `a1` and `b1` (AMQP 1.0 part 1, section 1.6.20).
///
/// # Example
/// For the code `a1` and the bytes `016140`, returns the text `a` and the rest `40`.
#[inline(always)]
pub fn split_string(code: u8, bytes: &[u8]) -> Result<(&str, &[u8]), GaveUp>
    ensures { IfOk result (λ r. IsScalar (code ∷ bytes.now) r.1.now (string r.0.now)) }
{
    match code {
        0xa1 => {
            let (content, rest) = split_sized(false, bytes)?;
            match std::str::from_utf8(content) {
                Ok(text) => Ok((text, rest)),
                Err(_) => Err(GaveUp),
            }
        }
        0xb1 => {
            let (content, rest) = split_sized(true, bytes)?;
            match std::str::from_utf8(content) {
                Ok(text) => Ok((text, rest)),
                Err(_) => Err(GaveUp),
            }
        }
        _ => Err(GaveUp),
    }
}

/// Reads a symbol, which is read as UTF-8.
///
/// # Encoding
/// The codes `a3` and `b3` (AMQP 1.0 part 1, section 1.6.21).
///
/// # Memory
/// Allocates the bytes of the content from `alloc`.
pub fn read_symbol(alloc: Global, code: u8, bytes: &[u8]) -> Result<(Symbol, &[u8]), GaveUp>
    ensures { IfOk result (λ r. IsScalar (code ∷ bytes.now) r.1.now (symbol (symbol_text r.0))) }
{
    match code {
        0xa3 => {
            let (content, rest) = split_sized(false, bytes)?;
            let text = text_of(alloc, content)?;
            let value = Symbol::from(text);
            Ok((value, rest))
        }
        0xb3 => {
            let (content, rest) = split_sized(true, bytes)?;
            let text = text_of(alloc, content)?;
            let value = Symbol::from(text);
            Ok((value, rest))
        }
        _ => Err(GaveUp),
    }
}
