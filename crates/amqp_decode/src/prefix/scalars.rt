//! Null, booleans, floating-point numbers, characters, timestamps, decimals and uuids, after their
//! format codes.

ghost use Rattle.std.specs.Prelude.{◌≡◌, ◌∷◌, IfOk, Some};
ghost use Rattle.amqp_data.specs.Fixed.{dec32_bytes, dec64_bytes, dec128_bytes, f32_bits, f64_bits};
ghost use Rattle.amqp_data.specs.Fixed.{milliseconds_of, uuid_bytes};
ghost use Rattle.amqp_ser.specs.Tree.{null, bool, float, double, char, timestamp, decimal32};
ghost use Rattle.amqp_ser.specs.Tree.{decimal64, decimal128, uuid};
ghost use Rattle.amqp_decode.specs.Prefix.{IsScalar};
ghost use Rattle.amqp_decode.specs.Scalars.{character};

use crate::prefix::compounds::{split_byte, split_bytes};
use crate::prefix::gave_up::GaveUp;
use amqp_data::{Dec32, Dec64, Dec128, F32Bits, F64Bits, Timestamp, Uuid};

/// Reads null, and returns the bytes after it.
///
/// # Encoding
/// The code `40` (AMQP 1.0 part 1, section 1.6.1).
#[inline(always)]
pub fn read_null(code: u8, bytes: &[u8]) -> Result<&[u8], GaveUp>
    ensures { IfOk result (λ r. IsScalar (code ∷ bytes.now) r.now null) }
{
    match code {
        0x40 => Ok(bytes),
        _ => Err(GaveUp),
    }
}

/// Reads a boolean.
///
/// # Encoding
/// The codes `41`, `42` and `56` (AMQP 1.0 part 1, section 1.6.2).
#[inline(always)]
pub fn read_bool(code: u8, bytes: &[u8]) -> Result<(bool, &[u8]), GaveUp>
    ensures { IfOk result (λ r. IsScalar (code ∷ bytes.now) r.1.now (bool r.0)) }
{
    match code {
        0x41 => Ok((true, bytes)),
        0x42 => Ok((false, bytes)),
        0x56 => {
            let (value, rest) = split_byte(bytes)?;
            match value {
                0 => Ok((false, rest)),
                1 => Ok((true, rest)),
                _ => Err(GaveUp),
            }
        }
        _ => Err(GaveUp),
    }
}

// Converts a Unicode scalar value to a character.
#[inline(always)]
fn character_of(number: u32) -> Result<char, GaveUp>
    ensures { IfOk result (λ c. character number ≡ Some (char c)) }
{
    match char::from_u32(number) {
        Some(character) => Ok(character),
        None => Err(GaveUp),
    }
}

/// Reads a character, which is a Unicode scalar value.
///
/// # Encoding
/// The code `73` (AMQP 1.0 part 1, section 1.6.16).
#[inline(always)]
pub fn read_char(code: u8, bytes: &[u8]) -> Result<(char, &[u8]), GaveUp>
    ensures { IfOk result (λ r. IsScalar (code ∷ bytes.now) r.1.now (char r.0)) }
{
    match code {
        0x73 => {
            let (value, rest) = split_bytes::<4>(bytes)?;
            let character = character_of(u32::from_be_bytes(value))?;
            Ok((character, rest))
        }
        _ => Err(GaveUp),
    }
}

/// Reads a float.
///
/// # Encoding
/// The code `72` (AMQP 1.0 part 1, section 1.6.11).
#[inline(always)]
pub fn read_float(code: u8, bytes: &[u8]) -> Result<(F32Bits, &[u8]), GaveUp>
    ensures { IfOk result (λ r. IsScalar (code ∷ bytes.now) r.1.now (float (f32_bits r.0))) }
{
    match code {
        0x72 => {
            let (value, rest) = split_bytes::<4>(bytes)?;
            Ok((F32Bits::from(u32::from_be_bytes(value)), rest))
        }
        _ => Err(GaveUp),
    }
}

/// Reads a double.
///
/// # Encoding
/// The code `82` (AMQP 1.0 part 1, section 1.6.12).
#[inline(always)]
pub fn read_double(code: u8, bytes: &[u8]) -> Result<(F64Bits, &[u8]), GaveUp>
    ensures { IfOk result (λ r. IsScalar (code ∷ bytes.now) r.1.now (double (f64_bits r.0))) }
{
    match code {
        0x82 => {
            let (value, rest) = split_bytes::<8>(bytes)?;
            Ok((F64Bits::from(u64::from_be_bytes(value)), rest))
        }
        _ => Err(GaveUp),
    }
}

/// Reads a timestamp.
///
/// # Encoding
/// The code `83` (AMQP 1.0 part 1, section 1.6.17).
#[inline(always)]
pub fn read_timestamp(code: u8, bytes: &[u8]) -> Result<(Timestamp, &[u8]), GaveUp>
    ensures { IfOk result (λ r. IsScalar (code ∷ bytes.now) r.1.now
        (timestamp (milliseconds_of r.0))) }
{
    match code {
        0x83 => {
            let (value, rest) = split_bytes::<8>(bytes)?;
            Ok((Timestamp::from(i64::from_be_bytes(value)), rest))
        }
        _ => Err(GaveUp),
    }
}

/// Reads a decimal32.
///
/// # Encoding
/// The code `74` (AMQP 1.0 part 1, section 1.6.13).
#[inline(always)]
pub fn read_decimal32(code: u8, bytes: &[u8]) -> Result<(Dec32, &[u8]), GaveUp>
    ensures { IfOk result (λ r. IsScalar (code ∷ bytes.now) r.1.now (decimal32 (dec32_bytes r.0))) }
{
    match code {
        0x74 => {
            let (value, rest) = split_bytes::<4>(bytes)?;
            Ok((Dec32::from(value), rest))
        }
        _ => Err(GaveUp),
    }
}

/// Reads a decimal64.
///
/// # Encoding
/// The code `84` (AMQP 1.0 part 1, section 1.6.14).
#[inline(always)]
pub fn read_decimal64(code: u8, bytes: &[u8]) -> Result<(Dec64, &[u8]), GaveUp>
    ensures { IfOk result (λ r. IsScalar (code ∷ bytes.now) r.1.now (decimal64 (dec64_bytes r.0))) }
{
    match code {
        0x84 => {
            let (value, rest) = split_bytes::<8>(bytes)?;
            Ok((Dec64::from(value), rest))
        }
        _ => Err(GaveUp),
    }
}

/// Reads a decimal128.
///
/// # Encoding
/// The code `94` (AMQP 1.0 part 1, section 1.6.15).
#[inline(always)]
pub fn read_decimal128(code: u8, bytes: &[u8]) -> Result<(Dec128, &[u8]), GaveUp>
    ensures { IfOk result (λ r. IsScalar (code ∷ bytes.now) r.1.now
        (decimal128 (dec128_bytes r.0))) }
{
    match code {
        0x94 => {
            let (value, rest) = split_bytes::<16>(bytes)?;
            Ok((Dec128::from(value), rest))
        }
        _ => Err(GaveUp),
    }
}

/// Reads a uuid.
///
/// # Encoding
/// The code `98` (AMQP 1.0 part 1, section 1.6.18).
#[inline(always)]
pub fn read_uuid(code: u8, bytes: &[u8]) -> Result<(Uuid, &[u8]), GaveUp>
    ensures { IfOk result (λ r. IsScalar (code ∷ bytes.now) r.1.now (uuid (uuid_bytes r.0))) }
{
    match code {
        0x98 => {
            let (value, rest) = split_bytes::<16>(bytes)?;
            Ok((Uuid::from(value), rest))
        }
        _ => Err(GaveUp),
    }
}
