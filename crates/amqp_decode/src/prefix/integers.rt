//! Integers after their format codes.

ghost use Rattle.std.specs.Prelude.{◌∷◌, IfOk};
ghost use Rattle.amqp_ser.specs.Tree.{ubyte, ushort, uint, ulong, byte, short, int, long};
ghost use Rattle.amqp_decode.specs.Prefix.{IsScalar};

use crate::prefix::compounds::{split_byte, split_bytes};
use crate::prefix::gave_up::GaveUp;

/// Reads a ubyte.
///
/// # Encoding
/// The code `50` (AMQP 1.0 part 1, section 1.6.3).
#[inline(always)]
pub fn read_ubyte(code: u8, bytes: &[u8]) -> Result<(u8, &[u8]), GaveUp>
    ensures { IfOk result (λ r. IsScalar (code ∷ bytes.now) r.1.now (ubyte r.0)) }
{
    match code {
        0x50 => {
            let (value, rest) = split_byte(bytes)?;
            Ok((value, rest))
        }
        _ => Err(GaveUp),
    }
}

/// Reads a ushort.
///
/// # Encoding
/// The code `60` (AMQP 1.0 part 1, section 1.6.4).
#[inline(always)]
pub fn read_ushort(code: u8, bytes: &[u8]) -> Result<(u16, &[u8]), GaveUp>
    ensures { IfOk result (λ r. IsScalar (code ∷ bytes.now) r.1.now (ushort r.0)) }
{
    match code {
        0x60 => {
            let (value, rest) = split_bytes::<2>(bytes)?;
            Ok((u16::from_be_bytes(value), rest))
        }
        _ => Err(GaveUp),
    }
}

/// Reads a uint.
///
/// # Encoding
/// The codes `43`, `52` and `70` (AMQP 1.0 part 1, section 1.6.5).
#[inline(always)]
pub fn read_uint(code: u8, bytes: &[u8]) -> Result<(u32, &[u8]), GaveUp>
    ensures { IfOk result (λ r. IsScalar (code ∷ bytes.now) r.1.now (uint r.0)) }
{
    match code {
        0x43 => Ok((0, bytes)),
        0x52 => {
            let (value, rest) = split_byte(bytes)?;
            Ok((u32::from(value), rest))
        }
        0x70 => {
            let (value, rest) = split_bytes::<4>(bytes)?;
            Ok((u32::from_be_bytes(value), rest))
        }
        _ => Err(GaveUp),
    }
}

/// Reads a ulong.
///
/// # Encoding
/// The codes `44`, `53` and `80` (AMQP 1.0 part 1, section 1.6.6).
#[inline(always)]
pub fn read_ulong(code: u8, bytes: &[u8]) -> Result<(u64, &[u8]), GaveUp>
    ensures { IfOk result (λ r. IsScalar (code ∷ bytes.now) r.1.now (ulong r.0)) }
{
    match code {
        0x44 => Ok((0, bytes)),
        0x53 => {
            let (value, rest) = split_byte(bytes)?;
            Ok((u64::from(value), rest))
        }
        0x80 => {
            let (value, rest) = split_bytes::<8>(bytes)?;
            Ok((u64::from_be_bytes(value), rest))
        }
        _ => Err(GaveUp),
    }
}

/// Reads a byte.
///
/// # Encoding
/// The code `51` (AMQP 1.0 part 1, section 1.6.7).
#[inline(always)]
pub fn read_byte(code: u8, bytes: &[u8]) -> Result<(i8, &[u8]), GaveUp>
    ensures { IfOk result (λ r. IsScalar (code ∷ bytes.now) r.1.now (byte r.0)) }
{
    match code {
        0x51 => {
            let (value, rest) = split_byte(bytes)?;
            Ok((value.cast_signed(), rest))
        }
        _ => Err(GaveUp),
    }
}

/// Reads a short.
///
/// # Encoding
/// The code `61` (AMQP 1.0 part 1, section 1.6.8).
#[inline(always)]
pub fn read_short(code: u8, bytes: &[u8]) -> Result<(i16, &[u8]), GaveUp>
    ensures { IfOk result (λ r. IsScalar (code ∷ bytes.now) r.1.now (short r.0)) }
{
    match code {
        0x61 => {
            let (value, rest) = split_bytes::<2>(bytes)?;
            Ok((i16::from_be_bytes(value), rest))
        }
        _ => Err(GaveUp),
    }
}

/// Reads an int.
///
/// # Encoding
/// The codes `54` and `71` (AMQP 1.0 part 1, section 1.6.9).
#[inline(always)]
pub fn read_int(code: u8, bytes: &[u8]) -> Result<(i32, &[u8]), GaveUp>
    ensures { IfOk result (λ r. IsScalar (code ∷ bytes.now) r.1.now (int r.0)) }
{
    match code {
        0x54 => {
            let (value, rest) = split_byte(bytes)?;
            Ok((i32::from(value.cast_signed()), rest))
        }
        0x71 => {
            let (value, rest) = split_bytes::<4>(bytes)?;
            Ok((i32::from_be_bytes(value), rest))
        }
        _ => Err(GaveUp),
    }
}

/// Reads a long.
///
/// # Encoding
/// The codes `55` and `81` (AMQP 1.0 part 1, section 1.6.10).
#[inline(always)]
pub fn read_long(code: u8, bytes: &[u8]) -> Result<(i64, &[u8]), GaveUp>
    ensures { IfOk result (λ r. IsScalar (code ∷ bytes.now) r.1.now (long r.0)) }
{
    match code {
        0x55 => {
            let (value, rest) = split_byte(bytes)?;
            Ok((i64::from(value.cast_signed()), rest))
        }
        0x81 => {
            let (value, rest) = split_bytes::<8>(bytes)?;
            Ok((i64::from_be_bytes(value), rest))
        }
        _ => Err(GaveUp),
    }
}
