//! Reads the common scalars of fixed width. One `match` on the format code selects the type.

ghost use Rattle.std.specs.Prelude.{◌≡◌, ◌∷◌, IfSome, Some};
ghost use Rattle.amqp_value.specs.TreeOf.{tree_of};
ghost use Rattle.amqp_decode.specs.Parsed.{ValueReader, ContentReader, value_in_bytes};

use crate::prefix::{
    read_bool, read_byte, read_double, read_float, read_int, read_long, read_null, read_short,
    read_timestamp, read_ubyte, read_uint, read_ulong, read_ushort,
};
use amqp_value::Value;

// The value of a scalar that was read, with the bytes after it.
macro_rules! value {
    ($read:expr, $kind:ident) => {
        match $read {
            Ok((scalar, rest)) => Some((Value::$kind(scalar), rest)),
            Err(_) => None,
        }
    };
}

/// Reads the scalar of this code whose payload is at the start of `bytes`, and returns it with the
/// bytes after it.
///
/// Supports null, `true` and `false` without payload, all integers, the binary floating-point
/// numbers and timestamps. Returns `None` for any other code, and if the bytes end too early.
#[inline(always)]
pub fn read_fixed(code: u8, bytes: &[u8]) -> Option<(Value, &[u8])>
    ensures found { IfSome result (λ r. (f : ValueReader) (h : ContentReader) →
        value_in_bytes f h (code ∷ bytes.now) ≡ Some (tree_of r.0, r.1.now)) }
    ensures primitive { IfSome result (λ r. ¬ (code ≡ 0)) }
{
    match code {
        0x40 => match read_null(code, bytes) {
            Ok(rest) => Some((Value::Null, rest)),
            Err(_) => None,
        },
        0x41 | 0x42 => value!(read_bool(code, bytes), Bool),
        0x50 => value!(read_ubyte(code, bytes), Ubyte),
        0x60 => value!(read_ushort(code, bytes), Ushort),
        0x43 | 0x52 | 0x70 => value!(read_uint(code, bytes), Uint),
        0x44 | 0x53 | 0x80 => value!(read_ulong(code, bytes), Ulong),
        0x51 => value!(read_byte(code, bytes), Byte),
        0x61 => value!(read_short(code, bytes), Short),
        0x54 | 0x71 => value!(read_int(code, bytes), Int),
        0x55 | 0x81 => value!(read_long(code, bytes), Long),
        0x72 => value!(read_float(code, bytes), Float),
        0x82 => value!(read_double(code, bytes), Double),
        0x83 => value!(read_timestamp(code, bytes), Timestamp),
        _ => None,
    }
}
