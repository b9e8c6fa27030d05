//! Format codes and widths of the values of fixed width. This is the only table of them.

ghost use Rattle.std.specs.Prelude.{◌≡◌, ◌≤◌, length};
ghost use Rattle.amqp_ser.specs.Fixed.{fixed_scalar};
ghost use Rattle.amqp_ser.specs.Ranged.{IsRangedScalar};
ghost use Rattle.amqp_ser.specs.Scalars.{scalar_code, scalar_form, scalar_payload};

use amqp_data::EncodingCodes;
use amqp_ser::Fixed;

/// A format code and the low bytes of a number, in big-endian order.
///
/// # Encoding
/// AMQP 1.0 part 1, section 1.2.1: the high four bits of the code determine the width.
#[derive(Clone, Copy, Debug)]
pub struct ScalarEncoding {
    /// The format code, or the constructor in an array.
    pub code: u8,
    /// The number of bytes after the code: 0, 1, 2, 4 or 8.
    pub width: usize,
    /// The number whose low bytes follow the code.
    pub bits: u64,
}

impl ScalarEncoding {
    ghost use Rattle.amqp_size.specs.ScalarEncoding.{form_bytes, form_payload};

    #[inline(always)]
    fn new(code: u8, width: usize, bits: u64) -> ScalarEncoding
        ensures code { result.code ≡ code }
        ensures width { result.width ≡ width }
        ensures bits { result.bits ≡ bits }
    {
        ScalarEncoding { code, width, bits }
    }

    /// Returns the shortest form, which is used outside an array.
    #[inline(always)]
    pub fn ordinary(fixed: Fixed) -> ScalarEncoding
        ensures bytes { form_bytes result ≡ scalar_form (fixed_scalar fixed) }
        ensures few { result.width ≤ 8 }
    {
        match fixed {
            Fixed::Bool(true) => ScalarEncoding::new(EncodingCodes::BooleanTrue as u8, 0, 0),
            Fixed::Bool(false) => ScalarEncoding::new(EncodingCodes::BooleanFalse as u8, 0, 0),
            Fixed::Uint(0) => ScalarEncoding::new(EncodingCodes::Uint0 as u8, 0, 0),
            Fixed::Uint(n) if n < 256 => ScalarEncoding::new(
                EncodingCodes::SmallUint as u8,
                1,
                n as u64,
            ),
            Fixed::Ulong(0) => ScalarEncoding::new(EncodingCodes::Ulong0 as u8, 0, 0),
            Fixed::Ulong(n) if n < 256 => ScalarEncoding::new(
                EncodingCodes::SmallUlong as u8,
                1,
                n,
            ),
            Fixed::Int(n) if -128 <= n && n <= 127 => ScalarEncoding::new(
                EncodingCodes::SmallInt as u8,
                1,
                (n as i8).cast_unsigned() as u64,
            ),
            Fixed::Long(n) if -128 <= n && n <= 127 => ScalarEncoding::new(
                EncodingCodes::SmallLong as u8,
                1,
                (n as i8).cast_unsigned() as u64,
            ),
            other => ScalarEncoding::in_array(other),
        }
    }

    /// Returns the constructor and the payload of an array element.
    #[inline(always)]
    pub fn in_array(fixed: Fixed) -> ScalarEncoding
        ensures code { result.code ≡ scalar_code (fixed_scalar fixed) }
        ensures payload { form_payload result ≡ scalar_payload (fixed_scalar fixed) }
        ensures few { result.width ≤ 8 }
        ensures ranged { IsRangedScalar (fixed_scalar fixed) }
    {
        match fixed {
            Fixed::Null => ScalarEncoding::new(EncodingCodes::Null as u8, 0, 0),
            Fixed::Bool(v) => ScalarEncoding::new(
                EncodingCodes::Boolean as u8,
                1,
                if v { 1 } else { 0 },
            ),
            Fixed::Ubyte(v) => ScalarEncoding::new(EncodingCodes::Ubyte as u8, 1, v as u64),
            Fixed::Ushort(v) => ScalarEncoding::new(EncodingCodes::Ushort as u8, 2, v as u64),
            Fixed::Uint(v) => ScalarEncoding::new(EncodingCodes::Uint as u8, 4, v as u64),
            Fixed::Ulong(v) => ScalarEncoding::new(EncodingCodes::Ulong as u8, 8, v),
            Fixed::Byte(v) => ScalarEncoding::new(
                EncodingCodes::Byte as u8,
                1,
                v.cast_unsigned() as u64,
            ),
            Fixed::Short(v) => ScalarEncoding::new(
                EncodingCodes::Short as u8,
                2,
                v.cast_unsigned() as u64,
            ),
            Fixed::Int(v) => ScalarEncoding::new(
                EncodingCodes::Int as u8,
                4,
                v.cast_unsigned() as u64,
            ),
            Fixed::Long(v) => ScalarEncoding::new(EncodingCodes::Long as u8, 8, v.cast_unsigned()),
            Fixed::Float(v) => ScalarEncoding::new(EncodingCodes::Float as u8, 4, v as u64),
            Fixed::Double(v) => ScalarEncoding::new(EncodingCodes::Double as u8, 8, v),
            Fixed::Char(v) => ScalarEncoding::new(EncodingCodes::Char as u8, 4, v as u64),
        }
    }
}
