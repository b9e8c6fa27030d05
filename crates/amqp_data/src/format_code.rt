//! The format codes: the first byte of each encoding (AMQP 1.0 part 1, section 1.6).

ghost use Rattle.std.specs.Prelude.{◌≡◌};
ghost use Rattle.amqp_data.specs.FormatCode.{code_of, GivesName};

use crate::Error;

/// A named format code.
///
/// # Encoding
/// The discriminant is the byte.
///
/// # Example
/// `u8::from(EncodingCodes::Str8)` is `a1`.
#[derive(Debug, PartialEq, Eq, Clone, Copy)]
pub enum EncodingCodes {
    /// A descriptor and a value follow.
    DescribedType = 0x00,
    /// Null.
    Null = 0x40,
    /// The boolean true, with no payload.
    BooleanTrue = 0x41,
    /// The boolean false, with no payload.
    BooleanFalse = 0x42,
    /// The uint 0, with no payload.
    Uint0 = 0x43,
    /// The ulong 0, with no payload.
    Ulong0 = 0x44,
    /// The empty list, with no payload.
    List0 = 0x45,
    /// A ubyte.
    Ubyte = 0x50,
    /// A byte.
    Byte = 0x51,
    /// A uint from 0 to 255, in one byte.
    SmallUint = 0x52,
    /// A ulong from 0 to 255, in one byte.
    SmallUlong = 0x53,
    /// An int from -128 to 127, in one byte.
    SmallInt = 0x54,
    /// A long from -128 to 127, in one byte.
    SmallLong = 0x55,
    /// A boolean, as the byte 01 or 00.
    Boolean = 0x56,
    /// A ushort.
    Ushort = 0x60,
    /// A short.
    Short = 0x61,
    /// A uint in four bytes.
    Uint = 0x70,
    /// An int in four bytes.
    Int = 0x71,
    /// A float.
    Float = 0x72,
    /// A char, as its Unicode code point.
    Char = 0x73,
    /// A decimal32.
    Decimal32 = 0x74,
    /// A ulong in eight bytes.
    Ulong = 0x80,
    /// A long in eight bytes.
    Long = 0x81,
    /// A double.
    Double = 0x82,
    /// A timestamp.
    Timestamp = 0x83,
    /// A decimal64.
    Decimal64 = 0x84,
    /// A decimal128.
    Decimal128 = 0x94,
    /// A uuid.
    Uuid = 0x98,
    /// A binary with a length of one byte.
    Vbin8 = 0xa0,
    /// A string with a length of one byte.
    Str8 = 0xa1,
    /// A symbol with a length of one byte.
    Sym8 = 0xa3,
    /// A binary with a length of four bytes.
    Vbin32 = 0xb0,
    /// A string with a length of four bytes.
    Str32 = 0xb1,
    /// A symbol with a length of four bytes.
    Sym32 = 0xb3,
    /// A list with a size and a count of one byte each.
    List8 = 0xc0,
    /// A map with a size and a count of one byte each.
    Map8 = 0xc1,
    /// A list with a size and a count of four bytes each.
    List32 = 0xd0,
    /// A map with a size and a count of four bytes each.
    Map32 = 0xd1,
    /// An array with a size and a count of one byte each.
    Array8 = 0xe0,
    /// An array with a size and a count of four bytes each.
    Array32 = 0xf0,
}

impl From<EncodingCodes> for u8 {
    ghost from_gives = { λ name byte. byte ≡ code_of name };

    fn from(name: EncodingCodes) -> u8 {
        name as u8
    }
}

/// Returns the name of a format code.
///
/// # Errors
/// Returns `Error::InvalidFormatCode` if no name has this code.
///
/// # Example
/// `a1` is `Str8`. `46` is an `InvalidFormatCode` error.
impl TryFrom<u8> for EncodingCodes {
    type Error = Error;

    ghost try_from_gives = { GivesName };

    fn try_from(byte: u8) -> Result<EncodingCodes, Error> {
        match byte {
            0x00 => Ok(EncodingCodes::DescribedType),
            0x40 => Ok(EncodingCodes::Null),
            0x41 => Ok(EncodingCodes::BooleanTrue),
            0x42 => Ok(EncodingCodes::BooleanFalse),
            0x43 => Ok(EncodingCodes::Uint0),
            0x44 => Ok(EncodingCodes::Ulong0),
            0x45 => Ok(EncodingCodes::List0),
            0x50 => Ok(EncodingCodes::Ubyte),
            0x51 => Ok(EncodingCodes::Byte),
            0x52 => Ok(EncodingCodes::SmallUint),
            0x53 => Ok(EncodingCodes::SmallUlong),
            0x54 => Ok(EncodingCodes::SmallInt),
            0x55 => Ok(EncodingCodes::SmallLong),
            0x56 => Ok(EncodingCodes::Boolean),
            0x60 => Ok(EncodingCodes::Ushort),
            0x61 => Ok(EncodingCodes::Short),
            0x70 => Ok(EncodingCodes::Uint),
            0x71 => Ok(EncodingCodes::Int),
            0x72 => Ok(EncodingCodes::Float),
            0x73 => Ok(EncodingCodes::Char),
            0x74 => Ok(EncodingCodes::Decimal32),
            0x80 => Ok(EncodingCodes::Ulong),
            0x81 => Ok(EncodingCodes::Long),
            0x82 => Ok(EncodingCodes::Double),
            0x83 => Ok(EncodingCodes::Timestamp),
            0x84 => Ok(EncodingCodes::Decimal64),
            0x94 => Ok(EncodingCodes::Decimal128),
            0x98 => Ok(EncodingCodes::Uuid),
            0xa0 => Ok(EncodingCodes::Vbin8),
            0xa1 => Ok(EncodingCodes::Str8),
            0xa3 => Ok(EncodingCodes::Sym8),
            0xb0 => Ok(EncodingCodes::Vbin32),
            0xb1 => Ok(EncodingCodes::Str32),
            0xb3 => Ok(EncodingCodes::Sym32),
            0xc0 => Ok(EncodingCodes::List8),
            0xc1 => Ok(EncodingCodes::Map8),
            0xd0 => Ok(EncodingCodes::List32),
            0xd1 => Ok(EncodingCodes::Map32),
            0xe0 => Ok(EncodingCodes::Array8),
            0xf0 => Ok(EncodingCodes::Array32),
            _ => Err(Error::InvalidFormatCode),
        }
    }
}
