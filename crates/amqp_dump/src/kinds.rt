//! The types of values by their format codes.

use amqp_value::ValueKind;

/// Returns the type of the values with this format code, or `None` if no primitive type has it.
///
/// # Encoding
///
/// AMQP 1.0 part 1, section 1.6.
///
/// # Example
///
/// `0x52` gives `ValueKind::Uint`.
pub fn kind_of_code(code: u8) -> Option<ValueKind> {
    let kind = match code {
        0x40 => ValueKind::Null,
        0x41 | 0x42 | 0x56 => ValueKind::Bool,
        0x50 => ValueKind::Ubyte,
        0x60 => ValueKind::Ushort,
        0x43 | 0x52 | 0x70 => ValueKind::Uint,
        0x44 | 0x53 | 0x80 => ValueKind::Ulong,
        0x51 => ValueKind::Byte,
        0x61 => ValueKind::Short,
        0x54 | 0x71 => ValueKind::Int,
        0x55 | 0x81 => ValueKind::Long,
        0x72 => ValueKind::Float,
        0x82 => ValueKind::Double,
        0x74 => ValueKind::Decimal32,
        0x84 => ValueKind::Decimal64,
        0x94 => ValueKind::Decimal128,
        0x73 => ValueKind::Char,
        0x83 => ValueKind::Timestamp,
        0x98 => ValueKind::Uuid,
        0xa0 | 0xb0 => ValueKind::Binary,
        0xa1 | 0xb1 => ValueKind::String,
        0xa3 | 0xb3 => ValueKind::Symbol,
        0x45 | 0xc0 | 0xd0 => ValueKind::List,
        0xc1 | 0xd1 => ValueKind::Map,
        0xe0 | 0xf0 => ValueKind::Array,
        _ => return None,
    };
    Some(kind)
}
