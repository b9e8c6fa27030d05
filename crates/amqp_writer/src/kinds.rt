//! The kinds of values, by the widest format code of each (AMQP 1.0 part 1, section 1.6).

/// A descriptor, which is before its value.
pub const DESCRIBED: u8 = 0x00;
/// `null`
pub const NULL: u8 = 0x40;
/// `boolean`
pub const BOOLEAN: u8 = 0x56;
/// `ubyte`
pub const UBYTE: u8 = 0x50;
/// `ushort`
pub const USHORT: u8 = 0x60;
/// `uint`
pub const UINT: u8 = 0x70;
/// `ulong`
pub const ULONG: u8 = 0x80;
/// `byte`
pub const BYTE: u8 = 0x51;
/// `short`
pub const SHORT: u8 = 0x61;
/// `int`
pub const INT: u8 = 0x71;
/// `long`
pub const LONG: u8 = 0x81;
/// `float`
pub const FLOAT: u8 = 0x72;
/// `double`
pub const DOUBLE: u8 = 0x82;
/// `decimal32`
pub const DECIMAL32: u8 = 0x74;
/// `decimal64`
pub const DECIMAL64: u8 = 0x84;
/// `decimal128`
pub const DECIMAL128: u8 = 0x94;
/// `char`
pub const CHAR: u8 = 0x73;
/// `timestamp`
pub const TIMESTAMP: u8 = 0x83;
/// `uuid`
pub const UUID: u8 = 0x98;
/// `binary`
pub const BINARY: u8 = 0xb0;
/// `string`
pub const STRING: u8 = 0xb1;
/// `symbol`
pub const SYMBOL: u8 = 0xb3;
/// `list`
pub const LIST: u8 = 0xd0;
/// `map`
pub const MAP: u8 = 0xd1;
/// `array`
pub const ARRAY: u8 = 0xf0;
