//! Conversions to scalar types. A value of another type is returned unchanged as the error.

ghost use Rattle.amqp_value.specs.Contents.{GivesBack};
ghost use Rattle.amqp_value.specs.Contents as content;

use crate::Value;
use amqp_data::{ByteBuf, Dec32, Dec64, Dec128, F32Bits, F64Bits, Symbol, Timestamp, Uuid};

impl TryFrom<Value> for bool {
    type Error = Value;

    ghost try_from_gives = { GivesBack content.bool_in };

    fn try_from(value: Value) -> Result<bool, Value> {
        match value {
            Value::Bool(content) => Ok(content),
            other => Err(other),
        }
    }
}

impl TryFrom<Value> for u8 {
    type Error = Value;

    ghost try_from_gives = { GivesBack content.ubyte_in };

    fn try_from(value: Value) -> Result<u8, Value> {
        match value {
            Value::Ubyte(content) => Ok(content),
            other => Err(other),
        }
    }
}

impl TryFrom<Value> for u16 {
    type Error = Value;

    ghost try_from_gives = { GivesBack content.ushort_in };

    fn try_from(value: Value) -> Result<u16, Value> {
        match value {
            Value::Ushort(content) => Ok(content),
            other => Err(other),
        }
    }
}

impl TryFrom<Value> for u32 {
    type Error = Value;

    ghost try_from_gives = { GivesBack content.uint_in };

    fn try_from(value: Value) -> Result<u32, Value> {
        match value {
            Value::Uint(content) => Ok(content),
            other => Err(other),
        }
    }
}

impl TryFrom<Value> for u64 {
    type Error = Value;

    ghost try_from_gives = { GivesBack content.ulong_in };

    fn try_from(value: Value) -> Result<u64, Value> {
        match value {
            Value::Ulong(content) => Ok(content),
            other => Err(other),
        }
    }
}

impl TryFrom<Value> for i8 {
    type Error = Value;

    ghost try_from_gives = { GivesBack content.byte_in };

    fn try_from(value: Value) -> Result<i8, Value> {
        match value {
            Value::Byte(content) => Ok(content),
            other => Err(other),
        }
    }
}

impl TryFrom<Value> for i16 {
    type Error = Value;

    ghost try_from_gives = { GivesBack content.short_in };

    fn try_from(value: Value) -> Result<i16, Value> {
        match value {
            Value::Short(content) => Ok(content),
            other => Err(other),
        }
    }
}

impl TryFrom<Value> for i32 {
    type Error = Value;

    ghost try_from_gives = { GivesBack content.int_in };

    fn try_from(value: Value) -> Result<i32, Value> {
        match value {
            Value::Int(content) => Ok(content),
            other => Err(other),
        }
    }
}

impl TryFrom<Value> for i64 {
    type Error = Value;

    ghost try_from_gives = { GivesBack content.long_in };

    fn try_from(value: Value) -> Result<i64, Value> {
        match value {
            Value::Long(content) => Ok(content),
            other => Err(other),
        }
    }
}

impl TryFrom<Value> for F32Bits {
    type Error = Value;

    ghost try_from_gives = { GivesBack content.float_in };

    fn try_from(value: Value) -> Result<F32Bits, Value> {
        match value {
            Value::Float(content) => Ok(content),
            other => Err(other),
        }
    }
}

impl TryFrom<Value> for F64Bits {
    type Error = Value;

    ghost try_from_gives = { GivesBack content.double_in };

    fn try_from(value: Value) -> Result<F64Bits, Value> {
        match value {
            Value::Double(content) => Ok(content),
            other => Err(other),
        }
    }
}

impl TryFrom<Value> for Dec32 {
    type Error = Value;

    ghost try_from_gives = { GivesBack content.decimal32_in };

    fn try_from(value: Value) -> Result<Dec32, Value> {
        match value {
            Value::Decimal32(content) => Ok(content),
            other => Err(other),
        }
    }
}

impl TryFrom<Value> for Dec64 {
    type Error = Value;

    ghost try_from_gives = { GivesBack content.decimal64_in };

    fn try_from(value: Value) -> Result<Dec64, Value> {
        match value {
            Value::Decimal64(content) => Ok(content),
            other => Err(other),
        }
    }
}

impl TryFrom<Value> for Dec128 {
    type Error = Value;

    ghost try_from_gives = { GivesBack content.decimal128_in };

    fn try_from(value: Value) -> Result<Dec128, Value> {
        match value {
            Value::Decimal128(content) => Ok(content),
            other => Err(other),
        }
    }
}

impl TryFrom<Value> for char {
    type Error = Value;

    ghost try_from_gives = { GivesBack content.char_in };

    fn try_from(value: Value) -> Result<char, Value> {
        match value {
            Value::Char(content) => Ok(content),
            other => Err(other),
        }
    }
}

impl TryFrom<Value> for Timestamp {
    type Error = Value;

    ghost try_from_gives = { GivesBack content.timestamp_in };

    fn try_from(value: Value) -> Result<Timestamp, Value> {
        match value {
            Value::Timestamp(content) => Ok(content),
            other => Err(other),
        }
    }
}

impl TryFrom<Value> for Uuid {
    type Error = Value;

    ghost try_from_gives = { GivesBack content.uuid_in };

    fn try_from(value: Value) -> Result<Uuid, Value> {
        match value {
            Value::Uuid(content) => Ok(content),
            other => Err(other),
        }
    }
}

impl TryFrom<Value> for ByteBuf {
    type Error = Value;

    ghost try_from_gives = { GivesBack content.binary_in };

    fn try_from(value: Value) -> Result<ByteBuf, Value> {
        match value {
            Value::Binary(content) => Ok(content),
            other => Err(other),
        }
    }
}

impl TryFrom<Value> for String {
    type Error = Value;

    ghost try_from_gives = { GivesBack content.string_in };

    fn try_from(value: Value) -> Result<String, Value> {
        match value {
            Value::String(content) => Ok(content),
            other => Err(other),
        }
    }
}

impl TryFrom<Value> for Symbol {
    type Error = Value;

    ghost try_from_gives = { GivesBack content.symbol_in };

    fn try_from(value: Value) -> Result<Symbol, Value> {
        match value {
            Value::Symbol(content) => Ok(content),
            other => Err(other),
        }
    }
}
