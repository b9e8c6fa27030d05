//! Conversions of scalars to `Value`.

ghost use Rattle.std.specs.Prelude.{◌≡◌, IsSomeAnd, to_bits};
ghost use Rattle.std.specs.Float.Ieee.{binary32, binary64};
ghost use Rattle.amqp_data.specs.Fixed.{f32_bits, f64_bits};
ghost use Rattle.amqp_value.specs.Contents.{double_in, float_in};
ghost use Rattle.amqp_value.specs.declared.value.Value.TheVariants as kind;

use crate::Value;
use amqp_data::{ByteBuf, Dec32, Dec64, Dec128, F32Bits, F64Bits, Symbol, Timestamp, Uuid};

impl From<bool> for Value {
    ghost from_gives = { λ content value. value ≡ kind.Bool content };

    fn from(content: bool) -> Value {
        Value::Bool(content)
    }
}

impl From<u8> for Value {
    ghost from_gives = { λ content value. value ≡ kind.Ubyte content };

    fn from(content: u8) -> Value {
        Value::Ubyte(content)
    }
}

impl From<u16> for Value {
    ghost from_gives = { λ content value. value ≡ kind.Ushort content };

    fn from(content: u16) -> Value {
        Value::Ushort(content)
    }
}

impl From<u32> for Value {
    ghost from_gives = { λ content value. value ≡ kind.Uint content };

    fn from(content: u32) -> Value {
        Value::Uint(content)
    }
}

impl From<u64> for Value {
    ghost from_gives = { λ content value. value ≡ kind.Ulong content };

    fn from(content: u64) -> Value {
        Value::Ulong(content)
    }
}

impl From<i8> for Value {
    ghost from_gives = { λ content value. value ≡ kind.Byte content };

    fn from(content: i8) -> Value {
        Value::Byte(content)
    }
}

impl From<i16> for Value {
    ghost from_gives = { λ content value. value ≡ kind.Short content };

    fn from(content: i16) -> Value {
        Value::Short(content)
    }
}

impl From<i32> for Value {
    ghost from_gives = { λ content value. value ≡ kind.Int content };

    fn from(content: i32) -> Value {
        Value::Int(content)
    }
}

impl From<i64> for Value {
    ghost from_gives = { λ content value. value ≡ kind.Long content };

    fn from(content: i64) -> Value {
        Value::Long(content)
    }
}

impl From<F32Bits> for Value {
    ghost from_gives = { λ content value. value ≡ kind.Float content };

    fn from(content: F32Bits) -> Value {
        Value::Float(content)
    }
}

impl From<F64Bits> for Value {
    ghost from_gives = { λ content value. value ≡ kind.Double content };

    fn from(content: F64Bits) -> Value {
        Value::Double(content)
    }
}

impl From<Dec32> for Value {
    ghost from_gives = { λ content value. value ≡ kind.Decimal32 content };

    fn from(content: Dec32) -> Value {
        Value::Decimal32(content)
    }
}

impl From<Dec64> for Value {
    ghost from_gives = { λ content value. value ≡ kind.Decimal64 content };

    fn from(content: Dec64) -> Value {
        Value::Decimal64(content)
    }
}

impl From<Dec128> for Value {
    ghost from_gives = { λ content value. value ≡ kind.Decimal128 content };

    fn from(content: Dec128) -> Value {
        Value::Decimal128(content)
    }
}

impl From<char> for Value {
    ghost from_gives = { λ content value. value ≡ kind.Char content };

    fn from(content: char) -> Value {
        Value::Char(content)
    }
}

impl From<Timestamp> for Value {
    ghost from_gives = { λ content value. value ≡ kind.Timestamp content };

    fn from(content: Timestamp) -> Value {
        Value::Timestamp(content)
    }
}

impl From<Uuid> for Value {
    ghost from_gives = { λ content value. value ≡ kind.Uuid content };

    fn from(content: Uuid) -> Value {
        Value::Uuid(content)
    }
}

impl From<ByteBuf> for Value {
    ghost from_gives = { λ content value. value ≡ kind.Binary content };

    fn from(content: ByteBuf) -> Value {
        Value::Binary(content)
    }
}

impl From<String> for Value {
    ghost from_gives = { λ content value. value ≡ kind.String content };

    fn from(content: String) -> Value {
        Value::String(content)
    }
}

impl From<Symbol> for Value {
    ghost from_gives = { λ content value. value ≡ kind.Symbol content };

    fn from(content: Symbol) -> Value {
        Value::Symbol(content)
    }
}

/// Returns a `Float` of the number's bits. Each NaN gives the bits 7FC00000.
///
/// # Example
/// 1.5 gives a `Float` that is encoded as `723fc00000`.
impl From<f32> for Value {
    ghost from_gives = { λ number value.
        IsSomeAnd (float_in value) (λ bits. f32_bits bits ≡ to_bits binary32 number) };

    fn from(number: f32) -> Value {
        Value::Float(F32Bits::from(number))
    }
}

/// Returns a `Double` of the number's bits. Each NaN gives the bits 7FF8000000000000.
///
/// # Example
/// 1.5 gives a `Double` that is encoded as `823ff8000000000000`.
impl From<f64> for Value {
    ghost from_gives = { λ number value.
        IsSomeAnd (double_in value) (λ bits. f64_bits bits ≡ to_bits binary64 number) };

    fn from(number: f64) -> Value {
        Value::Double(F64Bits::from(number))
    }
}
