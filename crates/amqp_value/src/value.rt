//! A value whose type is known only at run time (AMQP 1.0 part 1, section 1.6).

ghost use Rattle.std.specs.Prelude.{◌≡◌};
ghost use Rattle.amqp_value.specs.declared.value.Value.TheVariants.{Null};

use amqp_data::{
    Array, ByteBuf, Dec32, Dec64, Dec128, Described, F32Bits, F64Bits, OrderedMap, Symbol,
    Timestamp, Uuid,
};

/// A value of any AMQP type.
///
/// Equality, order and hash compare the variant first, in the order of declaration, and then the
/// content.
///
/// # Encoding
/// See each variant. The last of its format codes is the one that it has in an array. A described
/// value cannot be an element of an array.
///
/// # Example
/// The list of the string `a` and null is encoded as `c00502a1016140`.
#[derive(Debug, PartialEq, Eq, PartialOrd, Ord, Hash, Clone, Drop)]
pub enum Value {
    /// A value with a descriptor: `00`, the descriptor and the value (sections 1.1.2 and 1.2).
    Described(Box<Described<Value>>),
    /// Null, the default: `40`, empty (section 1.6.1).
    Null,
    /// A boolean: `41` and `42`, empty, or `56`, fixed width (section 1.6.2).
    Bool(bool),
    /// An unsigned 8-bit integer: `50`, fixed width (section 1.6.3).
    Ubyte(u8),
    /// An unsigned 16-bit integer: `60`, fixed width (section 1.6.4).
    Ushort(u16),
    /// An unsigned 32-bit integer: `43`, empty, or `52` and `70`, fixed width (section 1.6.5).
    Uint(u32),
    /// An unsigned 64-bit integer: `44`, empty, or `53` and `80`, fixed width (section 1.6.6).
    Ulong(u64),
    /// A signed 8-bit integer: `51`, fixed width (section 1.6.7).
    Byte(i8),
    /// A signed 16-bit integer: `61`, fixed width (section 1.6.8).
    Short(i16),
    /// A signed 32-bit integer: `54` and `71`, fixed width (section 1.6.9).
    Int(i32),
    /// A signed 64-bit integer: `55` and `81`, fixed width (section 1.6.10).
    Long(i64),
    /// The bits of a 32-bit binary floating-point number: `72`, fixed width (section 1.6.11).
    Float(F32Bits),
    /// The bits of a 64-bit binary floating-point number: `82`, fixed width (section 1.6.12).
    Double(F64Bits),
    /// A 32-bit decimal floating-point number: `74`, fixed width (section 1.6.13).
    Decimal32(Dec32),
    /// A 64-bit decimal floating-point number: `84`, fixed width (section 1.6.14).
    Decimal64(Dec64),
    /// A 128-bit decimal floating-point number: `94`, fixed width (section 1.6.15).
    Decimal128(Dec128),
    /// A Unicode scalar value: `73`, fixed width (section 1.6.16).
    Char(char),
    /// A point in time, in milliseconds since the Unix epoch: `83`, fixed width (section 1.6.17).
    Timestamp(Timestamp),
    /// A universally unique identifier: `98`, fixed width (section 1.6.18).
    Uuid(Uuid),
    /// A byte sequence: `a0` and `b0`, variable width (section 1.6.19).
    Binary(ByteBuf),
    /// A Unicode string: `a1` and `b1`, variable width (section 1.6.20).
    String(String),
    /// A symbolic name: `a3` and `b3`, variable width (section 1.6.21).
    Symbol(Symbol),
    /// A sequence of values: `45`, empty, or `c0` and `d0`, compound (section 1.6.22).
    List(Vec<Value>),
    /// A sequence of key-value pairs: `c1` and `d1`, compound (section 1.6.23).
    Map(OrderedMap<Value, Value>),
    /// A sequence of values with one constructor: `e0` and `f0`, array (section 1.6.24).
    Array(Array<Value>),
}

impl Default for Value {
    ghost is_default = { λ v. v ≡ Null };

    fn default() -> Value {
        Value::Null
    }
}
