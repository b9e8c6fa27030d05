//! The ranges of scalars, which the contracts of a measured value state.
//!
//! Each function only reads. Nothing uses what is read, so the compiler removes the calls.

ghost use Rattle.std.specs.Str.{IsUtf8};
ghost use Rattle.amqp_ser.specs.Ranged.{AreBytes};
ghost use Rattle.amqp_value.specs.Measured.{HasRange};
ghost use Rattle.amqp_value.specs.TreeOf.{tree_of};

use crate::Value;

/// Reads a scalar. A compound is not read. This is not `inline(always)`: the compiler finds that
/// the function has no effect and removes its calls, and a `match` that is copied into the callers
/// would change their code.
pub(crate) fn read_scalar(value: &Value)
    ensures { HasRange (tree_of value.now) }
{
    match value {
        Value::Ubyte(v) => read(*v),
        Value::Byte(v) => read(*v),
        Value::Ushort(v) => read(*v),
        Value::Short(v) => read(*v),
        Value::Uint(v) => read(*v),
        Value::Int(v) => read(*v),
        Value::Ulong(v) => read(*v),
        Value::Long(v) => read(*v),
        Value::Char(v) => read(*v),
        Value::Float(v) => read(v.into_inner()),
        Value::Double(v) => read(v.into_inner()),
        Value::Timestamp(v) => read(v.milliseconds()),
        Value::Decimal32(v) => read_bytes(v.as_inner()),
        Value::Decimal64(v) => read_bytes(v.as_inner()),
        Value::Decimal128(v) => read_bytes(v.as_inner()),
        Value::Uuid(v) => read_bytes(v.as_inner()),
        Value::Binary(v) => read_bytes(v.as_inner()),
        Value::String(v) => read_text(v),
        Value::Symbol(v) => read_text(v.as_inner()),
        Value::Null => {}
        Value::Bool(_) => {}
        Value::Described(_) => {}
        Value::List(_) => {}
        Value::Map(_) => {}
        Value::Array(_) => {}
    }
}

#[inline(always)]
fn read<T: Copy + Drop>(_number: T) {}

#[inline(always)]
fn read_bytes(bytes: &[u8])
    ensures { AreBytes bytes.now }
{}

/// Reads a text.
#[inline(always)]
pub(crate) fn read_text(text: &str)
    ensures { IsUtf8 text.now }
{}
