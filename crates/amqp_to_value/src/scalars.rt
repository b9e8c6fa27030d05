//! Conversions of scalars to values.

ghost use Rattle.std.specs.Prelude.{◌≡◌, Some, None, IfErr, MatchResult};
ghost use Rattle.amqp_ser.specs.Carried.{descriptor_content};
ghost use Rattle.amqp_ser.specs.Composites.{descriptor_of};
ghost use Rattle.amqp_ser.specs.Tree.{scalar, binary, string};
ghost use Rattle.amqp_ser.specs.Fixed.{fixed_scalar};
ghost use Rattle.amqp_value.specs.TreeOf.{tree_of};
ghost use Rattle.amqp_to_value.specs.HeldImages.{IsOpenedImage};
ghost use Rattle.amqp_to_value.specs.ImageOf.{Answers};
ghost use Rattle.amqp_ser.specs.Meant.{meant};

use crate::lazy::lazy_value;
use crate::value_error::ValueError;
use amqp_data::{
    ByteBuf, Dec32, Dec64, Dec128, Descriptor, F32Bits, F64Bits, Symbol, Timestamp, Uuid,
};
use amqp_ser::{Fixed, Marker, Pending};
use amqp_value::Value;
use std::alloc::Global;

/// Returns the value of a scalar of fixed width.
///
/// # Example
/// `Fixed::Bool(true)` gives `Value::Bool(true)`.
#[inline(always)]
pub fn fixed_value(fixed: Fixed) -> Value
    ensures { tree_of result ≡ scalar (fixed_scalar fixed) }
{
    match fixed {
        Fixed::Null => Value::Null,
        Fixed::Bool(v) => Value::Bool(v),
        Fixed::Ubyte(v) => Value::Ubyte(v),
        Fixed::Ushort(v) => Value::Ushort(v),
        Fixed::Uint(v) => Value::Uint(v),
        Fixed::Ulong(v) => Value::Ulong(v),
        Fixed::Byte(v) => Value::Byte(v),
        Fixed::Short(v) => Value::Short(v),
        Fixed::Int(v) => Value::Int(v),
        Fixed::Long(v) => Value::Long(v),
        Fixed::Float(v) => Value::Float(F32Bits::from(v)),
        Fixed::Double(v) => Value::Double(F64Bits::from(v)),
        Fixed::Char(v) => Value::Char(v),
    }
}

/// Returns the value of a scalar of fixed width under a marker.
///
/// # Errors
/// Returns `InvalidValue` if the marker does not permit the scalar.
///
/// # Example
/// Under `Marker::Timestamp`, the long 13 gives `Value::Timestamp` of 13 milliseconds, and `true`
/// gives `InvalidValue`.
#[inline(always)]
pub fn marked_fixed(pending: Pending, fixed: Fixed) -> Result<Value, ValueError>
    ensures image { IsOpenedImage (meant pending (Some (scalar (fixed_scalar fixed)))) result }
    ensures invalid { IfErr result (λ e. e ≡ ValueError.InvalidValue) }
{
    match (pending, fixed) {
        (Pending::Marker(Marker::Other), fixed) => Ok(fixed_value(fixed)),
        (Pending::Marker(Marker::Timestamp), Fixed::Long(v)) => Ok(Value::Timestamp(Timestamp::from(
            v,
        ))),
        (Pending::Descriptor, Fixed::Ulong(v)) => Ok(Value::Ulong(v)),
        _ => Err(ValueError::InvalidValue),
    }
}

/// Returns the value of a text under a marker.
///
/// # Errors
/// Returns `InvalidValue` if the marker does not permit a text, and `OutOfMemory` if an allocation
/// fails.
///
/// # Example
/// `a` gives a `Value::Symbol` under `Marker::Symbol`, and a `Value::String` under `Marker::Other`.
#[inline(always)]
pub fn marked_text(alloc: Global, pending: Pending, text: &str) -> Result<Value, ValueError>
    ensures image { IsOpenedImage (meant pending (Some (scalar (string text.now)))) result }
    ensures invalid { ¬ (pending ≡ Pending.Marker Marker.Other) →
        ¬ (pending ≡ Pending.Marker Marker.Symbol) →
        IfErr result (λ e. e ≡ ValueError.InvalidValue) }
{
    match pending {
        Pending::Marker(Marker::Other) => Ok(Value::String(String::from_str(alloc, text)?)),
        Pending::Marker(Marker::Symbol) => Ok(Value::Symbol(Symbol::from(String::from_str(
            alloc, text,
        )?))),
        _ => Err(ValueError::InvalidValue),
    }
}

/// Returns the value of a binary under a marker.
///
/// # Errors
/// Returns `InvalidValue` if the marker does not permit a binary, or one of this length, and
/// `OutOfMemory` if an allocation fails. Under `Marker::Lazy`, returns the errors of `lazy_value`.
///
/// # Example
/// Under `Marker::Decimal32`, 4 bytes give a `Value::Decimal32` of them, and 5 give `InvalidValue`.
#[inline(never)]
pub fn marked_bytes(alloc: Global, pending: Pending, bytes: &[u8]) -> Result<Value, ValueError>
    ensures image { Answers (meant pending (Some (scalar (binary bytes.now)))) result }
    ensures not_lazy { ¬ (pending ≡ Pending.Marker Marker.Lazy) →
        IsOpenedImage (meant pending (Some (scalar (binary bytes.now)))) result }
{
    match pending {
        Pending::Marker(Marker::Other) => Ok(Value::Binary(ByteBuf::from(bytes.to_vec(alloc)?))),
        Pending::Marker(Marker::Decimal32) => match Dec32::try_from(bytes) {
            Ok(v) => Ok(Value::Decimal32(v)),
            Err(_) => Err(ValueError::InvalidValue),
        },
        Pending::Marker(Marker::Decimal64) => match Dec64::try_from(bytes) {
            Ok(v) => Ok(Value::Decimal64(v)),
            Err(_) => Err(ValueError::InvalidValue),
        },
        Pending::Marker(Marker::Decimal128) => match Dec128::try_from(bytes) {
            Ok(v) => Ok(Value::Decimal128(v)),
            Err(_) => Err(ValueError::InvalidValue),
        },
        Pending::Marker(Marker::Uuid) => match Uuid::try_from(bytes) {
            Ok(v) => Ok(Value::Uuid(v)),
            Err(_) => Err(ValueError::InvalidValue),
        },
        Pending::Marker(Marker::Lazy) => lazy_value(alloc, bytes),
        _ => Err(ValueError::InvalidValue),
    }
}

/// Converts a value to a descriptor: a symbol to a name, and a ulong to a code.
///
/// # Errors
/// Returns `InvalidValue` if the value is neither.
///
/// # Example
/// The ulong 1 gives `Descriptor::Code(1)`, and the uint 1 gives `InvalidValue`.
#[inline(never)]
pub fn descriptor_from(value: Value) -> Result<Descriptor, ValueError>
    ensures { MatchResult result
        (λ d. descriptor_of (Some (tree_of value)) ≡ Some (descriptor_content d))
        (λ e. (descriptor_of (Some (tree_of value)) ≡ None) × (e ≡ ValueError.InvalidValue)) }
{
    match value {
        Value::Symbol(name) => Ok(Descriptor::Name(name)),
        Value::Ulong(code) => Ok(Descriptor::Code(code)),
        _ => Err(ValueError::InvalidValue),
    }
}
