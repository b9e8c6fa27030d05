//! Reads scalars and descriptors.

ghost use Rattle.std.specs.Prelude.{◌≡◌, IfOk, IfErr, Some, None, true, false, string_bytes};
ghost use Rattle.std.specs.Str.{is_utf8};
ghost use Rattle.amqp_data.specs.declared.error.Error.TheVariants.{InvalidValue, OutOfMemory};
ghost use Rattle.amqp_data.specs.declared.error.Error.TheVariants.{TooLong};
ghost use Rattle.amqp_ser.specs.Carried.{descriptor_content};
ghost use Rattle.amqp_ser.specs.Tree.{scalar};
ghost use Rattle.amqp_value.specs.TreeOf.{tree_of};
ghost use Rattle.amqp_decode.specs.Scalars.{and_then, single, exact, truth, character, scalar_in};
ghost use Rattle.amqp_decode.specs.Scalars.{scalar_tree};
ghost use Rattle.amqp_decode.specs.Parsed.{tree_descriptor, descriptor_at};
ghost use Rattle.amqp_decode.specs.Faults.{FailsBy, fault_of_descriptor};

use crate::payload::{primitive_code, read_payload};
use amqp_data::{
    ByteBuf, Dec32, Dec64, Dec128, Descriptor, EncodingCodes, Error, F32Bits, F64Bits, Symbol,
    Timestamp, Uuid,
};
use amqp_value::Value;
use std::alloc::Global;

// Returns the only byte of the content.
#[inline(always)]
fn byte_of(content: &[u8]) -> Result<u8, Error>
    ensures ok { IfOk result (λ b. single content.now ≡ Some b) }
    ensures err { IfErr result (λ e. single content.now ≡ None) }
    ensures kind { IfErr result (λ e. ¬ (e ≡ TooLong)) }
    ensures fault { FailsBy InvalidValue result }
{
    match content {
        [byte] => Ok(*byte),
        _ => Err(Error::InvalidValue),
    }
}

// Returns the content as an array of `N` bytes.
#[inline(always)]
fn bytes_of<const N: usize>(content: &[u8]) -> Result<[u8; N], Error>
    ensures ok { IfOk result (λ b. exact N content.now ≡ Some b) }
    ensures err { IfErr result (λ e. exact N content.now ≡ None) }
    ensures kind { IfErr result (λ e. ¬ (e ≡ TooLong)) }
    ensures fault { FailsBy InvalidValue result }
{
    match <[u8; N]>::try_from(content) {
        Ok(bytes) => Ok(bytes),
        Err(_other_length) => Err(Error::InvalidValue),
    }
}

/// Returns the content as a text, which must be UTF-8.
///
/// # Errors
/// Returns `InvalidValue` if it is not, and `OutOfMemory` if an allocation fails.
pub(crate) fn text_of(alloc: Global, content: &[u8]) -> Result<String, Error>
    ensures ok { IfOk result (λ s. string_bytes s ≡ content.now) }
    ensures valid { IfOk result (λ s. is_utf8 content.now ≡ true) }
    ensures err { IfErr result (λ e. ¬ (e ≡ OutOfMemory) → is_utf8 content.now ≡ false) }
    ensures kind { IfErr result (λ e. ¬ (e ≡ TooLong)) }
    ensures fault { FailsBy InvalidValue result }
{
    match std::str::from_utf8(content) {
        Ok(text) => Ok(String::from_str(alloc, text)?),
        Err(_) => Err(Error::InvalidValue),
    }
}

/// Returns the content as a binary.
///
/// # Errors
/// Returns `OutOfMemory` if an allocation fails.
#[inline(always)]
pub(crate) fn binary_of(alloc: Global, content: &[u8]) -> Result<Vec<u8>, Error>
    ensures ok { IfOk result (λ v. v.items ≡ content.now) }
    ensures err { IfErr result (λ e. e ≡ OutOfMemory) }
{
    let mut bytes = Vec::new(alloc);
    bytes.extend_from_slice(content)?;
    Ok(bytes)
}

// Converts 00 or 01 to a boolean.
#[inline(always)]
fn truth_of(byte: u8) -> Result<Value, Error>
    ensures ok { IfOk result (λ v. and_then (truth byte) scalar_tree ≡ Some (tree_of v)) }
    ensures err { IfErr result (λ e. truth byte ≡ None) }
    ensures kind { IfErr result (λ e. ¬ (e ≡ TooLong)) }
    ensures fault { FailsBy InvalidValue result }
{
    match byte {
        0 => Ok(Value::Bool(false)),
        1 => Ok(Value::Bool(true)),
        _ => Err(Error::InvalidValue),
    }
}

// Converts a Unicode scalar value to a character.
#[inline(always)]
fn character_of(number: u32) -> Result<Value, Error>
    ensures ok { IfOk result (λ v. and_then (character number) scalar_tree ≡ Some (tree_of v)) }
    ensures err { IfErr result (λ e. character number ≡ None) }
    ensures kind { IfErr result (λ e. ¬ (e ≡ TooLong)) }
    ensures fault { FailsBy InvalidValue result }
{
    match char::from_u32(number) {
        Some(character) => Ok(Value::Char(character)),
        None => Err(Error::InvalidValue),
    }
}

/// Reads a scalar from the content of a payload of this code.
///
/// # Errors
/// Returns `InvalidValue` if the code is not that of a scalar, and if the content is not a valid
/// boolean, character or text, or has another length than a scalar of fixed width. Returns
/// `OutOfMemory` if an allocation fails.
#[tactic(auto, unfolding(crate::specs::Scalars::scalar_in))]
#[inline(always)]
pub fn read_scalar(alloc: Global, code: EncodingCodes, content: &[u8]) -> Result<Value, Error>
    ensures ok { IfOk result (λ v.
        and_then (scalar_in code content.now) scalar_tree ≡ Some (tree_of v)) }
    ensures err { IfErr result (λ e. ¬ (e ≡ OutOfMemory) → scalar_in code content.now ≡ None) }
    ensures kind { IfErr result (λ e. ¬ (e ≡ TooLong)) }
    ensures fault { FailsBy InvalidValue result }
{
    match code {
        EncodingCodes::Null => Ok(Value::Null),
        EncodingCodes::BooleanTrue => Ok(Value::Bool(true)),
        EncodingCodes::BooleanFalse => Ok(Value::Bool(false)),
        EncodingCodes::Uint0 => Ok(Value::Uint(0)),
        EncodingCodes::Ulong0 => Ok(Value::Ulong(0)),
        EncodingCodes::Ubyte => Ok(Value::Ubyte(byte_of(content)?)),
        EncodingCodes::Byte => Ok(Value::Byte(byte_of(content)?.cast_signed())),
        EncodingCodes::SmallUint => Ok(Value::Uint(u32::from(byte_of(content)?))),
        EncodingCodes::SmallUlong => Ok(Value::Ulong(u64::from(byte_of(content)?))),
        EncodingCodes::SmallInt => Ok(Value::Int(i32::from(byte_of(content)?.cast_signed()))),
        EncodingCodes::SmallLong => Ok(Value::Long(i64::from(byte_of(content)?.cast_signed()))),
        EncodingCodes::Boolean => truth_of(byte_of(content)?),
        EncodingCodes::Ushort => Ok(Value::Ushort(u16::from_be_bytes(bytes_of(content)?))),
        EncodingCodes::Short => Ok(Value::Short(i16::from_be_bytes(bytes_of(content)?))),
        EncodingCodes::Uint => Ok(Value::Uint(u32::from_be_bytes(bytes_of(content)?))),
        EncodingCodes::Int => Ok(Value::Int(i32::from_be_bytes(bytes_of(content)?))),
        EncodingCodes::Float => {
            Ok(Value::Float(F32Bits::from(u32::from_be_bytes(bytes_of(content)?))))
        }
        EncodingCodes::Char => character_of(u32::from_be_bytes(bytes_of(content)?)),
        EncodingCodes::Decimal32 => {
            let bytes: [u8; 4] = bytes_of(content)?;
            Ok(Value::Decimal32(Dec32::from(bytes)))
        }
        EncodingCodes::Ulong => Ok(Value::Ulong(u64::from_be_bytes(bytes_of(content)?))),
        EncodingCodes::Long => Ok(Value::Long(i64::from_be_bytes(bytes_of(content)?))),
        EncodingCodes::Double => {
            Ok(Value::Double(F64Bits::from(u64::from_be_bytes(bytes_of(content)?))))
        }
        EncodingCodes::Timestamp => {
            Ok(Value::Timestamp(Timestamp::from(i64::from_be_bytes(bytes_of(content)?))))
        }
        EncodingCodes::Decimal64 => {
            let bytes: [u8; 8] = bytes_of(content)?;
            Ok(Value::Decimal64(Dec64::from(bytes)))
        }
        EncodingCodes::Decimal128 => {
            let bytes: [u8; 16] = bytes_of(content)?;
            Ok(Value::Decimal128(Dec128::from(bytes)))
        }
        EncodingCodes::Uuid => {
            let bytes: [u8; 16] = bytes_of(content)?;
            Ok(Value::Uuid(Uuid::from(bytes)))
        }
        EncodingCodes::Vbin8 | EncodingCodes::Vbin32 => {
            Ok(Value::Binary(ByteBuf::from(binary_of(alloc, content)?)))
        }
        EncodingCodes::Str8 | EncodingCodes::Str32 => Ok(Value::String(text_of(alloc, content)?)),
        EncodingCodes::Sym8 | EncodingCodes::Sym32 => {
            Ok(Value::Symbol(Symbol::from(text_of(alloc, content)?)))
        }
        _ => Err(Error::InvalidValue),
    }
}

// Converts a ulong or a symbol to a descriptor.
fn into_descriptor(value: Value) -> Result<Descriptor, Error>
    ensures ok { IfOk result (λ d. tree_descriptor (tree_of value) ≡ Some (descriptor_content d)) }
    ensures err { IfErr result (λ e. tree_descriptor (tree_of value) ≡ None) }
    ensures kind { IfErr result (λ e. ¬ (e ≡ TooLong)) }
    ensures fault { FailsBy InvalidValue result }
{
    match value {
        Value::Ulong(number) => Ok(Descriptor::Code(number)),
        Value::Symbol(name) => Ok(Descriptor::Name(name)),
        _ => Err(Error::InvalidValue),
    }
}

/// Reads the descriptor at the start of `bytes`, and returns it with the bytes after it.
///
/// # Errors
/// Returns `InvalidValue` if the scalar is neither a ulong nor a symbol, and the errors of
/// `primitive_code`, `read_payload` and `read_scalar`.
#[tactic(auto, unfolding(crate::specs::Parsed::descriptor_at))]
pub fn read_descriptor(alloc: Global, bytes: &[u8]) -> Result<(Descriptor, &[u8]), Error>
    ensures ok { IfOk result (λ r.
        descriptor_at bytes.now ≡ Some (descriptor_content r.0, r.1.now)) }
    ensures err { IfErr result (λ e. ¬ (e ≡ OutOfMemory) → descriptor_at bytes.now ≡ None) }
    ensures kind { IfErr result (λ e. ¬ (e ≡ TooLong)) }
    ensures fault { FailsBy (fault_of_descriptor bytes.now) result }
{
    let Some((byte, bytes)) = bytes.split_first() else {
        return Err(Error::UnexpectedEof);
    };
    let code = primitive_code(*byte)?;
    let (content, rest) = read_payload(code, bytes)?;
    let descriptor = into_descriptor(read_scalar(alloc, code, content)?)?;
    Ok((descriptor, rest))
}
