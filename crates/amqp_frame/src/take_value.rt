//! Reads the bytes of the next encoded value into a buffer.

ghost use Rattle.std.specs.Prelude.{◌≡◌, ◌≤◌, ◌<◌, ◌-◌, ◌^◌, ◌+◌, [], ◌∷◌, ◌++◌, IfOk, OnOk, IfErr};
ghost use Rattle.std.specs.Prelude.{IfSome, IsErrOf, IsOkUnless, Some, length};
ghost use Rattle.std.specs.Io.KnownBytes.{Consumes};
ghost use Rattle.amqp_frame.specs.Code.{category, payload_len};
ghost use Rattle.amqp_frame.specs.EncodedValue.{IsEncodedValue};
ghost use Rattle.amqp_frame.specs.Reader.{RunsOut};
ghost use Rattle.amqp_frame.specs.Taking.{RefusesEncodedValue, LimitedRefuses, Moves, PassesLimit};
ghost use Rattle.amqp_frame.specs.Taking.{RefusesWithin};

use crate::code::{Category, body_len_of, category_of, is_primitive, size_width_of};
use crate::read::Read;
use amqp_data::Error;
use bytes::Bytes;
use std::alloc::Global;

// The maximum number of bytes requested at once. It bounds the memory allocated for a declared size
// that exceeds the input.
const PIECE: usize = 4096;

// The maximum number of bytes that are copied to a new, larger block. Enlarging the block takes
// more instructions than copying so few bytes.
const COPIED: usize = 24;

/// Reads the next encoded value, one format code at a time, and counts the values still expected.
///
/// # Encoding
///
/// AMQP 1.0 part 1, section 1.2.
///
/// # Errors
///
/// Returns [`Error::InvalidFormatCode`] at an invalid code, which is the last byte consumed.
/// Returns [`Error::UnexpectedEof`] if the input ends before the value does. No bytes then remain.
/// Returns [`Error::TooLong`] if the value exceeds `limit` bytes, before more bytes are read.
/// Returns [`Error::Io`] if a read fails, and [`Error::OutOfMemory`] if an allocation fails.
///
/// # Example
///
/// From `500140`, reads `5001`, and `40` remains. With the limit 1, the value is too long, and
/// `0140` remains.
#[inline(always)]
pub fn take_value<R: Read>(alloc: Global, reader: &mut R, limit: usize) -> Result<Bytes, Error>
    ensures encoded { IfOk result (λ bytes.
        IsEncodedValue bytes × Consumes (R.left reader.old) (R.left reader.new) bytes) }
    ensures within { IfOk result (λ bytes. length bytes ≤ limit) }
    ensures refused { IfErr result (RefusesWithin limit (R.left reader.old) (R.left reader.new)
        (R.failures reader.old) (R.failures reader.new)) }
    ensures bound { IsErrOf result Error.TooLong → limit < 2 ^ 64 - 1 }
    ensures count { R.failures reader.old ≤ R.failures reader.new }
{
    let mut collected = Vec::new(alloc);
    let mut open: u64 = 1;
    while open > 0 {
        // With the limit `usize::MAX`, comparisons in this form are left out.
        if collected.len() + 1 > limit {
            return Err(Error::TooLong);
        }
        let code = next_code(reader)?;
        if code == 0 {
            push_zero(&mut collected)?;
            open += 1;
        } else {
            if !is_primitive(code) {
                return Err(Error::InvalidFormatCode);
            }
            take_primitive(reader, &mut collected, code, limit)?;
            open -= 1;
        }
    }
    let bytes = Bytes::from_vec(collected)?;
    Ok(bytes)
}

// Reads the next format code.
fn next_code<R: Read>(reader: &mut R) -> Result<u8, Error>
    ensures ok { IfOk result (λ byte.
        Consumes (R.left reader.old) (R.left reader.new) (byte ∷ [])) }
    ensures refused { IfErr result (RefusesEncodedValue (R.left reader.old) (R.left reader.new)
        (R.failures reader.old) (R.failures reader.new)
        (RunsOut (R.left reader.old) (R.left reader.new) 1) ⊥) }
    ensures count { R.failures reader.old ≤ R.failures reader.new }
{
    match reader.next()? {
        Some(byte) => Ok(byte),
        None => Err(Error::UnexpectedEof),
    }
}

// Appends the code 00.
fn push_zero(collected: &mut Vec<u8>) -> Result<(), Error>
    ensures ok { OnOk result (collected.new.items ≡ collected.old.items ++ 0 ∷ []) }
    ensures memory { IsOkUnless result Error.OutOfMemory }
{
    collected.push(0)?;
    Ok(())
}

// Reads the payload of this code and appends the code and the payload to `collected`, which then
// has at most `limit` bytes.
#[inline(always)]
fn take_primitive<R: Read>(
    reader: &mut R,
    collected: &mut Vec<u8>,
    code: u8,
    limit: usize,
) -> Result<(), Error>
    requires { length collected.now.items < limit }
    ensures ok { OnOk result (Moves (R.left reader.old) (R.left reader.new)
        (collected.old.items ++ code ∷ []) collected.new.items
        (λ bytes. length bytes ≡ payload_len (category code) bytes)) }
    ensures within { OnOk result (length collected.new.items ≤ limit) }
    ensures refused { IfErr result (LimitedRefuses
        (PassesLimit limit (length collected.old.items + 1) (category code)
        (R.left reader.old) (R.left reader.new))
        (R.left reader.old) (R.left reader.new)
        (R.failures reader.old) (R.failures reader.new)
        (IfSome (R.left reader.old) (λ s.
        (length s < payload_len (category code) s) × (R.left reader.new ≡ Some []))) ⊥) }
    ensures bound { IsErrOf result Error.TooLong → limit < 2 ^ 64 - 1 }
    ensures count { R.failures reader.old ≤ R.failures reader.new }
{
    let category = category_of(code);
    if let Category::Fixed(0) = category {
        return push_code(collected, code);
    }
    let mut size = [0; 4];
    let size = &mut size[..size_width_of(category)];
    let start = collected.len() + 1 + size.len();
    if start > limit {
        return Err(Error::TooLong);
    }
    read_size(reader, size)?;
    let body = body_len_of(category, size);
    if start + body as usize > limit {
        return Err(Error::TooLong);
    }
    push_header(collected, code, size, body)?;
    take_bytes(reader, collected, body)
}

// Reads the size at the start of a payload.
fn read_size<R: Read>(reader: &mut R, size: &mut [u8]) -> Result<(), Error>
    ensures ok { OnOk result (Consumes (R.left reader.old) (R.left reader.new) size.new) }
    ensures refused { IfErr result (RefusesEncodedValue (R.left reader.old) (R.left reader.new)
        (R.failures reader.old) (R.failures reader.new)
        (RunsOut (R.left reader.old) (R.left reader.new) (length size.old)) ⊥) }
    ensures count { R.failures reader.old ≤ R.failures reader.new }
{
    if size.is_empty() {
        return Ok(());
    }
    reader.read_exact(size)
}

// Appends a code and the size of its payload, with room for the first bytes of its body.
fn push_header(collected: &mut Vec<u8>, code: u8, size: &[u8], body: u32) -> Result<(), Error>
    requires { length size.now ≤ 4 }
    ensures ok { OnOk result
        (collected.new.items ≡ (collected.old.items ++ code ∷ []) ++ size.now) }
    ensures memory { IsOkUnless result Error.OutOfMemory }
{
    let room = (body as usize).min(PIECE);
    reserve_bytes(collected, 1 + size.len() + room)?;
    push_code(collected, code)?;
    push_size(collected, size)
}

// Appends a code.
fn push_code(collected: &mut Vec<u8>, code: u8) -> Result<(), Error>
    ensures ok { OnOk result (collected.new.items ≡ collected.old.items ++ code ∷ []) }
    ensures memory { IsOkUnless result Error.OutOfMemory }
{
    collected.push(code)?;
    Ok(())
}

// Appends the size of a payload, if it has one.
fn push_size(collected: &mut Vec<u8>, size: &[u8]) -> Result<(), Error>
    ensures ok { OnOk result (collected.new.items ≡ collected.old.items ++ size.now) }
    ensures memory { IsOkUnless result Error.OutOfMemory }
{
    if size.is_empty() {
        return Ok(());
    }
    collected.extend_from_slice(size)?;
    Ok(())
}

// Makes room for `count` more bytes, and for no others in the first block. While few bytes are
// held, a count of at least twice the capacity takes a new block of exact size, and a smaller one
// doubles the block, so that many small values are not copied one by one.
fn reserve_bytes(collected: &mut Vec<u8>, count: usize) -> Result<(), Error>
    requires { count ≤ 4101 }
    ensures items { collected.new.items ≡ collected.old.items }
    ensures memory { IsOkUnless result Error.OutOfMemory }
{
    let len = collected.len();
    if count <= collected.capacity() - len {
        return Ok(());
    }
    if len == 0 {
        *collected = Vec::with_capacity(*collected.allocator(), count)?;
        return Ok(());
    }
    if len > COPIED || count / 2 < collected.capacity() {
        collected.reserve(count)?;
        return Ok(());
    }
    let mut block = Vec::with_capacity(*collected.allocator(), len + count)?;
    block.extend_from_slice(collected)?;
    *collected = block;
    Ok(())
}

// Reads `count` bytes, one piece at a time, and appends them to `collected`.
fn take_bytes<R: Read>(reader: &mut R, collected: &mut Vec<u8>, count: u32) -> Result<(), Error>
    ensures ok { OnOk result (Moves (R.left reader.old) (R.left reader.new)
        collected.old.items collected.new.items
        (λ bytes. length bytes ≡ count)) }
    ensures refused { IfErr result (RefusesEncodedValue (R.left reader.old) (R.left reader.new)
        (R.failures reader.old) (R.failures reader.new)
        (RunsOut (R.left reader.old) (R.left reader.new) count) ⊥) }
    ensures count { R.failures reader.old ≤ R.failures reader.new }
{
    let mut left = count as usize;
    while left > 0 {
        let len = left.min(PIECE);
        take_piece(reader, collected, len)?;
        left -= len;
    }
    Ok(())
}

// Reads `len` bytes at once and appends them to `collected`.
fn take_piece<R: Read>(reader: &mut R, collected: &mut Vec<u8>, len: usize) -> Result<(), Error>
    requires { len ≤ 4096 }
    ensures ok { OnOk result (Moves (R.left reader.old) (R.left reader.new)
        collected.old.items collected.new.items
        (λ bytes. length bytes ≡ len)) }
    ensures refused { IfErr result (RefusesEncodedValue (R.left reader.old) (R.left reader.new)
        (R.failures reader.old) (R.failures reader.new)
        (RunsOut (R.left reader.old) (R.left reader.new) len) ⊥) }
    ensures count { R.failures reader.old ≤ R.failures reader.new }
{
    let at = collected.len();
    collected.resize(at + len, 0)?;
    reader.read_exact(&mut collected[at..])?;
    Ok(())
}
