//! Reads an encoded value, recursively, from its first byte on.

ghost use Rattle.std.specs.Prelude.{◌≡◌, [], ◌∷◌, ◌++◌, ◌<◌, ℕ, IfOk, OnOk, IfErr, Some, None, map};
ghost use Rattle.std.specs.Prelude.{vec_len, vec_capacity};
ghost use Rattle.amqp_data.specs.declared.error.Error.TheVariants.{OutOfMemory, TooLong};
ghost use Rattle.amqp_value.specs.TreeOf.{tree_of};
ghost use Rattle.amqp_value.specs.declared.value.Value.{Value};
ghost use Rattle.amqp_decode.specs.Scalars.{and_then};
ghost use Rattle.amqp_decode.specs.WithoutBytes.{Spends, content_around, content_without_bytes};
ghost use Rattle.amqp_decode.specs.WithoutBytes.{elements_without_bytes, value_around, in_array};
ghost use Rattle.amqp_decode.specs.WithoutBytes.{in_payload, sum_of};
ghost use Rattle.amqp_decode.specs.Parsed.{all, gather, parse, parse_content, payload_in};
ghost use Rattle.amqp_decode.specs.Parsed.{content_of, value_in_bytes, parse_list, parse_map};
ghost use Rattle.amqp_decode.specs.Parsed.{parse_array};
ghost use Rattle.amqp_decode.specs.Faults.{FailsBy, content_fault, fault_around, fault_in};
ghost use Rattle.amqp_decode.specs.Faults.{fault_in_item, fault_of_array, fault_of_map};
ghost use Rattle.amqp_decode.specs.Faults.{fault_of_payload, fault_of_values};

use crate::fixed::read_fixed;
use crate::limit::spend_items;
use crate::payload::{PayloadShape, payload_shape, primitive_code, read_count, read_payload};
use crate::push::push_fixed;
use crate::reserve::{reserve_element, reserved, reserved_of_a_map};
use crate::run::read_run;
use crate::scalar::{read_descriptor, read_scalar};
use amqp_data::{Array, Described, EncodingCodes, Error};
use amqp_value::{MapBuilder, Value};
use std::alloc::Global;

/// Reads the first encoded value of `bytes`, and leaves the bytes after it. Its array elements
/// without bytes are taken from `limit`, and more than that fail with `TooLong`. The counts of lists
/// and maps reserve memory for at most `spare` elements, keys and values.
#[cycle(read)]
#[inline(always)]
pub fn read_value(
    alloc: Global,
    bytes: &mut &[u8],
    depth: u16,
    limit: &mut Option<u32>,
    spare: usize,
) -> Result<Value, Error>
    ensures ok { IfOk result (λ v. parse depth bytes.old.now ≡ Some (tree_of v, bytes.new.now)) }
    ensures err { IfErr result (λ e. ¬ (e ≡ OutOfMemory) → ¬ (e ≡ TooLong) →
        parse depth bytes.old.now ≡ None) }
    ensures limit { Spends result limit.old limit.new (elements_without_bytes depth bytes.old.now) }
    ensures fault { FailsBy (fault_in depth bytes.old.now) result }
{
    if depth == 0 {
        return Err(Error::InvalidValue);
    }
    match bytes.split_first() {
        None => Err(Error::UnexpectedEof),
        Some((code, rest)) => {
            if let Some((value, rest)) = read_fixed(*code, rest) {
                *bytes = rest;
                return Ok(value);
            }
            *bytes = rest;
            read_after_code(alloc, *code, bytes, depth - 1, limit, spare)
        }
    }
}

/// Like `read_value`, after the format code has been read. `depth` limits the values inside.
#[cycle(read)]
#[inline(never)]
pub fn read_after_code(
    alloc: Global,
    code: u8,
    bytes: &mut &[u8],
    depth: u16,
    limit: &mut Option<u32>,
    spare: usize,
) -> Result<Value, Error>
    ensures ok { IfOk result (λ v.
        value_in_bytes (parse depth) (parse_content depth) (code ∷ bytes.old.now)
        ≡ Some (tree_of v, bytes.new.now)) }
    ensures err { IfErr result (λ e. ¬ (e ≡ OutOfMemory) → ¬ (e ≡ TooLong) →
        value_in_bytes (parse depth) (parse_content depth) (code ∷ bytes.old.now) ≡ None) }
    ensures limit { Spends result limit.old limit.new (value_around depth (code ∷ bytes.old.now)) }
    ensures fault { FailsBy (fault_around depth (code ∷ bytes.old.now)) result }
{
    if code == 0 {
        return read_described(alloc, bytes, depth, limit, spare);
    }
    match code {
        0xa0 => read_named(alloc, EncodingCodes::Vbin8, bytes, depth, limit, spare),
        0xa1 => read_named(alloc, EncodingCodes::Str8, bytes, depth, limit, spare),
        0xa3 => read_named(alloc, EncodingCodes::Sym8, bytes, depth, limit, spare),
        0xc0 => read_named(alloc, EncodingCodes::List8, bytes, depth, limit, spare),
        0xb1 => read_named(alloc, EncodingCodes::Str32, bytes, depth, limit, spare),
        0xd0 => read_named(alloc, EncodingCodes::List32, bytes, depth, limit, spare),
        _ => read_named(alloc, primitive_code(code)?, bytes, depth, limit, spare),
    }
}

// Like `read_after_code`, after the code of a described value: in a separate function, so that
// other values need no stack space for it, which is cleared.
#[cycle(read)]
#[inline(never)]
fn read_described(
    alloc: Global,
    bytes: &mut &[u8],
    depth: u16,
    limit: &mut Option<u32>,
    spare: usize,
) -> Result<Value, Error>
    ensures ok { IfOk result (λ v.
        value_in_bytes (parse depth) (parse_content depth) (0 ∷ bytes.old.now)
        ≡ Some (tree_of v, bytes.new.now)) }
    ensures err { IfErr result (λ e. ¬ (e ≡ OutOfMemory) → ¬ (e ≡ TooLong) →
        value_in_bytes (parse depth) (parse_content depth) (0 ∷ bytes.old.now) ≡ None) }
    ensures limit { Spends result limit.old limit.new (value_around depth (0 ∷ bytes.old.now)) }
    ensures fault { FailsBy (fault_around depth (0 ∷ bytes.old.now)) result }
{
    let (descriptor, rest) = read_descriptor(alloc, bytes)?;
    *bytes = rest;
    let value = read_value(alloc, bytes, depth, limit, spare)?;
    let described = Box::new(alloc, Described { descriptor, value })?;
    Ok(Value::Described(described))
}

// Reads the payload of this code at the start of `bytes`, and leaves the bytes after it. `depth`
// limits the values inside.
#[cycle(read)]
#[inline(always)]
fn read_named(
    alloc: Global,
    code: EncodingCodes,
    bytes: &mut &[u8],
    depth: u16,
    limit: &mut Option<u32>,
    spare: usize,
) -> Result<Value, Error>
    ensures ok { IfOk result (λ v.
        payload_in (content_of (parse depth) (parse_content depth)) code bytes.old.now
        ≡ Some (tree_of v, bytes.new.now)) }
    ensures err { IfErr result (λ e. ¬ (e ≡ OutOfMemory) → ¬ (e ≡ TooLong) →
        payload_in (content_of (parse depth) (parse_content depth)) code bytes.old.now ≡ None) }
    ensures limit { Spends result limit.old limit.new
        (in_payload (content_around depth) code bytes.old.now) }
    ensures fault { FailsBy (fault_of_payload (content_fault depth) code bytes.old.now) result }
{
    let (content, rest) = read_payload(code, bytes)?;
    *bytes = rest;
    read_content(alloc, code, content, depth, limit, spare)
}

// Reads a value from the content of a payload of this code. `depth` limits the values inside.
#[cycle(read)]
#[inline(always)]
fn read_content(
    alloc: Global,
    code: EncodingCodes,
    content: &[u8],
    depth: u16,
    limit: &mut Option<u32>,
    spare: usize,
) -> Result<Value, Error>
    ensures ok { IfOk result (λ v.
        content_of (parse depth) (parse_content depth) code content.now ≡ Some (tree_of v)) }
    ensures err { IfErr result (λ e. ¬ (e ≡ OutOfMemory) → ¬ (e ≡ TooLong) →
        content_of (parse depth) (parse_content depth) code content.now ≡ None) }
    ensures limit { Spends result limit.old limit.new (content_around depth code content.now) }
    ensures fault { FailsBy (content_fault depth code content.now) result }
{
    match payload_shape(code) {
        PayloadShape::Described => Err(Error::InvalidValue),
        PayloadShape::Scalar => read_scalar(alloc, code, content),
        PayloadShape::List(count) => {
            let (count, body) = read_count(count, content)?;
            decode_list(alloc, count, body, depth, limit, spare)
        }
        PayloadShape::Map(count) => {
            let (count, body) = read_count(count, content)?;
            read_entries(alloc, count, body, depth, limit, spare)
        }
        PayloadShape::Array(count) => {
            let (count, body) = read_count(count, content)?;
            decode_array(alloc, count, body, depth, limit, spare)
        }
    }
}

// Reads the payload of this code at the start of `bytes`, as an array element, and leaves the bytes
// after it.
#[cycle(read)]
fn read_item(
    alloc: Global,
    code: EncodingCodes,
    bytes: &mut &[u8],
    depth: u16,
    limit: &mut Option<u32>,
    spare: usize,
) -> Result<Value, Error>
    ensures ok { IfOk result (λ v.
        payload_in (parse_content depth) code bytes.old.now ≡ Some (tree_of v, bytes.new.now)) }
    ensures err { IfErr result (λ e. ¬ (e ≡ OutOfMemory) → ¬ (e ≡ TooLong) →
        payload_in (parse_content depth) code bytes.old.now ≡ None) }
    ensures limit { Spends result limit.old limit.new
        (in_payload (content_without_bytes depth) code bytes.old.now) }
    ensures fault { FailsBy (fault_in_item depth code bytes.old.now) result }
{
    if depth == 0 {
        return Err(Error::InvalidValue);
    }
    let (content, rest) = read_payload(code, bytes)?;
    *bytes = rest;
    read_content(alloc, code, content, depth - 1, limit, spare)
}

// Reads `count` elements that must fill `body`.
#[cycle(read)]
#[inline(never)]
fn decode_list(
    alloc: Global,
    count: u32,
    body: &[u8],
    depth: u16,
    limit: &mut Option<u32>,
    spare: usize,
) -> Result<Value, Error>
    ensures ok { IfOk result (λ v. parse_list (parse depth) (count, body.now) ≡ Some (tree_of v)) }
    ensures err { IfErr result (λ e. ¬ (e ≡ OutOfMemory) → ¬ (e ≡ TooLong) →
        parse_list (parse depth) (count, body.now) ≡ None) }
    ensures limit { Spends result limit.old limit.new
        (sum_of (elements_without_bytes depth) (parse depth) count body.now) }
    ensures fault { FailsBy (fault_of_values (fault_in depth) (parse depth) count body.now) result }
{
    if count == 0 && body.is_empty() {
        return Ok(Value::List(Vec::new(alloc)));
    }
    let room = reserved(count, body, spare);
    let mut list = Vec::with_capacity(alloc, room)?;
    let mut rest = body;
    for read in 0..count {
        reserve_element(&mut list, ((count - read) as usize).min(rest.len().max(1)))?;
        push_value(alloc, &mut rest, depth, limit, spare - room, &mut list)?;
    }
    if rest.is_empty() {
        Ok(Value::List(list))
    } else {
        Err(Error::InvalidValue)
    }
}

// Reads the first encoded value of `bytes`, appends it to `list`, and leaves the bytes after it.
#[cycle(read)]
#[inline(always)]
fn push_value(
    alloc: Global,
    bytes: &mut &[u8],
    depth: u16,
    limit: &mut Option<u32>,
    spare: usize,
    list: &mut Vec<Value>,
) -> Result<(), Error>
    requires { vec_len list.old < vec_capacity list.old }
    ensures ok { OnOk result ((v : Value) × (list.new.items ≡ list.old.items ++ v ∷ [])
        × (parse depth bytes.old.now ≡ Some (tree_of v, bytes.new.now))) }
    ensures err { IfErr result (λ e. ¬ (e ≡ OutOfMemory) → ¬ (e ≡ TooLong) →
        parse depth bytes.old.now ≡ None) }
    ensures limit { Spends result limit.old limit.new (elements_without_bytes depth bytes.old.now) }
    ensures fault { FailsBy (fault_in depth bytes.old.now) result }
{
    if depth == 0 {
        return Err(Error::InvalidValue);
    }
    match bytes.split_first() {
        None => Err(Error::UnexpectedEof),
        Some((code, rest)) => {
            if let Some(rest) = push_fixed(*code, rest, list) {
                *bytes = rest;
                return Ok(());
            }
            *bytes = rest;
            let value = read_after_code(alloc, *code, bytes, depth - 1, limit, spare)?;
            list.push_reserved(value);
            Ok(())
        }
    }
}

// Reads `count` keys and values, alternately, that must fill `body`.
#[cycle(read)]
#[inline(never)]
fn read_entries(
    alloc: Global,
    count: u32,
    body: &[u8],
    depth: u16,
    limit: &mut Option<u32>,
    spare: usize,
) -> Result<Value, Error>
    ensures ok { IfOk result (λ v. parse_map (parse depth) (count, body.now) ≡ Some (tree_of v)) }
    ensures err { IfErr result (λ e. ¬ (e ≡ OutOfMemory) → ¬ (e ≡ TooLong) →
        parse_map (parse depth) (count, body.now) ≡ None) }
    ensures limit { Spends result limit.old limit.new
        (sum_of (elements_without_bytes depth) (parse depth) count body.now) }
    ensures fault { FailsBy (fault_of_map (fault_in depth) (parse depth) (count, body.now)) result }
{
    if count % 2 != 0 {
        return Err(Error::InvalidValue);
    }
    let room = reserved_of_a_map(count, body, spare);
    let mut pairs = MapBuilder::with_capacity(alloc, room / 2)?;
    let mut rest = body;
    for _ in 0..count / 2 {
        let key = read_value(alloc, &mut rest, depth, limit, spare - room)?;
        let value = read_value(alloc, &mut rest, depth, limit, spare - room)?;
        pairs.insert(key, value)?;
    }
    if rest.is_empty() {
        pairs.into_value(alloc)
    } else {
        Err(Error::InvalidValue)
    }
}

// Reads a constructor and `count` payloads of it that must fill `body`.
#[cycle(read)]
#[inline(never)]
fn decode_array(
    alloc: Global,
    count: u32,
    body: &[u8],
    depth: u16,
    limit: &mut Option<u32>,
    spare: usize,
) -> Result<Value, Error>
    ensures ok { IfOk result (λ v.
        parse_array (parse_content depth) (count, body.now) ≡ Some (tree_of v)) }
    ensures err { IfErr result (λ e. ¬ (e ≡ OutOfMemory) → ¬ (e ≡ TooLong) →
        parse_array (parse_content depth) (count, body.now) ≡ None) }
    ensures limit { Spends result limit.old limit.new
        (in_array (content_without_bytes depth) (parse_content depth) (count, body.now)) }
    ensures fault { FailsBy (fault_of_array (fault_in_item depth) (parse_content depth)
        (count, body.now)) result }
{
    match body.split_first() {
        None if count == 0 => Ok(Value::Array(Array::from(Vec::new(alloc)))),
        None => Err(Error::UnexpectedEof),
        Some((constructor, payloads)) => {
            let code = primitive_code(*constructor)?;
            spend_items(limit, code, count)?;
            let items = read_items(alloc, code, count, payloads, depth, limit, spare)?;
            Ok(Value::Array(Array::from(items)))
        }
    }
}

// Reads `count` payloads of this code, as array elements, that must fill `payloads`.
#[cycle(read)]
#[inline(always)]
fn read_items(
    alloc: Global,
    code: EncodingCodes,
    count: u32,
    payloads: &[u8],
    depth: u16,
    limit: &mut Option<u32>,
    spare: usize,
) -> Result<Vec<Value>, Error>
    ensures ok { IfOk result (λ v.
        and_then (gather (payload_in (parse_content depth) code) count payloads.now []) all
        ≡ Some (map tree_of v.items)) }
    ensures err { IfErr result (λ e. ¬ (e ≡ OutOfMemory) → ¬ (e ≡ TooLong) →
        and_then (gather (payload_in (parse_content depth) code) count payloads.now []) all
        ≡ None) }
    ensures limit { Spends result limit.old limit.new
        (sum_of (in_payload (content_without_bytes depth) code)
        (payload_in (parse_content depth) code) count payloads.now) }
    ensures fault { FailsBy (fault_of_values (fault_in_item depth code)
        (payload_in (parse_content depth) code) count payloads.now) result }
{
    let mut items = Vec::new(alloc);
    let mut rest = payloads;
    let left = read_run(code, depth, count, &mut rest, &mut items)?;
    for _ in 0..left {
        let item = read_item(alloc, code, &mut rest, depth, limit, spare)?;
        items.push(item)?;
    }
    if !rest.is_empty() {
        return Err(Error::InvalidValue);
    }
    Ok(items)
}
