//! Nodes of texts, binaries, compounds and descriptors.

ghost use Rattle.std.specs.Prelude.{◌≡◌, ◌⊎◌, ◌∷◌, IfOk, OnOk, Some};
ghost use Rattle.amqp_ser.specs.Tree.{code as numbered};
ghost use Rattle.amqp_decode.specs.Parsed.{descriptor_at};
ghost use Rattle.amqp_cursor.specs.Contents.{EndsWith, Placed};

use crate::node::Node;
use crate::pieces::{is_code, split_payload, split_text};
use amqp_decode::prefix::{GaveUp, split_byte, split_bytes, split_number};
use amqp_writer::kinds::{
    ARRAY, BINARY, DECIMAL32, DECIMAL64, DECIMAL128, DESCRIBED, LIST, MAP, STRING, SYMBOL, UUID,
};

/// Reads a string.
#[inline(always)]
pub fn node_of_string(code: u8, bytes: &[u8], end: usize, node: &mut Node) -> Result<usize, GaveUp>
    requires { (code ≡ 0xa1) ⊎ (code ≡ 0xb1) }
    ensures kind { OnOk result (node.new.kind ≡ 0xb1) }
    ensures placed { IfOk result (Placed code bytes.now end node.new) }
{
    let (content, rest) = split_text(code, bytes)?;
    node.content(STRING, code, content.len(), rest.len(), end);
    Ok(rest.len())
}

/// Reads a symbol.
#[inline(always)]
pub fn node_of_symbol(code: u8, bytes: &[u8], end: usize, node: &mut Node) -> Result<usize, GaveUp>
    requires { (code ≡ 0xa3) ⊎ (code ≡ 0xb3) }
    ensures kind { OnOk result (node.new.kind ≡ 0xb3) }
    ensures placed { IfOk result (Placed code bytes.now end node.new) }
{
    let (content, rest) = split_text(code, bytes)?;
    node.content(SYMBOL, code, content.len(), rest.len(), end);
    Ok(rest.len())
}

/// Reads a binary.
#[inline(always)]
pub fn node_of_binary(code: u8, bytes: &[u8], end: usize, node: &mut Node) -> Result<usize, GaveUp>
    requires { (code ≡ 0xa0) ⊎ (code ≡ 0xb0) }
    ensures kind { OnOk result (node.new.kind ≡ 0xb0) }
    ensures placed { IfOk result (Placed code bytes.now end node.new) }
{
    let (content, rest) = split_payload(code, bytes)?;
    node.content(BINARY, code, content.len(), rest.len(), end);
    Ok(rest.len())
}

/// Reads a list that has a count.
#[inline(always)]
pub fn node_of_list(code: u8, bytes: &[u8], end: usize, node: &mut Node) -> Result<usize, GaveUp>
    requires { (code ≡ 0xc0) ⊎ (code ≡ 0xd0) }
    ensures kind { OnOk result (node.new.kind ≡ 0xd0) }
    ensures placed { IfOk result (Placed code bytes.now end node.new) }
{
    let (content, rest) = split_payload(code, bytes)?;
    let (count, body) = split_number(code / 16 % 2 == 1, content)?;
    node.content(LIST, code, body.len(), rest.len(), end);
    node.count = count;
    Ok(rest.len())
}

/// Reads the list without elements, which has no payload.
#[inline(always)]
pub fn node_of_no_list(bytes: &[u8], end: usize, node: &mut Node) -> Result<usize, GaveUp>
    ensures kind { OnOk result (node.new.kind ≡ 0xd0) }
    ensures placed { IfOk result (Placed 0x45 bytes.now end node.new) }
{
    node.content(LIST, 0x45, 0, bytes.len(), end);
    Ok(bytes.len())
}

/// Reads a map.
#[inline(always)]
pub fn node_of_map(code: u8, bytes: &[u8], end: usize, node: &mut Node) -> Result<usize, GaveUp>
    requires { (code ≡ 0xc1) ⊎ (code ≡ 0xd1) }
    ensures kind { OnOk result (node.new.kind ≡ 0xd1) }
    ensures placed { IfOk result (Placed code bytes.now end node.new) }
{
    let (content, rest) = split_payload(code, bytes)?;
    let (count, body) = split_number(code / 16 % 2 == 1, content)?;
    if count % 2 != 0 {
        return Err(GaveUp);
    }
    node.content(MAP, code, body.len(), rest.len(), end);
    node.count = count;
    Ok(rest.len())
}

/// Reads an array.
#[inline(always)]
pub fn node_of_array(code: u8, bytes: &[u8], end: usize, node: &mut Node) -> Result<usize, GaveUp>
    requires { (code ≡ 0xe0) ⊎ (code ≡ 0xf0) }
    ensures kind { OnOk result (node.new.kind ≡ 0xf0) }
    ensures placed { IfOk result (Placed code bytes.now end node.new) }
{
    let (content, rest) = split_payload(code, bytes)?;
    let (count, body) = split_number(code / 16 % 2 == 1, content)?;
    if body.is_empty() && count == 0 {
        node.content(ARRAY, code, 0, rest.len(), end);
        return Ok(rest.len());
    }
    let (element, items) = split_byte(body)?;
    if !is_code(element) {
        return Err(GaveUp);
    }
    if count == 0 {
        if !items.is_empty() {
            return Err(GaveUp);
        }
        node.content(ARRAY, code, 0, rest.len(), end);
        node.element = element;
        return Ok(rest.len());
    }
    if element / 16 == 4 && !items.is_empty() {
        return Err(GaveUp);
    }
    node.content(ARRAY, code, items.len(), rest.len(), end);
    node.count = count;
    node.element = element;
    Ok(rest.len())
}

/// Reads a decimal of four bytes.
#[inline(always)]
pub fn node_of_decimal32(bytes: &[u8], end: usize, node: &mut Node) -> Result<usize, GaveUp>
    ensures kind { OnOk result (node.new.kind ≡ 0x74) }
    ensures placed { IfOk result (Placed 0x74 bytes.now end node.new) }
{
    let (content, rest) = split_bytes::<4>(bytes)?;
    node.content(DECIMAL32, DECIMAL32, content.len(), rest.len(), end);
    Ok(rest.len())
}

/// Reads a decimal of eight bytes.
#[inline(always)]
pub fn node_of_decimal64(bytes: &[u8], end: usize, node: &mut Node) -> Result<usize, GaveUp>
    ensures kind { OnOk result (node.new.kind ≡ 0x84) }
    ensures placed { IfOk result (Placed 0x84 bytes.now end node.new) }
{
    let (content, rest) = split_bytes::<8>(bytes)?;
    node.content(DECIMAL64, DECIMAL64, content.len(), rest.len(), end);
    Ok(rest.len())
}

/// Reads a decimal of sixteen bytes.
#[inline(always)]
pub fn node_of_decimal128(bytes: &[u8], end: usize, node: &mut Node) -> Result<usize, GaveUp>
    ensures kind { OnOk result (node.new.kind ≡ 0x94) }
    ensures placed { IfOk result (Placed 0x94 bytes.now end node.new) }
{
    let (content, rest) = split_bytes::<16>(bytes)?;
    node.content(DECIMAL128, DECIMAL128, content.len(), rest.len(), end);
    Ok(rest.len())
}

/// Reads a uuid.
#[inline(always)]
pub fn node_of_uuid(bytes: &[u8], end: usize, node: &mut Node) -> Result<usize, GaveUp>
    ensures kind { OnOk result (node.new.kind ≡ 0x98) }
    ensures placed { IfOk result (Placed 0x98 bytes.now end node.new) }
{
    let (content, rest) = split_bytes::<16>(bytes)?;
    node.content(UUID, UUID, content.len(), rest.len(), end);
    Ok(rest.len())
}

// Reads a descriptor that is a number.
#[inline(always)]
fn descriptor_code(code: u8, bytes: &[u8]) -> Result<(u64, &[u8]), GaveUp>
    ensures read { IfOk result (λ r.
        descriptor_at (code ∷ bytes.now) ≡ Some (numbered r.0, r.1.now)) }
    ensures ends { IfOk result (λ r. EndsWith bytes.now r.1.now) }
{
    match code {
        0x44 => Ok((0, bytes)),
        0x53 => {
            let (value, rest) = split_byte(bytes)?;
            Ok((u64::from(value), rest))
        }
        0x80 => {
            let (value, rest) = split_bytes::<8>(bytes)?;
            Ok((u64::from_be_bytes(value), rest))
        }
        _ => Err(GaveUp),
    }
}

/// Reads a descriptor.
#[inline(always)]
pub fn node_of_descriptor(bytes: &[u8], end: usize, node: &mut Node) -> Result<usize, GaveUp>
    ensures kind { OnOk result (node.new.kind ≡ 0x00) }
    ensures placed { IfOk result (Placed 0 bytes.now end node.new) }
{
    let (code, after) = split_byte(bytes)?;
    match code {
        0x44 | 0x53 | 0x80 => {
            let (n, rest) = descriptor_code(code, after)?;
            node.content(DESCRIBED, code, 0, rest.len(), end);
            node.bits = n;
            Ok(rest.len())
        }
        0xa3 | 0xb3 => {
            let (content, rest) = split_text(code, after)?;
            node.content(DESCRIBED, code, content.len(), rest.len(), end);
            node.named = true;
            Ok(rest.len())
        }
        _ => Err(GaveUp),
    }
}
