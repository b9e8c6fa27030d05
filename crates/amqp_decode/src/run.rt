//! Reads the elements of arrays of scalars of fixed width. The code is matched once for an array.

ghost use Rattle.std.specs.Prelude.{◌≡◌, ◌<◌, IfOk, map};
ghost use Rattle.amqp_value.specs.TreeOf.{tree_of};
ghost use Rattle.amqp_decode.specs.WithoutBytes.{content_without_bytes, in_payload, sum_of};
ghost use Rattle.amqp_decode.specs.Parsed.{gather, payload_in, parse_content};
ghost use Rattle.amqp_decode.specs.Faults.{fault_in_item, fault_of_values};

use crate::fixed::read_fixed;
use amqp_data::EncodingCodes;
use amqp_value::Value;
use std::alloc::AllocError;

// Reads a run by a function that is inlined at each of these codes, with the width of its payloads.
macro_rules! by_width {
    ($read:ident, $code:ident, $depth:ident, $count:ident, $bytes:ident, $items:ident:
        $($name:ident $width:literal),*) => {
        match $code {
            $(EncodingCodes::$name => {
                $read(EncodingCodes::$name, $depth, $width, $count, $bytes, $items)
            })*
            _ => Ok($count),
        }
    };
}

/// Reads payloads of this code from the start of `bytes`, as array elements, and appends them to
/// `items`: as many as it can, and at most `count`. Leaves the bytes after them, and returns the
/// number of payloads that remain to be read.
///
/// # Errors
/// Returns `AllocError` if an allocation fails.
///
/// # Memory
/// Reserves memory for as many elements as the bytes contain, at most `count`. Elements without
/// bytes are not reserved.
#[inline(never)]
pub fn read_run(
    code: EncodingCodes,
    depth: u16,
    count: u32,
    bytes: &mut &[u8],
    items: &mut Vec<Value>,
) -> Result<u32, AllocError>
    ensures ok { IfOk result (λ left.
        gather (payload_in (parse_content depth) code) left bytes.new.now (map tree_of items.new.items)
        ≡ gather (payload_in (parse_content depth) code) count bytes.old.now
        (map tree_of items.old.items)) }
    ensures none { IfOk result (λ left.
        sum_of (in_payload (content_without_bytes depth) code)
        (payload_in (parse_content depth) code) left bytes.new.now
        ≡ sum_of (in_payload (content_without_bytes depth) code)
        (payload_in (parse_content depth) code) count bytes.old.now) }
    ensures faults { IfOk result (λ left.
        fault_of_values (fault_in_item depth code)
        (payload_in (parse_content depth) code) left bytes.new.now
        ≡ fault_of_values (fault_in_item depth code)
        (payload_in (parse_content depth) code) count bytes.old.now) }
{
    if depth == 0 {
        return Ok(count);
    }
    by_width! {
        read_fixed_run, code, depth, count, bytes, items:
        Null 0, BooleanTrue 0, BooleanFalse 0, Uint0 0, Ulong0 0, SmallUint 1, SmallUlong 1,
        SmallInt 1, SmallLong 1, Ubyte 1, Byte 1, Ushort 2, Short 2, Uint 4, Int 4, Float 4,
        Ulong 8, Long 8, Double 8, Timestamp 8
    }
}

// Like `read_run`, at a code that `read_fixed` supports. Each payload has `width` bytes.
#[inline(always)]
fn read_fixed_run(
    code: EncodingCodes,
    depth: u16,
    width: usize,
    count: u32,
    bytes: &mut &[u8],
    items: &mut Vec<Value>,
) -> Result<u32, AllocError>
    requires { 0 < depth }
    ensures ok { IfOk result (λ left.
        gather (payload_in (parse_content depth) code) left bytes.new.now (map tree_of items.new.items)
        ≡ gather (payload_in (parse_content depth) code) count bytes.old.now
        (map tree_of items.old.items)) }
    ensures none { IfOk result (λ left.
        sum_of (in_payload (content_without_bytes depth) code)
        (payload_in (parse_content depth) code) left bytes.new.now
        ≡ sum_of (in_payload (content_without_bytes depth) code)
        (payload_in (parse_content depth) code) count bytes.old.now) }
    ensures faults { IfOk result (λ left.
        fault_of_values (fault_in_item depth code)
        (payload_in (parse_content depth) code) left bytes.new.now
        ≡ fault_of_values (fault_in_item depth code)
        (payload_in (parse_content depth) code) count bytes.old.now) }
{
    let byte = u8::from(code);
    let mut rest = *bytes;
    if width != 0 {
        items.reserve_exact((rest.len() / width).min(count as usize))?;
    }
    for read in 0..count {
        match read_fixed(byte, rest) {
            Some((value, after)) => {
                items.push(value)?;
                rest = after;
            }
            None => {
                *bytes = rest;
                return Ok(count - read);
            }
        }
    }
    *bytes = rest;
    Ok(0)
}
