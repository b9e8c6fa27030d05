//! Skips encoded values and finds their first fault. Nothing is allocated.

ghost use Rattle.std.specs.Prelude.{◌≡◌, [], ◌∷◌, ◌+◌, ◌-◌, ◌<◌, ◌≤◌, ◌^◌, IfOk, IfErr, OnOk};
ghost use Rattle.std.specs.Prelude.{OnErr, Some, None, length};
ghost use Rattle.amqp_ser.specs.Tree.{Tree};
ghost use Rattle.amqp_decode.specs.Parsed.{content_of, value_in_bytes, parse, parse_array};
ghost use Rattle.amqp_decode.specs.Parsed.{parse_content, payload_in};
ghost use Rattle.amqp_decode.specs.PlaceAt.{IsAt};
ghost use Rattle.amqp_decode.specs.Places.{content_place, skips, place_around, place_in};
ghost use Rattle.amqp_decode.specs.Places.{place_in_item, place_of_array, place_of_payload};
ghost use Rattle.amqp_decode.specs.Places.{place_of_values};

use crate::payload::{
    PayloadShape, has_no_payload, payload_shape, primitive_code, read_count, read_payload,
};
use crate::scalar_check::{PlaceFromEnd, check_scalar, skip_descriptor};
use amqp_data::EncodingCodes;

// Skips the first encoded value of `bytes`, with at most `depth` levels, and returns the bytes
// after it. There are `after` bytes after those in the input.
#[cycle(skip)]
fn skip_value(bytes: &[u8], depth: u16, after: usize) -> Result<&[u8], PlaceFromEnd>
    requires fits { length bytes.now + after < 2 ^ 64 }
    ensures ok { IfOk result (λ rest. (t : Tree) × (parse depth bytes.now ≡ Some (t, rest.now))) }
    ensures shorter { IfOk result (λ rest. length rest.now ≤ length bytes.now) }
    ensures err { OnErr result (parse depth bytes.now ≡ None) }
    ensures from_end { IfErr result (λ p. IsAt p (place_in depth after bytes.now)) }
{
    let here = PlaceFromEnd {
        left: bytes.len() + after,
        levels: depth,
    };
    if depth == 0 {
        return Err(here);
    }
    let Some((byte, rest)) = bytes.split_first() else {
        return Err(here);
    };
    if *byte == 0 {
        return skip_described(rest, depth, after);
    }
    let Ok(code) = primitive_code(*byte) else {
        return Err(here);
    };
    skip_payload(code, rest, depth, after)
}

// Like `skip_value`, after the code of a described value.
#[cycle(skip)]
fn skip_described(bytes: &[u8], depth: u16, after: usize) -> Result<&[u8], PlaceFromEnd>
    requires fits { length bytes.now + after < 2 ^ 64 }
    requires above { 0 < depth }
    ensures ok { IfOk result (λ rest. (t : Tree) ×
        (value_in_bytes (parse (depth - 1)) (parse_content (depth - 1)) (0 ∷ bytes.now)
        ≡ Some (t, rest.now))) }
    ensures shorter { IfOk result (λ rest. length rest.now ≤ length bytes.now) }
    ensures err { OnErr result
        (value_in_bytes (parse (depth - 1)) (parse_content (depth - 1)) (0 ∷ bytes.now) ≡ None) }
    ensures from_end { IfErr result (λ p.
        IsAt p (place_around (depth - 1) after (0 ∷ bytes.now))) }
{
    let rest = skip_descriptor(bytes, depth - 1, after)?;
    skip_value(rest, depth - 1, after)
}

// Skips the payload of this code, of a value with at most `depth` levels.
#[cycle(skip)]
fn skip_payload(
    code: EncodingCodes,
    bytes: &[u8],
    depth: u16,
    after: usize,
) -> Result<&[u8], PlaceFromEnd>
    requires fits { length bytes.now + after < 2 ^ 64 }
    requires above { 0 < depth }
    ensures ok { IfOk result (λ rest. (t : Tree) ×
        (payload_in (content_of (parse (depth - 1)) (parse_content (depth - 1))) code bytes.now
        ≡ Some (t, rest.now))) }
    ensures shorter { IfOk result (λ rest. length rest.now ≤ length bytes.now) }
    ensures err { OnErr result
        (payload_in (content_of (parse (depth - 1)) (parse_content (depth - 1))) code bytes.now
        ≡ None) }
    ensures from_end { IfErr result
        (λ p. IsAt p (place_of_payload (content_place (depth - 1)) depth code after bytes.now)) }
{
    let Ok((content, rest)) = read_payload(code, bytes) else {
        return Err(PlaceFromEnd {
            left: after,
            levels: depth,
        });
    };
    check_content(code, content, depth - 1, rest.len() + after)?;
    Ok(rest)
}

// Checks the content of a payload of this code. `depth` limits the values inside.
#[cycle(skip)]
fn check_content(
    code: EncodingCodes,
    content: &[u8],
    depth: u16,
    after: usize,
) -> Result<(), PlaceFromEnd>
    requires fits { length content.now + after < 2 ^ 64 }
    requires below { depth + 1 < 2 ^ 16 }
    ensures ok { OnOk result ((t : Tree) ×
        (content_of (parse depth) (parse_content depth) code content.now ≡ Some t)) }
    ensures err { OnErr result
        (content_of (parse depth) (parse_content depth) code content.now ≡ None) }
    ensures from_end { IfErr result (λ p.
        IsAt p (content_place depth code after content.now)) }
{
    let end = PlaceFromEnd {
        left: after,
        levels: depth,
    };
    match payload_shape(code) {
        PayloadShape::Described => Err(PlaceFromEnd {
            left: content.len() + after,
            levels: depth + 1,
        }),
        PayloadShape::Scalar => check_scalar(code, content, depth + 1, after),
        PayloadShape::List(count) => match read_count(count, content) {
            Ok((count, body)) => check_values(count, body, depth, after),
            Err(_) => Err(end),
        },
        PayloadShape::Map(count) => match read_count(count, content) {
            Ok((count, body)) => {
                if count % 2 != 0 {
                    return Err(PlaceFromEnd {
                        left: body.len() + after + 1,
                        levels: depth,
                    });
                }
                check_values(count, body, depth, after)
            }
            Err(_) => Err(end),
        },
        PayloadShape::Array(count) => match read_count(count, content) {
            Ok((count, body)) => check_array(count, body, depth, after),
            Err(_) => Err(end),
        },
    }
}

/// Checks that `count` values, of at most `depth` levels each, fill `body`. There are `after` bytes
/// after it.
///
/// # Errors
/// Returns the place of the first fault.
#[cycle(skip)]
pub fn check_values(count: u32, body: &[u8], depth: u16, after: usize) -> Result<(), PlaceFromEnd>
    requires fits { length body.now + after < 2 ^ 64 }
    ensures ok { OnOk result (skips (parse depth) count body.now ≡ Some []) }
    ensures err { OnErr result (¬ (skips (parse depth) count body.now ≡ Some [])) }
    ensures from_end { IfErr result
        (λ p. IsAt p (place_of_values (place_in depth) (parse depth) depth count after body.now)) }
{
    let mut rest = body;
    for _ in 0..count {
        let later = skip_value(rest, depth, after)?;
        rest = later;
    }
    if rest.is_empty() {
        Ok(())
    } else {
        Err(PlaceFromEnd {
            left: rest.len() + after,
            levels: depth,
        })
    }
}

// Checks that a constructor and `count` payloads of it fill `body`.
#[cycle(skip)]
fn check_array(count: u32, body: &[u8], depth: u16, after: usize) -> Result<(), PlaceFromEnd>
    requires fits { length body.now + after < 2 ^ 64 }
    ensures ok { OnOk result ((t : Tree) ×
        (parse_array (parse_content depth) (count, body.now) ≡ Some t)) }
    ensures err { OnErr result (parse_array (parse_content depth) (count, body.now) ≡ None) }
    ensures from_end { IfErr result
        (λ p. IsAt p (place_of_array (place_in_item depth) (parse_content depth) depth after
        (count, body.now))) }
{
    let here = PlaceFromEnd {
        left: body.len() + after,
        levels: depth,
    };
    match body.split_first() {
        None if count == 0 => Ok(()),
        None => Err(here),
        Some((constructor, payloads)) => match primitive_code(*constructor) {
            // Elements without bytes are all alike, so one of them is checked.
            Ok(code) if has_no_payload(code) => {
                check_items(code, count.min(1), payloads, depth, after)
            }
            Ok(code) => check_items(code, count, payloads, depth, after),
            Err(_) => Err(here),
        },
    }
}

// Checks that `count` payloads of this code, as array elements, fill `payloads`.
#[cycle(skip)]
fn check_items(
    code: EncodingCodes,
    count: u32,
    payloads: &[u8],
    depth: u16,
    after: usize,
) -> Result<(), PlaceFromEnd>
    requires fits { length payloads.now + after < 2 ^ 64 }
    ensures ok { OnOk result
        (skips (payload_in (parse_content depth) code) count payloads.now ≡ Some []) }
    ensures err { OnErr result
        (¬ (skips (payload_in (parse_content depth) code) count payloads.now ≡ Some [])) }
    ensures from_end { IfErr result (λ p. IsAt p (place_of_values (place_in_item depth code)
        (payload_in (parse_content depth) code) depth count after payloads.now)) }
{
    let mut rest = payloads;
    for _ in 0..count {
        let later = skip_item(code, rest, depth, after)?;
        rest = later;
    }
    if rest.is_empty() {
        Ok(())
    } else {
        Err(PlaceFromEnd {
            left: rest.len() + after,
            levels: depth,
        })
    }
}

// Skips the payload of this code at the start of `bytes`, as an array element.
#[cycle(skip)]
fn skip_item(
    code: EncodingCodes,
    bytes: &[u8],
    depth: u16,
    after: usize,
) -> Result<&[u8], PlaceFromEnd>
    requires fits { length bytes.now + after < 2 ^ 64 }
    ensures ok { IfOk result (λ rest. (t : Tree) ×
        (payload_in (parse_content depth) code bytes.now ≡ Some (t, rest.now))) }
    ensures shorter { IfOk result (λ rest. length rest.now ≤ length bytes.now) }
    ensures err { OnErr result (payload_in (parse_content depth) code bytes.now ≡ None) }
    ensures from_end { IfErr result (λ p.
        IsAt p (place_in_item depth code after bytes.now)) }
{
    if depth == 0 {
        return Err(PlaceFromEnd {
            left: bytes.len() + after,
            levels: 0,
        });
    }
    skip_payload(code, bytes, depth, after)
}
