//! Checks scalars and descriptors, without a value.

ghost use Rattle.std.specs.Prelude.{◌≡◌, ◌+◌, ◌<◌, ◌≤◌, ◌^◌, IfOk, IfErr, OnOk, OnErr, Some, None};
ghost use Rattle.std.specs.Prelude.{true, false, is_some, length};
ghost use Rattle.std.specs.Int.{from_be_bytes, w32};
ghost use Rattle.std.specs.Str.{is_utf8};
ghost use Rattle.amqp_ser.specs.Tree.{Descriptor, Scalar};
ghost use Rattle.amqp_decode.specs.Parsed.{descriptor_at};
ghost use Rattle.amqp_decode.specs.Places.{is_text, names_descriptor, place_of_descriptor};
ghost use Rattle.amqp_decode.specs.Places.{place_of_scalar, place_of_text};
ghost use Rattle.amqp_decode.specs.PlaceAt.{IsAt};
ghost use Rattle.amqp_decode.specs.Scalars.{and_then, character, exact, scalar_in, single, truth};

use crate::payload::{primitive_code, read_payload};
use amqp_data::EncodingCodes;

/// Where a fault is.
#[derive(Clone, Copy, Debug, PartialEq, Eq)]
pub struct PlaceFromEnd {
    /// The number of bytes from the fault to the end of the input.
    pub left: usize,
    /// The number of levels that a value there may have.
    pub levels: u16,
}

// Returns whether the content is a byte 00 or 01.
fn is_truth(content: &[u8]) -> bool
    ensures { result ≡ is_some (and_then (single content.now) truth) }
{
    match content {
        [byte] => *byte == 0 || *byte == 1,
        _ => false,
    }
}

// Returns whether the content is a Unicode scalar value.
fn is_character(content: &[u8]) -> bool
    ensures { result ≡ is_some (and_then (exact 4 content.now)
        (λ b. character (from_be_bytes w32 b))) }
{
    match <[u8; 4]>::try_from(content) {
        Ok(bytes) => match char::from_u32(u32::from_be_bytes(bytes)) {
            Some(_) => true,
            None => false,
        },
        Err(_other_length) => false,
    }
}

// Returns whether the content is UTF-8.
fn is_utf8(content: &[u8]) -> bool
    ensures { result ≡ is_utf8 content.now }
{
    match std::str::from_utf8(content) {
        Ok(_) => true,
        Err(_) => false,
    }
}

// Returns whether values of this code are strings or symbols.
fn is_text(code: EncodingCodes) -> bool
    ensures { result ≡ is_text code }
{
    matches!(
        code,
        EncodingCodes::Str8 | EncodingCodes::Str32 | EncodingCodes::Sym8 | EncodingCodes::Sym32
    )
}

// Returns whether values of this code are ulongs or symbols.
fn names_descriptor(code: EncodingCodes) -> bool
    ensures { result ≡ names_descriptor code }
{
    matches!(
        code,
        EncodingCodes::Ulong0
            | EncodingCodes::SmallUlong
            | EncodingCodes::Ulong
            | EncodingCodes::Sym8
            | EncodingCodes::Sym32
    )
}

// Returns whether the content of a payload of this code is a scalar.
#[tactic(auto, unfolding(crate::specs::Scalars::scalar_in))]
fn is_scalar(code: EncodingCodes, content: &[u8]) -> bool
    ensures { result ≡ is_some (scalar_in code content.now) }
{
    match code {
        EncodingCodes::Null
        | EncodingCodes::BooleanTrue
        | EncodingCodes::BooleanFalse
        | EncodingCodes::Uint0
        | EncodingCodes::Ulong0
        | EncodingCodes::Vbin8
        | EncodingCodes::Vbin32 => true,
        EncodingCodes::Ubyte
        | EncodingCodes::Byte
        | EncodingCodes::SmallUint
        | EncodingCodes::SmallUlong
        | EncodingCodes::SmallInt
        | EncodingCodes::SmallLong => content.len() == 1,
        EncodingCodes::Boolean => is_truth(content),
        EncodingCodes::Ushort | EncodingCodes::Short => content.len() == 2,
        EncodingCodes::Uint
        | EncodingCodes::Int
        | EncodingCodes::Float
        | EncodingCodes::Decimal32 => content.len() == 4,
        EncodingCodes::Char => is_character(content),
        EncodingCodes::Ulong
        | EncodingCodes::Long
        | EncodingCodes::Double
        | EncodingCodes::Timestamp
        | EncodingCodes::Decimal64 => content.len() == 8,
        EncodingCodes::Decimal128 | EncodingCodes::Uuid => content.len() == 16,
        EncodingCodes::Str8 | EncodingCodes::Str32 | EncodingCodes::Sym8 | EncodingCodes::Sym32 =>
            is_utf8(content),
        EncodingCodes::DescribedType
        | EncodingCodes::List0
        | EncodingCodes::List8
        | EncodingCodes::List32
        | EncodingCodes::Map8
        | EncodingCodes::Map32
        | EncodingCodes::Array8
        | EncodingCodes::Array32 => false,
    }
}

// Returns where the content is no UTF-8. There are `after` bytes after it.
fn text_place(content: &[u8], levels: u16, after: usize) -> PlaceFromEnd
    requires invalid { is_utf8 content.now ≡ false }
    requires fits { length content.now + after < 2 ^ 64 }
    ensures { IsAt result (place_of_text levels after content.now) }
{
    match std::str::from_utf8(content) {
        Ok(_) => PlaceFromEnd {
            left: after,
            levels,
        },
        Err(error) => PlaceFromEnd {
            left: content.len() - error.valid_up_to() + after,
            levels,
        },
    }
}

/// Checks the content of a payload of this code. There are `after` bytes after it.
///
/// # Errors
/// Returns the place of the first byte that is not valid.
pub fn check_scalar(
    code: EncodingCodes,
    content: &[u8],
    levels: u16,
    after: usize,
) -> Result<(), PlaceFromEnd>
    requires fits { length content.now + after < 2 ^ 64 }
    ensures ok { OnOk result ((s : Scalar) × (scalar_in code content.now ≡ Some s)) }
    ensures err { OnErr result (scalar_in code content.now ≡ None) }
    ensures from_end { IfErr result (λ p.
        IsAt p (place_of_scalar levels code after content.now)) }
{
    if is_scalar(code, content) {
        Ok(())
    } else if is_text(code) {
        Err(text_place(content, levels, after))
    } else {
        Err(PlaceFromEnd {
            left: content.len() + after,
            levels,
        })
    }
}

/// Checks the descriptor at the start of `bytes`, and returns the bytes after it. There are `after`
/// bytes after those.
///
/// # Errors
/// Returns the place of the fault.
#[tactic(auto, unfolding(crate::specs::Parsed::descriptor_at))]
pub fn skip_descriptor(bytes: &[u8], levels: u16, after: usize) -> Result<&[u8], PlaceFromEnd>
    requires fits { length bytes.now + after < 2 ^ 64 }
    ensures ok { IfOk result (λ rest.
        (d : Descriptor) × (descriptor_at bytes.now ≡ Some (d, rest.now))) }
    ensures shorter { IfOk result (λ rest. length rest.now ≤ length bytes.now) }
    ensures err { OnErr result (descriptor_at bytes.now ≡ None) }
    ensures from_end { IfErr result (λ p.
        IsAt p (place_of_descriptor levels after bytes.now)) }
{
    let Some((byte, payload)) = bytes.split_first() else {
        return Err(PlaceFromEnd {
            left: after,
            levels,
        });
    };
    let here = PlaceFromEnd {
        left: bytes.len() + after,
        levels,
    };
    let Ok(code) = primitive_code(*byte) else {
        return Err(here);
    };
    let Ok((content, rest)) = read_payload(code, payload) else {
        return Err(PlaceFromEnd {
            left: after,
            levels,
        });
    };
    if !names_descriptor(code) {
        return Err(here);
    }
    check_scalar(code, content, levels, rest.len() + after)?;
    Ok(rest)
}
