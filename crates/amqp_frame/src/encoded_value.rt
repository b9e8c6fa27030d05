//! The length of the first encoded value of a slice.

ghost use Rattle.std.specs.Prelude.{◌≡◌, ◌≢◌, ◌≤◌, ◌<◌, ◌⊎◌, ◌++◌, ℕ, List, IfSome, IfNone, Some};
ghost use Rattle.std.specs.Prelude.{length, take, slice_index};
ghost use Rattle.amqp_frame.specs.EncodedValue.{IsEncodedValue, IsIncomplete, HasEncodedValue};
ghost use Rattle.amqp_frame.specs.EncodedValue.{HasMalformed};
ghost use Rattle.amqp_frame.specs.Whole.{is_encoded_value};

use crate::code::{body_len_of, category_of, is_primitive, size_width_of};

/// Returns the length of the encoded value at the start of `bytes`, or `None` if no prefix of
/// `bytes` is an encoded value.
///
/// In public names, a frame is an encoded value, as in the crate `serde_amqp`. It is not a
/// transport frame, which has a header of eight bytes (AMQP 1.0 part 2, section 2.3).
///
/// # Encoding
///
/// AMQP 1.0 part 1, sections 1.2 to 1.2.4. Accepted codes are 00, and 40 to FE with a low nibble of
/// 0 to E.
///
/// # Memory
///
/// Allocates nothing. Nested encoded values are counted, without recursion.
///
/// # Example
///
/// `4010` gives `Some(1)`. `00a1016145` gives `Some(5)`. `10`, `a10561` and an empty slice give
/// `None`.
pub fn frame_len(bytes: &[u8]) -> Option<usize>
    ensures found { IfSome result (λ n. (n ≤ length bytes.now)
        × IsEncodedValue (take n bytes.now)) }
    ensures only { (prefix rest : List ℕ) → IsEncodedValue prefix → bytes.now ≡ prefix ++ rest →
        result ≡ Some (length prefix) }
    ensures none { IfNone result (¬ HasEncodedValue bytes.now) }
{
    let mut at = 0;
    let mut open: u64 = 1;
    while open > 0 {
        if at == bytes.len() {
            return None;
        }
        if bytes[at] == 0 {
            at += 1;
            open += 1;
        } else {
            let Some(len) = primitive_len(&bytes[at..]) else {
                return None;
            };
            at += len;
            open -= 1;
        }
    }
    Some(at)
}

/// Returns whether the bytes are exactly one encoded value, with no bytes before or after it.
///
/// # Encoding
///
/// AMQP 1.0 part 1, sections 1.2 to 1.2.4, as in [`frame_len`].
///
/// # Memory
///
/// Allocates nothing.
///
/// # Example
///
/// True for `40` and `00a1016145`. False for `4040`, `a10561` and an empty slice.
pub fn is_encoded_value(bytes: &[u8]) -> bool
    ensures { result ≡ is_encoded_value bytes.now }
{
    frame_len(bytes) == Some(bytes.len())
}

// Returns the length of the primitive format code at the start of `bytes` and its payload.
fn primitive_len(bytes: &[u8]) -> Option<usize>
    requires some { 0 < length bytes.now }
    requires code { slice_index bytes.now 0 ≢ 0 }
    ensures bound { IfSome result (λ n. (0 < n) × (n ≤ length bytes.now)) }
    ensures found { IfSome result (λ n. IsEncodedValue (take n bytes.now)) }
    ensures none { IfNone result (HasMalformed bytes.now ⊎ IsIncomplete bytes.now) }
{
    let code = bytes[0];
    let payload = &bytes[1..];
    if !is_primitive(code) {
        return None;
    }
    let category = category_of(code);
    let width = size_width_of(category);
    if payload.len() < width {
        return None;
    }
    let len = width + body_len_of(category, &payload[..width]) as usize;
    if payload.len() < len {
        return None;
    }
    Some(1 + len)
}
