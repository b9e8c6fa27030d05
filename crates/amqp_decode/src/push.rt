//! Reads the common scalars of fixed width as elements of a list.

ghost use Rattle.std.specs.Prelude.{◌≡◌, ◌∷◌, ◌++◌, [], ◌<◌, IfSome, IfNone, Some, vec_len};
ghost use Rattle.std.specs.Prelude.{vec_capacity};
ghost use Rattle.amqp_value.specs.TreeOf.{tree_of};
ghost use Rattle.amqp_value.specs.declared.value.Value.{Value};
ghost use Rattle.amqp_decode.specs.Parsed.{ValueReader, ContentReader, value_in_bytes};

use crate::fixed::read_fixed;
use amqp_value::Value;

/// Reads the scalar of this code whose payload is at the start of `bytes`, appends it to `list`,
/// and returns the bytes after it.
///
/// Returns `None` and leaves the list if the code is that of no common scalar, or the bytes end too
/// early. Each code has an arm of its own, in which the value is stored directly.
#[inline(always)]
pub fn push_fixed<'a>(code: u8, bytes: &'a [u8], list: &mut Vec<Value>) -> Option<&'a [u8]>
    requires { vec_len list.old < vec_capacity list.old }
    ensures found { IfSome result (λ rest. (v : Value) × (list.new.items ≡ list.old.items ++ v ∷ [])
        × ((f : ValueReader) (h : ContentReader) →
        value_in_bytes f h (code ∷ bytes.now) ≡ Some (tree_of v, rest.now))) }
    ensures unchanged { IfNone result (list.new.items ≡ list.old.items) }
    ensures room { IfNone result (vec_len list.new < vec_capacity list.new) }
{
    match code {
        0x40 => push_at(0x40, bytes, list),
        0x41 => push_at(0x41, bytes, list),
        0x42 => push_at(0x42, bytes, list),
        0x43 => push_at(0x43, bytes, list),
        0x44 => push_at(0x44, bytes, list),
        0x50 => push_at(0x50, bytes, list),
        0x52 => push_at(0x52, bytes, list),
        0x53 => push_at(0x53, bytes, list),
        0x54 => push_at(0x54, bytes, list),
        0x55 => push_at(0x55, bytes, list),
        0x70 => push_at(0x70, bytes, list),
        0x71 => push_at(0x71, bytes, list),
        0x80 => push_at(0x80, bytes, list),
        0x81 => push_at(0x81, bytes, list),
        0x82 => push_at(0x82, bytes, list),
        0x83 => push_at(0x83, bytes, list),
        _ => None,
    }
}

// Like `push_fixed`, inlined at a code that is known.
#[inline(always)]
fn push_at<'a>(code: u8, bytes: &'a [u8], list: &mut Vec<Value>) -> Option<&'a [u8]>
    requires { vec_len list.old < vec_capacity list.old }
    ensures found { IfSome result (λ rest. (v : Value) × (list.new.items ≡ list.old.items ++ v ∷ [])
        × ((f : ValueReader) (h : ContentReader) →
        value_in_bytes f h (code ∷ bytes.now) ≡ Some (tree_of v, rest.now))) }
    ensures unchanged { IfNone result (list.new.items ≡ list.old.items) }
    ensures room { IfNone result (vec_len list.new < vec_capacity list.new) }
{
    let (value, rest) = read_fixed(code, bytes)?;
    list.push_reserved(value);
    Some(rest)
}
