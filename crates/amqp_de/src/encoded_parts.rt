//! An encoded value as a source, and what is left of its parts.

ghost use Rattle.std.specs.Prelude.{◌≡◌, suc, IfSome, ◌∷◌, ℕ, IfOk, Some};
ghost use Rattle.amqp_ser.specs.Carried.{descriptor_content};
ghost use Rattle.amqp_ser.specs.Tree.{scalar, string};
ghost use Rattle.amqp_decode.specs.Parsed.{parse, descriptor_at};
ghost use Rattle.amqp_de.specs.Encodings.{Fills};

use crate::fault::Fault;
use crate::room::MAX_RESERVED_VALUES;
use crate::scalar::Scalar;
use amqp_data::Descriptor;
use amqp_decode::prefix::{GaveUp, below, split_byte, split_descriptor, split_string};
use std::alloc::Global;

/// An encoded value after its format code, with at most `depth` levels inside.
#[derive(Drop)]
pub struct Encoded<'a> {
    /// The format code.
    pub code: u8,
    /// The bytes after it.
    pub bytes: &'a [u8],
    /// The number of levels inside.
    pub depth: u16,
}

/// What is left of a list, which has no constructor, or of an array.
#[derive(Drop)]
pub struct EncodedElements<'a> {
    pub(crate) left: u32,
    pub(crate) constructor: u8,
    pub(crate) depth: u16,
    pub(crate) bytes: &'a [u8],
}

/// What is left of a map.
#[derive(Drop)]
pub struct EncodedEntries<'a> {
    pub(crate) left: u32,
    pub(crate) depth: u16,
    pub(crate) bytes: &'a [u8],
}

impl<'a> Encoded<'a> {
    /// Returns the number of levels that may be inside each part, or `None` if there may be no
    /// part.
    #[inline(always)]
    pub(crate) fn inside(&self) -> Option<u16>
        ensures { IfSome result (λ d. self.now.depth ≡ suc d) }
    {
        match below(self.depth) {
            Ok(inside) => Some(inside),
            Err(_) => None,
        }
    }
}

/// Splits off the key of the first of `count` entries, if it is this name, and the code of its
/// value.
#[inline(always)]
pub(crate) fn split_name<'a>(name: &str, count: u32, body: &'a [u8]) -> Option<(u8, &'a [u8])>
    ensures some { IfSome result (λ _. count ≡ 0 → ⊥) }
    ensures key { IfSome result (λ r. (d : ℕ) →
        parse (suc d) body.now ≡ Some (scalar (string name.now), r.0 ∷ r.1.now)) }
{
    if count == 0 {
        return None;
    }
    let Ok((code, after)) = split_byte(body) else {
        return None;
    };
    let Ok((text, rest)) = split_string(code, after) else {
        return None;
    };
    if *text != *name {
        return None;
    }
    match split_byte(rest) {
        Ok((of_value, payload)) => Some((of_value, payload)),
        Err(_) => None,
    }
}

/// Reads the descriptor of a described value.
#[tactic(auto, using(amqp_decode::proofs::DescriptorForms::number_short))]
#[inline(always)]
pub(crate) fn first_descriptor(alloc: Global, bytes: &[u8]) -> Result<(Descriptor, &[u8]), GaveUp>
    ensures { IfOk result (λ r. descriptor_at bytes.now ≡ Some (descriptor_content r.0, r.1.now)) }
{
    match bytes.split_first() {
        Some((0x53, after)) => match after.split_first() {
            Some((number, rest)) => Ok((Descriptor::Code(u64::from(*number)), rest)),
            None => Err(GaveUp),
        },
        _ => split_descriptor(alloc, bytes),
    }
}

/// Reads `count` scalars of one kind, each after a format code, which fill the bytes.
#[inline(always)]
pub(crate) fn list_scalars<K: Scalar>(
    alloc: Global,
    count: u32,
    bytes: &[u8],
) -> Result<Vec<K>, Fault>
    ensures { IfOk result (λ v. (depth : ℕ) →
        Fills (λ t x. t ≡ scalar (K.content x)) (parse (suc depth)) count bytes.now v.items) }
{
    let room = (count as usize).min(bytes.len()).min(MAX_RESERVED_VALUES);
    let Ok(mut items) = Vec::with_capacity(alloc, room) else {
        return Err(Fault::memory());
    };
    let mut left = bytes;
    for read in 0..count {
        let Some((code, payload)) = left.split_first() else {
            return Err(Fault::gave_up());
        };
        let (item, rest) = match K::from_bytes(alloc, *code, payload) {
            Ok(read) => read,
            Err(_) => return Err(Fault::gave_up()),
        };
        left = rest;
        if items.push(item).is_err() {
            return Err(Fault::memory());
        }
    }
    if left.is_empty() {
        Ok(items)
    } else {
        Err(Fault::gave_up())
    }
}
