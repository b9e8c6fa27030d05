//! Serialization of a field, or the descriptor, of a struct of any form.

ghost use Rattle.std.specs.Prelude.{◌≡◌};
ghost use Rattle.amqp_ser.specs.StructSteps.{FieldStep};
ghost use Rattle.amqp_ser.specs.Structs.{is_misplaced};

use super::body::open_body;
use super::described::{serialize_descriptor, serialize_single};
use super::part::{serialize_map_entry, serialize_part};
use crate::names::is_descriptor_name;
use crate::serialize::Serialize;
use crate::serializer::Serializer;
use crate::struct_encoding::StructEncoding;
use std::mem;

/// Returns whether a descriptor is repeated or late, or a field is the second one of a single
/// value.
#[inline(always)]
fn is_misplaced(form: StructEncoding, described: bool, opened: bool, descriptor: bool) -> bool
    ensures { result ≡ is_misplaced form described opened descriptor }
{
    if descriptor {
        described || opened
    } else {
        opened && matches!(form, StructEncoding::Single)
    }
}

/// Serializes a field or the descriptor. The open compound is passed and returned by value, so that
/// the caller does not keep it in memory.
#[tactic(auto, unfolding(crate::specs::Structs::HasDescribed))]
#[inline(never)]
pub(crate) fn serialize_owned_field<S: Serializer, T: Serialize>(
    serializer: &mut S,
    compound: S::Open,
    form: StructEncoding,
    described: bool,
    opened: bool,
    key: &'static str,
    value: &T,
) -> (S::Open, Result<(), S::Error>)
    ensures { FieldStep S.permits S.has S.is_misuse_error form described opened key.now
        (T.tree value.now) serializer.old compound result.1 serializer.new result.0 }
{
    let mut compound = compound;
    let descriptor = is_descriptor_name(key);
    if is_misplaced(form, described, opened, descriptor) {
        let e = serializer.misuse_error(&mut compound);
        return (compound, Err(e));
    }
    if descriptor {
        let accepted = serialize_descriptor(serializer, &mut compound, value);
        return (compound, accepted);
    }
    if opened {
        return match form {
            StructEncoding::Map => {
                let accepted = serialize_map_entry(serializer, &mut compound, &key, value);
                (compound, accepted)
            }
            _ => {
                let accepted = serialize_part(serializer, &mut compound, value);
                (compound, accepted)
            }
        };
    }
    match form {
        StructEncoding::List => {
            let accepted = open_body(serializer, &mut compound, false, key, value);
            (compound, accepted)
        }
        StructEncoding::Map => {
            let accepted = open_body(serializer, &mut compound, true, key, value);
            (compound, accepted)
        }
        StructEncoding::Single => {
            let accepted = serialize_single(serializer, &mut compound, value);
            (compound, accepted)
        }
    }
}

/// Like `serialize_owned_field`, with the open compound moved out of `compound` and back.
#[inline(always)]
pub(crate) fn serialize_any_field<S: Serializer, T: Serialize>(
    serializer: &mut S,
    compound: &mut S::Open,
    form: StructEncoding,
    described: bool,
    opened: bool,
    key: &'static str,
    value: &T,
) -> Result<(), S::Error>
    ensures { FieldStep S.permits S.has S.is_misuse_error form described opened key.now
        (T.tree value.now) serializer.old compound.old result serializer.new compound.new }
{
    let placeholder = serializer.placeholder();
    let moved = mem::replace(compound, placeholder);
    let (back, accepted) = serialize_owned_field(
        serializer, moved, form, described, opened, key, value,
    );
    *compound = back;
    accepted
}
