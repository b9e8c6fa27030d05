//! The body of a struct: a list or a map, which replaces the single compound at the first field.

ghost use Rattle.std.specs.Prelude.{◌≡◌, ◌++◌, [], List, Option, None, Err, MatchResult, IfErr};
ghost use Rattle.std.specs.Prelude.{IsErr};
ghost use Rattle.amqp_ser.specs.Tree.{Tree};
ghost use Rattle.amqp_ser.specs.Compounds.{tree_of_parts};
ghost use Rattle.amqp_ser.specs.StructSteps.{EndStep};
ghost use Rattle.amqp_ser.specs.Structs.{HasDescribed, form_kind, fields_kind, field_parts};

use super::described::end_single;
use super::part::{serialize_map_entry, serialize_part};
use crate::kind::CompoundKind;
use crate::serialize::Serialize;
use crate::serializer::Serializer;
use crate::struct_encoding::StructEncoding;

/// Returns the kind of a body: a map if the fields have names, otherwise a list.
#[inline(always)]
fn fields_kind(in_map: bool) -> CompoundKind
    ensures { result ≡ fields_kind in_map }
{
    if in_map {
        CompoundKind::Map
    } else {
        CompoundKind::List
    }
}

/// Serializes the first field of an open list or map. On an error the compound is unchanged.
#[inline(always)]
fn serialize_body_field<S: Serializer, T: Serialize>(
    serializer: &mut S,
    compound: &mut S::Open,
    in_map: bool,
    key: &'static str,
    value: &T,
) -> Result<(), S::Error>
    ensures { (start : S) → S.has start (fields_kind in_map) serializer.old compound.old [] →
        MatchResult result
        (λ _. S.has start (fields_kind in_map) serializer.new compound.new
        (field_parts in_map key.now (T.tree value.now)))
        (λ e. S.has start (fields_kind in_map) serializer.new compound.new []
        × ((rest : List (Option Tree)) →
        S.permits start
        (tree_of_parts (fields_kind in_map) (field_parts in_map key.now (T.tree value.now) ++ rest))
        (Err e) serializer.new)) }
{
    if in_map {
        serialize_map_entry(serializer, compound, &key, value)
    } else {
        serialize_part(serializer, compound, value)
    }
}

/// Replaces a single compound by an open map or list, and serializes its first field. On an error
/// the single compound is unchanged.
#[tactic(auto, unfolding(crate::specs::Structs::HasDescribed))]
#[inline(always)]
pub(crate) fn open_body<S: Serializer, T: Serialize>(
    serializer: &mut S,
    compound: &mut S::Open,
    in_map: bool,
    key: &'static str,
    value: &T,
) -> Result<(), S::Error>
    ensures { (start : S) → S.has start CompoundKind.Single serializer.old compound.old [] →
        MatchResult result
        (λ _. HasDescribed S.permits S.has start None
        (fields_kind in_map) serializer.new compound.new
        (field_parts in_map key.now (T.tree value.now)))
        (λ e. S.has start CompoundKind.Single serializer.new compound.new []
        × ((rest : List (Option Tree)) →
        S.permits start
        (tree_of_parts (fields_kind in_map) (field_parts in_map key.now (T.tree value.now) ++ rest))
        (Err e) serializer.new)) }
{
    serializer.begin_part(compound);
    let mut fields = serializer.begin_compound(fields_kind(in_map));
    match serialize_body_field(&mut *serializer, &mut fields, in_map, key, value) {
        Ok(()) => {
            *compound = fields;
            Ok(())
        }
        Err(e) => match serializer.end_part(compound, Err(e)) {
            Err(e) => Err(e),
            Ok(()) => Err(serializer.misuse_error(compound)),
        },
    }
}

/// Ends a single compound without a value: as an empty list or map, or with a misuse error.
#[inline(always)]
fn end_empty<S: Serializer>(
    serializer: &mut S,
    mut compound: S::Open,
    form: StructEncoding,
) -> Result<S::Ok, S::Error>
    ensures empty { (start : S) → S.has start CompoundKind.Single serializer.old compound [] →
        S.permits start (tree_of_parts (form_kind form) []) result serializer.new }
    ensures invalid { form ≡ StructEncoding.Single → IsErr result × IfErr result S.is_misuse_error }
{
    let kind = match form {
        StructEncoding::Single => return Err(serializer.misuse_error(&mut compound)),
        StructEncoding::List => CompoundKind::List,
        StructEncoding::Map => CompoundKind::Map,
    };
    serializer.begin_part(&mut compound);
    let fields = serializer.begin_compound(kind);
    serializer.end(fields)
}

/// Ends a body, or the single compound if no field was serialized and no body is open.
#[tactic(auto, unfolding(crate::specs::Structs::HasDescribed))]
#[inline(always)]
pub(crate) fn end_fields<S: Serializer>(
    serializer: &mut S,
    compound: S::Open,
    form: StructEncoding,
    opened: bool,
) -> Result<S::Ok, S::Error>
    ensures { EndStep S.permits S.has S.is_misuse_error form opened serializer.old compound result
        serializer.new }
{
    if !opened {
        return end_empty(serializer, compound, form);
    }
    match form {
        StructEncoding::Single => end_single(serializer, compound),
        StructEncoding::List => serializer.end(compound),
        StructEncoding::Map => serializer.end(compound),
    }
}
