//! Serialization of a field of a struct that is a list.

ghost use Rattle.std.specs.Prelude.{◌≡◌, ◌∷◌, [], List, Option, Some, None, Result, Err};
ghost use Rattle.std.specs.Prelude.{MatchResult, true, false};
ghost use Rattle.amqp_ser.specs.Tree.{Tree};
ghost use Rattle.amqp_ser.specs.Compounds.{tree_of_parts};
ghost use Rattle.amqp_ser.specs.CompoundSteps.{SerializesPart};
ghost use Rattle.amqp_ser.specs.Structs.{HasDescribed};

use super::part::serialize_part;
use crate::kind::CompoundKind;
use crate::serialize::Serialize;
use crate::serializer::Serializer;
use std::mem;

/// Replaces a single compound by an open list and returns the single compound, or returns `None` if
/// the list is open already.
#[inline(always)]
fn open_list<S: Serializer>(
    serializer: &mut S,
    compound: &mut S::Open,
    opened: bool,
) -> Option<S::Open>
    ensures next { opened ≡ true →
        (result ≡ None) × ((serializer.new ≡ serializer.old) × (compound.new ≡ compound.old)) }
    ensures first { opened ≡ false → (start : S) →
        S.has start CompoundKind.Single serializer.old compound.old [] →
        (single : S.Open)
        × ((result ≡ Some single)
        × ((mid : S)
        × (S.awaits start CompoundKind.Single mid single []
        × (S.has mid CompoundKind.List serializer.new compound.new [] ×
        ((t : Option Tree) (r : Result S.Ok S.Error) (after : S) → S.permits mid t r after →
        S.permits start t r after))))) }
{
    if opened {
        return None;
    }
    serializer.begin_part(compound);
    let fields = serializer.begin_compound(CompoundKind::List);
    Some(mem::replace(compound, fields))
}

/// Returns the single compound unchanged, and the error, after its first field failed.
#[cold]
#[inline(never)]
fn close_first<S: Serializer>(
    serializer: &mut S,
    single: S::Open,
    e: S::Error,
) -> (S::Open, S::Error)
    ensures { (start before : S) → S.awaits start CompoundKind.Single before single [] →
        ((p : Option Tree) → S.permits before p (Err e) serializer.old →
        S.has start CompoundKind.Single serializer.new result.0 []
        × S.permits start p (Err result.1) serializer.new) }
{
    let mut single = single;
    match serializer.end_part(&mut single, Err(e)) {
        Err(e) => (single, e),
        Ok(()) => {
            let e = serializer.misuse_error(&mut single);
            (single, e)
        }
    }
}

/// Serializes one more field of a list. At the first field, the list replaces a single compound. On
/// an error the compound that was open before the call is unchanged.
#[tactic(auto, unfolding(crate::specs::Structs::HasDescribed))]
#[inline(always)]
pub(crate) fn serialize_list_field<S: Serializer, T: Serialize>(
    serializer: &mut S,
    compound: &mut S::Open,
    opened: bool,
    value: &T,
) -> Result<(), S::Error>
    ensures first { opened ≡ false → (start : S) →
        S.has start CompoundKind.Single serializer.old compound.old [] →
        MatchResult result
        (λ _. HasDescribed S.permits S.has start None CompoundKind.List serializer.new compound.new
        (T.tree value.now ∷ []))
        (λ e. S.has start CompoundKind.Single serializer.new compound.new []
        × ((rest : List (Option Tree)) →
        S.permits start (tree_of_parts CompoundKind.List (T.tree value.now ∷ rest))
        (Err e) serializer.new)) }
    ensures next { opened ≡ true →
        SerializesPart S.permits S.has CompoundKind.List (T.tree value.now) serializer.old compound.old result
        serializer.new compound.new }
{
    let single = open_list(serializer, compound, opened);
    match serialize_part(serializer, compound, value) {
        Ok(()) => Ok(()),
        Err(e) => match single {
            None => Err(e),
            Some(single) => {
                let (single, e) = close_first(serializer, single, e);
                *compound = single;
                Err(e)
            }
        },
    }
}
