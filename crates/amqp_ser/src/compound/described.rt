//! Described values: the descriptor and the one value of a single compound.

ghost use Rattle.std.specs.Prelude.{◌≡◌, ◌∷◌, [], Option, Some, None, Err, MatchResult, IsErr};
ghost use Rattle.amqp_ser.specs.Tree.{Tree};
ghost use Rattle.amqp_ser.specs.Composites.{as_described, descriptor_of};
ghost use Rattle.amqp_ser.specs.Structs.{HasDescribed};

use super::part::serialize_part;
use crate::kind::CompoundKind;
use crate::serialize::Serialize;
use crate::serializer::Serializer;

/// Serializes the descriptor of a single compound, before its value. On an error the compound is
/// unchanged.
#[tactic(auto, unfolding(crate::specs::Structs::HasDescribed))]
#[inline(always)]
pub(crate) fn serialize_descriptor<S: Serializer, T: Serialize>(
    serializer: &mut S,
    compound: &mut S::Open,
    value: &T,
) -> Result<(), S::Error>
    ensures accepted { (start : S) →
        S.has start CompoundKind.Single serializer.old compound.old [] →
        MatchResult result
        (λ _. HasDescribed S.permits S.has start
        (Some (T.tree value.now)) CompoundKind.Single serializer.new
        compound.new [])
        (λ e. S.has start CompoundKind.Single serializer.new compound.new [] × ((t : Option Tree) →
        S.permits start (as_described (descriptor_of (T.tree value.now)) t)
        (Err e) serializer.new)) }
    ensures other_kinds { (start : S) →
        S.has start CompoundKind.Single serializer.old compound.old [] →
        descriptor_of (T.tree value.now) ≡ None → IsErr result }
{
    serializer.begin_descriptor(compound);
    let part = value.serialize(serializer);
    serializer.end_descriptor(compound, part)
}

/// Serializes the one value of a single compound. On an error the compound is unchanged.
#[inline(always)]
pub(crate) fn serialize_single<S: Serializer, T: Serialize>(
    serializer: &mut S,
    compound: &mut S::Open,
    value: &T,
) -> Result<(), S::Error>
    ensures { (start : S) → S.has start CompoundKind.Single serializer.old compound.old [] →
        MatchResult result
        (λ _. S.has start CompoundKind.Single serializer.new compound.new (T.tree value.now ∷ []))
        (λ e. S.has start CompoundKind.Single serializer.new compound.new []
        × S.permits start (T.tree value.now) (Err e) serializer.new) }
{
    serialize_part(serializer, compound, value)
}

/// Ends a single compound that has its one value.
#[inline(always)]
pub(crate) fn end_single<S: Serializer>(
    serializer: &mut S,
    compound: S::Open,
) -> Result<S::Ok, S::Error>
    ensures { (start : S) (p : Option Tree) →
        S.has start CompoundKind.Single serializer.old compound (p ∷ []) →
        S.permits start p result serializer.new }
{
    serializer.end(compound)
}

/// Serializes a described value, like a struct named `DESCRIBED_BASIC` with a descriptor and one
/// field.
#[tactic(auto, unfolding(crate::specs::Structs::HasDescribed))]
#[inline(always)]
pub(crate) fn serialize_described<S: Serializer, D: Serialize, T: Serialize>(
    serializer: &mut S,
    descriptor: &D,
    value: &T,
) -> Result<S::Ok, S::Error>
    ensures { S.permits serializer.old
        (as_described (descriptor_of (D.tree descriptor.now)) (T.tree value.now)) result
        serializer.new }
{
    let mut compound = serializer.begin_compound(CompoundKind::Single);
    serialize_descriptor(&mut *serializer, &mut compound, descriptor)?;
    serializer.begin_part(&mut compound);
    value.serialize(serializer)
}
