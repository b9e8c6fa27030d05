//! Serialization of the parts of an open compound.

ghost use Rattle.std.specs.Prelude.{◌≡◌, ◌++◌, ◌∷◌, [], List, Option, Err, MatchResult, true};
ghost use Rattle.amqp_ser.specs.Tree.{Tree};
ghost use Rattle.amqp_ser.specs.Compounds.{tree_of_parts, paired};
ghost use Rattle.amqp_ser.specs.CompoundSteps.{SerializesPart};

use crate::kind::CompoundKind;
use crate::serialize::Serialize;
use crate::serializer::Serializer;

/// Serializes one more part of an open compound. On an error the compound is unchanged.
#[inline(always)]
pub(crate) fn serialize_part<S: Serializer, T: Serialize>(
    serializer: &mut S,
    compound: &mut S::Open,
    value: &T,
) -> Result<(), S::Error>
    ensures { (kind : CompoundKind) →
        SerializesPart S.permits S.has kind (T.tree value.now) serializer.old compound.old result serializer.new
        compound.new }
{
    serializer.begin_part(compound);
    let part = value.serialize(serializer);
    serializer.end_part(compound, part)
}

/// Serializes one more entry of an open map. On an error the map is unchanged.
#[inline(always)]
pub(crate) fn serialize_map_entry<S: Serializer, K: Serialize, V: Serialize>(
    serializer: &mut S,
    compound: &mut S::Open,
    key: &K,
    value: &V,
) -> Result<(), S::Error>
    ensures { (start : S) (ps : List (Option Tree)) →
        S.has start CompoundKind.Map serializer.old compound.old ps → paired ps ≡ true →
        MatchResult result
        (λ _. S.has start CompoundKind.Map serializer.new compound.new
        (ps ++ (K.tree key.now ∷ (V.tree value.now ∷ []))))
        (λ e. S.has start CompoundKind.Map serializer.new compound.new ps
        × ((rest : List (Option Tree)) →
        S.permits start (tree_of_parts CompoundKind.Map
        (ps ++ (K.tree key.now ∷ (V.tree value.now ∷ rest))))
        (Err e) serializer.new)) }
{
    serialize_part(&mut *serializer, &mut *compound, key)?;
    match serialize_part(&mut *serializer, &mut *compound, value) {
        Ok(()) => Ok(()),
        Err(e) => {
            serializer.undo_part(compound);
            Err(e)
        }
    }
}
