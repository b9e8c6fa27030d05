//! Tuples: lists of their elements.

ghost use Rattle.std.specs.Prelude.{◌∷◌, []};
ghost use Rattle.amqp_ser.specs.Compounds.{tree_of_parts};
ghost use Rattle.amqp_ser.specs.declared.kind.CompoundKind.TheVariants.{List};

use crate::calls::compounds::SerializeCompounds;
use crate::serialize::Serialize;
use crate::serializer::Serializer;

impl<A: Serialize> Serialize for (A,) {
    ghost tree = { λ t. tree_of_parts List (A.tree t.0 ∷ []) };

    fn serialize<S: Serializer>(&self, serializer: &mut S) -> Result<S::Ok, S::Error> {
        let mut tuple = serializer.serialize_tuple(1)?;
        tuple.serialize_element(&self.0)?;
        tuple.end()
    }
}

impl<A: Serialize, B: Serialize> Serialize for (A, B) {
    ghost tree = { λ t. tree_of_parts List (A.tree t.0 ∷ B.tree t.1 ∷ []) };

    fn serialize<S: Serializer>(&self, serializer: &mut S) -> Result<S::Ok, S::Error> {
        let mut tuple = serializer.serialize_tuple(2)?;
        tuple.serialize_element(&self.0)?;
        tuple.serialize_element(&self.1)?;
        tuple.end()
    }
}

impl<A: Serialize, B: Serialize, C: Serialize> Serialize for (A, B, C) {
    ghost tree = { λ t. tree_of_parts List (A.tree t.0 ∷ B.tree t.1 ∷ C.tree t.2 ∷ []) };

    fn serialize<S: Serializer>(&self, serializer: &mut S) -> Result<S::Ok, S::Error> {
        let mut tuple = serializer.serialize_tuple(3)?;
        tuple.serialize_element(&self.0)?;
        tuple.serialize_element(&self.1)?;
        tuple.serialize_element(&self.2)?;
        tuple.end()
    }
}

impl<A: Serialize, B: Serialize, C: Serialize, D: Serialize> Serialize for (A, B, C, D) {
    ghost tree = { λ t. tree_of_parts List
        (A.tree t.0 ∷ B.tree t.1 ∷ C.tree t.2 ∷ D.tree t.3 ∷ []) };

    fn serialize<S: Serializer>(&self, serializer: &mut S) -> Result<S::Ok, S::Error> {
        let mut tuple = serializer.serialize_tuple(4)?;
        tuple.serialize_element(&self.0)?;
        tuple.serialize_element(&self.1)?;
        tuple.serialize_element(&self.2)?;
        tuple.serialize_element(&self.3)?;
        tuple.end()
    }
}
