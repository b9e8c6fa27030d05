//! Optional fields. A list ends after its last present field, and a map has no entry for an absent
//! field.

ghost use Rattle.std.specs.Prelude.{◌∷◌, is_some};
ghost use Rattle.amqp_ser.specs.Carried.{optional};

use crate::compound::part::serialize_part;
use crate::fields::{Fields, Keys, serialize_name, serialize_value_and_rest};
use crate::serialize::Serialize;
use crate::serializer::Serializer;

/// An optional field and the fields after it.
///
/// # Example
/// In `fields! { "x"?: &x, "y": true }`, an `x` that is `None` is `40` in a list and is omitted in
/// a map. `Some(1u8)` is `5001` in a list and `a101785001` in a map with string keys.
#[derive(Drop)]
pub struct OptionalField<'a, V, R> {
    /// The field's name.
    pub name: &'a str,
    /// The value of the field; `None` if the field is absent.
    pub value: &'a Option<V>,
    /// The fields after this one; `()` if there are none.
    pub rest: R,
}

impl<V: Serialize, R: Fields> Fields for OptionalField<'_, V, R> {
    ghost field_trees = { λ f. (f.name.now, (is_some f.value.now, optional V.tree f.value.now))
        ∷ R.field_trees f.rest };

    #[inline(always)]
    fn any_there(&self) -> bool {
        self.value.is_some() || self.rest.any_there()
    }

    #[inline(always)]
    fn serialize_list_parts<S: Serializer>(
        &self,
        serializer: &mut S,
        compound: &mut S::Open,
    ) -> Result<(), S::Error> {
        if !self.any_there() {
            return Ok(());
        }
        serialize_part(&mut *serializer, &mut *compound, self.value)?;
        self.rest.serialize_list_parts(serializer, compound)
    }

    #[inline(always)]
    fn serialize_map_parts<S: Serializer>(
        &self,
        serializer: &mut S,
        compound: &mut S::Open,
        keys: Keys,
    ) -> Result<(), S::Error> {
        match self.value {
            None => self.rest.serialize_map_parts(serializer, compound, keys),
            Some(value) => {
                serialize_name(&mut *serializer, &mut *compound, keys, self.name)?;
                serialize_value_and_rest(serializer, compound, keys, value, &self.rest)
            }
        }
    }
}
