//! The fields of a struct, serialized in one call.

ghost use Rattle.std.specs.Prelude.{◌≡◌, ◌∷◌, [], ℕ, List, Option, Bool, true};
ghost use Rattle.amqp_ser.specs.Tree.{Tree};
ghost use Rattle.amqp_ser.specs.CompoundSteps.{SerializesPart, SerializesParts};
ghost use Rattle.amqp_ser.specs.Named.{any_there, named_parts, key_of, up_to_last, values_of};
ghost use Rattle.amqp_ser.specs.declared.kind.CompoundKind.{CompoundKind};

use crate::compound::part::serialize_part;
use crate::serialize::Serialize;
use crate::serializer::Serializer;
use amqp_data::SymbolRef;

/// The type of the keys in a map of fields.
///
/// # Example
/// The name `x` is `a10178` as a string and `a30178` as a symbol.
#[derive(Clone, Copy)]
pub enum Keys {
    /// The names of the fields as strings.
    Strings,
    /// The names of the fields as symbols.
    Symbols,
}

/// The fields of a struct with their names, in order. The macro [`fields!`] builds them.
///
/// # Implementer notes
/// `field_trees` lists the fields: name, presence and tree. `serialize_list_parts` and
/// `serialize_map_parts` append the parts that `field_trees` determines to those that the compound
/// already has. An error must be permitted for every continuation of the compound.
///
/// # Example
/// `fields! { "x": 1u8, "y": true }` is `c00402500141` as a list, and `c10a04a101785001a1017941` as
/// a map with string keys.
pub trait Fields {
    /// The fields in order: the name, whether the field is present, and the tree.
    ghost field_trees: { Self → List (List ℕ × (Bool × Option Tree)) };

    /// Returns whether at least one field is present.
    ///
    /// # Example
    /// Only an absent `y`: `false`, and the list is `45`. With `x`, the ubyte 1, after it: `true`,
    /// and the list is `c00402405001`.
    fn any_there(&self) -> bool
        ensures { result ≡ any_there (values_of (field_trees self.now)) };

    /// Serializes the fields up to the last present one into an open compound.
    ///
    /// # Errors
    /// Returns the serializer's error for a field.
    ///
    /// # Example
    /// The fields `x`, the ubyte 1, and `y`, absent, are one element, `5001`. If `y` comes first,
    /// they are `40` and `5001`.
    fn serialize_list_parts<S: Serializer>(
        &self,
        serializer: &mut S,
        compound: &mut S::Open,
    ) -> Result<(), S::Error>
        ensures { SerializesParts S.permits S.has
            (up_to_last (values_of (field_trees self.now))) serializer.old
            compound.old result serializer.new compound.new };

    /// Serializes the name, as a key, and the value of each present field into an open compound.
    ///
    /// # Errors
    /// Returns the serializer's error for a name or a field.
    ///
    /// # Example
    /// The fields `x`, the ubyte 1, and `y`, absent, are `a301785001` with symbols as keys.
    fn serialize_map_parts<S: Serializer>(
        &self,
        serializer: &mut S,
        compound: &mut S::Open,
        keys: Keys,
    ) -> Result<(), S::Error>
        ensures { SerializesParts S.permits S.has (named_parts (key_of keys) (field_trees self.now))
            serializer.old compound.old result serializer.new compound.new };
}

/// Serializes the name of a field as a key of an open compound.
#[inline(always)]
pub(crate) fn serialize_name<S: Serializer>(
    serializer: &mut S,
    compound: &mut S::Open,
    keys: Keys,
    name: &str,
) -> Result<(), S::Error>
    ensures { (kind : CompoundKind) →
        SerializesPart S.permits S.has kind (key_of keys name.now) serializer.old compound.old result
        serializer.new compound.new }
{
    match keys {
        Keys::Strings => serialize_part(serializer, compound, &name),
        Keys::Symbols => serialize_part(serializer, compound, &SymbolRef::from(name)),
    }
}

/// Serializes a value, then the name and the value of each remaining field that is present.
#[inline(always)]
pub(crate) fn serialize_value_and_rest<S: Serializer, V: Serialize, R: Fields>(
    serializer: &mut S,
    compound: &mut S::Open,
    keys: Keys,
    value: &V,
    rest: &R,
) -> Result<(), S::Error>
    ensures { SerializesParts S.permits S.has
        (V.tree value.now ∷ named_parts (key_of keys)
        (R.field_trees rest.now)) serializer.old compound.old
        result serializer.new compound.new }
{
    serialize_part(&mut *serializer, &mut *compound, value)?;
    rest.serialize_map_parts(serializer, compound, keys)
}

impl Fields for () {
    ghost field_trees = { λ _. [] };

    #[inline(always)]
    fn any_there(&self) -> bool {
        false
    }

    #[inline(always)]
    fn serialize_list_parts<S: Serializer>(
        &self,
        _serializer: &mut S,
        _compound: &mut S::Open,
    ) -> Result<(), S::Error> {
        Ok(())
    }

    #[inline(always)]
    fn serialize_map_parts<S: Serializer>(
        &self,
        _serializer: &mut S,
        _compound: &mut S::Open,
        _keys: Keys,
    ) -> Result<(), S::Error> {
        Ok(())
    }
}

/// A required field and the fields after it.
///
/// # Example
/// `fields! { "x": 1u8 }` is one: `5001` in a list, `a101785001` in a map with string keys.
#[derive(Drop)]
pub struct Field<'a, V, R> {
    /// The field's name.
    pub name: &'a str,
    /// The value of the field, or a reference to it.
    pub value: V,
    /// The fields after this one; `()` if there are none.
    pub rest: R,
}

impl<V: Serialize, R: Fields> Fields for Field<'_, V, R> {
    ghost field_trees = { λ f. (f.name.now, (true, V.tree f.value)) ∷ R.field_trees f.rest };

    #[inline(always)]
    fn any_there(&self) -> bool {
        true
    }

    #[inline(always)]
    fn serialize_list_parts<S: Serializer>(
        &self,
        serializer: &mut S,
        compound: &mut S::Open,
    ) -> Result<(), S::Error> {
        serialize_part(&mut *serializer, &mut *compound, &self.value)?;
        self.rest.serialize_list_parts(serializer, compound)
    }

    #[inline(always)]
    fn serialize_map_parts<S: Serializer>(
        &self,
        serializer: &mut S,
        compound: &mut S::Open,
        keys: Keys,
    ) -> Result<(), S::Error> {
        serialize_name(&mut *serializer, &mut *compound, keys, self.name)?;
        serialize_value_and_rest(serializer, compound, keys, &self.value, &self.rest)
    }
}
