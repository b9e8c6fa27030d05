//! Tuple variants: an index and the list of the fields.

ghost use Rattle.std.specs.Prelude.{ℕ, ◌≡◌, [], List, Option};
ghost use mir.Syntax.{named};
ghost use Rattle.std.specs.Borrow.{Lends, sem};
ghost use Rattle.amqp_ser.specs.Tree.{Tree};
ghost use Rattle.amqp_ser.specs.Compounds.{tree_of_parts};
ghost use Rattle.amqp_ser.specs.OpenCompounds.{variant_reference, variant_with_serializer};
ghost use Rattle.amqp_ser.specs.OpenCompounds.{VariantHas, SerializesVariantPart};

use super::part::serialize_part;
use crate::kind::CompoundKind;
use crate::serialize::Serialize;
use crate::serializer::Serializer;

/// A tuple variant that is being serialized.
///
/// # Encoding
/// The map of one pair, from the index as a uint to the list of the fields (AMQP 1.0 part 1,
/// section 1.6.23).
///
/// # Example
/// The index 1, `true` and the ubyte 1: `c109025201c00402415001`.
pub struct SerializeTupleVariant<'a, S: Serializer> {
    serializer: &'a mut S,
    compound: S::Open,
}

impl<S: Serializer> Drop for SerializeTupleVariant<'_, S> {
    #[inline(always)]
    fn drop(self)
        ensures { self.exit.0.now ≡ (variant_reference self.entry).now }
    {
        let SerializeTupleVariant {
            serializer: _,
            compound: _,
        } = self;
    }
}

impl<'a, S: Serializer> SerializeTupleVariant<'a, S> {
    ghost use Rattle.amqp_ser.specs.contracts.compound.variant.SerializeTupleVariant as tuple_variant;

    /// Begins a variant of this index in a serializer, as `serialize_tuple_variant` does.
    ///
    /// # Encoding
    /// A map of one pair (AMQP 1.0 part 1, section 1.6.23).
    ///
    /// # Example
    /// The index 1 without fields is `c10402520145`.
    #[inline(always)]
    pub fn new(serializer: &'a mut S, index: u32) -> SerializeTupleVariant<'a, S>
        ensures opened { VariantHas S.has serializer.old index result [] }
        ensures same_reference { (variant_reference result).ghost_name
            ≡ serializer.entry.ghost_name }
    {
        let compound = serializer.begin_compound(CompoundKind::Variant(index));
        SerializeTupleVariant {
            serializer,
            compound,
        }
    }

    /// Returns the serializer of the variant. The variant continues with the state that the caller
    /// leaves in it; the rest of the variant is unchanged.
    pub fn as_mut(&mut self) -> &mut S
        ensures* writes_back { sem 𝓛
            (Lends
            (tuple_variant.the_row (record { mir = named 1; lft = [] }) S.row S.Ok.row S.Error.row
            S.Open.row) S.row self.entry result
            (variant_with_serializer self.old)) }
        ensures now { result.now ≡ (variant_reference self.old).now }
    {
        &mut *self.serializer
    }

    /// Serializes one more field.
    ///
    /// # Errors
    /// Returns the serializer's error for the field. The variant is then unchanged and keeps
    /// accepting fields.
    ///
    /// # Example
    /// The ubyte 1 appends `5001` to the list of the fields.
    #[inline(always)]
    pub fn serialize_field<T: Serialize>(&mut self, value: &T) -> Result<(), S::Error>
        ensures same { (variant_reference self.new).ghost_name
            ≡ (variant_reference self.old).ghost_name }
        ensures step { SerializesVariantPart S.permits S.has
            (T.tree value.now) self.old result self.new }
    {
        serialize_part(&mut *self.serializer, &mut self.compound, value)
    }

    /// Ends the variant and returns the serializer's result for its tree.
    ///
    /// # Errors
    /// Returns the serializer's error for that tree.
    ///
    /// # Example
    /// The index 1 without fields: `c10402520145`. The index 1, `true` and the ubyte 1:
    /// `c109025201c00402415001`.
    #[inline(always)]
    pub fn end(self) -> Result<S::Ok, S::Error>
        ensures { (start : S) (i : ℕ) (ps : List (Option Tree)) →
            VariantHas S.has start i self.entry ps →
            S.permits start (tree_of_parts (CompoundKind.Variant i) ps) result self.exit.0.now }
    {
        let SerializeTupleVariant {
            serializer,
            compound,
        } = self;
        serializer.end(compound)
    }
}
