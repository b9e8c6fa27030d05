//! Lists: sequences and tuples.

ghost use Rattle.std.specs.Prelude.{◌≡◌, [], List, Option};
ghost use mir.Syntax.{named};
ghost use Rattle.std.specs.Borrow.{Lends, sem};
ghost use Rattle.amqp_ser.specs.Tree.{Tree};
ghost use Rattle.amqp_ser.specs.Compounds.{tree_of_parts};
ghost use Rattle.amqp_ser.specs.OpenCompounds.{list_reference, list_with_serializer, ListHas};
ghost use Rattle.amqp_ser.specs.OpenCompounds.{SerializesListPart};

use super::part::serialize_part;
use crate::kind::CompoundKind;
use crate::serialize::Serialize;
use crate::serializer::Serializer;

/// A list that is being serialized.
///
/// # Encoding
/// A list (AMQP 1.0 part 1, section 1.6.22).
///
/// # Example
/// The strings `a` and `bc`: `c00802a10161a1026263`.
pub struct SerializeSeq<'a, S: Serializer> {
    serializer: &'a mut S,
    compound: S::Open,
}

impl<S: Serializer> Drop for SerializeSeq<'_, S> {
    #[inline(always)]
    fn drop(self)
        ensures { self.exit.0.now ≡ (list_reference self.entry).now }
    {
        let SerializeSeq {
            serializer: _,
            compound: _,
        } = self;
    }
}

impl<'a, S: Serializer> SerializeSeq<'a, S> {
    ghost use Rattle.amqp_ser.specs.contracts.compound.sequence.SerializeSeq.{the_row};

    /// Begins a list in a serializer, as `serialize_seq` does.
    ///
    /// # Encoding
    /// A list (AMQP 1.0 part 1, section 1.6.22).
    ///
    /// # Example
    /// Without elements, the list is `45`.
    #[inline(always)]
    pub fn new(serializer: &'a mut S) -> SerializeSeq<'a, S>
        ensures opened { ListHas S.has serializer.old result [] }
        ensures same_reference { (list_reference result).ghost_name
            ≡ serializer.entry.ghost_name }
    {
        let compound = serializer.begin_compound(CompoundKind::List);
        SerializeSeq {
            serializer,
            compound,
        }
    }

    /// Returns the serializer of the list. The list continues with the state that the caller leaves
    /// in it; the rest of the list is unchanged.
    #[inline(always)]
    pub fn as_mut(&mut self) -> &mut S
        ensures* writes_back { sem 𝓛
            (Lends
            (the_row (record { mir = named 1; lft = [] }) S.row S.Ok.row S.Error.row S.Open.row)
            S.row self.entry result
            (list_with_serializer self.old)) }
        ensures now { result.now ≡ (list_reference self.old).now }
    {
        &mut *self.serializer
    }

    /// Serializes one more element.
    ///
    /// # Errors
    /// Returns the serializer's error for the element. The list is then unchanged and keeps
    /// accepting elements.
    ///
    /// # Example
    /// The string `a` appends `a10161`. Under `Marker::Array` it appends `0000000161`, and the
    /// first element also the constructor `b1`.
    #[inline(always)]
    pub fn serialize_element<T: Serialize>(&mut self, value: &T) -> Result<(), S::Error>
        ensures same { (list_reference self.new).ghost_name
            ≡ (list_reference self.old).ghost_name }
        ensures step { SerializesListPart S.permits S.has
            (T.tree value.now) self.old result self.new }
    {
        serialize_part(&mut *self.serializer, &mut self.compound, value)
    }

    /// Ends the list and returns the serializer's result for the tree of its elements.
    ///
    /// # Errors
    /// Returns the serializer's error for that tree.
    ///
    /// # Example
    /// Without elements: `45`. With the strings `a` and `bc`: `c00802a10161a1026263`.
    #[inline(always)]
    pub fn end(self) -> Result<S::Ok, S::Error>
        ensures { (start : S) (ps : List (Option Tree)) →
            ListHas S.has start self.entry ps →
            S.permits start (tree_of_parts CompoundKind.List ps) result self.exit.0.now }
    {
        let SerializeSeq {
            serializer,
            compound,
        } = self;
        serializer.end(compound)
    }
}

/// A tuple that is being serialized, as a list.
///
/// # Example
/// The ubyte 1 and `true`: `c00402500141`.
pub type SerializeTuple<'a, S> = SerializeSeq<'a, S>;
