//! The fields of a struct that are read in one call.

ghost use Rattle.std.specs.Prelude.{◌≡◌, ◌⊎◌, ℕ, List, [], ◌∷◌, Bool, true, IfOk, IfErr};
ghost use Rattle.amqp_ser.specs.Tree.{Tree};
ghost use Rattle.amqp_de.specs.Fields.{FieldSource, by_position, by_name, NoMoreFields};
ghost use Rattle.amqp_de.specs.Parts.{ReadsFields, images_of_fields, RestorableFields, SameFields};
ghost use Rattle.amqp_de.specs.Present.{EndsEarly, present_fields, distinct_names};
ghost use Rattle.amqp_de.specs.Reads.{Always};
ghost use Rattle.amqp_de.specs.Results.{IsMemory};
ghost use Rattle.amqp_de.specs.Steps.{ReadsElements, ReadsEntries};

use crate::fault::Fault;
use crate::field::{read_elements, read_entries};
use crate::field_kind::FieldKind;
use crate::source::Source;
use std::alloc::Global;
use std::marker::PhantomData;

/// The fields to read, in order, with their names. The macro `named!` of serde_amqp builds them.
///
/// # Implementer notes
/// Required methods: `read_elements` and `read_entries`. They return values that `reads` relates to
/// the elements or entries (`ok`, `err`), and from the images of restorable fields values with the
/// same contents (`law`). [`One`] reads a field, and leaves the others to `rest`.
pub trait FieldSeeds: Sized {
    /// The values of the fields: [`FieldValues`] of each and the others, and `()` after the last.
    type Values;

    /// Which elements or entries are read as which values.
    ghost reads: { Self → Self.Values → FieldSource → Type 0 };

    /// The names of the fields, in order.
    ghost names: { Self → List (List ℕ) };

    /// Whether each field is present, and its image, in order.
    ghost images: { Self.Values → List (Bool × Tree) };

    /// Whether every field round-trips through its image.
    ghost restorable: { Self.Values → Type 0 };

    /// Whether the fields of two values have the same contents.
    ghost same: { Self.Values → Self.Values → Type 0 };

    /// Reads the fields from elements, by position.
    fn read_elements<S: Source>(
        &self,
        alloc: Global,
        elements: S::Elements,
    ) -> Result<Self::Values, Fault>
        ensures ok { IfOk result
            (ReadsElements (reads self.now) images restorable same (S.holds elements)) }
        ensures err { IfErr result (λ e. S.are_whole elements → IsMemory e
            ⊎ ((x : Self.Values) → ¬ reads self.now x (by_position (S.items elements)))) }
        ensures law { (x : Self.Values) → restorable x → EndsEarly (images x) (S.items elements) →
            IfErr result (λ e. S.are_whole elements → IsMemory e) };

    /// Reads the fields from the entries of a map, by name.
    fn read_entries<S: Source>(
        &self,
        alloc: Global,
        entries: S::Entries,
    ) -> Result<Self::Values, Fault>
        ensures ok { IfOk result (ReadsEntries (reads self.now) (names self.now) images restorable
            same S.needs S.only (S.holds_pairs entries)) }
        ensures err { IfErr result (λ e. S.pairs_whole entries → IsMemory e
            ⊎ ((x : Self.Values) → ¬ reads self.now x (by_name (S.pairs entries)))) }
        ensures law { (x : Self.Values) → restorable x →
            distinct_names (names self.now) ≡ true →
            S.pairs entries ≡ present_fields (names self.now) (images x) →
            IfErr result (λ e. S.pairs_whole entries → IsMemory e) };
}

/// No more fields.
impl FieldSeeds for () {
    type Values = ();

    ghost reads = { λ _ _. NoMoreFields };

    ghost names = { λ _. [] };

    ghost images = { λ _. [] };

    ghost restorable = { Always };

    ghost same = { λ _ _. Unit {0} };

    #[inline(always)]
    fn read_elements<S: Source>(&self, _alloc: Global, elements: S::Elements) -> Result<(), Fault> {
        S::close(elements)
    }

    #[inline(always)]
    fn read_entries<S: Source>(&self, _alloc: Global, entries: S::Entries) -> Result<(), Fault> {
        S::close_entries(entries)
    }
}

/// The value of a field, and the values of the fields after it.
#[derive(Debug, PartialEq, Drop)]
pub struct FieldValues<V, R> {
    /// The value of the field.
    pub value: V,
    /// The values of the fields after it; `()` if there are none.
    pub rest: R,
}

/// A field, and the fields after it.
///
/// # Example
/// `One<Of<u32>, One<Option<bool>, ()>>` is a required `u32` and an optional `bool`.
#[derive(Drop)]
pub struct One<F, R> {
    /// The name of the field.
    pub name: &'static str,
    /// The kind of the field.
    pub of: PhantomData<F>,
    /// The fields after it; `()` if there are none.
    pub rest: R,
}

impl<F: FieldKind, R: FieldSeeds> FieldSeeds for One<F, R> {
    type Values = FieldValues<F::Value, R::Values>;

    ghost reads = { λ f. ReadsFields F.absent f.name.now F.reads (R.reads f.rest) };

    ghost names = { λ f. f.name.now ∷ R.names f.rest };

    ghost images = { images_of_fields F.present F.image R.images };

    ghost restorable = { RestorableFields F.restorable R.restorable };

    ghost same = { SameFields F.same R.same };

    #[inline(always)]
    fn read_elements<S: Source>(
        &self,
        alloc: Global,
        elements: S::Elements,
    ) -> Result<FieldValues<F::Value, R::Values>, Fault> {
        read_elements::<F, R, S>(alloc, self.name, &self.rest, elements)
    }

    #[inline(always)]
    fn read_entries<S: Source>(
        &self,
        alloc: Global,
        entries: S::Entries,
    ) -> Result<FieldValues<F::Value, R::Values>, Fault> {
        read_entries::<F, R, S>(alloc, self.name, &self.rest, entries)
    }
}
