//! Shapes: what a type is read from, in terms of its parts. Each has one image.

ghost use Rattle.std.specs.Prelude.{◌≡◌, ℕ, List, [], true};
ghost use Rattle.amqp_ser.specs.Tree.{list, trees_of};
ghost use Rattle.amqp_de.specs.Fields.{OnFields, OnEntries};
ghost use Rattle.amqp_de.specs.Laws.{Laws, by_names};
ghost use Rattle.amqp_de.specs.Present.{all_images, short_list, short_map, distinct_names};
ghost use Rattle.amqp_de.specs.Results.{Takes, Brings};

use crate::deserialize::Deserialize;
use crate::fault::Fault;
use crate::named_fields::NamedFields;
use crate::seed::{Of, Record, Seed};
use crate::source::Source;
use amqp_ser::{ListOf, MapOf};
use std::alloc::Global;

/// What the parts of a type are read from. Its laws are known from the type and the names of the
/// fields, so that an impl can state them.
///
/// # Implementer notes
/// Required method: `read_parts`, with `read` and `law` as in [`Deserialize`] for the members of
/// `laws`. If the names do not matter, `names` is empty and `fits` holds, as of [`Of`].
pub trait Shape: Sized + Drop {
    /// The parts.
    type Value: Drop;

    /// The names of the fields, if these are read from a map.
    ghost names: { Self → List (List ℕ) };

    /// Whether parts with these names can be read: no two fields of a map have the same name.
    ghost fits: { List (List ℕ) → Type 0 };

    /// How the parts are read, with these names.
    ghost laws: { List (List ℕ) → Laws Self.Value };

    /// Reads the parts, and returns what is left.
    ///
    /// # Errors
    /// Returns an error other than out of memory only if the tree is read as no parts, or if the
    /// source is of bytes that were not checked before.
    fn read_parts<S: Source>(
        self,
        alloc: Global,
        source: S,
    ) -> Result<(Self::Value, S::Rest), Fault>
        requires { fits (names self) }
        ensures read { Takes (laws (names self)).reads
            (S.value source) (S.is_whole source) (S.left source) result }
        ensures law { Brings (laws (names self)).image (laws (names self)).restorable
            (laws (names self)).same (S.value source) (S.is_whole source) result };
}

/// A shape of which no name matters.
pub trait Nameless: Shape {
    /// Reads the parts, and returns what is left.
    ///
    /// # Errors
    /// Those of `read_parts`.
    fn read_nameless<S: Source>(
        self,
        alloc: Global,
        source: S,
    ) -> Result<(Self::Value, S::Rest), Fault>
        ensures read { Takes (Self.laws []).reads
            (S.value source) (S.is_whole source) (S.left source) result }
        ensures law { Brings (Self.laws []).image (Self.laws []).restorable (Self.laws []).same
            (S.value source) (S.is_whole source) result };
}

impl<T: Deserialize> Nameless for Of<T> {
    #[inline(always)]
    fn read_nameless<S: Source>(self, alloc: Global, source: S) -> Result<(T, S::Rest), Fault> {
        self.read_parts(alloc, source)
    }
}

impl<F: NamedFields + Drop> Nameless for FullListOf<F>
where
    F::Values: Drop,
{
    #[inline(always)]
    fn read_nameless<S: Source>(
        self,
        alloc: Global,
        source: S,
    ) -> Result<(F::Values, S::Rest), Fault> {
        self.read_parts(alloc, source)
    }
}

/// Reads a value by the parts of a shape, and returns what is left.
///
/// # Errors
/// Those of the shape.
///
/// # Example
/// `read_shaped(alloc, source, ListOf(named! { "x" }))` reads a struct of one field from a list.
#[inline(always)]
pub fn read_shaped<T: Record, S: Source, X: Shape<Value = T::Values>>(
    alloc: Global,
    source: S,
    shape: X,
) -> Result<(T, S::Rest), Fault>
    requires { X.fits (X.names shape) }
    ensures read { Takes (by_names (X.names shape) X.laws T.parts).reads
        (S.value source) (S.is_whole source) (S.left source) result }
    ensures law { Brings (by_names (X.names shape) X.laws T.parts).image
        (by_names (X.names shape) X.laws T.parts).restorable
        (by_names (X.names shape) X.laws T.parts).same
        (S.value source) (S.is_whole source) result }
{
    match shape.read_parts(alloc, source) {
        Ok((values, rest)) => Ok((T::from_parts(values), rest)),
        Err(fault) => Err(fault),
    }
}

/// One value of a type, such as the content of a newtype.
impl<T: Deserialize> Shape for Of<T> {
    type Value = T;

    ghost names = { λ _. [] };

    ghost fits = { λ _. Unit {0} };

    ghost laws = { λ _. record {
      reads = T.reads;
      image = T.image;
      restorable = T.restorable;
      same = T.same;
    } };

    #[inline(always)]
    fn read_parts<S: Source>(self, alloc: Global, source: S) -> Result<(T, S::Rest), Fault> {
        T::read(alloc, source)
    }
}

/// Reads fields from a list that is written with all of them, also absent ones at its end.
#[derive(Drop)]
pub struct FullListOf<F>(pub F);

/// A list of fields, without the absent ones at its end. The names of the fields do not matter.
impl<F: NamedFields + Drop> Shape for ListOf<F>
where
    F::Values: Drop,
{
    type Value = F::Values;

    ghost names = { λ _. [] };

    ghost fits = { λ _. Unit {0} };

    ghost laws = { λ ns. record {
      reads = λ t x. OnFields (F.reads_by_names ns x) t;
      image = λ x. short_list (F.images x);
      restorable = F.restorable;
      same = F.same;
    } };

    #[inline(always)]
    fn read_parts<S: Source>(
        self,
        alloc: Global,
        source: S,
    ) -> Result<(F::Values, S::Rest), Fault> {
        F::names_suffice();
        self.read(alloc, source)
    }
}

/// A list of all fields. The names of the fields do not matter.
impl<F: NamedFields + Drop> Shape for FullListOf<F>
where
    F::Values: Drop,
{
    type Value = F::Values;

    ghost names = { λ _. [] };

    ghost fits = { λ _. Unit {0} };

    ghost laws = { λ ns. record {
      reads = λ t x. OnFields (F.reads_by_names ns x) t;
      image = λ x. list (trees_of (all_images (F.images x)));
      restorable = F.restorable;
      same = F.same;
    } };

    #[inline(always)]
    fn read_parts<S: Source>(
        self,
        alloc: Global,
        source: S,
    ) -> Result<(F::Values, S::Rest), Fault> {
        F::names_suffice();
        ListOf(self.0).read(alloc, source)
    }
}

/// A map of the fields that are present, whose names are distinct.
impl<F: NamedFields + Drop> Shape for MapOf<F>
where
    F::Values: Drop,
{
    type Value = F::Values;

    ghost names = { λ s. F.names s.0 };

    ghost fits = { λ ns. distinct_names ns ≡ true };

    ghost laws = { λ ns. record {
      reads = λ t x. OnEntries (F.reads_by_names ns x) t;
      image = λ x. short_map ns (F.images x);
      restorable = F.restorable;
      same = F.same;
    } };

    #[inline(always)]
    fn read_parts<S: Source>(
        self,
        alloc: Global,
        source: S,
    ) -> Result<(F::Values, S::Rest), Fault> {
        F::names_suffice();
        self.read(alloc, source)
    }
}
