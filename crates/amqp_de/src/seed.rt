//! Seeds, which read one value as a type, as fields, or after a descriptor.

ghost use Rattle.std.specs.Prelude.{◌≡◌, ◌↔◌, IsTrue, ℕ, List, true};
ghost use Rattle.amqp_data.specs.Text.{symbol_ref_text};
ghost use Rattle.amqp_ser.specs.Carried.{descriptor_content};
ghost use Rattle.amqp_ser.specs.Tree.{Tree, Descriptor as AnyDescriptor};
ghost use Rattle.amqp_ser.specs.Tree.{code, name, list, described, trees_of};
ghost use Rattle.amqp_de.specs.Fields.{OnFields, OnEntries, OnDescribed};
ghost use Rattle.amqp_de.specs.Present.{all_images, short_list, short_map, distinct_names};
ghost use Rattle.amqp_de.specs.Results.{Takes, Brings};

use crate::deserialize::Deserialize;
use crate::fault::Fault;
use crate::fields::FieldSeeds;
use crate::source::Source;
use amqp_data::{Descriptor, SymbolRef};
use amqp_ser::{ListOf, MapOf};
use std::alloc::Global;
use std::marker::PhantomData;

/// Reads one value as a type, as fields, or after a descriptor.
///
/// # Implementer notes
/// Required method: `read`, which opens the source. `read` states that the tree is read as the
/// value, or as none; `law` and `short` that a restorable value comes back from its two images,
/// unless an allocation fails. [`Of`] is the shortest impl.
pub trait Seed: Sized + Drop {
    /// The type of the value that is read.
    type Value: Drop;

    /// Which trees are read as which values.
    ghost reads: { Self → Tree → Self.Value → Type 0 };

    /// The tree of the untyped value that represents a value.
    ghost image: { Self → Self.Value → Tree };

    /// The same without absent fields: in a list those at the end, in a map all of them.
    ghost short: { Self → Self.Value → Tree };

    /// Whether a value round-trips through its images.
    ghost restorable: { Self → Self.Value → Type 0 };

    /// Whether two values have the same contents.
    ghost same: { Self → Self.Value → Self.Value → Type 0 };

    /// Whether the seed can be used: the names of the fields of a map are distinct.
    ghost fits: { Self → Type 0 };

    /// Reads a value, and returns what is left.
    fn read<S: Source>(self, alloc: Global, source: S) -> Result<(Self::Value, S::Rest), Fault>
        requires { fits self }
        ensures read { Takes (reads self)
            (S.value source) (S.is_whole source) (S.left source) result }
        ensures law { Brings (image self) (restorable self) (same self)
            (S.value source) (S.is_whole source) result }
        ensures short { Brings (short self) (restorable self) (same self)
            (S.value source) (S.is_whole source) result };
}

/// A seed that reads a value of the type `T`.
#[derive(Drop)]
pub struct Of<T>(pub PhantomData<T>);

impl<T: Deserialize> Seed for Of<T> {
    type Value = T;

    ghost reads = { λ _. T.reads };

    ghost image = { λ _. T.image };

    ghost short = { λ _. T.image };

    ghost restorable = { λ _. T.restorable };

    ghost same = { λ _. T.same };

    ghost fits = { λ _. Unit {0} };

    #[inline(always)]
    fn read<S: Source>(self, alloc: Global, source: S) -> Result<(T, S::Rest), Fault> {
        T::read(alloc, source)
    }
}

/// Reads fields from a list.
impl<F: FieldSeeds + Drop> Seed for ListOf<F>
where
    F::Values: Drop,
{
    type Value = F::Values;

    ghost reads = { λ s t x. OnFields (F.reads s.0 x) t };

    ghost image = { λ _ x. list (trees_of (all_images (F.images x))) };

    ghost short = { λ _ x. short_list (F.images x) };

    ghost restorable = { λ _. F.restorable };

    ghost same = { λ _. F.same };

    ghost fits = { λ _. Unit {0} };

    #[inline(always)]
    fn read<S: Source>(self, alloc: Global, source: S) -> Result<(F::Values, S::Rest), Fault> {
        let (elements, rest) = match source.list() {
            Ok(opened) => opened,
            Err(fault) => return Err(fault),
        };
        match self.0.read_elements::<S>(alloc, elements) {
            Ok(values) => Ok((values, rest)),
            Err(fault) => Err(fault),
        }
    }
}

/// Reads fields from a map, by their names, which are distinct.
impl<F: FieldSeeds + Drop> Seed for MapOf<F>
where
    F::Values: Drop,
{
    type Value = F::Values;

    ghost reads = { λ s t x. OnEntries (F.reads s.0 x) t };

    ghost image = { λ s x. short_map (F.names s.0) (F.images x) };

    ghost short = { λ s x. short_map (F.names s.0) (F.images x) };

    ghost restorable = { λ _. F.restorable };

    ghost same = { λ _. F.same };

    ghost fits = { λ s. distinct_names (F.names s.0) ≡ true };

    #[inline(always)]
    fn read<S: Source>(self, alloc: Global, source: S) -> Result<(F::Values, S::Rest), Fault> {
        let (entries, rest) = match source.map() {
            Ok(opened) => opened,
            Err(fault) => return Err(fault),
        };
        match self.0.read_entries::<S>(alloc, entries) {
            Ok(values) => Ok((values, rest)),
            Err(fault) => Err(fault),
        }
    }
}

/// A descriptor that a value must have.
///
/// # Implementer notes
/// Required method: `is`, which compares a descriptor with `wanted`. The impl for `u64` accepts a
/// code alone.
pub trait Describes {
    /// The descriptor.
    ghost wanted: { Self → AnyDescriptor };

    /// Returns `true` if and only if `descriptor` is this one.
    ///
    /// # Example
    /// `1u64` accepts only `Descriptor::Code(1)`, and `SymbolRef::from("a:b")` only the name `a:b`.
    fn is(&self, descriptor: &Descriptor) -> bool
        ensures { IsTrue result ↔ descriptor_content descriptor.now ≡ wanted self.now };
}

impl Describes for u64 {
    ghost wanted = { code };

    #[inline(always)]
    fn is(&self, descriptor: &Descriptor) -> bool {
        match descriptor {
            Descriptor::Code(code) => *code == *self,
            Descriptor::Name(_) => false,
        }
    }
}

impl Describes for SymbolRef<'_> {
    ghost wanted = { λ s. name (symbol_ref_text s) };

    fn is(&self, descriptor: &Descriptor) -> bool {
        match descriptor {
            Descriptor::Code(_) => false,
            Descriptor::Name(symbol) => symbol.as_inner().as_str() == self.as_inner(),
        }
    }
}

/// A descriptor that is a symbol, given by its text.
impl Describes for &str {
    ghost wanted = { λ s. name s.now };

    fn is(&self, descriptor: &Descriptor) -> bool {
        match descriptor {
            Descriptor::Code(_) => false,
            Descriptor::Name(symbol) => symbol.as_inner().as_str() == *self,
        }
    }
}

/// A seed that reads what another seed reads, after a descriptor.
#[derive(Drop)]
pub struct After<K, X>(pub K, pub X);

impl<K: Describes + Drop, X: Seed> Seed for After<K, X> {
    type Value = X::Value;

    ghost reads = { λ s t x. OnDescribed (K.wanted s.0) (λ u. X.reads s.1 u x) t };

    ghost image = { λ s x. described (K.wanted s.0) (X.image s.1 x) };

    ghost short = { λ s x. described (K.wanted s.0) (X.short s.1 x) };

    ghost restorable = { λ s. X.restorable s.1 };

    ghost same = { λ s. X.same s.1 };

    ghost fits = { λ s. X.fits s.1 };

    #[inline(always)]
    fn read<S: Source>(self, alloc: Global, source: S) -> Result<(X::Value, S::Rest), Fault> {
        let (found, inner) = match source.described(alloc) {
            Ok(opened) => opened,
            Err(fault) => return Err(fault),
        };
        if !self.0.is(&found) {
            return Err(Fault::other_descriptor());
        }
        drop(found);
        let After(_, seed) = self;
        match seed.read(alloc, inner) {
            Ok(read) => Ok(read),
            Err(fault) => Err(fault),
        }
    }
}

/// A type whose values are read by their parts, such as the fields of a struct.
pub trait Record: Sized + Drop {
    /// The parts, as a seed returns them.
    type Values: Drop;

    /// The parts of a value.
    ghost parts: { Self → Self.Values };

    /// Builds a value from its parts.
    fn from_parts(values: Self::Values) -> Self
        ensures { parts result ≡ values };
}

/// Reads a value by its parts.
#[inline(always)]
pub fn read<T: Record, S: Source, X: Seed<Value = T::Values>>(
    alloc: Global,
    source: S,
    seed: X,
) -> Result<(T, S::Rest), Fault>
    requires { X.fits seed }
    ensures read { Takes (λ t x. X.reads seed t (T.parts x))
        (S.value source) (S.is_whole source) (S.left source) result }
    ensures law { Brings (λ x. X.image seed (T.parts x)) (λ x. X.restorable seed (T.parts x))
        (λ x y. X.same seed (T.parts x) (T.parts y)) (S.value source) (S.is_whole source) result }
    ensures short { Brings (λ x. X.short seed (T.parts x)) (λ x. X.restorable seed (T.parts x))
        (λ x y. X.same seed (T.parts x) (T.parts y)) (S.value source) (S.is_whole source) result }
{
    match seed.read(alloc, source) {
        Ok((values, rest)) => Ok((T::from_parts(values), rest)),
        Err(fault) => Err(fault),
    }
}

/// A type whose fields have names that differ.
pub trait Named {
    /// The names of the fields, in order.
    ghost names: { List (List ℕ) };

    /// States that no two names are equal.
    fn names_are_distinct()
        ensures { distinct_names names ≡ true };
}
