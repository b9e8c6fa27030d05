//! Shapes of fields that are read from a list, an array or a map.

ghost use Rattle.std.specs.Prelude.{◌≡◌, ◌⊎◌, true, IfOk, IfErr, MatchResult};
ghost use Rattle.amqp_ser.specs.Tree.{Trees, list, array, trees_of};
ghost use Rattle.amqp_de.specs.Fields.{OnNamed};
ghost use Rattle.amqp_de.specs.SourceKinds.{source_kind_of};
ghost use Rattle.amqp_de.specs.Present.{IsImage, all_images, short_list, short_map, distinct_names};
ghost use Rattle.amqp_de.specs.Results.{IsMemory, Takes};
ghost use Rattle.amqp_de.specs.declared.source_kind.SourceKind.TheVariants as form;

use crate::fault::Fault;
use crate::fields::FieldSeeds;
use crate::held_parts::Held;
use crate::named_fields::NamedFields;
use crate::seed::Seed;
use crate::shape::{FullListOf, Shape};
use crate::source::Source;
use crate::source_kind::{SourceKind, source_kind_of};
use amqp_ser::{ListOf, MapOf};
use amqp_value::ValueKind;
use std::alloc::Global;

/// Fields that are written as another shape, and read from a list or an array, by position, or
/// from a map, by name. Their names are distinct.
///
/// # Example
/// `AnyOf(ListOf(named! { "x" }))` reads a field from `c0 03 01 50 07` as from the map from the
/// string `x` to the ubyte 7.
#[derive(Drop)]
pub struct AnyOf<X>(pub X);

impl<F: NamedFields + Drop> Shape for AnyOf<ListOf<F>>
where
    F::Values: Drop,
{
    type Value = F::Values;

    ghost names = { λ s. F.names s.0.0 };

    ghost fits = { λ ns. distinct_names ns ≡ true };

    ghost laws = { λ ns. record {
      reads = λ t x. OnNamed (F.reads_by_names ns x) t;
      image = λ x. short_list (F.images x);
      restorable = F.restorable;
      same = F.same;
    } };

    fn read_parts<S: Source>(
        self,
        alloc: Global,
        source: S,
    ) -> Result<(F::Values, S::Rest), Fault> {
        let AnyOf(ListOf(fields)) = self;
        read_any(alloc, fields, source)
    }
}

impl<F: NamedFields + Drop> Shape for AnyOf<FullListOf<F>>
where
    F::Values: Drop,
{
    type Value = F::Values;

    ghost names = { λ s. F.names s.0.0 };

    ghost fits = { λ ns. distinct_names ns ≡ true };

    ghost laws = { λ ns. record {
      reads = λ t x. OnNamed (F.reads_by_names ns x) t;
      image = λ x. list (trees_of (all_images (F.images x)));
      restorable = F.restorable;
      same = F.same;
    } };

    fn read_parts<S: Source>(
        self,
        alloc: Global,
        source: S,
    ) -> Result<(F::Values, S::Rest), Fault> {
        let AnyOf(FullListOf(fields)) = self;
        read_any(alloc, fields, source)
    }
}

impl<F: NamedFields + Drop> Shape for AnyOf<MapOf<F>>
where
    F::Values: Drop,
{
    type Value = F::Values;

    ghost names = { λ s. F.names s.0.0 };

    ghost fits = { λ ns. distinct_names ns ≡ true };

    ghost laws = { λ ns. record {
      reads = λ t x. OnNamed (F.reads_by_names ns x) t;
      image = λ x. short_map ns (F.images x);
      restorable = F.restorable;
      same = F.same;
    } };

    fn read_parts<S: Source>(
        self,
        alloc: Global,
        source: S,
    ) -> Result<(F::Values, S::Rest), Fault> {
        let AnyOf(MapOf(fields)) = self;
        read_any(alloc, fields, source)
    }
}

// Reads fields from a list, an array or a map.
fn read_any<F: NamedFields + Drop, S: Source>(
    alloc: Global,
    fields: F,
    source: S,
) -> Result<(F::Values, S::Rest), Fault>
where
    F::Values: Drop,
    requires { distinct_names (F.names fields) ≡ true }
    ensures read { Takes (λ t x. OnNamed (F.reads_by_names (F.names fields) x) t)
        (S.value source) (S.is_whole source) (S.left source) result }
    ensures law { (x : F.Values) → F.restorable x →
        IsImage (F.names fields) (F.images x) (S.value source) →
        MatchResult result (λ y. F.same y.0 x) (λ e. S.is_whole source → IsMemory e) }
{
    F::names_suffice();
    match source.source_kind() {
        SourceKind::Other => {
            let (value, rest) = match source.untyped(alloc) {
                Ok(read) => read,
                Err(fault) => return Err(fault),
            };
            let found = value.kind();
            match read_as::<F, Held>(alloc, fields, source_kind_of(&value), Held { value }) {
                Ok(read) => Ok((read.0, rest)),
                Err(fault) => Err(fault.in_value(found)),
            }
        }
        form => match read_as::<F, S>(alloc, fields, form, source) {
            Ok(read) => Ok(read),
            Err(fault) => Err(fault),
        },
    }
}

// Reads fields from a value of this kind.
fn read_as<F: FieldSeeds + Drop, S: Source>(
    alloc: Global,
    fields: F,
    form: SourceKind,
    source: S,
) -> Result<(F::Values, S::Rest), Fault>
where
    F::Values: Drop,
    requires { distinct_names (F.names fields) ≡ true }
    ensures read { (S.is_whole source → form ≡ source_kind_of (S.value source)) →
        Takes (λ t x. OnNamed (F.reads fields x) t) (S.value source) (S.is_whole source)
        (S.left source) result }
    ensures law { (S.is_whole source → form ≡ source_kind_of (S.value source)) →
        (x : F.Values) → F.restorable x →
        IsImage (F.names fields) (F.images x) (S.value source) →
        MatchResult result (λ y. F.same y.0 x) (λ e. S.is_whole source → IsMemory e) }
{
    match form {
        SourceKind::List => match ListOf(fields).read(alloc, source) {
            Ok(read) => Ok(read),
            Err(fault) => Err(fault),
        },
        SourceKind::Array => match read_array_fields::<F, S>(alloc, fields, source) {
            Ok(read) => Ok(read),
            Err(fault) => Err(fault),
        },
        SourceKind::Map => match MapOf(fields).read(alloc, source) {
            Ok(read) => Ok(read),
            Err(fault) => Err(fault),
        },
        SourceKind::Uint => Err(Fault::other(None, ValueKind::Uint)),
        SourceKind::Other => Err(Fault::invalid()),
    }
}

// Reads fields from an array.
fn read_array_fields<F: FieldSeeds + Drop, S: Source>(
    alloc: Global,
    fields: F,
    source: S,
) -> Result<(F::Values, S::Rest), Fault>
where
    F::Values: Drop,
    ensures read { IfOk result (λ r. OnNamed (F.reads fields r.0) (S.value source)
        × S.left source r.1) }
    ensures array { IfOk result (λ _. (ts : Trees) × (S.value source ≡ array ts)) }
    ensures err { IfErr result (λ e. S.is_whole source →
        form.Array ≡ source_kind_of (S.value source) →
        IsMemory e ⊎ ((x : F.Values) → ¬ OnNamed (F.reads fields x) (S.value source))) }
{
    let (elements, rest) = match source.array() {
        Ok(opened) => opened,
        Err(fault) => return Err(fault),
    };
    match fields.read_elements::<S>(alloc, elements) {
        Ok(values) => Ok((values, rest)),
        Err(fault) => Err(fault),
    }
}
