//! One field and the fields after it: the body that all kinds of fields share.

ghost use Rattle.std.specs.Prelude.{◌≡◌, ◌⊎◌, List, ◌∷◌, Bool, true, ◌&&◌, IfOk, IfErr};
ghost use Rattle.amqp_ser.specs.Tree.{Tree};
ghost use Rattle.amqp_de.specs.Fields.{by_position, by_name, without};
ghost use Rattle.amqp_de.specs.Parts.{ReadsFields, images_of_fields, RestorableFields, SameFields};
ghost use Rattle.amqp_de.specs.Present.{EndsEarly, present_fields, distinct_names};
ghost use Rattle.amqp_de.specs.Results.{IsMemory, ReadsAndRestores};
ghost use Rattle.amqp_de.specs.Steps.{ReadsElements, ReadsEntries, TakesField, TakesNamed, Follows};
ghost use Rattle.amqp_de.specs.Steps.{RefusesValue, RefusesFirst, RefusesNamed, IsRequired};
ghost use Rattle.amqp_de.specs.declared.fields.FieldValues.{FieldValues};

use crate::fault::Fault;
use crate::field_kind::FieldKind;
use crate::fields::{FieldSeeds, FieldValues};
use crate::source::Source;
use std::alloc::Global;

/// Reads the next element, or what an absent field is read as if there is none.
#[inline(always)]
pub(crate) fn next_value<F: FieldKind, S: Source>(
    alloc: Global,
    name: &'static str,
    elements: &mut S::Elements,
) -> Result<F::Value, Fault>
    ensures ok { IfOk result (λ x. (ts : List Tree) → S.holds elements.new ts →
        TakesField (ReadsAndRestores F.reads F.image F.restorable F.same) F.absent
        (S.holds elements.old) ts x) }
    ensures whole { IfOk result (λ _. S.are_whole elements.old →
        S.are_whole elements.new × Follows (S.items elements.old) (S.items elements.new)) }
    ensures err { IfErr result (λ e. S.are_whole elements.old →
        RefusesFirst (RefusesValue F.reads F.image F.restorable (IsMemory e))
        (IsRequired F.absent F.present) (S.items elements.old)) }
{
    let element = match S::next(&mut *elements) {
        Some(element) => element,
        None => return F::read_absent::<S>(name, S::count_read(elements)),
    };
    let (value, rest) = match F::read(alloc, element) {
        Ok(read) => read,
        Err(fault) => return Err(S::placed(fault, name, S::count_read(elements))),
    };
    S::resume(elements, rest);
    Ok(value)
}

/// Reads the value of the key with this name, or what an absent field is read as if there is none.
#[inline(always)]
pub(crate) fn named_value<F: FieldKind, S: Source>(
    alloc: Global,
    name: &'static str,
    entries: &mut S::Entries,
) -> Result<F::Value, Fault>
    ensures ok { IfOk result (λ x. (ps : List (Tree × Tree)) → S.holds_pairs entries.new ps →
        (qs : List (Tree × Tree)) × S.holds_pairs entries.old qs
        × TakesNamed (ReadsAndRestores F.reads F.image F.restorable F.same) F.absent
        S.only S.needs name.now qs ps x) }
    ensures whole { IfOk result (λ x. S.pairs_whole entries.old → S.pairs_whole entries.new
        × (S.pairs entries.new ≡ without name.now (S.pairs entries.old))) }
    ensures err { IfErr result (λ e. S.pairs_whole entries.old →
        RefusesNamed (RefusesValue F.reads F.image F.restorable (IsMemory e))
        (IsRequired F.absent F.present) name.now (S.pairs entries.old)) }
    ensures needs { (a b : Bool) → S.needs (a && b) → S.needs a × S.needs b }
    ensures enough { S.needs true }
{
    let entry = match S::take_named(&mut *entries, name) {
        Some(entry) => entry,
        None => return F::read_absent::<S>(name, None),
    };
    let (value, rest) = match F::read(alloc, entry) {
        Ok(read) => read,
        Err(fault) => return Err(S::placed(fault, name, None)),
    };
    S::resume_entries(entries, rest);
    Ok(value)
}

/// Reads a field and the fields after it from elements, by position.
#[inline(always)]
pub(crate) fn read_elements<F: FieldKind, R: FieldSeeds, S: Source>(
    alloc: Global,
    name: &'static str,
    others: &R,
    elements: S::Elements,
) -> Result<FieldValues<F::Value, R::Values>, Fault>
    ensures ok { IfOk result
        (ReadsElements (ReadsFields F.absent name.now F.reads (R.reads others.now))
        (images_of_fields F.present F.image R.images) (RestorableFields F.restorable R.restorable)
        (SameFields F.same R.same) (S.holds elements)) }
    ensures err { IfErr result (λ e. S.are_whole elements → IsMemory e
        ⊎ ((x : FieldValues F.Value R.Values) →
        ¬ ReadsFields F.absent name.now F.reads (R.reads others.now) x (by_position (S.items elements)))) }
    ensures law { (x : FieldValues F.Value R.Values) →
        RestorableFields F.restorable R.restorable x →
        EndsEarly (images_of_fields F.present F.image R.images x) (S.items elements) →
        IfErr result (λ e. S.are_whole elements → IsMemory e) }
{
    F::law();
    let mut elements = elements;
    let value = match next_value::<F, S>(alloc, name, &mut elements) {
        Ok(value) => value,
        Err(fault) => return Err(fault),
    };
    match others.read_elements::<S>(alloc, elements) {
        Ok(rest) => Ok(FieldValues { value, rest }),
        Err(fault) => Err(fault),
    }
}

/// Reads a field and the fields after it from the entries of a map, by name.
#[inline(always)]
pub(crate) fn read_entries<F: FieldKind, R: FieldSeeds, S: Source>(
    alloc: Global,
    name: &'static str,
    others: &R,
    entries: S::Entries,
) -> Result<FieldValues<F::Value, R::Values>, Fault>
    ensures ok { IfOk result (ReadsEntries
        (ReadsFields F.absent name.now F.reads (R.reads others.now)) (name.now ∷ R.names others.now)
        (images_of_fields F.present F.image R.images) (RestorableFields F.restorable R.restorable)
        (SameFields F.same R.same) S.needs S.only (S.holds_pairs entries)) }
    ensures err { IfErr result (λ e. S.pairs_whole entries → IsMemory e
        ⊎ ((x : FieldValues F.Value R.Values) →
        ¬ ReadsFields F.absent name.now F.reads (R.reads others.now) x (by_name (S.pairs entries)))) }
    ensures law { (x : FieldValues F.Value R.Values) →
        RestorableFields F.restorable R.restorable x →
        distinct_names (name.now ∷ R.names others.now) ≡ true →
        S.pairs entries ≡ present_fields (name.now ∷ R.names others.now)
        (images_of_fields F.present F.image R.images x) →
        IfErr result (λ e. S.pairs_whole entries → IsMemory e) }
{
    F::law();
    let mut entries = entries;
    let value = match named_value::<F, S>(alloc, name, &mut entries) {
        Ok(value) => value,
        Err(fault) => return Err(fault),
    };
    match others.read_entries::<S>(alloc, entries) {
        Ok(rest) => Ok(FieldValues { value, rest }),
        Err(fault) => Err(fault),
    }
}
