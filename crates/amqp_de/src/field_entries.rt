//! Two to four fields and the fields after them, from the entries of a map.

ghost use Rattle.std.specs.Prelude.{◌≡◌, ◌⊎◌, ◌∷◌, true, IfOk, IfErr};
ghost use Rattle.amqp_de.specs.Fields.{by_name};
ghost use Rattle.amqp_de.specs.Parts.{ReadsFields, images_of_fields, RestorableFields, SameFields};
ghost use Rattle.amqp_de.specs.Present.{present_fields, distinct_names};
ghost use Rattle.amqp_de.specs.Results.{IsMemory};
ghost use Rattle.amqp_de.specs.Steps.{ReadsEntries};
ghost use Rattle.amqp_de.specs.declared.fields.FieldValues.{FieldValues};

use crate::fault::Fault;
use crate::field::{named_value, read_entries};
use crate::field_kind::FieldKind;
use crate::fields::{FieldSeeds, FieldValues};
use crate::source::Source;
use std::alloc::Global;

/// Reads two fields and the fields after them from the entries of a map, by name.
#[inline(always)]
pub(crate) fn read_two_entries<A: FieldKind, B: FieldKind, R: FieldSeeds, S: Source>(
    alloc: Global,
    first: &'static str,
    second: &'static str,
    others: &R,
    entries: S::Entries,
) -> Result<FieldValues<A::Value, FieldValues<B::Value, R::Values>>, Fault>
    ensures ok { IfOk result (ReadsEntries
        (ReadsFields A.absent first.now A.reads
        (ReadsFields B.absent second.now B.reads (R.reads others.now)))
        (first.now ∷ second.now ∷ R.names others.now)
        (images_of_fields A.present A.image (images_of_fields B.present B.image R.images))
        (RestorableFields A.restorable (RestorableFields B.restorable R.restorable))
        (SameFields A.same (SameFields B.same R.same))
        S.needs S.only (S.holds_pairs entries)) }
    ensures err { IfErr result (λ e. S.pairs_whole entries → IsMemory e
        ⊎ ((x : FieldValues A.Value (FieldValues B.Value R.Values)) →
        ¬ ReadsFields A.absent first.now A.reads
        (ReadsFields B.absent second.now B.reads (R.reads others.now)) x
        (by_name (S.pairs entries)))) }
    ensures law { (x : FieldValues A.Value (FieldValues B.Value R.Values)) →
        RestorableFields A.restorable (RestorableFields B.restorable R.restorable) x →
        distinct_names (first.now ∷ second.now ∷ R.names others.now) ≡ true →
        S.pairs entries ≡ present_fields (first.now ∷ second.now ∷ R.names others.now)
        ((images_of_fields A.present A.image (images_of_fields B.present B.image R.images)) x) →
        IfErr result (λ e. S.pairs_whole entries → IsMemory e) }
{
    A::law();
    let mut entries = entries;
    let value = match named_value::<A, S>(alloc, first, &mut entries) {
        Ok(value) => value,
        Err(fault) => return Err(fault),
    };
    match read_entries::<B, R, S>(alloc, second, others, entries) {
        Ok(rest) => Ok(FieldValues { value, rest }),
        Err(fault) => Err(fault),
    }
}

/// Reads three fields and the fields after them from the entries of a map, by name.
#[inline(always)]
pub(crate) fn read_three_entries<
    A: FieldKind,
    B: FieldKind,
    C: FieldKind,
    R: FieldSeeds,
    S: Source,
>(
    alloc: Global,
    first: &'static str,
    second: &'static str,
    third: &'static str,
    others: &R,
    entries: S::Entries,
) -> Result<FieldValues<A::Value, FieldValues<B::Value, FieldValues<C::Value, R::Values>>>, Fault>
    ensures ok { IfOk result (ReadsEntries
        (ReadsFields A.absent first.now A.reads
        (ReadsFields B.absent second.now B.reads
        (ReadsFields C.absent third.now C.reads (R.reads others.now))))
        (first.now ∷ second.now ∷ third.now ∷ R.names others.now)
        (images_of_fields A.present A.image (images_of_fields B.present B.image
        (images_of_fields C.present C.image R.images)))
        (RestorableFields A.restorable (RestorableFields B.restorable
        (RestorableFields C.restorable R.restorable)))
        (SameFields A.same (SameFields B.same (SameFields C.same R.same)))
        S.needs S.only (S.holds_pairs entries)) }
    ensures err { IfErr result (λ e. S.pairs_whole entries → IsMemory e
        ⊎ ((x : FieldValues A.Value (FieldValues B.Value (FieldValues C.Value R.Values))) →
        ¬ ReadsFields A.absent first.now A.reads
        (ReadsFields B.absent second.now B.reads
        (ReadsFields C.absent third.now C.reads (R.reads others.now))) x
        (by_name (S.pairs entries)))) }
    ensures law { (x : FieldValues A.Value (FieldValues B.Value (FieldValues C.Value R.Values))) →
        RestorableFields A.restorable (RestorableFields B.restorable
        (RestorableFields C.restorable R.restorable)) x →
        distinct_names (first.now ∷ second.now ∷ third.now ∷ R.names others.now) ≡ true →
        S.pairs entries ≡ present_fields (first.now ∷ second.now ∷ third.now ∷ R.names others.now)
        ((images_of_fields A.present A.image (images_of_fields B.present B.image
        (images_of_fields C.present C.image R.images))) x) →
        IfErr result (λ e. S.pairs_whole entries → IsMemory e) }
{
    A::law();
    let mut entries = entries;
    let value = match named_value::<A, S>(alloc, first, &mut entries) {
        Ok(value) => value,
        Err(fault) => return Err(fault),
    };
    match read_two_entries::<B, C, R, S>(alloc, second, third, others, entries) {
        Ok(rest) => Ok(FieldValues { value, rest }),
        Err(fault) => Err(fault),
    }
}

/// Reads four fields and the fields after them from the entries of a map, by name.
#[inline(always)]
pub(crate) fn read_four_entries<
    A: FieldKind,
    B: FieldKind,
    C: FieldKind,
    D: FieldKind,
    R: FieldSeeds,
    S: Source,
>(
    alloc: Global,
    first: &'static str,
    second: &'static str,
    third: &'static str,
    fourth: &'static str,
    others: &R,
    entries: S::Entries,
) -> Result<
    FieldValues<
        A::Value,
        FieldValues<B::Value, FieldValues<C::Value, FieldValues<D::Value, R::Values>>>,
    >,
    Fault,
>
    ensures ok { IfOk result (ReadsEntries
        (ReadsFields A.absent first.now A.reads
        (ReadsFields B.absent second.now B.reads
        (ReadsFields C.absent third.now C.reads
        (ReadsFields D.absent fourth.now D.reads (R.reads others.now)))))
        (first.now ∷ second.now ∷ third.now ∷ fourth.now ∷ R.names others.now)
        (images_of_fields A.present A.image (images_of_fields B.present B.image
        (images_of_fields C.present C.image (images_of_fields D.present D.image R.images))))
        (RestorableFields A.restorable (RestorableFields B.restorable
        (RestorableFields C.restorable (RestorableFields D.restorable R.restorable))))
        (SameFields A.same (SameFields B.same (SameFields C.same (SameFields D.same R.same))))
        S.needs S.only (S.holds_pairs entries)) }
    ensures err { IfErr result (λ e. S.pairs_whole entries → IsMemory e
        ⊎ ((x : FieldValues A.Value (FieldValues B.Value (FieldValues C.Value (FieldValues D.Value R.Values)))) →
        ¬ ReadsFields A.absent first.now A.reads
        (ReadsFields B.absent second.now B.reads
        (ReadsFields C.absent third.now C.reads
        (ReadsFields D.absent fourth.now D.reads (R.reads others.now)))) x
        (by_name (S.pairs entries)))) }
    ensures law { (x : FieldValues A.Value (FieldValues B.Value (FieldValues C.Value (FieldValues D.Value R.Values)))) →
        RestorableFields A.restorable (RestorableFields B.restorable
        (RestorableFields C.restorable (RestorableFields D.restorable R.restorable))) x →
        distinct_names (first.now ∷ second.now ∷ third.now ∷ fourth.now ∷ R.names others.now) ≡ true →
        S.pairs entries ≡ present_fields (first.now ∷ second.now ∷ third.now ∷ fourth.now ∷ R.names others.now)
        ((images_of_fields A.present A.image (images_of_fields B.present B.image
        (images_of_fields C.present C.image (images_of_fields D.present D.image R.images)))) x) →
        IfErr result (λ e. S.pairs_whole entries → IsMemory e) }
{
    A::law();
    let mut entries = entries;
    let value = match named_value::<A, S>(alloc, first, &mut entries) {
        Ok(value) => value,
        Err(fault) => return Err(fault),
    };
    match read_three_entries::<B, C, D, R, S>(alloc, second, third, fourth, others, entries) {
        Ok(rest) => Ok(FieldValues { value, rest }),
        Err(fault) => Err(fault),
    }
}
