//! Two to four fields and the fields after them, from elements.

ghost use Rattle.std.specs.Prelude.{◌⊎◌, IfOk, IfErr};
ghost use Rattle.amqp_de.specs.Fields.{by_position};
ghost use Rattle.amqp_de.specs.Parts.{ReadsFields, images_of_fields, RestorableFields, SameFields};
ghost use Rattle.amqp_de.specs.Present.{EndsEarly};
ghost use Rattle.amqp_de.specs.Results.{IsMemory};
ghost use Rattle.amqp_de.specs.Steps.{ReadsElements};
ghost use Rattle.amqp_de.specs.declared.fields.FieldValues.{FieldValues};

use crate::fault::Fault;
use crate::field::{next_value, read_elements};
use crate::field_kind::FieldKind;
use crate::fields::{FieldSeeds, FieldValues};
use crate::source::Source;
use std::alloc::Global;

/// Reads two fields and the fields after them from elements, by position.
#[inline(always)]
pub(crate) fn read_two_elements<A: FieldKind, B: FieldKind, R: FieldSeeds, S: Source>(
    alloc: Global,
    first: &'static str,
    second: &'static str,
    others: &R,
    elements: S::Elements,
) -> Result<FieldValues<A::Value, FieldValues<B::Value, R::Values>>, Fault>
    ensures ok { IfOk result (ReadsElements
        (ReadsFields A.absent first.now A.reads
        (ReadsFields B.absent second.now B.reads (R.reads others.now)))
        (images_of_fields A.present A.image (images_of_fields B.present B.image R.images))
        (RestorableFields A.restorable (RestorableFields B.restorable R.restorable))
        (SameFields A.same (SameFields B.same R.same))
        (S.holds elements)) }
    ensures err { IfErr result (λ e. S.are_whole elements → IsMemory e
        ⊎ ((x : FieldValues A.Value (FieldValues B.Value R.Values)) →
        ¬ ReadsFields A.absent first.now A.reads
        (ReadsFields B.absent second.now B.reads (R.reads others.now)) x
        (by_position (S.items elements)))) }
    ensures law { (x : FieldValues A.Value (FieldValues B.Value R.Values)) →
        RestorableFields A.restorable (RestorableFields B.restorable R.restorable) x →
        EndsEarly ((images_of_fields A.present A.image
        (images_of_fields B.present B.image R.images)) x) (S.items elements) →
        IfErr result (λ e. S.are_whole elements → IsMemory e) }
{
    A::law();
    let mut elements = elements;
    let value = match next_value::<A, S>(alloc, first, &mut elements) {
        Ok(value) => value,
        Err(fault) => return Err(fault),
    };
    match read_elements::<B, R, S>(alloc, second, others, elements) {
        Ok(rest) => Ok(FieldValues { value, rest }),
        Err(fault) => Err(fault),
    }
}

/// Reads three fields and the fields after them from elements, by position.
#[inline(always)]
pub(crate) fn read_three_elements<
    A: FieldKind,
    B: FieldKind,
    C: FieldKind,
    R: FieldSeeds,
    S: Source,
>(
    alloc: Global,
    first: &'static str,
    second: &'static str,
    third: &'static str,
    others: &R,
    elements: S::Elements,
) -> Result<FieldValues<A::Value, FieldValues<B::Value, FieldValues<C::Value, R::Values>>>, Fault>
    ensures ok { IfOk result (ReadsElements
        (ReadsFields A.absent first.now A.reads
        (ReadsFields B.absent second.now B.reads
        (ReadsFields C.absent third.now C.reads (R.reads others.now))))
        (images_of_fields A.present A.image (images_of_fields B.present B.image
        (images_of_fields C.present C.image R.images)))
        (RestorableFields A.restorable (RestorableFields B.restorable
        (RestorableFields C.restorable R.restorable)))
        (SameFields A.same (SameFields B.same (SameFields C.same R.same)))
        (S.holds elements)) }
    ensures err { IfErr result (λ e. S.are_whole elements → IsMemory e
        ⊎ ((x : FieldValues A.Value (FieldValues B.Value (FieldValues C.Value R.Values))) →
        ¬ ReadsFields A.absent first.now A.reads
        (ReadsFields B.absent second.now B.reads
        (ReadsFields C.absent third.now C.reads (R.reads others.now))) x
        (by_position (S.items elements)))) }
    ensures law { (x : FieldValues A.Value (FieldValues B.Value (FieldValues C.Value R.Values))) →
        RestorableFields A.restorable (RestorableFields B.restorable
        (RestorableFields C.restorable R.restorable)) x →
        EndsEarly ((images_of_fields A.present A.image
        (images_of_fields B.present B.image
        (images_of_fields C.present C.image R.images))) x) (S.items elements) →
        IfErr result (λ e. S.are_whole elements → IsMemory e) }
{
    A::law();
    let mut elements = elements;
    let value = match next_value::<A, S>(alloc, first, &mut elements) {
        Ok(value) => value,
        Err(fault) => return Err(fault),
    };
    match read_two_elements::<B, C, R, S>(alloc, second, third, others, elements) {
        Ok(rest) => Ok(FieldValues { value, rest }),
        Err(fault) => Err(fault),
    }
}

/// Reads four fields and the fields after them from elements, by position.
#[inline(always)]
pub(crate) fn read_four_elements<
    A: FieldKind,
    B: FieldKind,
    C: FieldKind,
    D: FieldKind,
    R: FieldSeeds,
    S: Source,
>(
    alloc: Global,
    first: &'static str,
    second: &'static str,
    third: &'static str,
    fourth: &'static str,
    others: &R,
    elements: S::Elements,
) -> Result<
    FieldValues<
        A::Value,
        FieldValues<B::Value, FieldValues<C::Value, FieldValues<D::Value, R::Values>>>,
    >,
    Fault,
>
    ensures ok { IfOk result (ReadsElements
        (ReadsFields A.absent first.now A.reads
        (ReadsFields B.absent second.now B.reads
        (ReadsFields C.absent third.now C.reads
        (ReadsFields D.absent fourth.now D.reads (R.reads others.now)))))
        (images_of_fields A.present A.image (images_of_fields B.present B.image
        (images_of_fields C.present C.image (images_of_fields D.present D.image R.images))))
        (RestorableFields A.restorable (RestorableFields B.restorable
        (RestorableFields C.restorable (RestorableFields D.restorable R.restorable))))
        (SameFields A.same (SameFields B.same (SameFields C.same (SameFields D.same R.same))))
        (S.holds elements)) }
    ensures err { IfErr result (λ e. S.are_whole elements → IsMemory e
        ⊎ ((x : FieldValues A.Value (FieldValues B.Value (FieldValues C.Value (FieldValues D.Value R.Values)))) →
        ¬ ReadsFields A.absent first.now A.reads
        (ReadsFields B.absent second.now B.reads
        (ReadsFields C.absent third.now C.reads
        (ReadsFields D.absent fourth.now D.reads (R.reads others.now)))) x
        (by_position (S.items elements)))) }
    ensures law { (x : FieldValues A.Value (FieldValues B.Value (FieldValues C.Value (FieldValues D.Value R.Values)))) →
        RestorableFields A.restorable (RestorableFields B.restorable
        (RestorableFields C.restorable (RestorableFields D.restorable R.restorable))) x →
        EndsEarly ((images_of_fields A.present A.image
        (images_of_fields B.present B.image (images_of_fields C.present C.image
        (images_of_fields D.present D.image R.images)))) x) (S.items elements) →
        IfErr result (λ e. S.are_whole elements → IsMemory e) }
{
    A::law();
    let mut elements = elements;
    let value = match next_value::<A, S>(alloc, first, &mut elements) {
        Ok(value) => value,
        Err(fault) => return Err(fault),
    };
    match read_three_elements::<B, C, D, R, S>(alloc, second, third, fourth, others, elements) {
        Ok(rest) => Ok(FieldValues { value, rest }),
        Err(fault) => Err(fault),
    }
}
