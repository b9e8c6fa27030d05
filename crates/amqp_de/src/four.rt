//! Rows of four fields.

ghost use Rattle.std.specs.Prelude.{◌∷◌};
ghost use Rattle.amqp_de.specs.Parts.{ReadsFields, images_of_fields, RestorableFields, SameFields};

use crate::fault::Fault;
use crate::field_elements::read_four_elements;
use crate::field_entries::read_four_entries;
use crate::field_kind::FieldKind;
use crate::fields::{FieldSeeds, FieldValues};
use crate::source::Source;
use std::alloc::Global;
use std::marker::PhantomData;

/// Four fields, and the fields after them.
///
/// It reads what four [`One`](crate::One), one in another, read. Its type is less deep, so that the
/// impls of a struct of many fields are proved in less time. The values are the same.
///
/// # Example
/// `Four<Of<u64>, Of<String>, Option<bool>, Defaulted<u8, 3>, ()>` is two required fields, an
/// optional one, and one that is 3 if it is absent.
#[derive(Drop)]
pub struct Four<A, B, C, D, R> {
    /// The name of the first field.
    pub first: &'static str,
    /// The name of the second field.
    pub second: &'static str,
    /// The name of the third field.
    pub third: &'static str,
    /// The name of the fourth field.
    pub fourth: &'static str,
    /// The kinds of the four fields.
    pub of: PhantomData<(A, B, C, D)>,
    /// The fields after them; `()` if there are none.
    pub rest: R,
}

impl<A: FieldKind, B: FieldKind, C: FieldKind, D: FieldKind, R: FieldSeeds> FieldSeeds
    for Four<A, B, C, D, R> {
    type Values = FieldValues<
        A::Value,
        FieldValues<B::Value, FieldValues<C::Value, FieldValues<D::Value, R::Values>>>,
    >;

    ghost reads = { λ f. ReadsFields A.absent f.first.now A.reads
        (ReadsFields B.absent f.second.now B.reads (ReadsFields C.absent f.third.now C.reads
        (ReadsFields D.absent f.fourth.now D.reads (R.reads f.rest)))) };

    ghost names = { λ f. f.first.now ∷ f.second.now ∷ f.third.now ∷ f.fourth.now ∷ R.names f.rest };

    ghost images = { images_of_fields A.present A.image (images_of_fields B.present B.image
        (images_of_fields C.present C.image (images_of_fields D.present D.image R.images))) };

    ghost restorable = { RestorableFields A.restorable (RestorableFields B.restorable
        (RestorableFields C.restorable (RestorableFields D.restorable R.restorable))) };

    ghost same = { SameFields A.same
        (SameFields B.same (SameFields C.same (SameFields D.same R.same))) };

    #[inline(always)]
    fn read_elements<S: Source>(
        &self,
        alloc: Global,
        elements: S::Elements,
    ) -> Result<
        FieldValues<
            A::Value,
            FieldValues<B::Value, FieldValues<C::Value, FieldValues<D::Value, R::Values>>>,
        >,
        Fault,
    > {
        read_four_elements::<A, B, C, D, R, S>(
            alloc,
            self.first,
            self.second,
            self.third,
            self.fourth,
            &self.rest,
            elements,
        )
    }

    #[inline(always)]
    fn read_entries<S: Source>(
        &self,
        alloc: Global,
        entries: S::Entries,
    ) -> Result<
        FieldValues<
            A::Value,
            FieldValues<B::Value, FieldValues<C::Value, FieldValues<D::Value, R::Values>>>,
        >,
        Fault,
    > {
        read_four_entries::<A, B, C, D, R, S>(
            alloc,
            self.first,
            self.second,
            self.third,
            self.fourth,
            &self.rest,
            entries,
        )
    }
}
