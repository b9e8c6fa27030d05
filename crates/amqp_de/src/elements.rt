//! The elements of a tuple, which have no names.

ghost use Rattle.std.specs.Prelude.{[], ◌∷◌};
ghost use Rattle.amqp_de.specs.Fields.{ReadsRequired};
ghost use Rattle.amqp_de.specs.Present.{required};

use crate::deserialize::Deserialize;
use crate::fault::Fault;
use crate::field::{read_elements, read_entries};
use crate::fields::{FieldSeeds, FieldValues};
use crate::seed::Of;
use crate::source::Source;
use std::alloc::Global;
use std::marker::PhantomData;

/// An element of a tuple, and the elements after it: a required field with the empty name. Unlike
/// `Required` it holds no text, so that its values may be of any type parameters.
#[derive(Drop)]
pub(crate) struct Element<V, R> {
    /// The type of the element.
    pub of: PhantomData<V>,
    /// The elements after it; `()` if there are none.
    pub rest: R,
}

impl<V: Deserialize, R: FieldSeeds> FieldSeeds for Element<V, R> {
    type Values = FieldValues<V, R::Values>;

    ghost reads = { λ f x. ReadsRequired [] V.reads x.value (R.reads f.rest x.rest) };

    ghost names = { λ f. [] ∷ R.names f.rest };

    ghost images = { λ x. required (V.image x.value) ∷ R.images x.rest };

    ghost restorable = { λ x. V.restorable x.value × R.restorable x.rest };

    ghost same = { λ x y. V.same x.value y.value × R.same x.rest y.rest };

    #[inline(always)]
    fn read_elements<S: Source>(
        &self,
        alloc: Global,
        elements: S::Elements,
    ) -> Result<FieldValues<V, R::Values>, Fault> {
        read_elements::<Of<V>, R, S>(alloc, "", &self.rest, elements)
    }

    #[inline(always)]
    fn read_entries<S: Source>(
        &self,
        alloc: Global,
        entries: S::Entries,
    ) -> Result<FieldValues<V, R::Values>, Fault> {
        read_entries::<Of<V>, R, S>(alloc, "", &self.rest, entries)
    }
}
