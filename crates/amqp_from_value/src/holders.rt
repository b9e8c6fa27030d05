//! Round trips of types that contain values of other types.

use crate::laws;
use crate::round_trips::RoundTrip;
use amqp_data::{Array, Described, Multiple, TransparentVec};
use amqp_value::Value;
use amqp_value::laws::sound_values_are_their_own_images;

#[tactic(auto, using(crate::proofs::HasImageLemmas::optional_has_image))]
impl<T: RoundTrip> RoundTrip for Option<T> {
    fn law() {
        T::law();
    }
}

impl<T: RoundTrip> RoundTrip for Box<T> {
    fn law() {
        T::law();
    }
}

#[tactic(auto, using(crate::proofs::HasImageLemmas::items_has_image))]
impl<T: RoundTrip> RoundTrip for Vec<T> {
    fn law() {
        laws::lists_return();
        T::law();
    }
}

#[tactic(auto, using(crate::proofs::HasImageLemmas::items_has_image))]
impl<T: RoundTrip, const N: usize> RoundTrip for [T; N] {
    fn law() {
        laws::lists_return();
        T::law();
    }
}

#[tactic(auto, using(crate::proofs::HasImageLemmas::items_has_image))]
impl<T: RoundTrip> RoundTrip for Array<T> {
    fn law() {
        laws::arrays_return();
        T::law();
    }
}

#[tactic(auto, using(crate::proofs::HasImageLemmas::items_has_image))]
impl<T: RoundTrip> RoundTrip for TransparentVec<T> {
    fn law() {
        laws::transparent_vectors_return();
        T::law();
    }
}

impl<T: RoundTrip> RoundTrip for Multiple<T> {
    fn law() {
        T::law();
        <Array<T> as RoundTrip>::law();
    }
}

impl<T: RoundTrip> RoundTrip for Described<T> {
    fn law() {
        laws::described_return();
        T::law();
    }
}

#[tactic(auto, using(amqp_to_value::proofs::ReadLemmas::plain_not_lazy))]
impl RoundTrip for Value {
    fn law() {
        sound_values_are_their_own_images();
    }
}
