//! Round trips of tuples.

use crate::laws;
use crate::round_trips::RoundTrip;

impl<A: RoundTrip> RoundTrip for (A,) {
    fn law() {
        laws::lists_return();
        A::law();
    }
}

impl<A: RoundTrip, B: RoundTrip> RoundTrip for (A, B) {
    fn law() {
        laws::lists_return();
        A::law();
        B::law();
    }
}

impl<A: RoundTrip, B: RoundTrip, C: RoundTrip> RoundTrip for (A, B, C) {
    fn law() {
        laws::lists_return();
        A::law();
        B::law();
        C::law();
    }
}

impl<A: RoundTrip, B: RoundTrip, C: RoundTrip, D: RoundTrip> RoundTrip for (A, B, C, D) {
    fn law() {
        laws::lists_return();
        A::law();
        B::law();
        C::law();
        D::law();
    }
}
