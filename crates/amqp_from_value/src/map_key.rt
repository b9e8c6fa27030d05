//! Types that can be keys of maps that round-trip: their images determine their contents.

ghost use Rattle.std.specs.Prelude.{◌≡◌};

use amqp_data::{
    Array, ByteBuf, Dec32, Dec64, Dec128, Described, Descriptor, F32Bits, F64Bits, OrderedMap,
    Symbol, Timestamp, TransparentVec, Uuid,
};
use amqp_de::Deserialize;
use amqp_value::Value;
use std::collections::BTreeMap;
use std::hash::Hash;

/// A type whose restorable values have the same contents if they have the same image.
///
/// # Implementer notes
/// `image_is_injective` is required and does nothing. Its contract is the law. The body calls
/// `image_is_injective` of the type of each field or element.
pub trait MapKey: Deserialize {
    /// States that restorable values with the same image have the same contents.
    fn image_is_injective()
        ensures { (x y : Self) → Self.restorable x → Self.restorable y →
            Self.image x ≡ Self.image y → Self.same x y };
}

impl MapKey for () {
    fn image_is_injective() {}
}

impl MapKey for bool {
    fn image_is_injective() {}
}

impl MapKey for u8 {
    fn image_is_injective() {}
}

impl MapKey for u16 {
    fn image_is_injective() {}
}

impl MapKey for u32 {
    fn image_is_injective() {}
}

impl MapKey for u64 {
    fn image_is_injective() {}
}

impl MapKey for i8 {
    fn image_is_injective() {}
}

impl MapKey for i16 {
    fn image_is_injective() {}
}

impl MapKey for i32 {
    fn image_is_injective() {}
}

impl MapKey for i64 {
    fn image_is_injective() {}
}

impl MapKey for char {
    fn image_is_injective() {}
}

impl MapKey for F32Bits {
    fn image_is_injective() {}
}

impl MapKey for F64Bits {
    fn image_is_injective() {}
}

impl MapKey for Dec32 {
    fn image_is_injective() {}
}

impl MapKey for Dec64 {
    fn image_is_injective() {}
}

impl MapKey for Dec128 {
    fn image_is_injective() {}
}

impl MapKey for Timestamp {
    fn image_is_injective() {}
}

impl MapKey for Uuid {
    fn image_is_injective() {}
}

impl MapKey for ByteBuf {
    fn image_is_injective() {}
}

impl MapKey for String {
    fn image_is_injective() {}
}

impl MapKey for Symbol {
    fn image_is_injective() {}
}

impl MapKey for Descriptor {
    fn image_is_injective() {}
}

impl MapKey for Value {
    fn image_is_injective() {}
}

#[tactic(auto, using(crate::proofs::KeyLemmas::options_told))]
impl<K: MapKey> MapKey for Option<K> {
    fn image_is_injective() {
        K::image_is_injective();
    }
}

impl<K: MapKey> MapKey for Box<K> {
    fn image_is_injective() {
        K::image_is_injective();
    }
}

#[tactic(auto, using(crate::proofs::KeyLemmas::items_told))]
impl<K: MapKey> MapKey for Vec<K> {
    fn image_is_injective() {
        K::image_is_injective();
    }
}

#[tactic(auto, using(crate::proofs::KeyLemmas::items_told))]
impl<K: MapKey> MapKey for Array<K> {
    fn image_is_injective() {
        K::image_is_injective();
    }
}

#[tactic(auto, using(crate::proofs::KeyLemmas::items_told))]
impl<K: MapKey> MapKey for TransparentVec<K> {
    fn image_is_injective() {
        K::image_is_injective();
    }
}

#[tactic(auto, using(crate::proofs::KeyLemmas::items_told))]
impl<K: MapKey, const N: usize> MapKey for [K; N] {
    fn image_is_injective() {
        K::image_is_injective();
    }
}

impl<K: MapKey> MapKey for Described<K> {
    fn image_is_injective() {
        K::image_is_injective();
    }
}

#[tactic(auto, using(crate::proofs::KeyLemmas::entries_told))]
impl<K: MapKey + Ord, V: MapKey> MapKey for BTreeMap<K, V> {
    fn image_is_injective() {
        K::image_is_injective();
        V::image_is_injective();
    }
}

#[tactic(auto, using(crate::proofs::KeyLemmas::entries_told))]
impl<K: MapKey + Hash + Eq, V: MapKey> MapKey for OrderedMap<K, V> {
    fn image_is_injective() {
        K::image_is_injective();
        V::image_is_injective();
    }
}

impl<A: MapKey> MapKey for (A,) {
    fn image_is_injective() {
        A::image_is_injective();
    }
}

impl<A: MapKey, B: MapKey> MapKey for (A, B) {
    fn image_is_injective() {
        A::image_is_injective();
        B::image_is_injective();
    }
}

impl<A: MapKey, B: MapKey, C: MapKey> MapKey for (A, B, C) {
    fn image_is_injective() {
        A::image_is_injective();
        B::image_is_injective();
        C::image_is_injective();
    }
}

impl<A: MapKey, B: MapKey, C: MapKey, D: MapKey> MapKey for (A, B, C, D) {
    fn image_is_injective() {
        A::image_is_injective();
        B::image_is_injective();
        C::image_is_injective();
        D::image_is_injective();
    }
}
