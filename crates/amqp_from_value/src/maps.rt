//! Round trips of maps. By the law of `MapKey`, keys with different contents have different images.

use crate::map_key::MapKey;
use crate::round_trips::RoundTrip;
use amqp_data::OrderedMap;
use std::collections::BTreeMap;
use std::hash::Hash;

impl<K: RoundTrip + MapKey + Ord, V: RoundTrip> RoundTrip for BTreeMap<K, V> {
    fn law() {
        K::law();
        K::image_is_injective();
        V::law();
    }
}

impl<K: RoundTrip + MapKey + Hash + Eq, V: RoundTrip> RoundTrip for OrderedMap<K, V> {
    fn law() {
        K::law();
        K::image_is_injective();
        V::law();
    }
}
