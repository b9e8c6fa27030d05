//! Maps into which entries are inserted one after another.

ghost use Rattle.std.specs.Prelude.{◌≡◌, List, [], ◌∷◌, ◌++◌, IsTrue};
ghost use Rattle.indexmap.specs.IndexMap.{insert_all};
ghost use Rattle.amqp_data.specs.Pairs.{entries_of};
ghost use Rattle.amqp_value.specs.Converts.{inserted_in_order, inserted_sorted};
ghost use Rattle.amqp_value.specs.Inserted.{HoldsHashed};

use amqp_data::{OrderedMap, OrderedMapBuilder};
use indexmap::IndexMap;
use std::alloc::Global;
use std::collections::{BTreeMap, HashMap};
use std::hash::Hash;

/// A map into which entries are inserted.
///
/// # Implementer notes
/// `empty` and `put` are required. No entries and the result of `empty` satisfy `holds`. If some
/// entries and a map satisfy it, so do those entries with one more at the end and the map after a
/// `put` of that entry that returns `true`.
pub trait Inserts<K, V>: Sized + Drop {
    /// States that the map is the result of inserting these entries in order.
    ghost holds: { List (K × V) → Self → Type 0 };

    /// Returns a map without entries, for `count` entries if it makes room.
    fn empty(alloc: Global, count: usize) -> Self
        ensures { holds [] result };

    /// Inserts an entry. Returns `false` if an allocation fails.
    fn put(&mut self, key: K, value: V) -> bool
        ensures { (done : List (K × V)) → IsTrue result →
            holds done self.old → holds (done ++ (key, value) ∷ []) self.new };
}

impl<K: Hash + Eq + Drop, V: Drop> Inserts<K, V> for OrderedMap<K, V> {
    ghost holds = { λ done map. entries_of map ≡ inserted_in_order K.eq done };

    fn empty(alloc: Global, _count: usize) -> OrderedMap<K, V> {
        OrderedMap::new(alloc)
    }

    #[tactic(auto, using(crate::proofs::Zips::fold_pushed))]
    fn put(&mut self, key: K, value: V) -> bool {
        OrderedMap::insert(self, key, value).is_ok()
    }
}

impl<K: Hash + Eq + Drop, V: Drop> Inserts<K, V> for OrderedMapBuilder<K, V> {
    ghost holds = { λ done entries. entries ≡ inserted_in_order K.eq done };

    fn empty(alloc: Global, count: usize) -> OrderedMapBuilder<K, V> {
        OrderedMapBuilder::with_index(alloc, count)
    }

    #[tactic(auto, using(crate::proofs::Zips::fold_pushed))]
    fn put(&mut self, key: K, value: V) -> bool {
        OrderedMapBuilder::insert(self, key, value).is_ok()
    }
}

impl<K: Ord + Drop, V: Drop> Inserts<K, V> for BTreeMap<K, V> {
    ghost holds = { λ done map. map.entries ≡ inserted_sorted K.cmp done };

    fn empty(alloc: Global, _count: usize) -> BTreeMap<K, V> {
        BTreeMap::new(alloc)
    }

    #[tactic(auto, using(crate::proofs::Zips::fold_pushed))]
    fn put(&mut self, key: K, value: V) -> bool {
        BTreeMap::insert(self, key, value).is_ok()
    }
}

impl<K: Hash + Eq + Drop, V: Drop> Inserts<K, V> for IndexMap<K, V> {
    ghost holds = { λ done map. map.entries ≡ insert_all K.eq [] done };

    fn empty(alloc: Global, _count: usize) -> IndexMap<K, V> {
        IndexMap::new(alloc)
    }

    #[tactic(auto, using(crate::proofs::Zips::fold_pushed))]
    fn put(&mut self, key: K, value: V) -> bool {
        IndexMap::insert(self, key, value).is_ok()
    }
}

impl<K: Hash + Eq + Drop, V: Drop> Inserts<K, V> for HashMap<K, V> {
    ghost holds = { HoldsHashed K.eq };

    fn empty(alloc: Global, _count: usize) -> HashMap<K, V> {
        HashMap::new(alloc)
    }

    fn put(&mut self, key: K, value: V) -> bool {
        HashMap::insert(self, key, value).is_ok()
    }
}
