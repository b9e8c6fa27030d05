//! Look-ups by hash in a map that is read often.

ghost use Rattle.std.specs.Prelude.{◌≡◌, IfOk, IfErr};
ghost use Rattle.std.specs.Map.{lookup};
ghost use Rattle.std.specs.Option.{option_copied};
ghost use Rattle.amqp_data.specs.Pairs.{entries_of};

use crate::distinct_keys::index_all;
use crate::index::find_indexed;
use crate::{Error, OrderedMap};
use std::alloc::Global;
use std::hash::Hash;
use std::marker::Model;

/// An index of the keys of a map, which it borrows. In contracts, it is the list of the entries.
///
/// # Memory
/// 12 bytes for each entry.
///
/// # Example
/// For the map encoded as `c10704500241500142`, the index finds `true` at 2 and `false` at 1.
#[derive(Drop)]
pub struct MapIndex<'a, K: Hash + Eq, V> {
    entries: &'a [(K, V)],
    heads: Vec<u32>,
    earlier: Vec<u32>,
}

impl<'a, K: Hash + Eq, V> Model for MapIndex<'a, K, V> {
    ghost use Rattle.std.specs.Prelude.{List, ◌<◌, length};
    ghost use Rattle.std.specs.Coded.{coded_list, coded×};
    ghost use Rattle.amqp_data.specs.Index.{IsIndexed};

    ghost Value = { List (K × V) };

    ghost coded = { coded_list (coded× K.code V.code) };

    ghost view = { λ m. m.entries.now };

    ghost invariant = { λ m. 0 < length m.heads.items →
        IsIndexed K.eq K.hash_input m.heads.items m.earlier.items m.entries.now };
}

impl<K: Hash + Eq, V> OrderedMap<K, V> {
    /// Returns an index of the keys, for a map that is read often.
    ///
    /// It hashes each key once. If many keys have hashes in the same bucket, so that more than two
    /// comparisons for each entry would be needed, the keys are searched in order instead. The hash
    /// has a fixed seed.
    ///
    /// # Errors
    /// Returns `Error::OutOfMemory` if an allocation fails.
    ///
    /// # Memory
    /// Allocates two blocks from `alloc`, of 12 bytes for each entry together.
    ///
    /// # Example
    /// For the map encoded as `c10704500241500142`, the index finds `true` at 2 and `false` at 1.
    pub fn lookup(&self, alloc: Global) -> Result<MapIndex<'_, K, V>, Error>
        ensures ok { IfOk result (λ index. index ≡ entries_of self.now) }
        ensures memory { IfErr result (λ e. e ≡ Error.OutOfMemory) }
    {
        let entries = self.as_slice();
        let (heads, earlier) = index_all(alloc, entries)?;
        Ok(MapIndex {
            entries,
            heads,
            earlier,
        })
    }
}

impl<'a, K: Hash + Eq, V> MapIndex<'a, K, V> {
    /// Returns the value of the key, if the key is present, by the hash of the key.
    ///
    /// # Example
    /// For the map encoded as `c10704500241500142`, 2 gives `Some(&true)` and 3 gives `None`.
    pub fn get(&self, key: &K) -> Option<&'a V>
        ensures { option_copied result ≡ lookup (K.eq key.now) self.now }
    {
        let entries = self.entries;
        match find_indexed(entries, &self.heads, &self.earlier, key) {
            Some(at) => Some(&entries[at].1),
            None => None,
        }
    }
}
