//! Maps that are built by insertion of many entries.

ghost use Rattle.std.specs.Prelude.{◌≡◌, [], IsOk, IfOk, IfErr, OnOk, OnErr, IsSome};
ghost use Rattle.std.specs.Map.{lookup};
ghost use Rattle.amqp_data.specs.Pairs.{entries_of, insert_pair};

use crate::index::{add_last, index_entries, locate};
use crate::{Error, OrderedMap};
use std::alloc::Global;
use std::hash::Hash;
use std::marker::Model;
use std::mem;

/// A map that is being built. It is a list of entries, and no two of its keys are equal.
///
/// The calls behave as those of [`OrderedMap`], but many keys are found by their hashes: a key is
/// compared with those in its bucket alone. An insertion after which there are more entries than
/// buckets makes the index anew, twice as large, and hashes all keys.
#[derive(Drop)]
pub struct OrderedMapBuilder<K: Hash + Eq, V> {
    entries: Vec<(K, V)>,
    heads: Vec<u32>,
    earlier: Vec<u32>,
}

impl<K: Hash + Eq, V> Model for OrderedMapBuilder<K, V> {
    ghost use Rattle.std.specs.Prelude.{List};
    ghost use Rattle.std.specs.Coded.{coded_list, coded×};
    ghost use Rattle.amqp_data.specs.Index.{IsIndexed};

    ghost Value = { List (K × V) };

    ghost coded = { coded_list (coded× K.code V.code) };

    ghost view = { λ m. m.entries.items };

    ghost invariant = { λ m.
        IsIndexed K.eq K.hash_input m.heads.items m.earlier.items m.entries.items };
}

impl<K: Hash + Eq, V> OrderedMapBuilder<K, V> {
    /// Returns a collection without entries.
    ///
    /// # Memory
    /// Allocates nothing. Keeps `alloc` for later insertions.
    pub fn new(alloc: Global) -> Self
        ensures { result ≡ [] }
    {
        OrderedMapBuilder {
            entries: Vec::new(alloc),
            heads: Vec::new(alloc),
            earlier: Vec::new(alloc),
        }
    }

    /// Returns a collection without entries, with an index for `count` entries, which is larger
    /// than necessary if there are fewer. If the allocation of the index fails, returns the same as
    /// `new`.
    ///
    /// # Memory
    /// The index takes 16 bytes for each of `count` entries, in two blocks, so `count` is a number
    /// of entries that exist. Keeps `alloc` for later insertions.
    pub fn with_index(alloc: Global, count: usize) -> Self
        ensures { result ≡ [] }
    {
        let entries = Vec::new(alloc);
        let (heads, earlier) = match index_entries(
            alloc,
            &entries,
            count.saturating_mul(2).max(1),
        ) {
            Some(index) => index,
            None => (Vec::new(alloc), Vec::new(alloc)),
        };
        OrderedMapBuilder {
            entries,
            heads,
            earlier,
        }
    }

    /// Inserts a key with its value, and returns the previous value if the key was present.
    ///
    /// A key that is present keeps its position, and the key argument is dropped. A new key is
    /// appended. The keys are searched by the index if there is one, and it is made at the latest
    /// for the 48th entry. Before, the keys are searched in order. The hash has a fixed seed.
    ///
    /// # Errors
    /// Returns `Error::OutOfMemory` if an allocation for the entries fails. The entries are then
    /// unchanged, and the key and the value are dropped. If an allocation for the index fails, the
    /// keys are searched in order, and the next insertion tries again to make the index.
    ///
    /// # Memory
    /// Allocates nothing if the key is present. From 48 entries on, the index takes 8 to 16 bytes
    /// for each entry, or what `with_index` took, if that is more. While it is made anew for more
    /// entries, there are two.
    pub fn insert(&mut self, key: K, value: V) -> Result<Option<V>, Error>
    where
        K: Drop,
        V: Drop,
        ensures replaced { IfOk result (λ old. old ≡ lookup (K.eq key) self.old) }
        ensures entries { OnOk result (self.new ≡ insert_pair K.eq self.old key value) }
        ensures present_succeeds { IsSome (lookup (K.eq key) self.old) → IsOk result }
        ensures memory { IfErr result (λ e. e ≡ Error.OutOfMemory) }
        ensures unchanged { OnErr result (self.new ≡ self.old) }
    {
        let (found, bucket) = locate(&self.entries, &self.heads, &self.earlier, &key);
        match found {
            Some(at) => Ok(Some(mem::replace(&mut self.entries[at].1, value))),
            None => {
                self.entries.push((key, value))?;
                add_last(&self.entries, &mut self.heads, &mut self.earlier, bucket);
                Ok(None)
            }
        }
    }

    /// Returns the map of the entries, in order.
    ///
    /// # Memory
    /// Allocates nothing.
    pub fn into_map(self) -> OrderedMap<K, V>
    where
        K: Drop,
        V: Drop,
        ensures { entries_of result ≡ self }
    {
        OrderedMap::from_distinct(self.entries)
    }
}
