//! Calls that change the entries of a map.

ghost use Rattle.std.specs.Prelude.{◌≡◌, [], IfOk, IfErr, OnOk};
ghost use Rattle.std.specs.Fn.{CalledAt};
ghost use Rattle.std.specs.Iterator.{IsFinite};
ghost use Rattle.std.specs.Iterator.Runs.{WholeRun};
ghost use Rattle.std.specs.List.Retain.{IsFiltered};
ghost use Rattle.std.specs.Map.{keys_of, lookup, remove_entry};
ghost use Rattle.amqp_data.specs.Pairs.{entries_of, AreDistinct, insert_pairs};

use crate::Error;
use crate::ordered_map::OrderedMap;
use std::alloc::Global;
use std::hash::Hash;

impl<K, V> OrderedMap<K, V> {
    /// Creates an empty map with room for `capacity` entries.
    ///
    /// # Errors
    /// Returns `Error::OutOfMemory` if the allocation fails.
    ///
    /// # Memory
    /// Allocates once from `alloc`, or not at all if `capacity` is 0.
    ///
    /// # Example
    /// With any capacity, the map is encoded as `c10100`.
    pub fn with_capacity(alloc: Global, capacity: usize) -> Result<Self, Error>
        ensures ok { IfOk result (λ map. entries_of map ≡ []) }
        ensures memory { IfErr result (λ e. e ≡ Error.OutOfMemory) }
    {
        Ok(OrderedMap {
            entries: Vec::with_capacity(alloc, capacity)?,
        })
    }

    /// Makes room for `additional` more entries.
    ///
    /// # Errors
    /// Returns `Error::OutOfMemory` if the allocation fails.
    ///
    /// # Memory
    /// Allocates at most once, and not at all if there is room.
    pub fn reserve(&mut self, additional: usize) -> Result<(), Error>
        ensures unchanged { entries_of self.new ≡ entries_of self.old }
        ensures memory { IfErr result (λ e. e ≡ Error.OutOfMemory) }
    {
        self.entries.reserve(additional)?;
        Ok(())
    }

    /// Drops all entries, and keeps the memory for later insertions.
    ///
    /// # Example
    /// The map is encoded as `c10100`.
    pub fn clear(&mut self)
    where
        K: Drop,
        V: Drop,
        ensures { entries_of self.new ≡ [] }
    {
        self.entries.clear();
    }
}

impl<K: Hash + Eq + Drop, V: Drop> OrderedMap<K, V> {
    /// Removes a key, and returns its value if the key was present. The other entries keep their
    /// order: those after the key move up by one. The keys are searched in order.
    ///
    /// # Memory
    /// Allocates nothing.
    ///
    /// # Example
    /// From the map encoded as `c10704500241500142`, removing 2 returns `Some(true)` and leaves the
    /// map encoded as `c10402500142`. Removing 3 returns `None`.
    pub fn remove(&mut self, key: &K) -> Option<V>
        ensures value { result ≡ lookup (K.eq key.now) (entries_of self.old) }
        ensures entries { entries_of self.new ≡ remove_entry (K.eq key.now) (entries_of self.old) }
        ensures distinct { AreDistinct K.eq (keys_of (entries_of self.old)) →
            AreDistinct K.eq (keys_of (entries_of self.new)) }
    {
        match self.find(key) {
            Some(at) => Some(self.entries.remove(at).1),
            None => None,
        }
    }

    /// Keeps the entries for which `keep` returns true, in order, and drops the others.
    ///
    /// # Memory
    /// Allocates nothing.
    ///
    /// # Example
    /// On the map encoded as `c10704500241500142`, `map.retain(|entry| entry.1)` leaves the map
    /// encoded as `c10402500241`.
    pub fn retain<F: FnMut(&(K, V)) -> bool>(&mut self, keep: F)
        requires { F.IsAlwaysCallable keep }
        ensures entries { IsFiltered (CalledAt F.FnMut) keep (entries_of self.old)
            (entries_of self.new) }
        ensures distinct { AreDistinct K.eq (keys_of (entries_of self.old)) →
            AreDistinct K.eq (keys_of (entries_of self.new)) }
    {
        self.entries.retain(keep);
    }

    /// Inserts the items of a finite iterator, in order, as by `insert`: a key that is present
    /// keeps its position and gets the new value. The keys are searched in order for each item, so
    /// for many keys use an [`OrderedMapBuilder`](crate::OrderedMapBuilder).
    ///
    /// # Errors
    /// Returns `Error::OutOfMemory` if an allocation fails. The items before are then inserted.
    ///
    /// # Example
    /// Extending the map encoded as `c10402500141` by the pairs (2, `true`) and (1, `false`) gives
    /// the map encoded as `c10704500142500241`, with ubyte keys.
    pub fn extend<I: Iterator<Item = (K, V)>>(&mut self, iter: I) -> Result<(), Error>
        requires can { I.can_next iter }
        requires ends { IsFinite (I.remaining iter) }
        ensures entries { OnOk result (WholeRun I.next_gives iter (λ run.
            entries_of self.new ≡ insert_pairs K.eq run.items (entries_of self.old))) }
        ensures distinct { AreDistinct K.eq (keys_of (entries_of self.old)) →
            AreDistinct K.eq (keys_of (entries_of self.new)) }
        ensures memory { IfErr result (λ e. e ≡ Error.OutOfMemory) }
    {
        for (key, value) in iter {
            drop(self.insert(key, value)?);
        }
        Ok(())
    }
}
