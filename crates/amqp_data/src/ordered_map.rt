//! Maps (AMQP 1.0 part 1, section 1.6.23) that keep their keys in insertion order.

ghost use Rattle.std.specs.Prelude.{◌≡◌, ◌==◌, ◌<◌, ◌^◌, [], length, position};
ghost use Rattle.std.specs.Prelude.{IsOk, IfOk, IfErr, OnOk, OnErr, IsSome, IfSome};
ghost use Rattle.std.specs.Iterator.{UpTo, YieldsFirstBy, item_count};
ghost use Rattle.std.specs.Iterator.SizeHint.{IsWithinCount};
ghost use Rattle.std.specs.Map.{keys_of, lookup};
ghost use Rattle.std.specs.Option.{option_copied};
ghost use Rattle.amqp_data.specs.Iterates.{GivesItems};
ghost use Rattle.amqp_data.specs.Pairs.{entries_of, entries_left, insert_pair, AreDistinct};

mod edits;
mod entry;
mod lends;
mod reads;

use crate::Error;
use crate::index::position_of;
pub use entry::Entry;
pub use lends::{IterMut, ValuesMut};
pub use reads::{Keys, Values};
use std::alloc::Global;
use std::hash::Hash;
use std::{mem, vec};

/// A map that preserves order, as a list of entries. Equality, order and hash depend on that list.
///
/// No two keys are equal: each call that adds a key preserves this.
///
/// # Encoding
/// `c1` with a size and a count of one byte each, or `d1` with a size and a count of four bytes
/// each, then each key followed by its value. The count is twice the number of entries.
///
/// # Example
/// An empty map is encoded as `c10100`.
#[derive(Debug, PartialEq, Eq, PartialOrd, Ord, Hash, Clone, Drop)]
pub struct OrderedMap<K, V> {
    entries: Vec<(K, V)>,
}

impl<K, V> OrderedMap<K, V> {
    /// Creates an empty map.
    ///
    /// # Memory
    /// Allocates nothing. Keeps `alloc` for later insertions.
    ///
    /// # Example
    /// The map is encoded as `c10100`. After the ubyte 1 is inserted with the value `true`, it is
    /// encoded as `c10402500141`.
    pub fn new(alloc: Global) -> Self
        ensures { entries_of result ≡ [] }
    {
        OrderedMap {
            entries: Vec::new(alloc),
        }
    }

    /// Returns the number of entries.
    ///
    /// # Example
    /// For the map encoded as `c10402500141`, returns 1. The count in these bytes is 2.
    pub fn len(&self) -> usize
        ensures { result ≡ length (entries_of self.now) }
    {
        self.entries.len()
    }

    /// Returns whether the map is empty.
    ///
    /// # Example
    /// Returns true for the map encoded as `c10100`, and false for the map encoded as
    /// `c10402500141`.
    pub fn is_empty(&self) -> bool
        ensures { result ≡ (length (entries_of self.now) == 0) }
    {
        self.entries.is_empty()
    }

    /// Returns an iterator over references to the entries, in order.
    ///
    /// # Example
    /// For the map from 1 to `true`, encoded as `c10402500141`: `(&1, &true)`, then `None`.
    pub fn iter(&self) -> Iter<'_, K, V>
        ensures rest { entries_left result ≡ entries_of self.now }
        ensures fits { length (entries_left result) < 2 ^ 64 }
    {
        Iter {
            rest: self.entries.as_slice(),
        }
    }

    /// Returns the entries as a slice, in order.
    ///
    /// # Example
    /// For the map encoded as `c10704500241500142`, returns `[(2, true), (1, false)]`.
    pub fn as_slice(&self) -> &[(K, V)]
        ensures { result.now ≡ entries_of self.now }
    {
        &self.entries[..]
    }

    /// Consumes the map and returns the entries, in order.
    ///
    /// # Example
    /// For the map encoded as `c10402500141`, returns the vector of the pair (1, `true`).
    pub fn into_inner(self) -> Vec<(K, V)>
        ensures { result.items ≡ entries_of self }
    {
        self.entries
    }
}

impl<K: Hash + Eq, V> OrderedMap<K, V> {
    /// Creates a map from entries that the caller knows to have distinct keys.
    ///
    /// # Memory
    /// Allocates nothing.
    ///
    /// # Example
    /// The pairs (2, `true`) and (1, `false`), with ubyte keys, are encoded as
    /// `c10704500241500142`, in this order.
    pub fn from_distinct(entries: Vec<(K, V)>) -> Self
        requires { AreDistinct K.eq (keys_of entries.items) }
        ensures { entries_of result ≡ entries.items }
    {
        OrderedMap { entries }
    }

    /// Returns the value of the key, if the key is present. The keys are searched in order.
    ///
    /// # Example
    /// In the map from 1 to `true`, the key 1 gives `Some(&true)` and the key 2 gives `None`.
    pub fn get(&self, key: &K) -> Option<&V>
        ensures { option_copied result ≡ lookup (K.eq key.now) (entries_of self.now) }
    {
        match self.find(key) {
            Some(at) => Some(&self.entries[at].1),
            None => None,
        }
    }

    /// Inserts a key with its value, and returns the previous value if the key was present.
    ///
    /// A key that is present keeps its position, and the key argument is dropped. A new key is
    /// appended. The keys are searched in order.
    ///
    /// # Errors
    /// Returns `Error::OutOfMemory` if an allocation for a new key fails. The map is then
    /// unchanged, and the key and the value are dropped.
    ///
    /// # Memory
    /// Allocates nothing if the key is present.
    ///
    /// # Example
    /// Into an empty map, inserting 1 and `true` returns `Ok(None)`. Then inserting 1 and `false`
    /// returns `Ok(Some(true))`. With ubyte keys, the map is then encoded as `c10402500142`.
    pub fn insert(&mut self, key: K, value: V) -> Result<Option<V>, Error>
    where
        K: Drop,
        V: Drop,
        // What `Ok` contains, and the entries after success.
        ensures replaced { IfOk result (λ old. old ≡ lookup (K.eq key) (entries_of self.old)) }
        ensures entries { OnOk result
            (entries_of self.new ≡ insert_pair K.eq (entries_of self.old) key value) }

        // When the call succeeds, and the entries after an error.
        ensures present_succeeds { IsSome (lookup (K.eq key) (entries_of self.old)) → IsOk result }
        ensures memory { IfErr result (λ e. e ≡ Error.OutOfMemory) }
        ensures unchanged { OnErr result (entries_of self.new ≡ entries_of self.old) }

        // What holds in both cases.
        ensures distinct { AreDistinct K.eq (keys_of (entries_of self.old)) →
            AreDistinct K.eq (keys_of (entries_of self.new)) }
    {
        match self.find(&key) {
            Some(at) => Ok(Some(mem::replace(&mut self.entries[at].1, value))),
            None => {
                self.entries.push((key, value))?;
                Ok(None)
            }
        }
    }

    // Returns the position of the key.
    fn find(&self, key: &K) -> Option<usize>
        ensures { result ≡ position (λ e. K.eq key.now e.0) (entries_of self.now) }
    {
        position_of(&self.entries, key)
    }
}

/// An iterator over references to the remaining entries of a map, in order.
///
/// # Example
/// For the map encoded as `c10704500241500142`: `(&2, &true)`, then `(&1, &false)`, then `None`.
#[derive(Drop)]
pub struct Iter<'a, K, V> {
    rest: &'a [(K, V)],
}

impl<'a, K, V> Iterator for Iter<'a, K, V> {
    type Item = (&'a K, &'a V);

    ghost next_gives = { YieldsFirstBy (λ entry. (entry.0.now, entry.1.now)) entries_left };

    ghost remaining = { item_count entries_left };

    fn next(&mut self) -> Option<(&'a K, &'a V)> {
        let (entry, rest) = self.rest.split_first()?;
        self.rest = rest;
        Some((&entry.0, &entry.1))
    }

    fn size_hint(&self) -> (usize, Option<usize>)
        ensures lower { IsWithinCount result.0 (item_count entries_left self.now) }
        ensures upper { IfSome result.1 (UpTo (item_count entries_left self.now)) }
        ensures exact { result
            ≡ (length (entries_left self.now), Some (length (entries_left self.now))) }
    {
        let len = self.rest.len();
        (len, Some(len))
    }
}

impl<'a, K, V> IntoIterator for &'a OrderedMap<K, V> {
    type Item = (&'a K, &'a V);

    type IntoIter = Iter<'a, K, V>;

    ghost into_iter_gives = { λ map iter. entries_left iter ≡ entries_of map.now };

    fn into_iter(self) -> Iter<'a, K, V> {
        self.iter()
    }
}

impl<K: Drop, V: Drop> IntoIterator for OrderedMap<K, V> {
    type Item = (K, V);

    type IntoIter = vec::IntoIter<(K, V), Global>;

    ghost into_iter_gives = { λ map iter. GivesItems (entries_of map) iter };

    fn into_iter(self) -> vec::IntoIter<(K, V), Global> {
        self.entries.into_iter()
    }
}
