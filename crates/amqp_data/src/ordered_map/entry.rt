//! The entry of one key in a map, found once.

ghost use Rattle.std.specs.Prelude.{◌≡◌, position};
ghost use Rattle.amqp_data.specs.Pairs.{entries_of};

use crate::ordered_map::OrderedMap;
use std::alloc::AllocError;
use std::hash::Hash;

/// The entry of one key in a map, which may be present or absent.
///
/// # Example
/// For the map encoded as `c10402500141`, `map.entry(2).or_insert(false)?` gives the map encoded as
/// `c10704500141500242`.
#[derive(Drop)]
pub struct Entry<'a, K: Hash + Eq, V> {
    map: &'a mut OrderedMap<K, V>,
    key: K,
    at: Option<usize>,
    ghost found: { at ≡ position (λ e. K.eq key e.0) (entries_of map.now) },
}

impl<K: Hash + Eq, V> OrderedMap<K, V> {
    ghost use Rattle.std.specs.Borrow.{sem};
    ghost use Rattle.std.specs.Prelude.{IfOk};
    ghost use Rattle.amqp_data.specs.MapEntry.{entry_key, entry_map};
    ghost use Rattle.amqp_data.specs.MapLends.{lends_pushed};

    /// Returns the entry of the key. The keys are searched in order, once.
    ///
    /// # Example
    /// For the map encoded as `c10402500141`, `*map.entry(1).or_insert(true)? = false` gives the
    /// map encoded as `c10402500142`.
    pub fn entry(&mut self, key: K) -> Entry<'_, K, V>
        ensures same_map { (entry_map result).ghost_name ≡ self.entry.ghost_name }
        ensures unchanged { (entry_map result).now ≡ self.old }
        ensures key { entry_key result ≡ key }
    {
        let at = self.find(&key);
        Entry { map: self, key, at }
    }

    // Appends an entry, and lends its value.
    fn push_entry(&mut self, key: K, value: V) -> Result<&mut V, AllocError>
    where
        K: Drop,
        V: Drop,
        ensures* writes_back { sem 𝓛 (lends_pushed K.row V.row self.entry key result) }
        ensures value { IfOk result (λ r. r.now ≡ value) }
    {
        let at = self.len();
        match self.entries.push((key, value)) {
            Ok(()) => Ok(&mut self.entries[at].1),
            Err(error) => Err(AllocError::from(error)),
        }
    }
}

impl<'a, K: Hash + Eq, V> Entry<'a, K, V> {
    ghost use Rattle.std.specs.Prelude.{None, IsOk, IsSome, IfOk, unwrap_or};
    ghost use Rattle.std.specs.Borrow.{sem};
    ghost use Rattle.std.specs.Option.{option_copied, UnwrapsOrElse};
    ghost use Rattle.amqp_data.specs.MapEntry.{entry_key, entry_value, lends_entry};

    /// Returns the key that was passed to [`entry`](OrderedMap::entry).
    pub fn key(&self) -> &K
        ensures { result.now ≡ entry_key self.now }
    {
        &self.key
    }

    /// Returns the value, if the key is present.
    ///
    /// # Example
    /// For the map encoded as `c10402500141`, `Some(&true)` at the key 1 and `None` at the key 2.
    pub fn get(&self) -> Option<&V>
        ensures { option_copied result ≡ entry_value K.eq self.now }
    {
        match self.at {
            Some(at) => Some(&self.map.entries[at].1),
            None => None,
        }
    }

    /// Returns a mutable reference to the value of the key. If the key is absent, it is appended
    /// with the value `default` first.
    ///
    /// # Errors
    /// Returns `AllocError` if an allocation for a new key fails. The map is then unchanged,
    /// and the key and the value are dropped.
    ///
    /// # Memory
    /// Allocates nothing if the key is present.
    ///
    /// # Example
    /// For the map encoded as `c10402500141`, `*map.entry(2).or_insert(true)? = false` gives the
    /// map encoded as `c10704500141500242`.
    pub fn or_insert(self, default: V) -> Result<&'a mut V, AllocError>
    where
        K: Drop,
        V: Drop,
        ensures* writes_back { sem 𝓛 (lends_entry K.row V.row K.eq self.entry result) }
        ensures value { IfOk result (λ r. r.now ≡ unwrap_or (entry_value K.eq self.entry) default) }
        ensures present_succeeds { IsSome (entry_value K.eq self.entry) → IsOk result }
    {
        let Entry { map, key, at } = self;
        match at {
            Some(at) => Ok(&mut map.entries[at].1),
            None => map.push_entry(key, default),
        }
    }

    /// Like [`or_insert`](Entry::or_insert), with the value that `default` returns. It is called
    /// only if the key is absent.
    ///
    /// # Errors
    /// Returns `AllocError` if an allocation for a new key fails. The map is then unchanged,
    /// and the key and the value are dropped.
    ///
    /// # Memory
    /// Allocates nothing if the key is present.
    ///
    /// # Example
    /// For the map encoded as `c10402500141`, `*map.entry(2).or_insert_with(|| true)? = false`
    /// gives the map encoded as `c10704500141500242`.
    pub fn or_insert_with<F: FnOnce() -> V>(self, default: F) -> Result<&'a mut V, AllocError>
    where
        K: Drop,
        V: Drop,
        F: Drop,
        requires { entry_value K.eq self ≡ None → F.pre default }
        ensures* writes_back { sem 𝓛 (lends_entry K.row V.row K.eq self.entry result) }
        ensures value { IfOk result (λ r.
            UnwrapsOrElse (entry_value K.eq self.entry) (F.post default) r.now) }
        ensures present_succeeds { IsSome (entry_value K.eq self.entry) → IsOk result }
    {
        let Entry { map, key, at } = self;
        match at {
            Some(at) => Ok(&mut map.entries[at].1),
            None => {
                let value = default();
                map.push_entry(key, value)
            }
        }
    }
}
