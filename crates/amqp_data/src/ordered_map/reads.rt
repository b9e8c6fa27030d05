//! Calls that look at a map.

ghost use Rattle.std.specs.Prelude.{◌≡◌, ◌-◌, ◌<◌, ◌^◌, length, is_some, slice_get, option_map};
ghost use Rattle.std.specs.Prelude.{position};
ghost use Rattle.std.specs.Prelude.{IfSome, Some};
ghost use Rattle.std.specs.Iterator.{UpTo, YieldsFirstBy, item_count};
ghost use Rattle.std.specs.Iterator.SizeHint.{IsWithinCount};
ghost use Rattle.std.specs.Map.{keys_of, lookup, values_of};
ghost use Rattle.std.specs.Option.{option_copied};
ghost use Rattle.std.specs.Str.{bytes_eq};
ghost use Rattle.amqp_data.specs.MapIters.{keys_left, values_left};
ghost use Rattle.amqp_data.specs.Pairs.{entries_of};

use crate::ordered_map::{Iter, OrderedMap};
use std::convert::AsStr;
use std::hash::Hash;

impl<K: Hash + Eq, V> OrderedMap<K, V> {
    /// Returns whether the key is present. The keys are searched in order.
    ///
    /// # Example
    /// In the map from 1 to `true`, the key 1 gives true and the key 2 gives false.
    pub fn contains_key(&self, key: &K) -> bool
        ensures { result ≡ is_some (lookup (K.eq key.now) (entries_of self.now)) }
    {
        match self.get(key) {
            Some(_) => true,
            None => false,
        }
    }
}

impl<K: AsStr, V> OrderedMap<K, V> {
    /// Returns the value of the first key with this text. The keys are searched in order, and no
    /// key is made.
    ///
    /// # Example
    /// In a map from the symbol `a` to the ubyte 1, encoded as `c10602a301615001`, the text `a`
    /// gives `Some(&1)` and the text `b` gives `None`.
    pub fn get_str(&self, text: &str) -> Option<&V>
        ensures { option_copied result
            ≡ lookup (λ key. bytes_eq (K.text key) text.now) (entries_of self.now) }
    {
        match self.find_str(text) {
            Some(at) => Some(&self.entries[at].1),
            None => None,
        }
    }

    // Returns the position of the first key with this text.
    pub(super) fn find_str(&self, text: &str) -> Option<usize>
        ensures { result ≡ position (λ e. bytes_eq (K.text e.0) text.now) (entries_of self.now) }
    {
        self.entries
            .iter()
            .position(|entry| entry.0.as_str() == text)
    }
}

impl<K, V> OrderedMap<K, V> {
    /// Returns the first entry, if there is one.
    ///
    /// # Example
    /// For the map encoded as `c10704500241500142`, returns `(&2, &true)`.
    pub fn first(&self) -> Option<(&K, &V)>
        ensures { option_map (λ e. (e.0.now, e.1.now)) result ≡ slice_get (entries_of self.now) 0 }
    {
        let entry = self.as_slice().first()?;
        Some((&entry.0, &entry.1))
    }

    /// Returns the last entry, if there is one.
    ///
    /// # Example
    /// For the map encoded as `c10704500241500142`, returns `(&1, &false)`.
    pub fn last(&self) -> Option<(&K, &V)>
        ensures { option_map (λ e. (e.0.now, e.1.now)) result
            ≡ slice_get (entries_of self.now) (length (entries_of self.now) - 1) }
    {
        let entry = self.as_slice().last()?;
        Some((&entry.0, &entry.1))
    }

    /// Returns an iterator over references to the keys, in order.
    ///
    /// # Example
    /// For the map encoded as `c10704500241500142`: `&2`, then `&1`, then `None`.
    pub fn keys(&self) -> Keys<'_, K, V>
        ensures rest { keys_left result ≡ keys_of (entries_of self.now) }
        ensures fits { length (keys_left result) < 2 ^ 64 }
    {
        Keys { rest: self.iter() }
    }

    /// Returns an iterator over references to the values, in order.
    ///
    /// # Example
    /// For the map encoded as `c10704500241500142`: `&true`, then `&false`, then `None`.
    pub fn values(&self) -> Values<'_, K, V>
        ensures rest { values_left result ≡ values_of (entries_of self.now) }
        ensures fits { length (values_left result) < 2 ^ 64 }
    {
        Values { rest: self.iter() }
    }
}

/// An iterator over references to the remaining keys of a map, in order.
///
/// # Example
/// For the map encoded as `c10704500241500142`: `&2`, then `&1`, then `None`.
#[derive(Drop)]
pub struct Keys<'a, K, V> {
    rest: Iter<'a, K, V>,
}

impl<'a, K, V> Iterator for Keys<'a, K, V> {
    type Item = &'a K;

    ghost next_gives = { YieldsFirstBy (λ key. key.now) keys_left };

    ghost remaining = { item_count keys_left };

    fn next(&mut self) -> Option<&'a K> {
        let (key, _) = self.rest.next()?;
        Some(key)
    }

    fn size_hint(&self) -> (usize, Option<usize>)
        ensures lower { IsWithinCount result.0 (item_count keys_left self.now) }
        ensures upper { IfSome result.1 (UpTo (item_count keys_left self.now)) }
        ensures exact { result ≡ (length (keys_left self.now), Some (length (keys_left self.now))) }
    {
        self.rest.size_hint()
    }
}

/// An iterator over references to the remaining values of a map, in order.
///
/// # Example
/// For the map encoded as `c10704500241500142`: `&true`, then `&false`, then `None`.
#[derive(Drop)]
pub struct Values<'a, K, V> {
    rest: Iter<'a, K, V>,
}

impl<'a, K, V> Iterator for Values<'a, K, V> {
    type Item = &'a V;

    ghost next_gives = { YieldsFirstBy (λ value. value.now) values_left };

    ghost remaining = { item_count values_left };

    fn next(&mut self) -> Option<&'a V> {
        let (_, value) = self.rest.next()?;
        Some(value)
    }

    fn size_hint(&self) -> (usize, Option<usize>)
        ensures lower { IsWithinCount result.0 (item_count values_left self.now) }
        ensures upper { IfSome result.1 (UpTo (item_count values_left self.now)) }
        ensures exact { result
            ≡ (length (values_left self.now), Some (length (values_left self.now))) }
    {
        self.rest.size_hint()
    }
}
