//! Insertion of entries whose keys are found by order of their hashes, so that no choice of keys
//! makes it slow.

ghost use Rattle.std.specs.Prelude.{◌≡◌, ◌<◌, [], ℕ, true, length, position, IfOk, OnOk};
ghost use Rattle.std.specs.List.{IsAmong, slice_index_or};
ghost use Rattle.std.specs.Map.{keys_of};
ghost use Rattle.amqp_data.specs.Pairs.{AreDistinct, insert_pair, insert_pairs};
ghost use Rattle.amqp_data.specs.SortedHashes as sorted;
ghost use Rattle.amqp_data.specs.SortedHashes.{AddsPosition, ArePlaced};

use std::alloc::{AllocError, Global};
use std::collections::BTreeMap;
use std::hash::{DefaultHasher, Hash, Hasher};
use std::mem;

/// Returns the entries, inserted in order. A key is compared with those alone that have the same
/// hash of 64 bits (SipHash-1-3): to find eight by brute force takes 2⁵⁸ hashes.
///
/// # Errors
/// Returns `AllocError` if an allocation fails.
///
/// # Memory
/// The entries, and until it returns a vector of positions and an entry of a `BTreeMap` for each.
pub(crate) fn once_each_by_hashes<K: Hash + Eq + Drop, V: Drop>(
    alloc: Global,
    entries: Vec<(K, V)>,
) -> Result<Vec<(K, V)>, AllocError>
    ensures { IfOk result (λ made. made.items ≡ insert_pairs K.eq entries.items []) }
{
    let mut made = Vec::new(alloc);
    let mut places = BTreeMap::new(alloc);
    for (key, value) in entries {
        insert_one(alloc, &mut made, &mut places, key, value)?;
    }
    Ok(made)
}

// Inserts an entry, and the position of a new key.
fn insert_one<K: Hash + Eq + Drop, V: Drop>(
    alloc: Global,
    entries: &mut Vec<(K, V)>,
    places: &mut BTreeMap<u64, Vec<usize>>,
    key: K,
    value: V,
) -> Result<(), AllocError>
    requires { ArePlaced K.eq K.hash_input places.old entries.old.items }
    ensures inserted { OnOk result
        (entries.new.items ≡ insert_pair K.eq entries.old.items key value) }
    ensures placed { OnOk result (ArePlaced K.eq K.hash_input places.new entries.new.items) }
{
    let hash = hash_of(&key);
    match find(entries, places, hash, &key) {
        Some(at) => drop(mem::replace(&mut entries[at].1, value)),
        None => {
            add_position(alloc, places, hash, entries.len())?;
            entries.push((key, value))?;
        }
    }
    Ok(())
}

#[tactic(auto, unfolding(crate::specs::SortedHashes::hash_of))]
fn hash_of<K: Hash>(key: &K) -> u64
    ensures { result ≡ sorted.hash_of (K.hash_input key.now) }
{
    let mut hasher = DefaultHasher::new();
    key.hash(&mut hasher);
    hasher.finish()
}

// Returns the position of the key, which is among those of its hash if the key is present.
fn find<K: Hash + Eq, V>(
    entries: &[(K, V)],
    places: &BTreeMap<u64, Vec<usize>>,
    hash: u64,
    key: &K,
) -> Option<usize>
    requires placed { ArePlaced K.eq K.hash_input places.now entries.now }
    requires hash { hash ≡ sorted.hash_of (K.hash_input key.now) }
    ensures { result ≡ position (λ e. K.eq key.now e.0) entries.now }
{
    find_among(entries, positions(places, hash), key)
}

// Returns the position of the key, which is among those found if the key is present.
fn find_among<K: Eq, V>(entries: &[(K, V)], found: &[usize], key: &K) -> Option<usize>
    requires distinct { AreDistinct K.eq (keys_of entries.now) }
    requires found { (i : ℕ) (d : K × V) → i < length entries.now →
        K.eq key.now (slice_index_or entries.now i d).0 ≡ true → IsAmong found.now i }
    ensures { result ≡ position (λ e. K.eq key.now e.0) entries.now }
{
    for i in 0..found.len() {
        let at = found[i];
        if at < entries.len() && *key == entries[at].0 {
            return Some(at);
        }
    }
    None
}

// Returns the positions of the hash.
fn positions(places: &BTreeMap<u64, Vec<usize>>, hash: u64) -> &[usize]
    ensures { result.now ≡ sorted.positions places.now hash }
{
    match places.get(&hash) {
        Some(found) => found,
        None => &[],
    }
}

// Adds a position to those of the hash.
fn add_position(
    alloc: Global,
    places: &mut BTreeMap<u64, Vec<usize>>,
    hash: u64,
    at: usize,
) -> Result<(), AllocError>
    ensures { OnOk result (AddsPosition hash at places.old places.new) }
{
    let mut found = match places.remove(&hash) {
        Some(found) => found,
        None => Vec::new(alloc),
    };
    found.push(at)?;
    drop(places.insert(hash, found)?);
    Ok(())
}
