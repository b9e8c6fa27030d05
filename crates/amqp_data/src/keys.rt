//! Entries with each key once, found by comparison of all pairs of keys, by hashes or by order.

ghost use Rattle.std.specs.Prelude.{◌≡◌, ◌≤◌, ◌++◌, [], IfOk, OnOk, IfSome, IfNone, length};
ghost use Rattle.std.specs.Prelude.{position, take};
ghost use Rattle.std.specs.Bool.{OnTrue};
ghost use Rattle.std.specs.Map.{keys_of};
ghost use Rattle.amqp_data.specs.Pairs.{AreDistinct, insert_pair, insert_pairs};

mod order;
mod sorted_hashes;

use crate::distinct_keys::{finds_distinct_keys, merge_repeated_keys};
use crate::index::position_of;
pub use order::once_each_by_order;
use sorted_hashes::once_each_by_hashes;
use std::alloc::{AllocError, Global};
use std::hash::Hash;
use std::mem;

/// The number of entries up to which comparing all pairs of keys costs less than hashing the keys:
/// instructions of `decode_value` of 2 to 16 text keys in no order.
pub(crate) const MAX_PAIRED: usize = 8;

/// The number of entries up to which comparing all pairs of long keys costs less than a B-tree of
/// the keys: instructions of `Value::try_from_ordered_map` of 8 to 96 binaries of 40 bytes.
pub const MAX_PAIRED_LONG: usize = 48;

/// The number of entries up to which the keys of one bucket are compared in all pairs: so the
/// hashes of 16 keys in one bucket cost no more than the B-tree that would follow.
pub(crate) const MAX_IN_ONE_BUCKET: usize = 16;

/// The number of entries from which on an index costs less than searching each key among those
/// before it: instructions of `TryFrom<Value>` for `OrderedMap` of 8 to 130 text keys.
pub const MIN_INDEXED: usize = 48;

/// The length of a text up to which its hash, which reads all bytes, costs less than comparisons
/// with other texts, which often read the first bytes only.
pub const MAX_HASHED_TEXT: usize = 256;

/// The same for a binary, whose hash reads one byte at a time.
pub const MAX_HASHED_BINARY: usize = 32;

/// Returns whether each key is greater than the one before it, so that no two keys are equal.
pub fn ascends<K: Ord, V>(entries: &[(K, V)]) -> bool
    ensures { OnTrue result (AreDistinct K.eq (keys_of entries.now)) }
{
    for i in 1..entries.len() {
        if !entries[i - 1].0.cmp(&entries[i].0).is_lt() {
            return false;
        }
    }
    true
}

/// Returns true if it is certain that no two keys are equal: the answer of `have_distinct_trees`
/// for a type whose values are equal if they are read from the same tree.
///
/// # Memory
/// For more than 8 entries, that of `finds_distinct_keys`.
///
/// # Example
/// True for the keys 1 and 2.
pub fn keys_differ<K: Hash + Eq, V>(alloc: Global, entries: &[(K, V)]) -> bool
    ensures { OnTrue result (AreDistinct K.eq (keys_of entries.now)) }
{
    if entries.len() > MAX_PAIRED {
        return finds_distinct_keys(alloc, entries);
    }
    match first_repeated(entries) {
        Some(_) => false,
        None => true,
    }
}

/// Like `keys_differ`, but allocates nothing if the keys ascend.
pub fn ordered_keys_differ<K: Hash + Ord, V>(alloc: Global, entries: &[(K, V)]) -> bool
    ensures { OnTrue result (AreDistinct K.eq (keys_of entries.now)) }
{
    if ascends(entries) {
        true
    } else {
        keys_differ(alloc, entries)
    }
}

/// Returns the entries, inserted in order: a repeated key keeps its position and gets the new
/// value. The keys are compared in pairs if there are few, and found by their hashes otherwise, or
/// by their order if many have hashes in the same bucket.
///
/// # Errors
/// Returns `AllocError` if an allocation fails, which can happen only if a key repeats, or if there
/// are more than 8 entries and the hashes of their keys do not show that they differ.
pub fn once_each<K: Hash + Ord + Drop, V: Drop>(
    alloc: Global,
    entries: Vec<(K, V)>,
) -> Result<Vec<(K, V)>, AllocError>
    ensures { IfOk result (λ made. made.items ≡ insert_pairs K.eq entries.items []) }
{
    if entries.len() <= MAX_PAIRED {
        return once_each_by_pairs(entries);
    }
    let mut merged = entries;
    if merge_repeated_keys(alloc, &mut merged)? {
        return Ok(merged);
    }
    once_each_by_order(alloc, merged)
}

/// Like `once_each` for keys without an order, by their hashes alone: by 64-bit hashes if many have
/// hashes in the same bucket.
pub fn once_each_unordered<K: Hash + Eq + Drop, V: Drop>(
    alloc: Global,
    entries: Vec<(K, V)>,
) -> Result<Vec<(K, V)>, AllocError>
    ensures { IfOk result (λ made. made.items ≡ insert_pairs K.eq entries.items []) }
{
    let mut merged = entries;
    if merge_repeated_keys(alloc, &mut merged)? {
        return Ok(merged);
    }
    once_each_by_hashes(alloc, merged)
}

/// Like `once_each`, by comparing each key with each one before it.
pub fn once_each_by_pairs<K: Eq + Drop, V: Drop>(
    entries: Vec<(K, V)>,
) -> Result<Vec<(K, V)>, AllocError>
    ensures { IfOk result (λ made. made.items ≡ insert_pairs K.eq entries.items []) }
{
    match first_repeated(&entries) {
        None => Ok(entries),
        Some(first) => {
            let mut entries = entries;
            let rest = entries.split_off(first)?;
            insert_each(entries, rest)
        }
    }
}

// Returns the number of entries before the first one with a repeated key, if there is one.
fn first_repeated<K: Eq, V>(entries: &[(K, V)]) -> Option<usize>
    ensures none { IfNone result (AreDistinct K.eq (keys_of entries.now)) }
    ensures within { IfSome result (λ n. n ≤ length entries.now) }
    ensures distinct { IfSome result (λ n. AreDistinct K.eq (keys_of (take n entries.now))) }
{
    for i in 0..entries.len() {
        let key = &entries[i].0;
        match position_of(&entries[..i], key) {
            Some(_) => return Some(i),
            None => {}
        }
    }
    None
}

// Inserts the rest of the entries in order, and searches each key among those before it.
fn insert_each<K: Eq + Drop, V: Drop>(
    entries: Vec<(K, V)>,
    rest: Vec<(K, V)>,
) -> Result<Vec<(K, V)>, AllocError>
    requires { AreDistinct K.eq (keys_of entries.items) }
    ensures { IfOk result
        (λ made. made.items ≡ insert_pairs K.eq (entries.items ++ rest.items) []) }
{
    let mut entries = entries;
    for (key, value) in rest {
        let at = position_of(&entries, &key);
        put(&mut entries, at, key, value)?;
    }
    Ok(entries)
}

// Replaces the value at the position of the key, or appends the entry.
fn put<K: Eq + Drop, V: Drop>(
    entries: &mut Vec<(K, V)>,
    at: Option<usize>,
    key: K,
    value: V,
) -> Result<(), AllocError>
    requires { at ≡ position (λ e. K.eq key e.0) entries.old.items }
    ensures { OnOk result (entries.new.items ≡ insert_pair K.eq entries.old.items key value) }
{
    match at {
        Some(at) => drop(mem::replace(&mut entries[at].1, value)),
        None => entries.push((key, value))?,
    }
    Ok(())
}
