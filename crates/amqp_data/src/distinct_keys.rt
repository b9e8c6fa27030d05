//! A search for equal keys in a list of entries, by the hashes of the keys.

ghost use Rattle.std.specs.Prelude.{◌≡◌, ◌<◌, ◌≤◌, ◌++◌, [], length, replicate, take};
ghost use Rattle.std.specs.Prelude.{IfSome, IfOk, OnOk};
ghost use Rattle.std.specs.Bool.{OnTrue};
ghost use Rattle.std.specs.Map.{keys_of};
ghost use Rattle.amqp_data.specs.Index.{IsIndexed};
ghost use Rattle.amqp_data.specs.Pairs.{AreDistinct, insert_pair, insert_pairs};

use crate::index::{add, bucket_of, find_within};
use crate::keys::MAX_IN_ONE_BUCKET;
use std::alloc::{AllocError, Global};
use std::hash::Hash;
use std::mem;

/// Returns true if the hashes of the keys show that no two keys are equal.
///
/// Returns false if two keys are equal, if many keys have hashes in the same bucket, so that more
/// than two comparisons for each entry would be needed, or if an allocation fails or there are 2³²
/// entries. The hash has a fixed seed.
///
/// # Memory
/// 12 bytes for each entry, until it returns.
///
/// # Example
/// For the entries (2, `true`) and (1, `true`), returns true. With another entry of the key 2,
/// returns false.
pub fn finds_distinct_keys<K: Hash + Eq, V>(alloc: Global, entries: &[(K, V)]) -> bool
    ensures { OnTrue result (AreDistinct K.eq (keys_of entries.now)) }
{
    let count = entries.len().saturating_mul(2);
    let Ok(mut heads) = Vec::from_elem(alloc, 0u32, count) else {
        return false;
    };
    let Ok(mut earlier) = Vec::with_capacity(alloc, entries.len()) else {
        return false;
    };
    let mut left = count;
    match index_distinct(entries, &mut heads, &mut earlier, &mut left) {
        Some(indexed) => indexed >= entries.len(),
        None => false,
    }
}

/// Returns an index of the entries, which has no buckets if it does not show that no two keys are
/// equal: if two keys are equal, if many keys have hashes in the same bucket, so that more than two
/// comparisons for each entry would be needed, or if there are 2³² entries.
pub(crate) fn index_all<K: Hash + Eq, V>(
    alloc: Global,
    entries: &[(K, V)],
) -> Result<(Vec<u32>, Vec<u32>), AllocError>
    ensures { IfOk result (λ index. 0 < length index.0.items →
        IsIndexed K.eq K.hash_input index.0.items index.1.items entries.now) }
{
    let count = entries.len().saturating_mul(2);
    let mut heads = Vec::from_elem(alloc, 0u32, count)?;
    let mut earlier = Vec::with_capacity(alloc, entries.len())?;
    let mut left = count;
    match index_distinct(entries, &mut heads, &mut earlier, &mut left) {
        Some(indexed) if indexed >= entries.len() => Ok((heads, earlier)),
        _ => Ok((Vec::new(alloc), Vec::new(alloc))),
    }
}

/// Inserts the entries in order into an empty list, as far as the hashes of the keys show the place
/// of each: a repeated key keeps its position and gets the new value. Returns true if no two keys
/// are equal then.
///
/// Returns false if there are more than 16 entries and many keys have hashes in the same bucket, so
/// that more than two comparisons for each entry would be needed, or if an allocation for the index
/// fails or there are 2³² entries. Keys may then repeat, and the entries inserted in order give the
/// same list as before. The hash has a fixed seed.
///
/// # Errors
/// Returns `AllocError` if the allocation for the entries from the first repeated key on fails.
///
/// # Memory
/// 12 bytes for each entry, and a block for the entries from the first repeated key on, until it
/// returns.
///
/// # Example
/// The entries (2, `true`), (1, `true`), (2, `false`) become (2, `false`), (1, `true`), and it
/// returns true.
pub(crate) fn merge_repeated_keys<K: Hash + Eq + Drop, V: Drop>(
    alloc: Global,
    entries: &mut Vec<(K, V)>,
) -> Result<bool, AllocError>
    ensures merged { OnOk result
        (insert_pairs K.eq entries.new.items [] ≡ insert_pairs K.eq entries.old.items []) }
    ensures distinct { IfOk result
        (λ found. OnTrue found (AreDistinct K.eq (keys_of entries.new.items))) }
{
    let len = entries.len();
    let count = len.saturating_mul(2);
    let Ok(mut heads) = Vec::from_elem(alloc, 0u32, count) else {
        return Ok(false);
    };
    let Ok(mut earlier) = Vec::with_capacity(alloc, len) else {
        return Ok(false);
    };
    let mut left = if len <= MAX_IN_ONE_BUCKET {
        MAX_IN_ONE_BUCKET * MAX_IN_ONE_BUCKET
    } else {
        count
    };
    match index_distinct(entries, &mut heads, &mut earlier, &mut left) {
        Some(indexed) => {
            if indexed >= len {
                return Ok(true);
            }
            let rest = entries.split_off(indexed)?;
            insert_rest(entries, rest, &mut heads, &mut earlier, &mut left)
        }
        None => Ok(false),
    }
}

// Adds entries to an empty index up to the first one with a repeated key, and returns their number.
// Takes one off `left` for each comparison, and returns `None` if none is left, or if an allocation
// fails or there are 2³² entries.
fn index_distinct<K: Hash + Eq, V>(
    entries: &[(K, V)],
    heads: &mut [u32],
    earlier: &mut Vec<u32>,
    left: &mut usize,
) -> Option<usize>
    requires some { 0 < length entries.now → 0 < length heads.old }
    requires empty { heads.old ≡ replicate (length heads.old) 0 }
    requires none { earlier.old.items ≡ [] }
    ensures length { length heads.new ≡ length heads.old }
    ensures within { IfSome result (λ n. n ≤ length entries.now) }
    ensures indexed { IfSome result (λ n.
        IsIndexed K.eq K.hash_input heads.new earlier.new.items (take n entries.now)) }
{
    for i in 0..entries.len() {
        let key = &entries[i].0;
        let bucket = bucket_of(key, heads.len());
        match find_within(&entries[..i], heads, earlier, bucket, key, left)? {
            Some(_) => return Some(i),
            None => {
                if !add(heads, earlier, bucket) {
                    return None;
                }
            }
        }
    }
    Some(entries.len())
}

// Inserts entries in order, as long as the index shows the place of each, and appends the others.
// Returns whether all were inserted.
fn insert_rest<K: Hash + Eq + Drop, V: Drop>(
    entries: &mut Vec<(K, V)>,
    rest: Vec<(K, V)>,
    heads: &mut [u32],
    earlier: &mut Vec<u32>,
    left: &mut usize,
) -> Result<bool, AllocError>
    requires some { 0 < length heads.old }
    requires indexed { IsIndexed K.eq K.hash_input heads.old earlier.old.items entries.old.items }
    ensures merged { OnOk result (insert_pairs K.eq entries.new.items []
        ≡ insert_pairs K.eq (entries.old.items ++ rest.items) []) }
    ensures distinct { IfOk result
        (λ found. OnTrue found (AreDistinct K.eq (keys_of entries.new.items))) }
{
    let mut all = true;
    for (key, value) in rest {
        if all {
            all = insert_one(entries, heads, earlier, left, key, value)?;
        } else {
            entries.push((key, value))?;
        }
    }
    Ok(all)
}

// Inserts an entry, if the index shows the place of its key, and appends it otherwise. Returns
// whether it was inserted.
fn insert_one<K: Hash + Eq + Drop, V: Drop>(
    entries: &mut Vec<(K, V)>,
    heads: &mut [u32],
    earlier: &mut Vec<u32>,
    left: &mut usize,
    key: K,
    value: V,
) -> Result<bool, AllocError>
    requires some { 0 < length heads.old }
    requires indexed { IsIndexed K.eq K.hash_input heads.old earlier.old.items entries.old.items }
    ensures length { length heads.new ≡ length heads.old }
    ensures merged { OnOk result (insert_pairs K.eq entries.new.items []
        ≡ insert_pair K.eq (insert_pairs K.eq entries.old.items []) key value) }
    ensures indexed { IfOk result (λ found. OnTrue found
        (IsIndexed K.eq K.hash_input heads.new earlier.new.items entries.new.items)) }
{
    let bucket = bucket_of(&key, heads.len());
    match find_within(entries, heads, earlier, bucket, &key, left) {
        Some(Some(at)) => {
            drop(mem::replace(&mut entries[at].1, value));
            Ok(true)
        }
        Some(None) => {
            entries.push((key, value))?;
            Ok(add(heads, earlier, bucket))
        }
        None => {
            entries.push((key, value))?;
            Ok(false)
        }
    }
}
