//! Entries with each key once, found by the order of the keys.

ghost use Rattle.std.specs.Prelude.{◌≡◌, [], List, IfOk};
ghost use Rattle.amqp_data.specs.Pairs.{insert_pair, insert_pairs};
ghost use Rattle.amqp_data.specs.KeyPositions.{Indexes, key_position, key_positions};

use crate::keys::put;
use std::alloc::{AllocError, Global};
use std::collections::BTreeMap;

/// Returns the entries, inserted in order: a repeated key keeps its position and gets the new
/// value. It takes O(k log k) comparisons of k keys.
///
/// # Errors
/// Returns `AllocError` if an allocation fails.
///
/// # Memory
/// A B-tree of the keys and a position for each entry, until it returns, and the new entries.
pub fn once_each_by_order<K: Ord + Drop, V: Drop>(
    alloc: Global,
    entries: Vec<(K, V)>,
) -> Result<Vec<(K, V)>, AllocError>
    ensures { IfOk result (λ made. made.items ≡ insert_pairs K.eq entries.items []) }
{
    let found = key_positions_of(alloc, &entries)?;
    rebuild(alloc, entries, found)
}

// Returns, for each entry, the position of its key among the entries before it, if it is there.
fn key_positions_of<K: Ord, V>(
    alloc: Global,
    entries: &[(K, V)],
) -> Result<Vec<Option<usize>>, AllocError>
    ensures { IfOk result (λ found. found.items ≡ key_positions K.eq entries.now []) }
{
    let mut index: BTreeMap<&K, usize> = BTreeMap::new(alloc);
    let mut found = Vec::new(alloc);
    for entry in entries {
        let at = find_or_add::<K, V>(&mut index, &entry.0)?;
        found.push(at)?;
    }
    Ok(found)
}

// Returns the position of the key in the index, or adds the key at the end and returns `None`.
fn find_or_add<'a, K: Ord, V>(
    index: &mut BTreeMap<&'a K, usize>,
    key: &'a K,
) -> Result<Option<usize>, AllocError>
    ensures { IfOk result (λ at. (done : List (K × V)) → Indexes K.eq K.cmp done index.old →
        (at ≡ key_position K.eq key.now done)
        × ((v : V) → Indexes K.eq K.cmp (insert_pair K.eq done key.now v) index.new)) }
{
    if let Some(at) = index.get(&key) {
        return Ok(Some(*at));
    }
    let last = index.len();
    drop(index.insert(key, last)?);
    Ok(None)
}

// Builds the entries with each key once.
fn rebuild<K: Ord + Drop, V: Drop>(
    alloc: Global,
    entries: Vec<(K, V)>,
    found: Vec<Option<usize>>,
) -> Result<Vec<(K, V)>, AllocError>
    requires { found.items ≡ key_positions K.eq entries.items [] }
    ensures { IfOk result (λ made. made.items ≡ insert_pairs K.eq entries.items []) }
{
    let mut made = Vec::new(alloc);
    let mut i = 0;
    for (key, value) in entries {
        prove!(i < found.len());
        let at = found[i];
        i += 1;
        put(&mut made, at, key, value)?;
    }
    Ok(made)
}
