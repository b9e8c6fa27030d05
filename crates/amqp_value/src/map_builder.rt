//! Entries in the order in which they were inserted.

ghost use Rattle.std.specs.Prelude.{◌≡◌, OnOk, IfOk, IfErr, OnErr, MatchResult, []};
ghost use Rattle.amqp_ser.specs.Tree.{map, no_pairs};
ghost use Rattle.amqp_value.specs.Image.{insert_tree};
ghost use Rattle.amqp_value.specs.TreeOf.{tree_of};
ghost use Rattle.amqp_value.specs.MapBuilder.{collected_pairs};
ghost use Rattle.amqp_data.specs.Pairs.{entries_of, insert_pairs};
ghost use Rattle.amqp_value.specs.Equal.{equal};
ghost use Rattle.std.specs.List.{list_all};
ghost use Rattle.amqp_value.specs.ShortKeys.{is_short_key};

use crate::value::Value;
use amqp_data::{
    Error, MAX_HASHED_BINARY, MAX_HASHED_TEXT, MAX_PAIRED_LONG, OrderedMap, ascends, once_each,
    once_each_by_order, once_each_by_pairs,
};
use std::alloc::{AllocError, AllocFailed, Global};

/// The entries of a map, inserted one after another. A repeated key keeps its position and gets the
/// new value, and a new key is appended.
#[derive(Drop)]
pub struct MapBuilder {
    pairs: Vec<(Value, Value)>,
}

impl MapBuilder {
    /// Returns a collection without entries.
    ///
    /// # Memory
    /// None before the first insertion.
    pub fn new(alloc: Global) -> MapBuilder
        ensures { collected_pairs result ≡ no_pairs }
    {
        MapBuilder {
            pairs: Vec::new(alloc),
        }
    }

    /// Returns a collection without entries that can hold `capacity` entries without allocating.
    ///
    /// # Errors
    /// Returns `AllocError` if the allocation fails.
    ///
    /// # Memory
    /// One block of `64 * capacity` bytes, or none if that is 0.
    pub fn with_capacity(alloc: Global, capacity: usize) -> Result<MapBuilder, AllocError>
        ensures { IfOk result (λ builder. collected_pairs builder ≡ no_pairs) }
    {
        let pairs = Vec::with_capacity(alloc, capacity)?;
        Ok(MapBuilder { pairs })
    }

    /// Inserts an entry.
    ///
    /// # Errors
    /// Returns `AllocFailed` with the key and value if an allocation fails. The entries are
    /// unchanged.
    ///
    /// # Memory
    /// That of a growing vector. A repeated key needs as much as a new one.
    pub fn insert(&mut self, key: Value, value: Value) -> Result<(), AllocFailed<(Value, Value)>>
        ensures ok { OnOk result (collected_pairs self.new
            ≡ insert_tree (collected_pairs self.old) (tree_of key) (tree_of value)) }
        ensures err { IfErr result (λ e. e.value ≡ (key, value)) }
        ensures unchanged { OnErr result (collected_pairs self.new ≡ collected_pairs self.old) }
    {
        self.pairs.push((key, value))
    }

    /// Returns the map of the entries, in order.
    ///
    /// # Errors
    /// Returns `Error::OutOfMemory` if an allocation fails, which can happen in three cases only: a
    /// key repeats; the keys do not ascend, and one of them is long (`is_short_key`); or the keys
    /// do not ascend, there are more than 8, and their hashes do not show that they differ.
    ///
    /// # Memory
    /// None if each key is greater than the one before it, or if there are at most 8 entries, all
    /// keys are short, and none repeats. More short keys take 12 bytes each. If a short key
    /// repeats, a block for the entries from the first repeated key on. If a key is long, a B-tree
    /// of the keys, a position for each entry, and a vector of the entries; likewise if there are
    /// more than 16 entries and many keys have hashes in the same bucket.
    pub fn into_value(self, alloc: Global) -> Result<Value, Error>
        ensures { MatchResult result
            (λ v. tree_of v ≡ map (collected_pairs self))
            (λ e. e ≡ Error.OutOfMemory) }
    {
        let entries = map_of(alloc, self.pairs)?;
        Ok(Value::Map(entries))
    }
}

// Returns the map of the entries, inserted in order: a repeated key keeps its position and gets the
// new value. Repeated long keys are found by their order alone.
pub fn map_of(
    alloc: Global,
    pairs: Vec<(Value, Value)>,
) -> Result<OrderedMap<Value, Value>, AllocError>
    ensures { IfOk result (λ map. entries_of map ≡ insert_pairs equal pairs.items []) }
{
    let entries = distinct(alloc, pairs)?;
    Ok(OrderedMap::from_distinct(entries))
}

// Like `map_of`, for entries whose keys were distinct before they were converted, so that
// a repeated key is rare. A small number of long keys are compared in pairs.
pub fn converted_map_of(
    alloc: Global,
    pairs: Vec<(Value, Value)>,
) -> Result<OrderedMap<Value, Value>, AllocError>
    ensures { IfOk result (λ map. entries_of map ≡ insert_pairs equal pairs.items []) }
{
    if pairs.len() > MAX_PAIRED_LONG || have_short_keys(&pairs) {
        return map_of(alloc, pairs);
    }
    let entries = once_each_by_pairs(pairs)?;
    Ok(OrderedMap::from_distinct(entries))
}

// Returns the entries, inserted in order.
fn distinct(alloc: Global, pairs: Vec<(Value, Value)>) -> Result<Vec<(Value, Value)>, AllocError>
    ensures { IfOk result (λ entries. entries.items ≡ insert_pairs equal pairs.items []) }
{
    if ascends(&pairs) {
        Ok(pairs)
    } else if have_short_keys(&pairs) {
        once_each(alloc, pairs)
    } else {
        once_each_by_order(alloc, pairs)
    }
}

/// Returns whether the hash of the key is computed in few steps: whether it is a scalar, and at
/// most 256 bytes long if it is a text, or 32 if it is a binary.
///
/// # Example
/// True for the string `a`, false for an empty list.
pub fn is_short_key(key: &Value) -> bool
    ensures { result ≡ is_short_key key.now }
{
    match key {
        Value::Binary(bytes) => bytes.as_inner().len() <= MAX_HASHED_BINARY,
        Value::String(text) => text.len() <= MAX_HASHED_TEXT,
        Value::Symbol(name) => name.as_inner().len() <= MAX_HASHED_TEXT,
        Value::Described(_) | Value::List(_) | Value::Map(_) | Value::Array(_) => false,
        _ => true,
    }
}

/// Returns whether `is_short_key` is true for each key.
pub(crate) fn have_short_keys(entries: &[(Value, Value)]) -> bool
    ensures { result ≡ list_all (λ e. is_short_key e.0) entries.now }
{
    entries.iter().all(|entry| is_short_key(&entry.0))
}
