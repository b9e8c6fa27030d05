//! Conversions of a text and of containers, which convert each element.

ghost use Rattle.std.specs.Prelude.{◌≡◌, ◌≤◌, List, [], MatchResult, IsSomeAnd, IfErr};
ghost use Rattle.std.specs.List.{AllZip};
ghost use Rattle.amqp_data.specs.Items.{array_items};
ghost use Rattle.amqp_data.specs.Pairs.{entries_of, insert_pairs};
ghost use Rattle.amqp_ser.specs.Tree.{scalar, string};
ghost use Rattle.amqp_value.specs.Contents.{array_in, described_in, list_in, map_in};
ghost use Rattle.amqp_value.specs.Converts.{IsMapOf};
ghost use Rattle.amqp_value.specs.Equal.{equal};
ghost use Rattle.amqp_value.specs.TreeOf.{tree_of};

use crate::Value;
use crate::map_builder::converted_map_of;
use amqp_data::{Array, Described, Error, OrderedMap};
use std::alloc::Global;
use std::collections::BTreeMap;

impl Value {
    /// Returns a `String` with a copy of the text.
    ///
    /// # Errors
    /// Returns `Error::OutOfMemory` if an allocation fails.
    ///
    /// # Memory
    /// Allocates once from `alloc`.
    ///
    /// # Example
    /// `a` gives a `String` that is encoded as `a10161`.
    pub fn try_from_str(alloc: Global, text: &str) -> Result<Value, Error>
        ensures { MatchResult result
            (λ v. tree_of v ≡ scalar (string text.now))
            (λ e. e ≡ Error.OutOfMemory) }
    {
        Ok(Value::String(String::from_str(alloc, text)?))
    }

    /// Returns a `Described` with the same descriptor and the value converted.
    ///
    /// # Errors
    /// Returns `Error::OutOfMemory` if an allocation fails. The argument is dropped.
    ///
    /// # Memory
    /// Allocates once from `alloc`.
    ///
    /// # Example
    /// The code 1 and `true` give a `Described` that is encoded as `00530141`.
    pub fn try_from_described<T: Into<Value> + Drop>(
        alloc: Global,
        described: Described<T>,
    ) -> Result<Value, Error>
        ensures { MatchResult result
            (λ v. IsSomeAnd (described_in v) (λ d. (d.descriptor ≡ described.descriptor)
            × T.converts described.value d.value))
            (λ e. e ≡ Error.OutOfMemory) }
    {
        let Described { descriptor, value } = described;
        let described = Described {
            descriptor,
            value: value.into(),
        };
        Ok(Value::Described(Box::new(alloc, described)?))
    }

    /// Returns a `List` of the items, each converted.
    ///
    /// # Errors
    /// Returns `Error::OutOfMemory` if an allocation fails. The argument is dropped.
    ///
    /// # Memory
    /// Allocates once from `alloc`, or not at all if there are no items.
    ///
    /// # Example
    /// `[1u8, 2u8]` gives a `List` that is encoded as `c0050250015002`.
    pub fn try_from_vec<T: Into<Value> + Drop>(alloc: Global, items: Vec<T>) -> Result<Value, Error>
        ensures { MatchResult result
            (λ v. IsSomeAnd (list_in v) (λ list. AllZip T.converts items.items list.items))
            (λ e. e ≡ Error.OutOfMemory) }
    {
        Ok(Value::List(convert_items(alloc, items)?))
    }

    /// Returns an `Array` of the elements, each converted.
    ///
    /// # Errors
    /// Returns `Error::OutOfMemory` if an allocation fails. The argument is dropped.
    ///
    /// # Memory
    /// Allocates once from `alloc`, or not at all if there are no elements.
    ///
    /// # Example
    /// `[1u8, 2u8]` gives an `Array` that is encoded as `e00402500102`.
    pub fn try_from_array<T: Into<Value> + Drop>(
        alloc: Global,
        array: Array<T>,
    ) -> Result<Value, Error>
        ensures { MatchResult result
            (λ v. IsSomeAnd (array_in v)
            (λ made. AllZip T.converts (array_items array) (array_items made)))
            (λ e. e ≡ Error.OutOfMemory) }
    {
        let items = convert_items(alloc, array.into_inner())?;
        Ok(Value::Array(Array::from(items)))
    }

    /// Returns a `Map` of the entries, each key and value converted, inserted in the order of the
    /// keys.
    ///
    /// If several keys are converted to equal values, the map has one such key, with the last
    /// value.
    ///
    /// # Errors
    /// Returns `Error::OutOfMemory` if an allocation fails. The argument is dropped.
    ///
    /// # Memory
    /// Allocates once from `alloc` for the entries, or not at all if there are none. The capacity
    /// is a power of two, at least 4, as after insertions one by one. To find equal keys, it
    /// allocates as `MapBuilder::into_value` if all keys are short (`is_short_key`) or if there are
    /// many. Otherwise it allocates a block for the entries from the first repeated key on, if
    /// there is one.
    ///
    /// # Example
    /// `1u8` to `true` gives a `Map` that is encoded as `c10402500141`.
    #[tactic(auto, using(crate::proofs::Zips::zip_push))]
    pub fn try_from_btree_map<K: Into<Value> + Ord + Drop, V: Into<Value> + Drop>(
        alloc: Global,
        map: BTreeMap<K, V>,
    ) -> Result<Value, Error>
        ensures { MatchResult result
            (λ v. IsSomeAnd (map_in v)
            (IsMapOf ⟦<Value as PartialEq>⟧.eq K.converts V.converts map.entries))
            (λ e. e ≡ Error.OutOfMemory) }
    {
        let mut pairs = Vec::with_capacity(alloc, grown_capacity(map.len()))?;
        for (key, value) in map {
            pairs.push((key.into(), value.into()))?;
        }
        inserted(alloc, pairs)
    }

    /// Returns a `Map` of the entries, each key and value converted, inserted in their order.
    ///
    /// If several keys are converted to equal values, the map has one such key, with the last
    /// value.
    ///
    /// # Errors
    /// Returns `Error::OutOfMemory` if an allocation fails. The argument is dropped.
    ///
    /// # Memory
    /// Allocates once from `alloc` for the entries, or not at all if there are none. The capacity
    /// is a power of two, at least 4, as after insertions one by one. To find equal keys, it
    /// allocates as `MapBuilder::into_value` if all keys are short (`is_short_key`) or if there are
    /// many. Otherwise it allocates a block for the entries from the first repeated key on, if
    /// there is one.
    ///
    /// # Example
    /// The ubyte keys 2 to `true` and 1 to `false` give a `Map` that is encoded as
    /// `c10704500241500142`.
    #[tactic(auto, using(crate::proofs::Zips::zip_push, crate::proofs::Zips::converted_map))]
    pub fn try_from_ordered_map<K: Into<Value> + Drop, V: Into<Value> + Drop>(
        alloc: Global,
        map: OrderedMap<K, V>,
    ) -> Result<Value, Error>
        ensures { MatchResult result
            (λ v. IsSomeAnd (map_in v)
            (IsMapOf ⟦<Value as PartialEq>⟧.eq K.converts V.converts (entries_of map)))
            (λ e. e ≡ Error.OutOfMemory) }
    {
        let mut pairs = Vec::with_capacity(alloc, grown_capacity(map.len()))?;
        for (key, value) in map.into_inner() {
            pairs.push((key.into(), value.into()))?;
        }
        inserted(alloc, pairs)
    }
}

#[tactic(auto, using(crate::proofs::Zips::zip_push))]
fn convert_items<T: Into<Value> + Drop>(alloc: Global, items: Vec<T>) -> Result<Vec<Value>, Error>
    ensures { MatchResult result
        (λ values. AllZip T.converts items.items values.items)
        (λ e. e ≡ Error.OutOfMemory) }
{
    let mut values = Vec::with_capacity(alloc, items.len())?;
    for item in items {
        values.push(item.into())?;
    }
    Ok(values)
}

// Returns the map of the entries, inserted in order.
fn inserted(alloc: Global, pairs: Vec<(Value, Value)>) -> Result<Value, Error>
    ensures { MatchResult result
        (λ v. IsSomeAnd (map_in v) (λ map. entries_of map ≡ insert_pairs equal pairs.items []))
        (λ e. e ≡ Error.OutOfMemory) }
{
    let entries = converted_map_of(alloc, pairs)?;
    Ok(Value::Map(entries))
}

// Returns the capacity of a vector of entries to which `len` entries were pushed: a power of two,
// at least 4, or 0 for no entries.
fn grown_capacity(len: usize) -> usize
    ensures { len ≤ result }
{
    match len.checked_next_power_of_two() {
        Some(capacity) if len > 0 => capacity.max(4),
        _ => len,
    }
}
