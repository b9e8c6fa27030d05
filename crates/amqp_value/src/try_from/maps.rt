//! Conversions of a `Map` to four types of maps. Entries are inserted in order, so that of several
//! keys that are converted to equal keys the last value remains.

ghost use Rattle.std.specs.Prelude.{◌≡◌, []};
ghost use Rattle.std.specs.HashMap.{IsFromIterResult};
ghost use Rattle.indexmap.specs.IndexMap.{insert_all};
ghost use Rattle.amqp_data.specs.Pairs.{entries_of};
ghost use Rattle.amqp_value.specs.Converts.{MapGives, PairsGive, inserted_in_order};
ghost use Rattle.amqp_value.specs.Converts.{inserted_sorted};

use super::ConvertFault;
use super::pairs::convert_pairs;
use crate::Value;
use amqp_data::{MIN_INDEXED, OrderedMap, OrderedMapBuilder};
use indexmap::IndexMap;
use std::collections::{BTreeMap, HashMap};
use std::hash::Hash;

/// Converts a `Map`. Inserts its entries in order, each key converted before its value.
///
/// # Errors
/// Returns `Unfit` with a value that is not a `Map`, or with the first key or value that cannot be
/// converted. Returns `Memory` if an allocation fails, which can happen only if the first entry can
/// be converted.
///
/// # Memory
/// Allocates from the map's own allocator as the new map grows. From 48 entries on, an index takes
/// 16 bytes for each entry until the map is complete.
///
/// # Example
/// The map from the ubyte 1 to `true` gives 1 to `true` as an `OrderedMap<u8, bool>`, and
/// `Unfit(Bool(true))` as an `OrderedMap<u8, u8>`.
impl<K, V> TryFrom<Value> for OrderedMap<K, V>
where
    K: TryFrom<Value, Error = Value> + Hash + Eq + Drop,
    V: TryFrom<Value, Error = Value> + Drop,
{
    type Error = ConvertFault;

    ghost try_from_gives = { MapGives K.try_from_gives V.try_from_gives
        (λ done map. entries_of map ≡ inserted_in_order K.eq done) };

    fn try_from(value: Value) -> Result<OrderedMap<K, V>, ConvertFault> {
        match value {
            Value::Map(pairs) => {
                let pairs = pairs.into_inner();
                if pairs.len() < MIN_INDEXED {
                    return convert_pairs::<K, V, OrderedMap<K, V>>(pairs);
                }
                match convert_pairs::<K, V, OrderedMapBuilder<K, V>>(pairs) {
                    Ok(builder) => Ok(builder.into_map()),
                    Err(ConvertFault::Unfit(unfit)) => Err(ConvertFault::Unfit(unfit)),
                    Err(ConvertFault::Memory) => Err(ConvertFault::Memory),
                }
            }
            other => Err(ConvertFault::Unfit(other)),
        }
    }
}

/// Converts a `Map`. Inserts its entries in order, each key converted before its value.
///
/// # Errors
/// Returns `Unfit` with a value that is not a `Map`, or with the first key or value that cannot be
/// converted. Returns `Memory` if an allocation fails, which can happen only if the first entry can
/// be converted.
///
/// # Memory
/// Allocates from the map's own allocator as the new map grows.
///
/// # Example
/// The map of the ubytes 2 to `true` and 1 to `false` gives 1 to `false` and then 2 to `true`, as a
/// `BTreeMap<u8, bool>`.
impl<K, V> TryFrom<Value> for BTreeMap<K, V>
where
    K: TryFrom<Value, Error = Value> + Ord + Drop,
    V: TryFrom<Value, Error = Value> + Drop,
{
    type Error = ConvertFault;

    ghost try_from_gives = { MapGives K.try_from_gives V.try_from_gives
        (λ done map. map.entries ≡ inserted_sorted K.cmp done) };

    fn try_from(value: Value) -> Result<BTreeMap<K, V>, ConvertFault> {
        match value {
            Value::Map(pairs) => convert_pairs(pairs.into_inner()),
            other => Err(ConvertFault::Unfit(other)),
        }
    }
}

/// Converts a `Map`. Inserts its entries in order, each key converted before its value.
///
/// # Errors
/// Returns `Unfit` with a value that is not a `Map`, or with the first key or value that cannot be
/// converted. Returns `Memory` if an allocation fails, which can happen only if the first entry can
/// be converted.
///
/// # Memory
/// Allocates from the map's own allocator as the new map grows. The hash has a fixed seed.
///
/// # Example
/// The map of the ubytes 2 to `true` and 1 to `false` gives 2 to `true` and then 1 to `false`, as
/// an `IndexMap<u8, bool>`.
impl<K, V> TryFrom<Value> for IndexMap<K, V>
where
    K: TryFrom<Value, Error = Value> + Hash + Eq + Drop,
    V: TryFrom<Value, Error = Value> + Drop,
{
    type Error = ConvertFault;

    ghost try_from_gives = { MapGives K.try_from_gives V.try_from_gives
        (λ done map. map.entries ≡ insert_all K.eq [] done) };

    fn try_from(value: Value) -> Result<IndexMap<K, V>, ConvertFault> {
        match value {
            Value::Map(pairs) => convert_pairs(pairs.into_inner()),
            other => Err(ConvertFault::Unfit(other)),
        }
    }
}

/// Converts a `Map`. Inserts its entries in order, each key converted before its value.
///
/// # Errors
/// Returns `Unfit` with a value that is not a `Map`, or with the first key or value that cannot be
/// converted. Returns `Memory` if an allocation fails, which can happen only if the first entry can
/// be converted.
///
/// # Memory
/// Allocates from the map's own allocator as the new map grows. The hash has a fixed seed.
///
/// # Example
/// To a `HashMap<u8, bool>`, the map from the ubyte 1 to `true` gives 1 to `true`, and null gives
/// `Unfit(Null)`.
impl<K, V> TryFrom<Value> for HashMap<K, V>
where
    K: TryFrom<Value, Error = Value> + Hash + Eq + Drop,
    V: TryFrom<Value, Error = Value> + Drop,
{
    type Error = ConvertFault;

    ghost try_from_gives = { MapGives K.try_from_gives V.try_from_gives
        (λ done map. IsFromIterResult K.eq done map) };

    fn try_from(value: Value) -> Result<HashMap<K, V>, ConvertFault> {
        match value {
            Value::Map(pairs) => convert_hashed(pairs.into_inner()),
            other => Err(ConvertFault::Unfit(other)),
        }
    }
}

// Converts the entries and inserts them in order.
fn convert_hashed<K, V>(pairs: Vec<(Value, Value)>) -> Result<HashMap<K, V>, ConvertFault>
where
    K: TryFrom<Value, Error = Value> + Hash + Eq + Drop,
    V: TryFrom<Value, Error = Value> + Drop,
    ensures { PairsGive K.try_from_gives V.try_from_gives
        (λ done map. IsFromIterResult K.eq done map)
        pairs.items result }
{
    convert_pairs(pairs)
}
