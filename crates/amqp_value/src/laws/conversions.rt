//! Laws of conversions and format codes.

ghost use Rattle.std.specs.Prelude.{◌≡◌, [], true};
ghost use Rattle.std.specs.HashMap.{IsFromIterResult};
ghost use Rattle.indexmap.specs.IndexMap.{insert_all};
ghost use Rattle.amqp_data.specs.Items.{array_items};
ghost use Rattle.amqp_data.specs.Pairs.{entries_of};
ghost use Rattle.amqp_ser.specs.Tree.{Tree, Trees, array, more};
ghost use Rattle.amqp_ser.specs.Writable.{writable};
ghost use Rattle.amqp_value.specs.ComesBack.{ComesBack};
ghost use Rattle.amqp_value.specs.Contents.{array_in, list_in};
ghost use Rattle.amqp_value.specs.Conversions.{ConvertsEach, ConvertsPairs};
ghost use Rattle.amqp_value.specs.Converts.{inserted_in_order, inserted_sorted};
ghost use Rattle.amqp_value.specs.FormatCode.{HasOneCode};

use crate::Value;
use amqp_data::{
    Array, ByteBuf, Dec32, Dec64, Dec128, F32Bits, F64Bits, OrderedMap, Symbol, Timestamp, Uuid,
};
use amqp_ser::Serialize;
use indexmap::IndexMap;
use std::collections::{BTreeMap, HashMap};
use std::hash::Hash;

/// A scalar round-trips through `From` and `TryFrom`, and the `Value` has the scalar's tree.
///
/// # Memory
/// None.
pub fn scalars_come_back()
    ensures bools { ComesBack ⟦<bool as Serialize>⟧.tree ⟦<Value as From<bool>>⟧.from_gives
        ⟦<bool as TryFrom<Value>>⟧.try_from_gives }
    ensures ubytes { ComesBack ⟦<u8 as Serialize>⟧.tree ⟦<Value as From<u8>>⟧.from_gives
        ⟦<u8 as TryFrom<Value>>⟧.try_from_gives }
    ensures ushorts { ComesBack ⟦<u16 as Serialize>⟧.tree ⟦<Value as From<u16>>⟧.from_gives
        ⟦<u16 as TryFrom<Value>>⟧.try_from_gives }
    ensures uints { ComesBack ⟦<u32 as Serialize>⟧.tree ⟦<Value as From<u32>>⟧.from_gives
        ⟦<u32 as TryFrom<Value>>⟧.try_from_gives }
    ensures ulongs { ComesBack ⟦<u64 as Serialize>⟧.tree ⟦<Value as From<u64>>⟧.from_gives
        ⟦<u64 as TryFrom<Value>>⟧.try_from_gives }
    ensures bytes { ComesBack ⟦<i8 as Serialize>⟧.tree ⟦<Value as From<i8>>⟧.from_gives
        ⟦<i8 as TryFrom<Value>>⟧.try_from_gives }
    ensures shorts { ComesBack ⟦<i16 as Serialize>⟧.tree ⟦<Value as From<i16>>⟧.from_gives
        ⟦<i16 as TryFrom<Value>>⟧.try_from_gives }
    ensures ints { ComesBack ⟦<i32 as Serialize>⟧.tree ⟦<Value as From<i32>>⟧.from_gives
        ⟦<i32 as TryFrom<Value>>⟧.try_from_gives }
    ensures longs { ComesBack ⟦<i64 as Serialize>⟧.tree ⟦<Value as From<i64>>⟧.from_gives
        ⟦<i64 as TryFrom<Value>>⟧.try_from_gives }
    ensures floats { ComesBack ⟦<F32Bits as Serialize>⟧.tree ⟦<Value as From<F32Bits>>⟧.from_gives
        ⟦<F32Bits as TryFrom<Value>>⟧.try_from_gives }
    ensures doubles { ComesBack ⟦<F64Bits as Serialize>⟧.tree ⟦<Value as From<F64Bits>>⟧.from_gives
        ⟦<F64Bits as TryFrom<Value>>⟧.try_from_gives }
    ensures decimal32s { ComesBack ⟦<Dec32 as Serialize>⟧.tree ⟦<Value as From<Dec32>>⟧.from_gives
        ⟦<Dec32 as TryFrom<Value>>⟧.try_from_gives }
    ensures decimal64s { ComesBack ⟦<Dec64 as Serialize>⟧.tree ⟦<Value as From<Dec64>>⟧.from_gives
        ⟦<Dec64 as TryFrom<Value>>⟧.try_from_gives }
    ensures decimal128s { ComesBack ⟦<Dec128 as Serialize>⟧.tree
        ⟦<Value as From<Dec128>>⟧.from_gives ⟦<Dec128 as TryFrom<Value>>⟧.try_from_gives }
    ensures chars { ComesBack ⟦<char as Serialize>⟧.tree ⟦<Value as From<char>>⟧.from_gives
        ⟦<char as TryFrom<Value>>⟧.try_from_gives }
    ensures timestamps { ComesBack ⟦<Timestamp as Serialize>⟧.tree
        ⟦<Value as From<Timestamp>>⟧.from_gives ⟦<Timestamp as TryFrom<Value>>⟧.try_from_gives }
    ensures uuids { ComesBack ⟦<Uuid as Serialize>⟧.tree ⟦<Value as From<Uuid>>⟧.from_gives
        ⟦<Uuid as TryFrom<Value>>⟧.try_from_gives }
    ensures binaries { ComesBack ⟦<ByteBuf as Serialize>⟧.tree ⟦<Value as From<ByteBuf>>⟧.from_gives
        ⟦<ByteBuf as TryFrom<Value>>⟧.try_from_gives }
    ensures strings { ComesBack ⟦<String as Serialize>⟧.tree ⟦<Value as From<String>>⟧.from_gives
        ⟦<String as TryFrom<Value>>⟧.try_from_gives }
    ensures symbols { ComesBack ⟦<Symbol as Serialize>⟧.tree ⟦<Value as From<Symbol>>⟧.from_gives
        ⟦<Symbol as TryFrom<Value>>⟧.try_from_gives }
{}

/// A list converts to a `Vec`, and an array to an `Array`, whose elements are those of the list or
/// of the array, converted in order. Any other value is returned unchanged.
///
/// # Memory
/// None.
pub fn elements_convert<T: TryFrom<Value, Error = Value> + Drop>()
    ensures lists { ConvertsEach list_in (λ list. list.items) (λ made. made.items)
        T.try_from_gives ⟦<Vec<T> as TryFrom<Value>>⟧.try_from_gives }
    ensures arrays { ConvertsEach array_in array_items array_items
        T.try_from_gives ⟦<Array<T> as TryFrom<Value>>⟧.try_from_gives }
{}

/// A map converts to a map of converted keys and values, inserted in order. Any other value is
/// returned unchanged.
///
/// # Memory
/// None.
pub fn entries_convert<K, V>()
where
    K: TryFrom<Value, Error = Value> + Hash + Ord + Drop,
    V: TryFrom<Value, Error = Value> + Drop,
    ensures ordered { ConvertsPairs (λ done made. entries_of made ≡ inserted_in_order K.eq done)
        K.try_from_gives V.try_from_gives
        ⟦<OrderedMap<K, V> as TryFrom<Value>>⟧.try_from_gives }
    ensures sorted { ConvertsPairs (λ done made. made.entries ≡ inserted_sorted K.cmp done)
        K.try_from_gives V.try_from_gives
        ⟦<BTreeMap<K, V> as TryFrom<Value>>⟧.try_from_gives }
    ensures indexed { ConvertsPairs (λ done made. made.entries ≡ insert_all K.eq [] done)
        K.try_from_gives V.try_from_gives
        ⟦<IndexMap<K, V> as TryFrom<Value>>⟧.try_from_gives }
    ensures hashed { ConvertsPairs (λ done made. IsFromIterResult K.eq done made)
        K.try_from_gives V.try_from_gives
        ⟦<HashMap<K, V> as TryFrom<Value>>⟧.try_from_gives }
{}

/// The elements of a non-empty writable array, and their images, all have one format code, which is
/// the constructor in the array.
///
/// # Memory
/// None.
pub fn elements_have_one_format_code()
    ensures { (first : Tree) (rest : Trees) → writable (array (more first rest)) ≡ true →
        HasOneCode (more first rest) }
{}
