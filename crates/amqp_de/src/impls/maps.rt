//! Maps, whose keys and values are read in order.

ghost use Rattle.std.specs.Prelude.{◌≡◌, ◌⊎◌, List, [], ◌∷◌, ◌++◌, IfOk, IfErr, IsTrue, map};
ghost use Rattle.std.specs.Prelude.{MatchResult};
ghost use Rattle.std.specs.Bool.{OnTrue};
ghost use Rattle.std.specs.List.{AllZip, AllByRecursion};
ghost use Rattle.std.specs.Map.{keys_of};
ghost use Rattle.amqp_data.specs.Pairs.{entries_of};
ghost use Rattle.amqp_ser.specs.Tree as tree;
ghost use Rattle.amqp_ser.specs.Tree.{Tree};
ghost use Rattle.amqp_value.specs.TreeOf.{pairs_of};
ghost use Rattle.amqp_de.specs.Maps.{OnMap, ReadsPair, ReadsPairs, pair_image, IsPair, SamePair};
ghost use Rattle.amqp_de.specs.Maps.{HoldsInOrder, HoldsSorted, AreDistinct, AreAscending};
ghost use Rattle.amqp_de.specs.Results.{IsMemory, ReadsAndRestores};

use crate::deserialize::Deserialize;
use crate::fault::Fault;
use crate::room::MAX_RESERVED_ENTRIES;
use crate::source::Source;
use amqp_data::{OrderedMap, keys_differ, once_each_unordered};
use amqp_value::Inserts;
use std::alloc::{AllocError, Global};
use std::collections::BTreeMap;
use std::hash::Hash;

/// Inserts the entries in order into an empty map.
pub(super) fn insert_all<K: Drop, V: Drop, M: Inserts<K, V>>(
    alloc: Global,
    entries: Vec<(K, V)>,
) -> Result<M, Fault>
    ensures ok { IfOk result (M.holds entries.items) }
    ensures err { IfErr result IsMemory }
{
    let mut map = M::empty(alloc, entries.len());
    for (key, value) in entries {
        if !map.put(key, value) {
            return Err(Fault::memory());
        }
    }
    Ok(map)
}

// Makes a map of the entries, inserted in order.
fn once_each<K: Hash + Eq + Drop, V: Drop>(
    alloc: Global,
    entries: Vec<(K, V)>,
) -> Result<OrderedMap<K, V>, AllocError>
    ensures { IfOk result (HoldsInOrder K.eq entries.items) }
{
    if keys_differ(alloc, &entries) {
        Ok(OrderedMap::from_distinct(entries))
    } else {
        insert_by_hashes(alloc, entries)
    }
}

// Like the function above, for entries whose keys may repeat.
fn insert_by_hashes<K: Hash + Eq + Drop, V: Drop>(
    alloc: Global,
    entries: Vec<(K, V)>,
) -> Result<OrderedMap<K, V>, AllocError>
    ensures { IfOk result (HoldsInOrder K.eq entries.items) }
{
    let made = once_each_unordered(alloc, entries)?;
    Ok(OrderedMap::from_distinct(made))
}

/// Reads all keys and values. Inlined, so that the compiler knows that the entries are contiguous.
#[inline(always)]
fn read_entries<K: Deserialize, V: Deserialize, S: Source>(
    alloc: Global,
    entries: S::Entries,
) -> Result<Vec<(K, V)>, Fault>
    ensures ok { IfOk result (λ v. (ps : List (Tree × Tree)) × S.holds_pairs entries ps
        × AllZip (ReadsPair (ReadsAndRestores K.reads K.image K.restorable K.same)
        (ReadsAndRestores V.reads V.image V.restorable V.same)) ps v.items) }
    ensures err { IfErr result (λ e. S.pairs_whole entries → IsMemory e
        ⊎ ((xs : List (K × V)) → ¬ AllZip (ReadsPair K.reads V.reads) (S.pairs entries) xs)) }
    ensures law { (xs : List (K × V)) → AllByRecursion (IsPair K.restorable V.restorable) xs →
        S.pairs entries ≡ map (pair_image K.image V.image) xs →
        IfErr result (λ e. S.pairs_whole entries → IsMemory e) }
{
    let mut entries = entries;
    let room = S::entry_room(&entries);
    let mut items = match Vec::with_capacity(alloc, room.min(MAX_RESERVED_ENTRIES)) {
        Ok(items) => items,
        Err(_) => return Err(Fault::memory()),
    };
    'entries: loop {
        let (source, pending) = match S::next_key(&mut entries) {
            Some(next) => next,
            None => {
                return match S::close_entries(entries) {
                    Ok(()) => Ok(items),
                    Err(fault) => Err(fault),
                };
            }
        };
        let (key, rest) = match K::read(alloc, source) {
            Ok(read) => read,
            Err(fault) => return Err(S::placed(fault, "", S::entries_read(&entries))),
        };
        let source = match S::value_after(&mut entries, pending, rest) {
            Ok(source) => source,
            Err(fault) => return Err(fault),
        };
        let (value, rest) = match V::read(alloc, source) {
            Ok(read) => read,
            Err(fault) => return Err(S::placed(fault, "", S::entries_read(&entries))),
        };
        S::resume_entries(&mut entries, rest);
        if items.push((key, value)).is_err() {
            return Err(Fault::memory());
        }
    }
}

/// Reads the keys and values of a map, of which no key is repeated where a source may repeat it, and
/// returns them with what is left.
#[inline(always)]
pub(super) fn read_pairs<K: Deserialize, V: Deserialize, S: Source>(
    alloc: Global,
    source: S,
) -> Result<(Vec<(K, V)>, S::Rest), Fault>
    ensures ok { IfOk result (λ r. S.left source r.1
        × OnMap (λ ts. AllZip (ReadsPair K.reads V.reads) ts r.0.items) (S.value source)) }
    ensures err { IfErr result (λ e. S.is_whole source → IsMemory e ⊎ ((xs : List (K × V)) →
        ¬ OnMap (λ ts. AllZip (ReadsPair K.reads V.reads) ts xs) (S.value source))) }
    ensures law { (xs : List (K × V)) → AllByRecursion (IsPair K.restorable V.restorable) xs →
        S.value source ≡ tree.map (pairs_of (map (pair_image K.image V.image) xs)) →
        MatchResult result (λ r. AllZip (SamePair K.same V.same) r.0.items xs)
        (λ e. S.is_whole source → IsMemory e) }
{
    let (entries, rest) = match source.map() {
        Ok(opened) => opened,
        Err(fault) => return Err(fault),
    };
    let knows = S::knows_maps(&entries);
    let items = match read_entries::<K, V, S>(alloc, entries) {
        Ok(items) => items,
        Err(fault) => return Err(fault),
    };
    if knows {
        return Ok((items, rest));
    }
    if K::have_distinct_trees(alloc, &items) {
        Ok((items, rest))
    } else {
        Err(Fault::gave_up())
    }
}

impl<K: Deserialize + Ord, V: Deserialize> Deserialize for BTreeMap<K, V> {
    ghost reads = { λ t m. OnMap (λ ts. ReadsPairs K.reads V.reads (HoldsSorted K.cmp) ts m) t };

    ghost image = { λ m. tree.map (pairs_of (map (pair_image K.image V.image) m.entries)) };

    ghost restorable = { λ m. AllByRecursion (IsPair K.restorable V.restorable) m.entries
        × AreAscending K.same K.cmp (keys_of m.entries) };

    ghost same = { λ m n. AllZip (SamePair K.same V.same) m.entries n.entries };

    fn read<S: Source>(alloc: Global, source: S) -> Result<(BTreeMap<K, V>, S::Rest), Fault> {
        let (items, rest) = match read_pairs::<K, V, S>(alloc, source) {
            Ok(read) => read,
            Err(fault) => return Err(fault),
        };
        match insert_all::<K, V, BTreeMap<K, V>>(alloc, items) {
            Ok(map) => Ok((map, rest)),
            Err(fault) => Err(fault),
        }
    }
}

impl<K: Deserialize + Hash + Eq, V: Deserialize> Deserialize for OrderedMap<K, V> {
    ghost reads = { λ t m. OnMap (λ ts. ReadsPairs K.reads V.reads (HoldsInOrder K.eq) ts m) t };

    ghost image = { λ m. tree.map (pairs_of (map (pair_image K.image V.image) (entries_of m))) };

    ghost restorable = { λ m. AllByRecursion (IsPair K.restorable V.restorable) (entries_of m)
        × AreDistinct K.same K.eq (keys_of (entries_of m)) };

    ghost same = { λ m n. AllZip (SamePair K.same V.same) (entries_of m) (entries_of n) };

    fn read<S: Source>(alloc: Global, source: S) -> Result<(OrderedMap<K, V>, S::Rest), Fault> {
        let (items, rest) = match read_pairs::<K, V, S>(alloc, source) {
            Ok(read) => read,
            Err(fault) => return Err(fault),
        };
        match once_each(alloc, items) {
            Ok(map) => Ok((map, rest)),
            Err(_) => Err(Fault::memory()),
        }
    }
}
