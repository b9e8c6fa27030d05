//! Hash maps, whose keys and values are read in order.

ghost use Rattle.std.specs.Prelude.{map};
ghost use Rattle.std.specs.HashMap as hashed;
ghost use Rattle.std.specs.List.{AllByRecursion};
ghost use Rattle.std.specs.Map.{keys_of};
ghost use Rattle.amqp_ser.specs.Tree as tree;
ghost use Rattle.amqp_value.specs.TreeOf.{pairs_of};
ghost use Rattle.amqp_de.specs.Maps.{OnMap, ReadsPairs, pair_image, IsPair, SamePair};
ghost use Rattle.amqp_de.specs.Maps.{SameInSomeOrder, AreDistinct};

use super::maps::{insert_all, read_pairs};
use crate::deserialize::Deserialize;
use crate::fault::Fault;
use crate::source::Source;
use std::alloc::Global;
use std::collections::HashMap;
use std::hash::Hash;

impl<K: Deserialize + Hash + Eq, V: Deserialize> Deserialize for HashMap<K, V> {
    ghost reads = { λ t m.
        OnMap (λ ts. ReadsPairs K.reads V.reads (hashed.IsFromIterResult K.eq) ts m) t };

    ghost image = { λ m. tree.map (pairs_of (map (pair_image K.image V.image) m.entries)) };

    ghost restorable = { λ m. AllByRecursion (IsPair K.restorable V.restorable) m.entries
        × AreDistinct K.same K.eq (keys_of m.entries) };

    ghost same = { SameInSomeOrder (SamePair K.same V.same) };

    fn read<S: Source>(alloc: Global, source: S) -> Result<(HashMap<K, V>, S::Rest), Fault> {
        let (items, rest) = match read_pairs::<K, V, S>(alloc, source) {
            Ok(read) => read,
            Err(fault) => return Err(fault),
        };
        match insert_all::<K, V, HashMap<K, V>>(alloc, items) {
            Ok(map) => Ok((map, rest)),
            Err(fault) => Err(fault),
        }
    }
}
