//! Maps, with the entries in the order of the map.

ghost use Rattle.amqp_ser.specs.Compounds.{parts_of, tree_of_parts};
ghost use Rattle.amqp_ser.specs.declared.kind.CompoundKind.TheVariants.{Map};
ghost use Rattle.amqp_data.specs.Pairs.{entries_of};

use crate::calls::compounds::SerializeCompounds;
use crate::serialize::Serialize;
use crate::serializer::Serializer;
use amqp_data::OrderedMap;
use std::collections::BTreeMap;

impl<K: Serialize + Ord, V: Serialize> Serialize for BTreeMap<K, V> {
    ghost tree = { λ m. tree_of_parts Map (parts_of K.tree V.tree m.entries) };

    fn serialize<S: Serializer>(&self, serializer: &mut S) -> Result<S::Ok, S::Error> {
        let mut map = serializer.serialize_map(Some(self.len()))?;
        for (key, value) in self {
            map.serialize_entry(key, value)?;
        }
        map.end()
    }
}

impl<K: Serialize, V: Serialize> Serialize for OrderedMap<K, V> {
    ghost tree = { λ m. tree_of_parts Map (parts_of K.tree V.tree (entries_of m)) };

    fn serialize<S: Serializer>(&self, serializer: &mut S) -> Result<S::Ok, S::Error> {
        let mut map = serializer.serialize_map(Some(self.len()))?;
        for (key, value) in self.iter() {
            map.serialize_entry(key, value)?;
        }
        map.end()
    }
}
