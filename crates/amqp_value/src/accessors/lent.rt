//! Accessors that lend the content to be changed.

ghost use Rattle.std.specs.Prelude.{◌≡◌, option_and_then};
ghost use Rattle.std.specs.Borrow.{sem};
ghost use Rattle.std.specs.Map.{lookup};
ghost use Rattle.std.specs.Option.{option_copied_mut};
ghost use Rattle.amqp_data.specs.Pairs.{entries_of};
ghost use Rattle.amqp_value.specs.Accessors.{has_text};
ghost use Rattle.amqp_value.specs.Contents.{array_in, list_in, map_in};
ghost use Rattle.amqp_value.specs.ValueLends.{lends_array, lends_list, lends_map, lends_text};

use super::containers::find_position;
use crate::Value;
use amqp_data::{Array, OrderedMap};

impl Value {
    /// Returns a mutable reference to the items if the value is a list.
    ///
    /// # Example
    /// For the list encoded as `c00302500140`, after null is popped, the list is encoded as
    /// `c003015001`.
    pub fn as_list_mut(&mut self) -> Option<&mut Vec<Value>>
        ensures* writes_back { sem 𝓛 (lends_list self.entry result) }
        ensures content { option_copied_mut result ≡ list_in self.old }
    {
        match self {
            Value::List(items) => Some(items),
            _ => None,
        }
    }

    /// Returns a mutable reference to the elements if the value is an array.
    ///
    /// # Example
    /// For the array encoded as `e00402500102`, `*elements = Array::from(Vec::new(alloc))` gives
    /// the array encoded as `e00100`.
    pub fn as_array_mut(&mut self) -> Option<&mut Array<Value>>
        ensures* writes_back { sem 𝓛 (lends_array self.entry result) }
        ensures content { option_copied_mut result ≡ array_in self.old }
    {
        match self {
            Value::Array(elements) => Some(elements),
            _ => None,
        }
    }

    /// Returns a mutable reference to the map if the value is one.
    ///
    /// # Example
    /// For the map encoded as `c10402500141`, after the ubyte 1 is removed, the map is encoded as
    /// `c10100`.
    pub fn as_map_mut(&mut self) -> Option<&mut OrderedMap<Value, Value>>
        ensures* writes_back { sem 𝓛 (lends_map self.entry result) }
        ensures content { option_copied_mut result ≡ map_in self.old }
    {
        match self {
            Value::Map(entries) => Some(entries),
            _ => None,
        }
    }

    /// Returns a mutable reference to the value of the first key of a map that is a string or a
    /// symbol with this text.
    ///
    /// The keys are searched in order, and nothing is allocated.
    ///
    /// # Example
    /// For the map from the symbol `a` to the ubyte 1, encoded as `c10602a301615001`,
    /// `*map.get_mut("a")? = Value::Null` gives the map encoded as `c10502a3016140`.
    pub fn get_mut(&mut self, key: &str) -> Option<&mut Value>
        ensures { option_copied_mut result ≡ option_and_then
            (λ map. lookup (has_text key.now) (entries_of map)) (map_in self.old) }
    {
        match self {
            Value::Map(entries) => find_text_mut(entries, key),
            _ => None,
        }
    }
}

// Lends the value of the first key with this text.
fn find_text_mut<'a>(entries: &'a mut OrderedMap<Value, Value>, key: &str) -> Option<&'a mut Value>
    ensures* writes_back { sem 𝓛 (lends_text entries.entry key.now result) }
    ensures content { option_copied_mut result
        ≡ lookup (has_text key.now) (entries_of entries.old) }
{
    match find_position(entries.as_slice(), key) {
        Some(at) => entries.value_at_mut(at),
        None => None,
    }
}
