//! Accessors of lists, arrays, maps and described values, which borrow the content.

ghost use Rattle.std.specs.Prelude.{◌≡◌, option_and_then, option_map, position, slice_get};
ghost use Rattle.std.specs.Map.{lookup};
ghost use Rattle.std.specs.Option.{option_copied};
ghost use Rattle.amqp_data.specs.Items.{array_items};
ghost use Rattle.amqp_data.specs.Pairs.{entries_of};
ghost use Rattle.amqp_value.specs.Accessors.{has_text, items_in, len_in};
ghost use Rattle.amqp_value.specs.Contents.{array_in, described_in, list_in, map_in};

use crate::Value;
use amqp_data::{Described, OrderedMap};

impl Value {
    /// Returns the items if the value is a list.
    ///
    /// # Example
    /// `Some` with the ubytes 1 and 2 for the list encoded as `c0050250015002`. `None` for the
    /// array encoded as `e00402500102`.
    pub fn as_list(&self) -> Option<&[Value]>
        ensures { option_copied result ≡ option_map (λ list. list.items) (list_in self.now) }
    {
        match self {
            Value::List(items) => Some(items.as_slice()),
            _ => None,
        }
    }

    /// Returns the elements if the value is an array.
    ///
    /// # Example
    /// `Some` with the ubytes 1 and 2 for the array encoded as `e00402500102`. `None` for the list
    /// encoded as `c0050250015002`.
    pub fn as_array(&self) -> Option<&[Value]>
        ensures { option_copied result ≡ option_map array_items (array_in self.now) }
    {
        match self {
            Value::Array(elements) => Some(elements.as_inner().as_slice()),
            _ => None,
        }
    }

    /// Returns the map if the value is one.
    ///
    /// # Example
    /// `Some` with a map of one entry for the value encoded as `c10402500141`. `None` for null.
    pub fn as_map(&self) -> Option<&OrderedMap<Value, Value>>
        ensures { option_copied result ≡ map_in self.now }
    {
        match self {
            Value::Map(entries) => Some(entries),
            _ => None,
        }
    }

    /// Returns the descriptor and the value if the value is described.
    ///
    /// # Example
    /// `Some` with the code 1 and `true` for the value encoded as `00530141`. `None` for `true`,
    /// encoded as `41`.
    pub fn as_described(&self) -> Option<&Described<Value>>
        ensures { option_copied result ≡ described_in self.now }
    {
        match self {
            Value::Described(described) => Some(&**described),
            _ => None,
        }
    }

    /// Returns the item of a list or the element of an array at a position, from 0.
    ///
    /// # Example
    /// `Some(&Value::Ubyte(2))` for the position 1 in the list encoded as `c0050250015002` and in
    /// the array encoded as `e00402500102`. `None` for the position 2.
    pub fn index(&self, at: usize) -> Option<&Value>
        ensures { option_copied result
            ≡ option_and_then (λ items. slice_get items at) (items_in self.now) }
    {
        match self {
            Value::List(items) => item_at(items, at),
            Value::Array(elements) => item_at(elements.as_inner(), at),
            _ => None,
        }
    }

    /// Returns the value of the first key of a map that is a string or a symbol with this text.
    ///
    /// The keys are searched in order, and nothing is allocated.
    ///
    /// # Example
    /// `Some(&Value::Ubyte(1))` for `a` in the maps encoded as `c10602a101615001` and
    /// `c10602a301615001`, whose keys are a string and a symbol. `None` for `b`.
    pub fn get(&self, key: &str) -> Option<&Value>
        ensures { option_copied result ≡ option_and_then
            (λ map. lookup (has_text key.now) (entries_of map)) (map_in self.now) }
    {
        match self {
            Value::Map(entries) => find_text(entries.as_slice(), key),
            _ => None,
        }
    }

    /// Returns the number of items of a list, elements of an array, entries of a map, or bytes of a
    /// binary, a string or a symbol.
    ///
    /// # Example
    /// `Some(2)` for the list encoded as `c0050250015002`, `Some(1)` for the map encoded as
    /// `c10402500141`, and `None` for the ubyte 1, encoded as `5001`.
    pub fn len(&self) -> Option<usize>
        ensures { result ≡ len_in self.now }
    {
        match self {
            Value::List(items) => Some(items.len()),
            Value::Array(elements) => Some(elements.as_inner().len()),
            Value::Map(entries) => Some(entries.len()),
            Value::Binary(bytes) => Some(bytes.as_inner().len()),
            Value::String(text) => Some(text.len()),
            Value::Symbol(name) => Some(name.as_inner().len()),
            _ => None,
        }
    }
}

// Returns the item at a position, if there is one.
fn item_at(items: &[Value], at: usize) -> Option<&Value>
    ensures { option_copied result ≡ slice_get items.now at }
{
    if at < items.len() {
        Some(&items[at])
    } else {
        None
    }
}

// Returns the value of the first key with this text.
fn find_text<'a>(entries: &'a [(Value, Value)], key: &str) -> Option<&'a Value>
    ensures { option_copied result ≡ lookup (has_text key.now) entries.now }
{
    match find_position(entries, key) {
        Some(at) => Some(&entries[at].1),
        None => None,
    }
}

// Returns the position of the first key with this text.
pub(super) fn find_position(entries: &[(Value, Value)], key: &str) -> Option<usize>
    ensures { result ≡ position (λ e. has_text key.now e.0) entries.now }
{
    entries.iter().position(|entry| entry.0.is_text(key))
}
