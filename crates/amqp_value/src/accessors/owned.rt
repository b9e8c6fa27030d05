//! Conversions of a value to the container that it is, without a conversion of the elements.

ghost use Rattle.amqp_value.specs.Contents.{GivesBack, array_in, described_in, list_in, map_in};

use crate::Value;
use amqp_data::{Array, Described, OrderedMap};

impl Value {
    /// Returns the items if the value is a list.
    ///
    /// # Errors
    /// Returns the value itself if it is of another type.
    ///
    /// # Memory
    /// Allocates nothing.
    ///
    /// # Example
    /// The ubytes 1 and 2 for the list encoded as `c0050250015002`.
    pub fn into_list(self) -> Result<Vec<Value>, Value>
        ensures { GivesBack list_in self result }
    {
        match self {
            Value::List(items) => Ok(items),
            other => Err(other),
        }
    }

    /// Returns the elements if the value is an array.
    ///
    /// # Errors
    /// Returns the value itself if it is of another type.
    ///
    /// # Memory
    /// Allocates nothing.
    ///
    /// # Example
    /// The ubytes 1 and 2 for the array encoded as `e00402500102`.
    pub fn into_array(self) -> Result<Array<Value>, Value>
        ensures { GivesBack array_in self result }
    {
        match self {
            Value::Array(elements) => Ok(elements),
            other => Err(other),
        }
    }

    /// Returns the map if the value is one.
    ///
    /// # Errors
    /// Returns the value itself if it is of another type.
    ///
    /// # Memory
    /// Allocates nothing.
    ///
    /// # Example
    /// The map from the ubyte 1 to `true` for the value encoded as `c10402500141`.
    pub fn into_map(self) -> Result<OrderedMap<Value, Value>, Value>
        ensures { GivesBack map_in self result }
    {
        match self {
            Value::Map(entries) => Ok(entries),
            other => Err(other),
        }
    }

    /// Returns the descriptor and the value if the value is described.
    ///
    /// # Errors
    /// Returns the value itself if it is of another type.
    ///
    /// # Memory
    /// Allocates nothing.
    ///
    /// # Example
    /// The code 1 and `true` for the value encoded as `00530141`.
    pub fn into_described(self) -> Result<Described<Value>, Value>
        ensures { GivesBack described_in self result }
    {
        match self {
            Value::Described(described) => Ok(Box::into_inner(described)),
            other => Err(other),
        }
    }
}
