//! An untyped value as a source, and what is left of its parts.

ghost use Rattle.std.specs.Prelude.{◌≡◌};
ghost use Rattle.std.specs.Vec.Iter.{into_iter_items};

use amqp_value::Value;
use std::collections::VecDeque;
use std::vec::IntoIter;

/// An untyped value as a source.
#[derive(Drop)]
pub struct Held {
    /// The value.
    pub value: Value,
}

/// What is left of a list or an array.
#[derive(Drop)]
pub struct HeldElements {
    pub(crate) values: IntoIter<Value>,
    /// The number of elements at first, and of those that were asked for after the last.
    pub(crate) count: usize,
}

/// What is left of a map.
#[derive(Drop)]
pub struct HeldEntries {
    pub(crate) pairs: VecDeque<(Value, Value)>,
    /// The number of entries at first.
    pub(crate) count: usize,
}

impl HeldElements {
    /// Creates the elements of a list or an array.
    #[inline(always)]
    pub(crate) fn of(values: Vec<Value>) -> HeldElements
        ensures { into_iter_items result.values ≡ values.items }
    {
        let count = values.len();
        HeldElements {
            values: values.into_iter(),
            count,
        }
    }
}
