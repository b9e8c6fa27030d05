//! The values that are open.

use amqp_value::ValueKind;

/// A value that is open, and what is known of it.
#[derive(Clone, Copy, Debug, PartialEq, Eq)]
pub struct Level {
    /// What is open.
    pub kind: LevelKind,
    /// The number of values in it that have begun.
    pub index: u32,
    /// The number of values in it.
    pub count: u32,
    /// The offset at which it ends, or `u64::MAX`.
    pub end: u64,
    /// The format code of the elements, if it is an array.
    pub code: u8,
    /// The numeric descriptor of a described value, and of the list inside it.
    pub descriptor: Option<u64>,
}

/// What is open.
#[derive(Clone, Copy, Debug, PartialEq, Eq)]
pub enum LevelKind {
    /// A described value: its descriptor is its value 0.
    Described,
    /// A list, a map or an array.
    Compound(ValueKind),
    /// An array, of which a descriptor or a constructor comes next.
    Constructor,
    /// A frame. Its performative is its value 0.
    Frame,
}

impl Level {
    /// Returns whether all its values have begun.
    pub fn is_full(&self) -> bool {
        self.index >= self.count
    }
}
