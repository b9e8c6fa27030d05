//! The capacity that is reserved for the next list.

ghost use Rattle.std.specs.Prelude.{◌≡◌, ◌<◌, IsTrue, vec_capacity, vec_len};

use amqp_value::Value;
use std::mem;

// The least and the greatest capacity that is reserved: twice that of a list of one value, and that
// of 4,096 bytes.
const MIN_CAPACITY: usize = 8;

const MAX_CAPACITY: usize = 128;

// The maximum number of lists for which a capacity is reserved while they are open together, one in
// the other.
const MAX_OPEN: usize = 4;

/// The capacity that is reserved for the next list, from those of the lists before it.
///
/// A list grows from a capacity of 4 by doubling. If the last lists ended with the same capacity,
/// as the rows of a table do, this capacity is reserved at the first element of the next one. If
/// that list then needs half of it or less, the rest is freed when it ends, and twice as many equal
/// lists must follow one another before a capacity is reserved again.
///
/// A list that contains such lists may have few elements. Since it ends after them, few lists that
/// are open together have a reserved capacity.
#[derive(Clone, Copy)]
pub struct NextCapacity {
    // The capacity for the next list, or 0 to let it grow.
    next: usize,
    // The capacity of the last list, or 0 if it is less than `MIN_CAPACITY`; and the number of
    // lists before it, one after another, that had the same.
    last: usize,
    equal: usize,
    // The number of such lists that is needed to reserve a capacity.
    needed: usize,
    // The number of lists that have a first element and did not end, from the first one on for
    // which a capacity was reserved; 0 if there is none. Lists that are dropped count too.
    open: usize,
}

impl NextCapacity {
    /// Returns the state before the first list.
    #[inline(always)]
    pub fn new() -> NextCapacity {
        NextCapacity {
            next: 0,
            last: 0,
            equal: 0,
            needed: 1,
            open: 0,
        }
    }

    /// Reserves capacity for one more value: if the list has none, the capacity of the lists before
    /// it, and otherwise twice the capacity. Returns whether there is room.
    #[inline(always)]
    pub fn grow(&mut self, items: &mut Vec<Value>) -> bool
        ensures items { items.new.items ≡ items.old.items }
        ensures room { IsTrue result → vec_len items.new < vec_capacity items.new }
    {
        if (self.next | self.open) != 0 {
            return self.grow_first(items);
        }
        items.reserve(1).is_ok()
    }

    // The part of `grow` if a capacity is to be reserved, or is reserved for an open list. If the
    // allocation fails, the list grows from 4.
    #[inline(never)]
    fn grow_first(&mut self, items: &mut Vec<Value>) -> bool
        ensures items { items.new.items ≡ items.old.items }
        ensures room { IsTrue result → vec_len items.new < vec_capacity items.new }
    {
        if items.capacity() == 0 {
            let next = mem::replace(&mut self.next, 0);
            if self.open != 0 {
                self.open = self.open.saturating_add(1);
            }
            if next >= MIN_CAPACITY && self.open <= MAX_OPEN && items.reserve_exact(next).is_ok() {
                self.open = self.open.max(1);
                return true;
            }
        }
        items.reserve(1).is_ok()
    }

    /// Returns the elements of a list that ended, with no more capacity than the list needs if it
    /// grows from 4 by doubling.
    #[inline(always)]
    pub fn close(&mut self, items: Vec<Value>) -> Vec<Value>
        ensures { result.items ≡ items.items }
    {
        self.open = self.open.saturating_sub(items.capacity().min(1));
        if items.capacity() < MIN_CAPACITY {
            self.next = 0;
            self.last = 0;
            items
        } else if self.is_full(items.len(), items.capacity()) {
            items
        } else {
            shrunk(items)
        }
    }

    // Records the capacity of a list that ended, and returns whether it is not too large.
    #[inline(never)]
    fn is_full(&mut self, len: usize, capacity: usize) -> bool {
        if len <= capacity / 2 {
            self.next = 0;
            self.last = 0;
            self.needed = self.needed.saturating_mul(2);
            return false;
        }
        self.equal = if capacity == self.last {
            self.equal.saturating_add(1)
        } else {
            0
        };
        self.last = capacity;
        self.next = if self.equal >= self.needed && capacity <= MAX_CAPACITY {
            capacity
        } else {
            0
        };
        true
    }
}

// Returns the elements without the capacity that they do not need.
#[inline(never)]
fn shrunk(mut items: Vec<Value>) -> Vec<Value>
    ensures { result.items ≡ items.items }
{
    items.shrink_to_fit();
    items
}
