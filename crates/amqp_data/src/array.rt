//! Arrays (AMQP 1.0 part 1, section 1.6.24).

ghost use Rattle.std.specs.Prelude.{◌≡◌, ◌==◌, length};
ghost use Rattle.amqp_data.specs.Items.{array_items};
ghost use Rattle.amqp_data.specs.Iterates.{GivesItems, GivesRefs};

use std::alloc::Global;
use std::{slice, vec};

/// Elements that share one constructor. The elements of a `Vec<T>` have one constructor each.
///
/// # Encoding
/// `e0` with a size and a count of one byte each, or `f0` with a size and a count of four bytes
/// each, then the constructor and the payloads of the elements.
///
/// # Example
/// An empty array is encoded as `e00100`.
#[derive(Debug, PartialEq, Eq, PartialOrd, Ord, Hash, Clone, Drop)]
pub struct Array<T>(Vec<T>);

impl<T> Array<T> {
    /// Returns the elements.
    ///
    /// # Example
    /// For the array of the ubytes 1 and 2, encoded as `e00402500102`, returns the vector of 1 and
    /// 2.
    pub fn as_inner(&self) -> &Vec<T>
        ensures { result.now.items ≡ array_items self.now }
    {
        &self.0
    }

    /// Returns the elements as a slice.
    ///
    /// # Example
    /// For the array of the ubytes 1 and 2, encoded as `e00402500102`, returns `[1, 2]`.
    pub fn as_slice(&self) -> &[T]
        ensures { result.now ≡ array_items self.now }
    {
        self.0.as_slice()
    }

    /// Returns the number of elements.
    ///
    /// # Example
    /// For the array encoded as `e00402500102`, returns 2.
    pub fn len(&self) -> usize
        ensures { result ≡ length (array_items self.now) }
    {
        self.0.len()
    }

    /// Returns whether there are no elements.
    ///
    /// # Example
    /// True for the array encoded as `e00100`.
    pub fn is_empty(&self) -> bool
        ensures { result ≡ (length (array_items self.now) == 0) }
    {
        self.0.is_empty()
    }

    /// Returns an iterator over references to the elements, in order.
    ///
    /// # Example
    /// For the array encoded as `e00402500102`: `&1`, then `&2`, then `None`.
    pub fn iter(&self) -> slice::Iter<'_, T>
        ensures { GivesRefs (array_items self.now) result }
    {
        self.0.iter()
    }

    /// Consumes the array and returns the elements.
    ///
    /// # Example
    /// For an array encoded as `e00100`, returns an empty vector.
    pub fn into_inner(self) -> Vec<T>
        ensures { result.items ≡ array_items self }
    {
        self.0
    }
}

impl<T> From<Vec<T>> for Array<T> {
    ghost from_gives = { λ items array. array_items array ≡ items.items };

    fn from(items: Vec<T>) -> Array<T> {
        Array(items)
    }
}

impl<T: Drop> IntoIterator for Array<T> {
    type Item = T;

    type IntoIter = vec::IntoIter<T, Global>;

    ghost into_iter_gives = { λ array iter. GivesItems (array_items array) iter };

    fn into_iter(self) -> vec::IntoIter<T, Global> {
        self.0.into_iter()
    }
}

impl<'a, T> IntoIterator for &'a Array<T> {
    type Item = &'a T;

    type IntoIter = slice::Iter<'a, T>;

    ghost into_iter_gives = { λ array iter. GivesRefs (array_items array.now) iter };

    fn into_iter(self) -> slice::Iter<'a, T> {
        self.iter()
    }
}
