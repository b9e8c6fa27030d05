//! Transparent vectors: values one after another, with no header.

ghost use Rattle.std.specs.Prelude.{◌≡◌, ◌==◌, length, IfOk, IfErr};
ghost use Rattle.std.specs.Borrow.{sem};
ghost use Rattle.std.specs.Iterator.{IsFinite};
ghost use Rattle.std.specs.Iterator.Runs.{WholeRun};
ghost use Rattle.amqp_data.specs.Items.{transparent_items};
ghost use Rattle.amqp_data.specs.Iterates.{GivesItems, GivesRefs, GivesMutRefs};
ghost use Rattle.amqp_data.specs.Lends.{lends_vec, lends_items};

use crate::Error;
use std::alloc::{AllocError, Global};
use std::convert::AsMut;
use std::iter::FromIterator;
use std::ops::{Deref, DerefMut};
use std::{slice, vec};

/// Elements that are written one after another, with no header of their own.
///
/// For example, a message of several sections is a transparent vector. It is written only at the
/// root, or directly inside another transparent vector at the root.
///
/// # Encoding
/// The encoding of each element, in order.
///
/// # Example
/// `true`, `false` and `true` are encoded as `414241`.
#[derive(Debug, PartialEq, Eq, PartialOrd, Ord, Hash, Clone, Drop)]
pub struct TransparentVec<T>(Vec<T>);

impl<T> TransparentVec<T> {
    /// Creates a transparent vector of `items`.
    ///
    /// # Memory
    /// Allocates nothing.
    ///
    /// # Example
    /// `true`, `false` and `true` are encoded as `414241`. With no elements, the encoding is empty.
    pub fn new(items: Vec<T>) -> TransparentVec<T>
        ensures { transparent_items result ≡ items.items }
    {
        TransparentVec(items)
    }

    /// Consumes the transparent vector and returns the elements.
    ///
    /// # Example
    /// For the transparent vector encoded as `4142`, returns the vector of `true` and `false`.
    pub fn into_inner(self) -> Vec<T>
        ensures { result.items ≡ transparent_items self }
    {
        self.0
    }

    /// Returns the elements as a slice.
    ///
    /// # Example
    /// For the transparent vector encoded as `414241`, returns `[true, false, true]`.
    pub fn as_slice(&self) -> &[T]
        ensures { result.now ≡ transparent_items self.now }
    {
        self.0.as_slice()
    }

    /// Returns the number of elements.
    ///
    /// # Example
    /// For the transparent vector encoded as `414241`, returns 3.
    pub fn len(&self) -> usize
        ensures { result ≡ length (transparent_items self.now) }
    {
        self.0.len()
    }

    /// Returns whether there are no elements.
    ///
    /// # Example
    /// True for the transparent vector that is encoded as no bytes.
    pub fn is_empty(&self) -> bool
        ensures { result ≡ (length (transparent_items self.now) == 0) }
    {
        self.0.is_empty()
    }

    /// Returns a mutable reference to the vector of the elements.
    ///
    /// # Example
    /// For the transparent vector encoded as `41`, returns the vector of `true`. After `false` is
    /// pushed to it, the encoding is `4142`.
    pub fn as_mut(&mut self) -> &mut Vec<T>
        ensures* writes_back { sem 𝓛 (lends_vec T.row self.entry result) }
        ensures items { result.now.items ≡ transparent_items self.old }
    {
        &mut self.0
    }

    /// Returns an iterator over references to the elements, in order.
    ///
    /// # Example
    /// For the transparent vector encoded as `4142`: `&true`, then `&false`, then `None`.
    pub fn iter(&self) -> slice::Iter<'_, T>
        ensures { GivesRefs (transparent_items self.now) result }
    {
        self.0.iter()
    }

    /// Returns an iterator over mutable references to the elements, in order.
    ///
    /// # Example
    /// For the transparent vector encoded as `4142`, negating each element gives `4241`.
    pub fn iter_mut(&mut self) -> slice::IterMut<'_, T>
        ensures* writes_back { sem 𝓛 (lends_items T.row self.entry result) }
        ensures items { GivesMutRefs (transparent_items self.old) result }
    {
        self.0.iter_mut()
    }

    /// Collects the items of a finite iterator into a transparent vector.
    ///
    /// # Errors
    /// Returns `Error::OutOfMemory` if an allocation fails. The items collected so far are then
    /// dropped.
    ///
    /// # Memory
    /// Allocates from `alloc`.
    ///
    /// # Example
    /// An iterator over `true` and `false` gives the transparent vector encoded as `4142`.
    pub fn try_collect<I: Iterator<Item = T>>(
        alloc: Global,
        iter: I,
    ) -> Result<TransparentVec<T>, Error>
    where
        T: Drop,
        requires can { I.can_next iter }
        requires ends { IsFinite (I.remaining iter) }
        ensures items { IfOk result (λ vector. WholeRun I.next_gives iter (λ run.
            transparent_items vector ≡ run.items)) }
        ensures memory { IfErr result (λ e. e ≡ Error.OutOfMemory) }
    {
        let mut items = Vec::new(alloc);
        for item in iter {
            items.push(item)?;
        }
        Ok(TransparentVec(items))
    }
}

/// Collects by the iterator's own `collect`, as `try_collect` does.
///
/// # Errors
/// Returns `AllocError` if an allocation fails. The items collected so far are then dropped.
///
/// # Memory
/// Allocates from `alloc`.
///
/// # Example
/// `iter.collect(alloc)` of an iterator over `true` and `false` gives the transparent vector
/// encoded as `4142`.
impl<T: Drop> FromIterator<T> for TransparentVec<T> {
    type Alloc = Global;

    ghost from_iter_gives = { λ items vector. transparent_items vector ≡ items };

    fn from_iter<I: IntoIterator<Item = T>>(
        alloc: Global,
        iter: I,
    ) -> Result<TransparentVec<T>, AllocError> {
        let items = Vec::from_iter(alloc, iter)?;
        Ok(TransparentVec(items))
    }
}

/// Dereferences to the vector of the elements.
///
/// # Example
/// For the transparent vector encoded as `414241`, `vector[1]` is `false` and `vector.first()` is
/// `Some(&true)`.
impl<T> Deref for TransparentVec<T> {
    type Target = Vec<T>;

    ghost deref_gives = { λ vector items. items.items ≡ transparent_items vector };

    fn deref(&self) -> &Vec<T> {
        &self.0
    }
}

/// Dereferences to the vector of the elements.
///
/// # Example
/// After `vector.push(false)`, the transparent vector encoded as `41` is encoded as `4142`.
impl<T> DerefMut for TransparentVec<T> {
    ghost deref_mut_gives = { λ vector items. items.items ≡ transparent_items vector };

    fn deref_mut(&mut self) -> &mut Vec<T>
        ensures* writes_back { sem 𝓛 (lends_vec T.row self.entry result) }
        ensures shows { result.now.items ≡ transparent_items self.old }
    {
        self.as_mut()
    }
}

/// Returns a mutable reference to the vector of the elements, as the method `as_mut` does.
///
/// # Example
/// For the transparent vector encoded as `41`, returns the vector of `true`.
impl<T> AsMut<Vec<T>> for TransparentVec<T> {
    fn as_mut(&mut self) -> &mut Vec<T>
        ensures* writes_back { sem 𝓛 (lends_vec T.row self.entry result) }
        ensures items { result.now.items ≡ transparent_items self.old }
    {
        TransparentVec::as_mut(self)
    }
}

impl<T> From<Vec<T>> for TransparentVec<T> {
    ghost from_gives = { λ items vector. transparent_items vector ≡ items.items };

    fn from(items: Vec<T>) -> TransparentVec<T> {
        TransparentVec(items)
    }
}

impl<T> From<TransparentVec<T>> for Vec<T> {
    ghost from_gives = { λ vector items. items.items ≡ transparent_items vector };

    fn from(vector: TransparentVec<T>) -> Vec<T> {
        vector.0
    }
}

impl<T: Drop> IntoIterator for TransparentVec<T> {
    type Item = T;

    type IntoIter = vec::IntoIter<T, Global>;

    ghost into_iter_gives = { λ vector iter. GivesItems (transparent_items vector) iter };

    fn into_iter(self) -> vec::IntoIter<T, Global> {
        self.0.into_iter()
    }
}

impl<'a, T> IntoIterator for &'a TransparentVec<T> {
    type Item = &'a T;

    type IntoIter = slice::Iter<'a, T>;

    ghost into_iter_gives = { λ vector iter. GivesRefs (transparent_items vector.now) iter };

    fn into_iter(self) -> slice::Iter<'a, T> {
        self.iter()
    }
}

impl<'a, T> IntoIterator for &'a mut TransparentVec<T> {
    type Item = &'a mut T;

    type IntoIter = slice::IterMut<'a, T>;

    ghost into_iter_gives = { λ vector iter. GivesMutRefs (transparent_items vector.now) iter };

    fn into_iter(self) -> slice::IterMut<'a, T>
        ensures* writes_back { sem 𝓛 (lends_items T.row self.entry result) }
        ensures into_iter_gives { GivesMutRefs (transparent_items self.old) result }
    {
        self.iter_mut()
    }
}
