//! The entries of a map that is being serialized.

ghost use Rattle.std.specs.Prelude.{◌≡◌, MatchResult, None};
ghost use Rattle.amqp_ser.specs.Tree.{Trees, no_pairs};
ghost use Rattle.amqp_ser.specs.Compounds.{as_map, in_pairs};
ghost use Rattle.amqp_value.specs.TreeOf.{tree_of};
ghost use Rattle.amqp_to_value.specs.HeldImages.{held_pairs, add_tree, added_onto, IsOpenedImage};

use crate::value_error::ValueError;
use amqp_value::{MapBuilder, Value};
use std::alloc::{AllocError, Global};

/// The entries of a map, in order, and the key whose value is pending.
#[derive(Drop)]
pub struct OpenMap {
    pairs: MapBuilder,
    key: Option<Value>,
}

impl OpenMap {
    /// Returns a builder without entries.
    pub fn new(alloc: Global) -> OpenMap
        ensures { held_pairs result ≡ (no_pairs, None) }
    {
        OpenMap {
            pairs: MapBuilder::new(alloc),
            key: None,
        }
    }

    /// Adds a key, or the value of the pending key.
    ///
    /// # Errors
    /// Returns `AllocError` if an allocation fails. The argument is dropped, and the entries and
    /// the pending key are unchanged.
    #[inline(never)]
    pub fn add_part(&mut self, part: Value) -> Result<(), AllocError>
        ensures { MatchResult result
            (λ _. held_pairs self.new ≡ add_tree (held_pairs self.old) (tree_of part))
            (λ _. held_pairs self.new ≡ held_pairs self.old) }
    {
        match self.key.take() {
            None => {
                self.key = Some(part);
                Ok(())
            }
            Some(key) => match self.pairs.insert(key, part) {
                Ok(()) => Ok(()),
                Err(refused) => {
                    let (key, _part) = refused.value;
                    self.key = Some(key);
                    Err(AllocError)
                }
            },
        }
    }

    /// Removes the pending key.
    #[inline(always)]
    pub fn undo(&mut self)
        ensures { held_pairs self.new ≡ ((held_pairs self.old).0, None) }
    {
        self.key = None;
    }

    /// Returns the map of the entries.
    ///
    /// # Errors
    /// Returns `InvalidValue` if a key is pending. Returns `OutOfMemory` if an
    /// allocation fails, which can happen only if the keys do not ascend.
    #[inline(never)]
    pub fn into_value(self, alloc: Global) -> Result<Value, ValueError>
        ensures { (ts : Trees) → held_pairs self ≡ added_onto ts no_pairs →
            IsOpenedImage (as_map (in_pairs ts)) result }
    {
        match self.key {
            Some(_) => Err(ValueError::InvalidValue),
            None => match self.pairs.into_value(alloc) {
                Ok(value) => Ok(value),
                Err(_) => Err(ValueError::OutOfMemory),
            },
        }
    }
}
