//! The parts of an open compound.

ghost use Rattle.std.specs.Prelude.{◌≡◌, false, ◌++◌, ◌∷◌, [], List, Option, Some, None};
ghost use Rattle.std.specs.Prelude.{MatchResult, MatchOption};
ghost use Rattle.amqp_ser.specs.Tree.{Tree, Trees, Pairs, no_trees};
ghost use Rattle.amqp_ser.specs.Compounds.{as_kind, in_pairs};
ghost use Rattle.amqp_value.specs.Image.{image, variant_map};
ghost use Rattle.amqp_value.specs.TreeOf.{tree_of};
ghost use Rattle.amqp_to_value.specs.HeldImages.{HoldsImages, is_single, compound_tree, then};
ghost use Rattle.amqp_to_value.specs.HeldImages.{TakesPairs, IsOpenedImage};
ghost use Rattle.amqp_ser.specs.Meant.{meant};

use crate::next_capacity::NextCapacity;
use crate::open_map::OpenMap;
use crate::value_error::ValueError;
use amqp_data::{Array, OrderedMap};
use amqp_ser::{CompoundKind, Marker, Pending};
use amqp_value::Value;
use std::alloc::{AllocError, Global};

/// The kind of an open compound, with the values that it contains so far.
#[derive(Drop)]
pub enum CollectedParts {
    /// A list of these elements.
    List(Vec<Value>),
    /// An array of these elements.
    Array(Vec<Value>),
    /// A transparent vector of these elements, whose value is a list.
    Transparent(Vec<Value>),
    /// A map.
    Map(OpenMap),
    /// The variant with this index and these fields.
    Variant(u32, Vec<Value>),
    /// The variant with this index and this one value.
    NewtypeVariant(u32, Vec<Value>),
    /// A compound that the pending marker does not permit. Its parts are dropped.
    Refused,
}

impl CollectedParts {
    /// Returns the empty parts of a compound of this kind, other than `CompoundKind::Single`, under
    /// a marker.
    #[inline(always)]
    pub fn new(alloc: Global, pending: Pending, kind: CompoundKind) -> CollectedParts
        ensures makes { is_single kind ≡ false → (o : Option Trees) →
            meant pending (as_kind kind o) ≡ compound_tree result o }
        ensures empty { HoldsImages result no_trees }
    {
        match (pending, kind) {
            (Pending::Marker(Marker::Other), CompoundKind::List) => CollectedParts::List(Vec::new(
                alloc,
            )),
            (Pending::Marker(Marker::Other), CompoundKind::Map) => CollectedParts::Map(OpenMap::new(
                alloc,
            )),
            (Pending::Marker(Marker::Other), CompoundKind::Variant(index)) =>
                CollectedParts::Variant(index, Vec::new(alloc)),
            (Pending::Marker(Marker::Other), CompoundKind::NewtypeVariant(index)) =>
                CollectedParts::NewtypeVariant(index, Vec::new(alloc)),
            (Pending::Marker(Marker::Array), CompoundKind::List) => CollectedParts::Array(Vec::new(
                alloc,
            )),
            (Pending::Marker(Marker::Transparent), CompoundKind::List) =>
                CollectedParts::Transparent(Vec::new(alloc)),
            _ => CollectedParts::Refused,
        }
    }

    /// Adds a part.
    ///
    /// # Errors
    /// Returns `AllocError` if an allocation fails. The argument is dropped, and the parts are
    /// unchanged.
    #[inline(always)]
    pub fn add_part(&mut self, part: Value, capacity: &mut NextCapacity) -> Result<(), AllocError>
        ensures makes { (o : Option Trees) → compound_tree self.new o ≡ compound_tree self.old o }
        ensures step { (ts : Trees) (t : Tree) → HoldsImages self.old ts → tree_of part ≡ image t →
            MatchResult result
            (λ _. HoldsImages self.new (then ts t))
            (λ _. HoldsImages self.new ts) }
    {
        match self {
            CollectedParts::List(items) => gather(items, part, capacity),
            CollectedParts::Array(items) => gather(items, part, capacity),
            CollectedParts::Transparent(items) => gather(items, part, capacity),
            CollectedParts::Map(pairs) => pairs.add_part(part),
            CollectedParts::Variant(_, items) => gather_field(items, part),
            CollectedParts::NewtypeVariant(_, items) => gather_field(items, part),
            CollectedParts::Refused => {
                drop_value(part);
                Ok(())
            }
        }
    }

    /// Removes the pending key of a map.
    #[inline(always)]
    pub fn undo(&mut self)
        ensures makes { (o : Option Trees) → compound_tree self.new o ≡ compound_tree self.old o }
        ensures back { (ts : Trees) (ps : Pairs) (t : Tree) → in_pairs ts ≡ Some ps →
            TakesPairs self.old → HoldsImages self.old (then ts t) → HoldsImages self.new ts }
    {
        if let CollectedParts::Map(pairs) = self {
            pairs.undo();
        }
    }

    /// Returns the value of the compound.
    ///
    /// # Errors
    /// Returns `InvalidValue` if the parts do not form a value, and `OutOfMemory` if an allocation
    /// fails.
    #[inline(always)]
    pub fn into_value(self, alloc: Global, capacity: &mut NextCapacity) -> Result<Value, ValueError>
        ensures { (ts : Trees) → HoldsImages self ts →
            IsOpenedImage (compound_tree self (Some ts)) result }
    {
        match self {
            CollectedParts::List(items) | CollectedParts::Transparent(items) => Ok(Value::List(
                capacity.close(items),
            )),
            CollectedParts::Array(items) => Ok(Value::Array(Array::from(capacity.close(items)))),
            parts => parts.into_other(alloc, capacity),
        }
    }

    // Returns the value of the compound. Never inlined: lists, which are the most frequent, have a
    // shorter path.
    #[inline(never)]
    fn into_other(self, alloc: Global, capacity: &mut NextCapacity) -> Result<Value, ValueError>
        ensures { (ts : Trees) → HoldsImages self ts →
            IsOpenedImage (compound_tree self (Some ts)) result }
    {
        match self {
            CollectedParts::List(items) => Ok(Value::List(capacity.close(items))),
            CollectedParts::Array(items) => Ok(Value::Array(Array::from(capacity.close(items)))),
            CollectedParts::Transparent(items) => Ok(Value::List(capacity.close(items))),
            CollectedParts::Map(pairs) => pairs.into_value(alloc),
            CollectedParts::Variant(index, items) => variant(alloc, index, Value::List(items)),
            CollectedParts::NewtypeVariant(index, items) => match only(items) {
                Some(payload) => variant(alloc, index, payload),
                None => Err(ValueError::InvalidValue),
            },
            CollectedParts::Refused => Err(ValueError::InvalidValue),
        }
    }
}

// Appends an element of a list, or drops it if an allocation fails.
#[inline(always)]
fn gather(
    items: &mut Vec<Value>,
    value: Value,
    capacity: &mut NextCapacity,
) -> Result<(), AllocError>
    ensures { MatchResult result
        (λ _. items.new.items ≡ items.old.items ++ (value ∷ []))
        (λ _. items.new.items ≡ items.old.items) }
{
    if items.len() == items.capacity() && !capacity.grow(items) {
        drop_value(value);
        return Err(AllocError);
    }
    items.push_reserved(value);
    Ok(())
}

// Appends a value of a variant, or drops it if an allocation fails.
#[inline(always)]
fn gather_field(items: &mut Vec<Value>, value: Value) -> Result<(), AllocError>
    ensures { MatchResult result
        (λ _. items.new.items ≡ items.old.items ++ (value ∷ []))
        (λ _. items.new.items ≡ items.old.items) }
{
    if items.len() == items.capacity() && items.reserve(1).is_err() {
        drop_value(value);
        return Err(AllocError);
    }
    items.push_reserved(value);
    Ok(())
}

/// Drops a value. Never inlined, to keep the drop out of the path of values that are kept.
#[inline(never)]
pub fn drop_value(value: Value) {
    drop(value);
}

// Returns the value if there is exactly one.
#[inline(never)]
fn only(mut items: Vec<Value>) -> Option<Value>
    ensures { MatchOption result ((v : Value) → items.items ≡ v ∷ [] → ⊥)
        (λ v. items.items ≡ v ∷ []) }
{
    let last = items.pop()?;
    if items.is_empty() { Some(last) } else { None }
}

// Returns the map of one entry that represents a variant.
#[inline(never)]
fn variant(alloc: Global, index: u32, payload: Value) -> Result<Value, ValueError>
    ensures { MatchResult result
        (λ v. tree_of v ≡ variant_map index (tree_of payload))
        (λ e. e ≡ ValueError.OutOfMemory) }
{
    let mut pairs = Vec::new(alloc);
    pairs.push((Value::Uint(index), payload))?;
    Ok(Value::Map(OrderedMap::from_distinct(pairs)))
}
