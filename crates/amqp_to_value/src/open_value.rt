//! A compound that is being serialized.

ghost use Rattle.std.specs.Prelude.{◌≡◌, ◌++◌, ◌∷◌, [], List, Option, Some, true};
ghost use Rattle.amqp_ser.specs.Composites.{as_described};
ghost use Rattle.amqp_ser.specs.Compounds.{complete, paired, tree_of_parts};
ghost use Rattle.amqp_ser.specs.Tree.{Descriptor, Tree};
ghost use Rattle.amqp_ser.specs.declared.kind.CompoundKind.{CompoundKind};
ghost use Rattle.amqp_ser.specs.declared.kind.CompoundKind.TheVariants as kind;
ghost use Rattle.amqp_to_value.specs.ValueSerializer.{HasParts};
ghost use Rattle.amqp_to_value.specs.ImageOf.{Answers};
ghost use Rattle.amqp_ser.specs.Meant.{meant};
ghost use Rattle.amqp_ser.specs.declared.pending.Pending.{Pending};

use crate::next_capacity::NextCapacity;
use crate::parts::CollectedParts;
use crate::pending_descriptors::Saved;
use crate::value_error::ValueError;
use amqp_ser::{CompoundKind, Pending};
use amqp_value::Value;
use std::alloc::Global;

/// An open compound and the position of its pending descriptors.
#[derive(Drop)]
pub struct OpenValue {
    pub saved: Saved,
    pub body: OpenBody,
}

/// The content of an open compound.
#[derive(Drop)]
pub enum OpenBody {
    /// A single value that replaces the compound, and the marker pending when the compound was
    /// opened.
    Single(Pending, Option<Value>),
    /// The parts from which the compound is built.
    CollectedParts(CollectedParts),
}

impl OpenBody {
    /// Returns an empty compound of this kind under the pending marker.
    #[inline(always)]
    pub fn new(alloc: Global, pending: Pending, kind: CompoundKind) -> OpenBody
        ensures { HasParts pending kind result [] }
    {
        match kind {
            CompoundKind::Single => OpenBody::Single(pending, None),
            kind => OpenBody::CollectedParts(CollectedParts::new(alloc, pending, kind)),
        }
    }

    /// Marks the value of a single compound as described.
    #[inline(always)]
    pub fn describe(&mut self)
        ensures { (pending : Pending) → HasParts pending kind.Single self.old [] →
            (inner : Pending) × HasParts inner kind.Single self.new []
            × ((d : Descriptor) (t : Option Tree) →
            as_described (Some d) (meant inner t) ≡ meant pending (as_described (Some d) t)) }
    {
        if let OpenBody::Single(pending, _) = self {
            *pending = pending.with_descriptor();
        }
    }

    /// Removes the pending key of a map.
    #[inline(always)]
    pub fn undo(&mut self)
        ensures { (pending : Pending) (ps : List (Option Tree)) (p : Option Tree) →
            HasParts pending kind.Map self.old (ps ++ (p ∷ [])) → paired ps ≡ true →
            HasParts pending kind.Map self.new ps }
    {
        if let OpenBody::CollectedParts(parts) = self {
            parts.undo();
        }
    }

    /// Returns the value of the compound.
    ///
    /// # Errors
    /// Returns `InvalidValue` if the parts do not form a value, and `OutOfMemory` if an allocation
    /// fails.
    #[inline(always)]
    pub fn into_value(self, alloc: Global, capacity: &mut NextCapacity) -> Result<Value, ValueError>
        ensures { (pending : Pending) (kind : CompoundKind) (ps : List (Option Tree)) →
            HasParts pending kind self ps → complete kind ps ≡ true →
            Answers (meant pending (tree_of_parts kind ps)) result }
    {
        match self {
            OpenBody::Single(_, value) => value.ok_or(ValueError::InvalidValue),
            OpenBody::CollectedParts(parts) => parts.into_value(alloc, capacity),
        }
    }
}

/// Sets the single value and drops the previous one. Never inlined, to keep the drop out of the
/// caller.
#[inline(never)]
pub fn set_first(first: &mut Option<Value>, value: Value)
    ensures { first.new ≡ Some value }
{
    *first = Some(value);
}
