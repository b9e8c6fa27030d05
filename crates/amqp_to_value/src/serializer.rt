//! The serializer that returns untyped values.

ghost use Rattle.std.specs.Prelude.{◌≡◌, ◌++◌, [], Option, Result, Err, IfErr, IsErr};
ghost use Rattle.amqp_ser.specs.Tree.{Tree};
ghost use Rattle.amqp_to_value.specs.PendingDescriptors.{standing};
ghost use Rattle.amqp_to_value.specs.ValueSerializer.{IsFresh, ValuePermits};
ghost use Rattle.amqp_to_value.specs.ImageOf.{Answers};
ghost use Rattle.amqp_ser.specs.Meant.{meant};

use crate::next_capacity::NextCapacity;
use crate::open_value::{OpenBody, OpenValue, set_first};
use crate::parts::drop_value;
use crate::pending_descriptors::PendingDescriptors;
use crate::scalars::{descriptor_from, marked_bytes, marked_fixed, marked_text};
use crate::value_error::ValueError;
use amqp_ser::{CompoundKind, Fixed, Marker, Pending};
use amqp_value::Value;
use std::alloc::Global;
use std::mem;

/// A serializer that returns untyped values.
///
/// After each call, failed or not, no marker or descriptor is pending. A binary under the marker
/// `LAZY_VALUE` must be one encoded value; it becomes the value that its bytes encode.
///
/// # Errors
/// Methods return a [`ValueError`], which `?` converts to `Error`.
///
/// # Memory
/// Between calls, keeps the capacity that described values needed and the descriptors of one failed
/// value. These descriptors are dropped when the next compound is opened, or with the serializer.
#[derive(Drop)]
pub struct Serializer {
    alloc: Global,
    pending: Pending,
    descriptors: PendingDescriptors,
    capacity: NextCapacity,
}

impl Serializer {
    /// Returns a serializer with no pending marker or descriptor.
    ///
    /// # Memory
    /// None. `alloc` is kept for the values.
    #[inline(always)]
    pub fn new(alloc: Global) -> Serializer
        ensures { IsFresh result }
    {
        Serializer {
            alloc,
            pending: Pending::Marker(Marker::Other),
            descriptors: PendingDescriptors::new(alloc),
            capacity: NextCapacity::new(),
        }
    }

    // Returns the pending marker of the next tree, and clears it.
    #[inline(always)]
    fn take_pending(&mut self) -> Pending
        ensures pending { result ≡ self.old.pending }
        ensures none { self.new.pending ≡ Pending.Marker Marker.Other }
        ensures descriptors { self.new.descriptors ≡ self.old.descriptors }
    {
        mem::replace(&mut self.pending, Pending::Marker(Marker::Other))
    }

    // Returns the value inside its pending descriptors. On an error, leaves them in the stack.
    #[inline(always)]
    fn finish(&mut self, answer: Result<Value, ValueError>) -> Result<Value, ValueError>
        ensures { (start : Serializer) (t : Option Tree) →
            self.old.descriptors.kept ≡ start.descriptors.kept →
            standing self.old.descriptors ≡ standing start.descriptors →
            self.old.pending ≡ Pending.Marker Marker.Other →
            Answers (meant start.pending t) answer →
            ValuePermits start t result self.new }
    {
        match answer {
            Ok(value) => Ok(self.descriptors.wrap(value)),
            Err(e) => {
                self.descriptors.leave();
                Err(e)
            }
        }
    }
}

impl amqp_ser::Serializer for Serializer {
    ghost use Rattle.amqp_to_value.specs.declared.value_error.ValueError.TheVariants.{InvalidValue};
    ghost use Rattle.amqp_ser.specs.Ends.{EndsPart, EndsDescriptor};
    ghost use Rattle.amqp_ser.specs.Composites.{descriptor_of};
    ghost use Rattle.amqp_ser.specs.declared.kind.CompoundKind.{CompoundKind};
    ghost use Rattle.amqp_to_value.specs.ValueSerializer.{all_held, ValuePermits, ValueHas};
    ghost use Rattle.amqp_to_value.specs.ValueSerializer.{ValueAwaits, ValueAwaitsDescriptor};
    ghost use Rattle.amqp_to_value.specs.ValueSerializer.{no_value_of_none};

    type Ok = Value;

    type Error = ValueError;

    type Open = OpenValue;

    ghost permits = { ValuePermits };

    ghost has = { ValueHas };

    ghost awaits = { ValueAwaits };

    ghost awaits_descriptor = { ValueAwaitsDescriptor };

    ghost is_misuse_error = { λ e. e ≡ InvalidValue };

    ghost refuses_none = { no_value_of_none };

    #[inline(always)]
    fn serialize_fixed(&mut self, fixed: Fixed) -> Result<Value, ValueError> {
        let pending = self.take_pending();
        self.finish(marked_fixed(pending, fixed))
    }

    #[inline(always)]
    fn serialize_null(&mut self) -> Result<Value, ValueError> {
        self.serialize_fixed(Fixed::Null)
    }

    #[inline(always)]
    fn serialize_str(&mut self, v: &str) -> Result<Value, ValueError> {
        let pending = self.take_pending();
        self.finish(marked_text(self.alloc, pending, v))
    }

    #[inline(always)]
    fn serialize_bytes(&mut self, v: &[u8]) -> Result<Value, ValueError> {
        let pending = self.take_pending();
        self.finish(marked_bytes(self.alloc, pending, v))
    }

    #[inline(always)]
    fn set_marker(&mut self, marker: Marker) {
        self.pending = self.pending.with_marker(marker);
    }

    #[inline(always)]
    fn begin_compound(&mut self, kind: CompoundKind) -> OpenValue
        ensures opened { ValueHas self.old kind self.new result [] }
        // Descriptors left over from failed values are dropped.
        ensures compound { all_held self.new
            ≡ self.old.descriptors.kept ++ standing self.old.descriptors }
    {
        let pending = self.take_pending();
        let saved = self.descriptors.save();
        OpenValue {
            saved,
            body: OpenBody::new(self.alloc, pending, kind),
        }
    }

    #[inline(always)]
    fn placeholder(&self) -> OpenValue {
        OpenValue {
            saved: self.descriptors.placeholder(),
            body: OpenBody::Single(self.pending, None),
        }
    }

    #[inline(always)]
    fn begin_part(&mut self, compound: &mut OpenValue) {
        match &compound.body {
            OpenBody::Single(pending, None) => {
                self.pending = *pending;
                self.descriptors.restore(compound.saved);
            }
            _ => self.descriptors.keep(compound.saved),
        }
    }

    #[inline(always)]
    fn end_part(
        &mut self,
        compound: &mut OpenValue,
        part: Result<Value, ValueError>,
    ) -> Result<(), ValueError>
        ensures step { EndsPart ValuePermits ValueHas ValueAwaits
            self.old compound.old part result self.new compound.new }
        ensures refused { IfErr part (λ _. IsErr result) }
    {
        self.descriptors.release(compound.saved);
        let value = part?;
        match &mut compound.body {
            OpenBody::Single(_, first) => match first {
                None => {
                    set_first(first, self.descriptors.unwrap(compound.saved, value)?);
                    Ok(())
                }
                Some(_) => {
                    drop_value(value);
                    Err(ValueError::InvalidValue)
                }
            },
            OpenBody::CollectedParts(parts) => match parts.add_part(value, &mut self.capacity) {
                Ok(()) => Ok(()),
                Err(_) => Err(ValueError::OutOfMemory),
            },
        }
    }

    #[inline(always)]
    fn undo_part(&mut self, compound: &mut OpenValue) {
        compound.body.undo();
    }

    #[inline(always)]
    fn misuse_error(&mut self, _compound: &mut OpenValue) -> ValueError {
        ValueError::InvalidValue
    }

    #[inline(always)]
    fn begin_descriptor(&mut self, compound: &mut OpenValue) {
        self.pending = Pending::Descriptor;
        self.descriptors.keep(compound.saved);
    }

    #[inline(always)]
    fn end_descriptor(
        &mut self,
        compound: &mut OpenValue,
        part: Result<Value, ValueError>,
    ) -> Result<(), ValueError>
        ensures step { EndsDescriptor ValuePermits ValueHas ValueAwaitsDescriptor
            self.old compound.old part result self.new compound.new }
        ensures refused { IfErr part (λ _. IsErr result) }
        ensures other_kinds { (start before : Serializer) (d : Option Tree) →
            ValueAwaitsDescriptor start before compound.old → ValuePermits before d part self.old →
            descriptor_of d ≡ None → IsErr result }
    {
        self.descriptors.release(compound.saved);
        let descriptor = descriptor_from(part?)?;
        compound.saved = self
            .descriptors
            .describe(compound.saved, self.alloc, descriptor)?;
        compound.body.describe();
        Ok(())
    }

    #[inline(always)]
    fn end(&mut self, compound: OpenValue) -> Result<Value, ValueError> {
        let OpenValue { saved, body } = compound;
        let answer = body.into_value(self.alloc, &mut self.capacity);
        self.descriptors.restore(saved);
        self.finish(answer)
    }
}
