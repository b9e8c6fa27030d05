//! The serializer that measures values, and `serialized_size`.

ghost use Rattle.std.specs.Prelude.{◌≡◌, ◌+◌, ◌≤◌, [], List, Option, Some, None, Result, Ok, Err};
ghost use Rattle.std.specs.Prelude.{IfOk, IfErr, IsErr, true, ℕ};
ghost use Rattle.amqp_ser.specs.Tree.{Tree};
ghost use Rattle.amqp_ser.specs.Ends.{EndsPart, EndsDescriptor};
ghost use Rattle.amqp_ser.specs.Composites.{descriptor_of};
ghost use Rattle.amqp_ser.specs.SizeAndBytes.{IsSizeOf};
ghost use Rattle.amqp_size.specs.WholeContext.{Unmarked};
ghost use Rattle.amqp_size.specs.WholePosition as whole_position;

use crate::context::Context;
use crate::open_compound::OpenCompound;
use crate::position::Position;
use crate::resolved_kind::ResolvedKind;
use crate::scalar_encoding::ScalarEncoding;
use crate::scalar_marker::ScalarMarker;
use crate::size_error::SizeError;
use crate::width::{array_form_len, list_form_len, map_form_len};
use amqp_data::{EncodingCodes, Error};
use amqp_ser::{CompoundKind, Fixed, Marker, Serialize, Serializer, Whole};
use std::marker::Model;

/// A serializer that counts the bytes of encodings. It can be used again after each call, also
/// after a call that failed.
///
/// # Errors
/// Methods return a [`SizeError`] of one byte, which `?` converts to `Error`. It is never
/// `OutOfMemory`.
///
/// # Memory
/// None.
///
/// # Example
/// One serializer measures the array of the ubytes 1 and 2 as 6 bytes, and then their list as 7.
#[derive(Debug, Drop)]
pub struct SizeSerializer {
    /// Position of the next value. `size_at` stores the constructor of an array's first element
    /// here, and `end_part` reads it; the returned size does not contain it.
    pub(crate) context: Context,
    /// Length of the descriptors before the value, if it is after a descriptor.
    pub(crate) prefix_len: usize,
    /// Whether the parts of a compound may be measured at once. It is false after a value that was
    /// not measured at once: its parts were part of that attempt.
    pub(crate) tries_parts: bool,
}

impl Model for SizeSerializer {
    ghost use Rattle.amqp_size.specs.State.{context_at, SizeState};

    ghost Value = { SizeState };

    ghost view = { λ s. record { context = context_at s.context s.prefix_len } };
}

impl SizeSerializer {
    /// Creates a serializer at the root.
    #[inline(always)]
    pub fn new() -> SizeSerializer
        ensures { result.context ≡ Unmarked whole_position.Root }
    {
        SizeSerializer {
            context: Context::Unmarked(Position::Root),
            prefix_len: 0,
            tries_parts: true,
        }
    }
}

impl Default for SizeSerializer {
    ghost use Rattle.amqp_size.specs.WholeContext.{Unmarked};
    ghost use Rattle.amqp_size.specs.WholePosition.{Root};

    ghost is_default = { λ s. s.context ≡ Unmarked Root };

    fn default() -> SizeSerializer {
        SizeSerializer::new()
    }
}

impl Serializer for SizeSerializer {
    ghost use Rattle.amqp_size.specs.declared.size_error.SizeError.TheVariants.{InvalidValue};
    ghost use Rattle.amqp_size.specs.Position.{position_of, meant, without_prefix};
    ghost use Rattle.amqp_size.specs.Position.{described_context};
    ghost use Rattle.amqp_size.specs.SizeSerializer.{SizePermits, SizeHas, SizeAwaits};
    ghost use Rattle.amqp_size.specs.SizeSerializer.{SizeAwaitsDescriptor, no_count_on_none};
    ghost use Rattle.amqp_ser.specs.Compounds.{tree_of_parts, complete};
    ghost use Rattle.amqp_ser.specs.Fixed.{fixed_scalar};
    ghost use Rattle.amqp_ser.specs.Tree.{scalar, null, string, binary};
    ghost use Rattle.amqp_ser.specs.Marked.{with_marker};
    ghost use Rattle.amqp_ser.specs.declared.kind.CompoundKind.{CompoundKind};

    type Ok = usize;

    type Error = SizeError;

    type Open = OpenCompound;

    ghost permits = { SizePermits };

    ghost has = { SizeHas };

    ghost awaits = { SizeAwaits };

    ghost awaits_descriptor = { SizeAwaitsDescriptor };

    ghost is_misuse_error = { λ e. e ≡ InvalidValue };

    ghost refuses_none = { no_count_on_none };

    #[inline(always)]
    fn serialize_fixed(&mut self, fixed: Fixed) -> Result<usize, SizeError>
        ensures answered { SizePermits self.old (Some (scalar (fixed_scalar fixed))) result
            self.new }
        ensures no_tree { meant self.old.context (Some (scalar (fixed_scalar fixed))) ≡ None →
            result ≡ Err InvalidValue }
    {
        let context = self.context;
        let prefix_len = self.prefix_len;
        self.clear_prefix();
        match context {
            Context::Unmarked(position) => {
                let ordinary = ScalarEncoding::ordinary(fixed);
                let wide = ScalarEncoding::in_array(fixed);
                self.size_at(
                    position,
                    prefix_len,
                    wide.code,
                    ordinary.width + 1,
                    wide.width,
                )
            }
            Context::Scalar(position, ScalarMarker::Timestamp) => match fixed {
                Fixed::Long(_) => self.size_at(
                    position,
                    prefix_len,
                    EncodingCodes::Timestamp as u8,
                    9,
                    8,
                ),
                _ => Err(SizeError::InvalidValue),
            },
            _ => Err(SizeError::InvalidValue),
        }
    }

    #[inline(always)]
    fn serialize_null(&mut self) -> Result<usize, SizeError>
        ensures answered { SizePermits self.old (Some (scalar null)) result self.new }
        ensures no_tree { meant self.old.context (Some (scalar null)) ≡ None →
            result ≡ Err InvalidValue }
    {
        let context = self.context;
        let prefix_len = self.prefix_len;
        self.clear_prefix();
        match context {
            Context::Unmarked(position) => self.size_at(
                position,
                prefix_len,
                EncodingCodes::Null as u8,
                1,
                0,
            ),
            _ => Err(SizeError::InvalidValue),
        }
    }

    #[inline(always)]
    fn serialize_str(&mut self, v: &str) -> Result<usize, SizeError>
        ensures answered { SizePermits self.old (Some (scalar (string v.now))) result self.new }
        ensures no_tree { meant self.old.context (Some (scalar (string v.now))) ≡ None →
            result ≡ Err InvalidValue }
    {
        let context = self.context;
        let prefix_len = self.prefix_len;
        self.clear_prefix();
        match context {
            Context::Unmarked(position) => self.text(
                position,
                prefix_len,
                EncodingCodes::Str32 as u8,
                v.len(),
            ),
            Context::Scalar(position, ScalarMarker::Symbol) => self.text(
                position,
                prefix_len,
                EncodingCodes::Sym32 as u8,
                v.len(),
            ),
            _ => Err(SizeError::InvalidValue),
        }
    }

    #[inline(always)]
    fn serialize_bytes(&mut self, v: &[u8]) -> Result<usize, SizeError>
        ensures answered { SizePermits self.old (Some (scalar (binary v.now))) result self.new }
        ensures no_tree { meant self.old.context (Some (scalar (binary v.now))) ≡ None →
            result ≡ Err InvalidValue }
    {
        let context = self.context;
        let prefix_len = self.prefix_len;
        self.clear_prefix();
        match context {
            Context::Unmarked(position) => self.text(
                position,
                prefix_len,
                EncodingCodes::Vbin32 as u8,
                v.len(),
            ),
            Context::Scalar(position, marker) => self.marked_bytes(position, prefix_len, marker, v),
            _ => Err(SizeError::InvalidValue),
        }
    }

    #[inline(always)]
    fn set_marker(&mut self, marker: Marker)
        ensures step { (t : Option Tree) (r : Result ℕ SizeError) (after : SizeSerializer) →
            SizePermits self.new t r after → SizePermits self.old (with_marker marker t) r after }
        ensures meant { (t : Option Tree) →
            meant self.new.context t ≡ meant self.old.context (with_marker marker t) }
        ensures position { position_of self.new.context ≡ position_of self.old.context }
    {
        self.context = self.context.with_marker(marker);
    }

    #[inline(always)]
    fn begin_compound(&mut self, kind: CompoundKind) -> OpenCompound {
        let context = self.context;
        let prefix_len = self.prefix_len;
        self.clear_prefix();
        OpenCompound::new(context, prefix_len, context.resolved_kind(kind))
    }

    #[inline(always)]
    fn placeholder(&self) -> OpenCompound {
        OpenCompound::new(Context::Unmarked(Position::Root), 0, ResolvedKind::Refused)
    }

    #[inline(always)]
    fn begin_part(&mut self, compound: &mut OpenCompound)
        ensures ready { (start : SizeSerializer) (kind : CompoundKind) (ps : List (Option Tree)) →
            SizeHas start kind self.old compound.old ps →
            SizeAwaits start kind self.new compound.new ps }
        ensures single { (start : SizeSerializer) →
            SizeHas start CompoundKind.Single self.old compound.old [] →
            (t : Option Tree) (r : Result ℕ SizeError) (after : SizeSerializer) →
            SizePermits self.new t r after → SizePermits start t r after }
        ensures context { self.new.context ≡ compound.old.inner_context }
        ensures kept { compound.new ≡ compound.old }
    {
        self.context = compound.inner_context();
        self.prefix_len = compound.prefix_len();
    }

    #[inline(always)]
    fn end_part(
        &mut self,
        compound: &mut OpenCompound,
        part: Result<usize, SizeError>,
    ) -> Result<(), SizeError>
        ensures step { EndsPart SizePermits SizeHas SizeAwaits
            self.old compound.old part result self.new compound.new }
        ensures refused { IfErr part (λ _. IsErr result) }
        ensures same { IfErr part
            (λ e. (result ≡ Err e)
            × ((compound.new ≡ compound.old)
            × (self.new.context ≡ Unmarked (without_prefix compound.old.position)))) }
        ensures one_alone { compound.old.resolved_kind ≡ ResolvedKind.Single →
            1 ≤ compound.old.count →
            IfOk part (λ _. result ≡ Err InvalidValue) }
    {
        // `size_at` has stored the constructor of an array's first element in `context`.
        let after = self.context;
        self.context = Context::Unmarked(compound.position().without_prefix());
        let size = part?;
        compound.add_part(size, after)
    }

    #[inline(always)]
    fn begin_descriptor(&mut self, compound: &mut OpenCompound)
        ensures ready { (start : SizeSerializer) →
            SizeHas start CompoundKind.Single self.old compound.old [] →
            SizeAwaitsDescriptor start self.new compound.new }
        ensures context { self.new.context ≡ Unmarked whole_position.Descriptor }
        ensures kept { compound.new ≡ compound.old }
    {
        self.context = Context::Unmarked(Position::Descriptor);
    }

    #[inline(always)]
    fn end_descriptor(
        &mut self,
        compound: &mut OpenCompound,
        part: Result<usize, SizeError>,
    ) -> Result<(), SizeError>
        ensures step { EndsDescriptor SizePermits SizeHas SizeAwaitsDescriptor
            self.old compound.old part result self.new compound.new }
        ensures refused { IfErr part (λ _. IsErr result) }
        ensures other_kinds { (start before : SizeSerializer) (d : Option Tree) →
            SizeAwaitsDescriptor start before compound.old → SizePermits before d part self.old →
            descriptor_of d ≡ None → IsErr result }
        ensures described { IfOk part
            (λ n. IfOk result (λ _. described_context compound.old.inner_context n
            ≡ Some compound.new.inner_context)) }
        ensures same { IfErr part
            (λ e. (result ≡ Err e)
            × ((compound.new ≡ compound.old)
            × (self.new.context ≡ Unmarked (without_prefix compound.old.position)))) }
    {
        self.context = Context::Unmarked(compound.position().without_prefix());
        let descriptor = part?;
        compound.describe(descriptor)
    }

    #[inline(always)]
    fn undo_part(&mut self, compound: &mut OpenCompound) {
        compound.undo();
    }

    #[inline(always)]
    fn misuse_error(&mut self, _compound: &mut OpenCompound) -> SizeError {
        SizeError::InvalidValue
    }

    #[tactic(auto, unfolding(amqp_ser::specs::Compounds::tree_of_parts))]
    #[inline(always)]
    fn end(&mut self, compound: OpenCompound) -> Result<usize, SizeError>
        ensures answered { (start : SizeSerializer) (kind : CompoundKind)
            (ps : List (Option Tree)) →
            SizeHas start kind self.old compound ps → complete kind ps ≡ true →
            SizePermits start (tree_of_parts kind ps) result self.new }
        ensures no_tree { (start : SizeSerializer) (kind : CompoundKind) (ps : List (Option Tree)) →
            SizeHas start kind self.old compound ps → complete kind ps ≡ true →
            meant start.context (tree_of_parts kind ps) ≡ None → result ≡ Err InvalidValue }
    {
        let position = compound.position();
        let prefix_len = compound.prefix_len();
        let sum = compound.sum();
        match compound.resolved_kind() {
            ResolvedKind::List => self.size_at(
                position,
                prefix_len,
                EncodingCodes::List32 as u8,
                list_form_len(sum),
                sum + 8,
            ),
            ResolvedKind::Map => self.size_at(
                position,
                prefix_len,
                EncodingCodes::Map32 as u8,
                map_form_len(sum),
                sum + 8,
            ),
            ResolvedKind::Variant(index) => self.variant(
                position,
                prefix_len,
                index,
                list_form_len(sum),
            ),
            ResolvedKind::NewtypeVariant(index) => self.variant(position, prefix_len, index, sum),
            ResolvedKind::Array => self.size_at(
                position,
                prefix_len,
                EncodingCodes::Array32 as u8,
                array_form_len(sum, compound.count()),
                sum + 8,
            ),
            ResolvedKind::Transparent => self.transparent(position, prefix_len, sum),
            ResolvedKind::Single => {
                // The enclosing compound reads the position after the value from `context`.
                self.context = compound.inner_context();
                self.prefix_len = prefix_len;
                Ok(sum)
            }
            ResolvedKind::Refused => Err(SizeError::InvalidValue),
        }
    }

    #[inline(always)]
    fn try_whole<W: Whole>(&mut self, whole: &W) -> Option<usize> {
        if !self.takes_whole() {
            return None;
        }
        let len = whole.whole_len();
        self.tried_whole(len.is_some());
        len
    }
}

/// Returns the length of the encoding of `value`. It succeeds if and only if the tree of the value
/// is writable.
///
/// # Errors
/// Returns `TooLong` only if a limit is exceeded, and `InvalidValue` only if the tree is not
/// writable for another reason. Returns one of them if the value has no tree.
///
/// # Memory
/// None.
///
/// # Example
/// The list of the strings `a` and `bc` has the length 10: `c00802a10161a1026263`.
pub fn serialized_size<T: Serialize>(value: &T) -> Result<usize, Error>
    ensures { IsSizeOf (T.tree value.now) result }
{
    let mut serializer = SizeSerializer::new();
    Ok(value.serialize(&mut serializer)?)
}
