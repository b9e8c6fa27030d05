//! A compound that is being measured.

ghost use Rattle.std.specs.Prelude.{◌≡◌, ◌<◌, ◌+◌, ◌≤◌, Some, true, MatchResult, IfOk};
ghost use Rattle.amqp_size.specs.Position.{limit_of};

use crate::context::Context;
use crate::limits::{MAX_COUNT, MAX_LEN, add_within};
use crate::position::Position;
use crate::resolved_kind::ResolvedKind;
use crate::size_error::SizeError;
use std::marker::Model;

/// A compound that is being measured: the size of its parts so far and the position of the next
/// one.
#[derive(Debug, Drop)]
pub struct OpenCompound {
    position: Position,
    resolved_kind: ResolvedKind,
    inner_context: Context,
    /// Length of the descriptors before the value, if `position` or `inner_context` is after one.
    prefix_len: usize,
    sum: usize,
    before_last: usize,
    count: usize,
}

impl Model for OpenCompound {
    ghost use Rattle.std.specs.Prelude.{◌≤◌};
    ghost use Rattle.amqp_size.specs.State.{position_at, context_at, OpenState};
    ghost use Rattle.amqp_size.specs.Position.{limit_of};

    ghost Value = { OpenState };

    ghost view = { λ a. record {
      position = position_at a.position a.prefix_len;
      resolved_kind = a.resolved_kind;
      inner_context = context_at
          a.inner_context a.prefix_len;
      prefix_len = a.prefix_len;
      sum = a.sum;
      before_last = a.before_last;
      count = a.count;
    } };

    ghost invariant = { λ a. (a.sum ≤ limit_of a.resolved_kind)
        × (a.before_last ≤ limit_of a.resolved_kind) };
}

impl OpenCompound {
    ghost use Rattle.amqp_size.specs.State.{position_at, context_at};
    ghost use Rattle.amqp_size.specs.AddPart.{AddsPart, constructor_len_in, PassesLimit};
    ghost use Rattle.amqp_size.specs.AddPart.{Undescribed};
    ghost use Rattle.amqp_size.specs.Position.{position_of, without_prefix, inner_context_of};
    ghost use Rattle.amqp_size.specs.Position.{described_context};

    /// Returns an empty compound of this kind at this position.
    #[inline(always)]
    pub(crate) fn new(
        context: Context,
        prefix_len: usize,
        resolved_kind: ResolvedKind,
    ) -> OpenCompound
        ensures position { result.position ≡ position_of (context_at context prefix_len) }
        ensures resolved_kind { result.resolved_kind ≡ resolved_kind }
        ensures inner_context { result.inner_context
            ≡ inner_context_of resolved_kind (context_at context prefix_len) }
        ensures prefix_len { result.prefix_len ≡ prefix_len }
        ensures sum { result.sum ≡ 0 }
        ensures count { result.count ≡ 0 }
    {
        OpenCompound {
            position: context.position(),
            resolved_kind,
            inner_context: context.inner_context(resolved_kind),
            prefix_len,
            sum: 0,
            before_last: 0,
            count: 0,
        }
    }

    /// Returns the total size of the parts so far.
    #[inline(always)]
    pub(crate) fn sum(&self) -> usize
        ensures sum { result ≡ self.now.sum }
        ensures small { result ≤ limit_of self.now.resolved_kind }
    {
        self.sum
    }

    /// Returns what the compound is encoded as.
    #[inline(always)]
    pub fn resolved_kind(&self) -> ResolvedKind
        ensures { result ≡ self.now.resolved_kind }
    {
        self.resolved_kind
    }

    /// Returns the position of the compound.
    #[inline(always)]
    pub(crate) fn position(&self) -> Position
        ensures { position_at result self.now.prefix_len ≡ self.now.position }
    {
        self.position
    }

    /// Returns the position of the next part. For a single compound that has its value, this is the
    /// position after the value.
    #[inline(always)]
    pub(crate) fn inner_context(&self) -> Context
        ensures { context_at result self.now.prefix_len ≡ self.now.inner_context }
    {
        self.inner_context
    }

    /// Returns the length of the descriptors before the value, if `position` or `inner_context` is
    /// after one.
    #[inline(always)]
    pub(crate) fn prefix_len(&self) -> usize
        ensures { result ≡ self.now.prefix_len }
    {
        self.prefix_len
    }

    /// Returns the number of elements of an array.
    #[inline(always)]
    pub(crate) fn count(&self) -> usize
        ensures { result ≡ self.now.count }
    {
        self.count
    }

    /// Restores the total size before the last part.
    #[inline(always)]
    pub(crate) fn undo(&mut self)
        ensures sum { self.new.sum ≡ self.old.before_last }
        ensures position { self.new.position ≡ self.old.position }
        ensures resolved_kind { self.new.resolved_kind ≡ self.old.resolved_kind }
        ensures small { self.new.sum ≤ limit_of self.new.resolved_kind }
        ensures count { self.new.count ≡ self.old.count }
        ensures inner_context { self.new.inner_context ≡ self.old.inner_context }
    {
        self.sum = self.before_last;
    }

    /// Adds a part of this size. `after` is the position of the serializer after the part.
    ///
    /// # Errors
    /// Returns `TooLong` if a limit is exceeded, and `InvalidValue` for a second value of a single
    /// compound. The compound is then unchanged.
    #[inline(always)]
    pub(crate) fn add_part(&mut self, size: usize, after: Context) -> Result<(), SizeError>
        ensures { AddsPart self.old self.new size (context_at after self.old.prefix_len) result }
    {
        match self.resolved_kind {
            ResolvedKind::Array => self.add_element(size, after),
            ResolvedKind::Transparent => self.add(size, usize::MAX),
            ResolvedKind::Single => self.add_single(size, after),
            _ => self.add(size, MAX_LEN),
        }
    }

    /// Adds a part of this size and leaves the position of the next part unchanged.
    ///
    /// # Errors
    /// Returns `TooLong` if the total size would exceed `limit`. The compound is then unchanged.
    #[inline(always)]
    fn add(&mut self, size: usize, limit: usize) -> Result<(), SizeError>
        requires enough { self.old.sum ≤ limit }
        requires allowed { limit ≤ limit_of self.old.resolved_kind }
        ensures kept { MatchResult result
            (λ _. (self.new.sum ≡ size + self.old.sum) × (self.new.before_last ≡ self.old.sum))
            (λ e. (self.new ≡ self.old)
            × ((e ≡ SizeError.TooLong) × (limit < size + self.old.sum))) }
        ensures position { self.new.position ≡ self.old.position }
        ensures resolved_kind { self.new.resolved_kind ≡ self.old.resolved_kind }
        ensures small { self.new.sum ≤ limit_of self.new.resolved_kind }
        ensures inner_context { self.new.inner_context ≡ self.old.inner_context }
        ensures count { self.new.count ≡ self.old.count }
    {
        let sum = add_within(self.sum, size, limit)?;
        self.before_last = self.sum;
        self.sum = sum;
        Ok(())
    }

    /// Adds an array element, and the constructor if it is the first element.
    ///
    /// # Errors
    /// Returns `TooLong` if a limit is exceeded. The compound is then unchanged.
    #[inline(always)]
    fn add_element(&mut self, size: usize, after: Context) -> Result<(), SizeError>
        requires { self.old.resolved_kind ≡ ResolvedKind.Array }
        ensures kept { MatchResult result
            (λ _.
            (self.new.sum ≡ size +
            constructor_len_in true self.old.inner_context (context_at after self.old.prefix_len)
            + self.old.sum)
            × ((self.new.count ≡ self.old.count + 1)
            × (self.new.inner_context ≡ context_at after self.old.prefix_len)))
            (λ e. (self.new ≡ self.old)
            × ((e ≡ SizeError.TooLong)
            × PassesLimit true self.old.count
            (size + constructor_len_in true self.old.inner_context (context_at after self.old.prefix_len) +
            self.old.sum))) }
        ensures before_last { IfOk result (λ _. self.new.before_last ≡ self.old.sum) }
        ensures few { self.old.count ≤ 4294967295 → self.new.count ≤ 4294967295 }
        ensures position { self.new.position ≡ self.old.position }
        ensures resolved_kind { self.new.resolved_kind ≡ self.old.resolved_kind }
        ensures small { self.new.sum ≤ limit_of self.new.resolved_kind }
    {
        // After the first element, `after` contains its constructor.
        let opened = match (self.inner_context, after) {
            (
                Context::Unmarked(Position::FirstElement),
                Context::Unmarked(Position::OtherElement(_)),
            ) => 1,
            _ => 0,
        };
        let sum = add_within(add_within(self.sum, size, MAX_LEN)?, opened, MAX_LEN)?;
        if self.count >= MAX_COUNT {
            return Err(SizeError::TooLong);
        }
        self.count += 1;
        self.before_last = self.sum;
        self.sum = sum;
        self.inner_context = after;
        Ok(())
    }

    /// Sets the value of a single compound and the position after it.
    ///
    /// # Errors
    /// Returns `InvalidValue` if the compound has a value. The compound is then unchanged.
    #[inline(always)]
    fn add_single(&mut self, size: usize, after: Context) -> Result<(), SizeError>
        requires { self.old.resolved_kind ≡ ResolvedKind.Single }
        ensures kept { MatchResult result
            (λ _. (self.old.count ≡ 0)
            × ((self.new.count ≡ 1)
            × ((self.new.sum ≡ size) × (self.new.inner_context
            ≡ context_at after self.old.prefix_len))))
            (λ e. (self.new ≡ self.old) × ((e ≡ SizeError.InvalidValue) × (1 ≤ self.old.count))) }
        ensures position { self.new.position ≡ self.old.position }
        ensures resolved_kind { self.new.resolved_kind ≡ self.old.resolved_kind }
        ensures small { self.new.sum ≤ limit_of self.new.resolved_kind }
    {
        if self.count > 0 {
            return Err(SizeError::InvalidValue);
        }
        self.count = 1;
        self.sum = size;
        self.inner_context = after;
        Ok(())
    }

    /// Adds a descriptor of this size before the value of a single compound.
    ///
    /// Under a marker it succeeds, but no value is accepted afterwards.
    ///
    /// # Errors
    /// Returns `InvalidValue` at the position of a descriptor, and `TooLong` if the length of the
    /// descriptors exceeds `usize::MAX`. The compound is then unchanged.
    #[inline(always)]
    pub(crate) fn describe(&mut self, size: usize) -> Result<(), SizeError>
        ensures kept { MatchResult result
            (λ _. described_context self.old.inner_context size ≡ Some self.new.inner_context)
            (λ e. (self.new ≡ self.old) × Undescribed self.old.inner_context size e) }
        ensures position { without_prefix self.new.position ≡ without_prefix self.old.position }
        ensures resolved_kind { self.new.resolved_kind ≡ self.old.resolved_kind }
        ensures sum { self.new.sum ≡ self.old.sum }
        ensures count { self.new.count ≡ self.old.count }
    {
        let Context::Unmarked(position) = self.inner_context else {
            self.inner_context = Context::Nothing(self.inner_context.position());
            return Ok(());
        };
        let inner_context = match position.after_descriptor() {
            Ok(inner_context) => inner_context,
            Err(e) => return Err(e),
        };
        let prefix_len = position.prefix_len(self.prefix_len);
        if size >= usize::MAX - prefix_len {
            return Err(SizeError::TooLong);
        }
        self.prefix_len = prefix_len + (size + 1);
        self.inner_context = Context::Unmarked(inner_context);
        Ok(())
    }
}
