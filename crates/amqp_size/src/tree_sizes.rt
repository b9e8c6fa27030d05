//! The sizes of trees at each position, and the trees that a position rejects.

ghost use Rattle.std.specs.Prelude.{◌≡◌, ◌<◌, ◌^◌, ◌+◌, ◌&&◌, ℕ, List, Some, None, Err, true};
ghost use Rattle.std.specs.Prelude.{length};
ghost use Rattle.amqp_frame.specs.Whole.{is_encoded_value};
ghost use Rattle.amqp_ser.specs.Tree.{Tree, Trees, lazy, transparent};
ghost use Rattle.amqp_ser.specs.Limits.{fits};
ghost use Rattle.amqp_ser.specs.Ranged.{IsRanged, AreRanged, AreBytes};
ghost use Rattle.amqp_ser.specs.Encoding.{encoding, encoding_each, payload, constructor};
ghost use Rattle.amqp_ser.specs.Writable.{uniform_arrays, uniform_arrays_each, within_limits};
ghost use Rattle.amqp_ser.specs.Writable.{within_limits_each, inside, placed, placed_each};
ghost use Rattle.amqp_size.specs.Width.{uint_form_len, text_form_len, map_form_len};
ghost use Rattle.amqp_size.specs.MarkedBytes.{marked_bytes};
ghost use Rattle.amqp_size.specs.Position.{position_of, without_prefix};

use crate::context::Context;
use crate::descriptor::{described_len, descriptor_len};
use crate::limits::{MAX_LEN, add_within};
use crate::position::Position;
use crate::scalar_marker::ScalarMarker;
use crate::serializer::SizeSerializer;
use crate::size_error::SizeError;
use crate::width::{map_form_len, text_form_len, uint_form_len};
use amqp_data::EncodingCodes;
use amqp_frame::is_encoded_value;

impl SizeSerializer {
    ghost use Rattle.amqp_size.specs.WholeContext.{Unmarked};
    ghost use Rattle.amqp_size.specs.State.{position_at};
    ghost use Rattle.amqp_size.specs.SizeSerializer.{AtPosition};

    /// Clears the pending marker and descriptor.
    #[inline(always)]
    pub(crate) fn clear_prefix(&mut self)
        ensures { self.new.context ≡ Unmarked (without_prefix (position_of self.old.context)) }
    {
        match self.context {
            Context::Unmarked(Position::Value(base)) => self.context = Context::Unmarked(
                base.position(),
            ),
            Context::Unmarked(_) => {}
            context => self.context = Context::Unmarked(context.without_prefix()),
        }
    }

    /// Returns the size, at this position, of a writable tree with this constructor.
    ///
    /// `ordinary` is the length outside an array, and `wide` is the length of the payload in an
    /// array. The caller has called `clear_prefix`, or has set the same context.
    ///
    /// # Errors
    /// Returns `InvalidValue` if the position does not accept the tree: as an array element with
    /// another constructor, as a descriptor that is neither a ulong nor a symbol, or as an array
    /// element after a descriptor. Returns `TooLong` if the length with the descriptors exceeds
    /// `usize::MAX`.
    #[inline(always)]
    pub(crate) fn size_at(
        &mut self,
        position: Position,
        prefix_len: usize,
        code: u8,
        ordinary: usize,
        wide: usize,
    ) -> Result<usize, SizeError>
        ensures { self.old.context ≡ Unmarked (without_prefix (position_at position prefix_len)) →
            (t : Tree) →
            constructor t ≡ Some code → within_limits t ≡ true → uniform_arrays t ≡ true →
            inside t ≡ true →
            placed t ≡ true →
            length (encoding t) ≡ ordinary → length (payload t) ≡ wide → IsRanged t →
            AtPosition (position_at position prefix_len) (Some t) result self.new.context }
    {
        match position {
            Position::Root => Ok(ordinary),
            Position::InCompound => Ok(ordinary),
            Position::FirstElement => {
                // `end_part` reads the constructor of an array's first element from here.
                self.context = Context::Unmarked(Position::OtherElement(code));
                Ok(wide)
            }
            Position::OtherElement(c) => {
                if c == code {
                    Ok(wide)
                } else {
                    Err(SizeError::InvalidValue)
                }
            }
            Position::Descriptor => descriptor_len(code, ordinary),
            Position::Value(base) => described_len(prefix_len, base, ordinary),
        }
    }

    /// Like `size_at`, for a text or a binary of `n` bytes with this constructor.
    ///
    /// # Errors
    /// Also returns `TooLong` if `n` exceeds `MAX_LEN`.
    #[inline(always)]
    pub(crate) fn text(
        &mut self,
        position: Position,
        prefix_len: usize,
        code: u8,
        n: usize,
    ) -> Result<usize, SizeError>
        ensures { self.old.context ≡ Unmarked (without_prefix (position_at position prefix_len)) →
            (t : Tree) →
            constructor t ≡ Some code → uniform_arrays t ≡ true → inside t ≡ true →
            placed t ≡ true →
            within_limits t ≡ fits n →
            length (encoding t) ≡ text_form_len n → length (payload t) ≡ n + 4 → IsRanged t →
            AtPosition (position_at position prefix_len) (Some t) result self.new.context }
    {
        // A short text is within the limit: one comparison is enough.
        if n <= 254 {
            return self.size_at(position, prefix_len, code, text_form_len(n), n + 4);
        }
        if n > MAX_LEN {
            return Err(SizeError::TooLong);
        }
        self.size_at(position, prefix_len, code, text_form_len(n), n + 4)
    }

    /// Like `size_at`, for a binary under a scalar marker: a decimal, a uuid or a lazy value.
    ///
    /// # Errors
    /// Also returns `InvalidValue` if the marker does not accept these bytes.
    #[inline(never)]
    pub(crate) fn marked_bytes(
        &mut self,
        position: Position,
        prefix_len: usize,
        marker: ScalarMarker,
        bytes: &[u8],
    ) -> Result<usize, SizeError>
        ensures answered { self.old.context
            ≡ Unmarked (without_prefix (position_at position prefix_len)) →
            AtPosition (position_at position prefix_len) (marked_bytes marker bytes.now) result
            self.new.context }
        ensures no_tree { marked_bytes marker bytes.now ≡ None →
            result ≡ Err SizeError.InvalidValue }
    {
        match marker {
            ScalarMarker::Lazy => {
                if is_encoded_value(bytes) {
                    self.lazy(position, prefix_len, bytes.len())
                } else {
                    Err(SizeError::InvalidValue)
                }
            }
            marker => match marker.exact_code(bytes) {
                Some(code) => self.size_at(
                    position,
                    prefix_len,
                    code,
                    bytes.len() + 1,
                    bytes.len(),
                ),
                None => Err(SizeError::InvalidValue),
            },
        }
    }

    /// Like `size_at`, for a lazy tree of `len` bytes.
    ///
    /// A lazy tree has no constructor, so it is neither an array element nor a descriptor.
    #[tactic(auto, using(amqp_frame::proofs::Whole::passes_encoded_value))]
    #[inline(always)]
    fn lazy(
        &mut self,
        position: Position,
        prefix_len: usize,
        len: usize,
    ) -> Result<usize, SizeError>
        ensures { self.old.context ≡ Unmarked (without_prefix (position_at position prefix_len)) →
            (bytes : List ℕ) → length bytes ≡ len → AreBytes bytes → is_encoded_value bytes ≡ true →
            AtPosition (position_at position prefix_len) (Some (lazy bytes)) result
            self.new.context }
    {
        match position {
            Position::Root | Position::InCompound => Ok(len),
            Position::Value(base) => described_len(prefix_len, base, len),
            _ => Err(SizeError::InvalidValue),
        }
    }

    /// Like `size_at`, for the variant of this index whose value has `size` bytes.
    ///
    /// # Errors
    /// Also returns `TooLong` if the index and the value exceed `MAX_LEN` bytes.
    #[inline]
    pub(crate) fn variant(
        &mut self,
        position: Position,
        prefix_len: usize,
        index: u32,
        size: usize,
    ) -> Result<usize, SizeError>
        ensures { self.old.context ≡ Unmarked (without_prefix (position_at position prefix_len)) →
            (t v : Tree) →
            constructor t ≡ Some 0xd1 → uniform_arrays t ≡ true → inside t ≡ true →
            placed t ≡ true →
            within_limits v ≡ true →
            within_limits t ≡ (fits (uint_form_len index + size) && within_limits v) →
            length (encoding t) ≡ map_form_len (uint_form_len index + size) →
            length (payload t) ≡ uint_form_len index + size + 8 → (index < 2 ^ 32 → IsRanged t) →
            AtPosition (position_at position prefix_len) (Some t) result self.new.context }
    {
        let body = add_within(uint_form_len(index), size, MAX_LEN)?;
        self.size_at(
            position,
            prefix_len,
            EncodingCodes::Map32 as u8,
            map_form_len(body),
            body + 8,
        )
    }

    /// Returns the size of a transparent vector whose elements have `sum` bytes.
    ///
    /// # Errors
    /// Returns `InvalidValue` if the position is not the root.
    #[inline(always)]
    pub(crate) fn transparent(
        &mut self,
        position: Position,
        prefix_len: usize,
        sum: usize,
    ) -> Result<usize, SizeError>
        ensures { self.old.context ≡ Unmarked (without_prefix (position_at position prefix_len)) →
            (ts : Trees) →
            within_limits_each ts ≡ true → uniform_arrays_each ts ≡ true → placed_each ts ≡ true →
            sum ≡ length (encoding_each ts) → AreRanged ts →
            AtPosition (position_at position prefix_len) (Some (transparent ts)) result
            self.new.context }
    {
        match position {
            Position::Root => Ok(sum),
            _ => Err(SizeError::InvalidValue),
        }
    }
}
