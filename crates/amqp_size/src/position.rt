//! The position of a value.

ghost use Rattle.std.specs.Prelude.{◌≡◌, ◌+◌, ℕ, Some, MatchResult};
ghost use Rattle.amqp_size.specs.State.{position_at};
ghost use Rattle.amqp_size.specs.Position.{without_prefix, base_position, takes_described};
ghost use Rattle.amqp_size.specs.Position.{described_position, prefix_len_of};

use crate::size_error::SizeError;

/// The position of a described value.
#[derive(Clone, Copy, Debug)]
pub enum BasePosition {
    /// At the root.
    Root,
    /// Inside a list, a map or a variant.
    InCompound,
    /// The first element of an array.
    FirstElement,
    /// An element of an array with this constructor.
    OtherElement(u8),
}

/// The position of a value.
#[derive(Clone, Copy, Debug)]
pub enum Position {
    /// At the root.
    Root,
    /// Inside a list, a map or a variant.
    InCompound,
    /// The first element of an array.
    FirstElement,
    /// An element of an array with this constructor.
    OtherElement(u8),
    /// The descriptor of a described value.
    Descriptor,
    /// The value after one or more descriptors. The length of the descriptors, with the code `00`
    /// before each of them, is stored next to the position.
    Value(BasePosition),
}

impl BasePosition {
    /// Converts the position to a [`Position`].
    #[inline(always)]
    pub(crate) fn position(self) -> Position
        ensures { (h : ℕ) → position_at result h ≡ base_position self }
    {
        match self {
            BasePosition::Root => Position::Root,
            BasePosition::InCompound => Position::InCompound,
            BasePosition::FirstElement => Position::FirstElement,
            BasePosition::OtherElement(code) => Position::OtherElement(code),
        }
    }

    /// Returns whether a described value is accepted: not as an array element.
    #[inline(always)]
    pub(crate) fn takes_described(self) -> bool
        ensures { result ≡ takes_described self }
    {
        matches!(self, BasePosition::Root | BasePosition::InCompound)
    }
}

impl Position {
    /// Returns the position without descriptors: the position between steps and after an error.
    #[inline(always)]
    pub(crate) fn without_prefix(self) -> Position
        ensures { (h k : ℕ) → position_at result k ≡ without_prefix (position_at self h) }
    {
        match self {
            Position::Value(base) => base.position(),
            position => position,
        }
    }

    /// Returns the position after a descriptor.
    ///
    /// # Errors
    /// Returns `InvalidValue` at the position of a descriptor.
    #[inline(always)]
    pub(crate) fn after_descriptor(self) -> Result<Position, SizeError>
        ensures { MatchResult result
            (λ p. (h n : ℕ) →
            described_position (position_at self h) n
            ≡ Some (position_at p (prefix_len_of (position_at self h) + (n + 1))))
            (λ e. (self ≡ Position.Descriptor) × (e ≡ SizeError.InvalidValue)) }
    {
        match self {
            Position::Root => Ok(Position::Value(BasePosition::Root)),
            Position::InCompound => Ok(Position::Value(BasePosition::InCompound)),
            Position::FirstElement => Ok(Position::Value(BasePosition::FirstElement)),
            Position::OtherElement(code) => Ok(Position::Value(BasePosition::OtherElement(code))),
            Position::Descriptor => Err(SizeError::InvalidValue),
            Position::Value(base) => Ok(Position::Value(base)),
        }
    }

    /// Returns `prefix_len` after a descriptor, and 0 at any other position.
    #[inline(always)]
    pub(crate) fn prefix_len(self, prefix_len: usize) -> usize
        ensures { result ≡ prefix_len_of (position_at self prefix_len) }
    {
        match self {
            Position::Value(_) => prefix_len,
            _ => 0,
        }
    }
}
