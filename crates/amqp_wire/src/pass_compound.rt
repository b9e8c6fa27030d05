//! A compound that a pass has open.

ghost use Rattle.std.specs.Prelude.{◌≡◌, Option, Some, None, true, false};
ghost use Rattle.amqp_ser.specs.declared.kind.CompoundKind.{CompoundKind};
ghost use Rattle.amqp_wire.specs.Kept.{kept, resolve};

use crate::position::Position;
use crate::sink::{Mark, Opened};
use amqp_ser::{CompoundKind, Marker};
use amqp_size::ResolvedKind;

/// A compound that a pass has open.
#[derive(Drop)]
pub struct PassCompound {
    pub(crate) kind: ResolvedKind,
    /// The innermost header.
    pub(crate) opened: Opened,
    /// The header of a variant.
    pub(crate) outer: Opened,
    /// The number of accepted parts.
    pub(crate) count: usize,
    /// The position of the next part.
    pub(crate) position: Position,
    /// The marker of the next part; `None` if no part is accepted.
    pub(crate) marker: Option<Marker>,
    /// The position after the compound.
    pub(crate) after: Position,
    /// The mark before the next part.
    pub(crate) mark: Mark,
    /// The mark before the last part.
    pub(crate) before_last: Mark,
}

/// A header that is not used.
pub(crate) const NO_HEADER: Opened = Opened {
    start: 0,
    at: 0,
    count: 0,
};

const NO_MARK: Mark = Mark {
    len: 0,
    hints: 0,
    poisoned: false,
};

impl PassCompound {
    ghost use Rattle.std.specs.Prelude.{◌+◌};
    ghost use Rattle.std.specs.Prelude.{◌<◌};
    ghost use Rattle.amqp_wire.specs.Kept.{with_part};
    ghost use Rattle.amqp_wire.specs.Positions.{IsOrdinary};

    /// Creates an open compound without parts.
    #[inline(always)]
    pub(crate) fn open(
        kind: ResolvedKind,
        outer: Opened,
        opened: Opened,
        position: Position,
        after: Position,
    ) -> PassCompound
        ensures kind { result.kind ≡ kind }
        ensures opened { result.opened ≡ opened }
        ensures outer { result.outer ≡ outer }
        ensures count { result.count ≡ 0 }
        ensures position { result.position ≡ position }
        ensures marker { result.marker ≡ Some Marker.Other }
        ensures after { result.after ≡ after }
    {
        PassCompound {
            kind,
            opened,
            outer,
            count: 0,
            position,
            marker: Some(Marker::Other),
            after,
            mark: NO_MARK,
            before_last: NO_MARK,
        }
    }

    /// Creates a single compound, whose part has this position and this marker.
    #[inline(always)]
    pub(crate) fn single(position: Position, marker: Option<Marker>) -> PassCompound
        ensures kind { result.kind ≡ ResolvedKind.Single }
        ensures count { result.count ≡ 0 }
        ensures position { result.position ≡ position }
        ensures marker { result.marker ≡ marker }
    {
        PassCompound {
            kind: ResolvedKind::Single,
            opened: NO_HEADER,
            outer: NO_HEADER,
            count: 0,
            position,
            marker,
            after: position,
            mark: NO_MARK,
            before_last: NO_MARK,
        }
    }

    /// Creates a compound that accepts no part.
    #[inline(always)]
    pub(crate) fn refused() -> PassCompound
        ensures kind { result.kind ≡ ResolvedKind.Refused }
        ensures marker { result.marker ≡ None }
    {
        PassCompound {
            kind: ResolvedKind::Refused,
            opened: NO_HEADER,
            outer: NO_HEADER,
            count: 0,
            position: Position::Inside,
            marker: None,
            after: Position::Inside,
            mark: NO_MARK,
            before_last: NO_MARK,
        }
    }

    /// Refuses all further parts.
    #[inline(always)]
    pub(crate) fn refuse(&mut self)
        ensures kind { self.new.kind ≡ ResolvedKind.Refused }
        ensures marker { self.new.marker ≡ None }
    {
        self.kind = ResolvedKind::Refused;
        self.marker = None;
    }

    /// Returns whether one more part is accepted.
    #[inline(always)]
    fn has_room(&self) -> bool
        ensures count { result ≡ true → self.now.count < 18446744073709551615 }
        ensures open { result ≡ true → self.now.kind ≡ ResolvedKind.Refused → ⊥ }
        ensures single { result ≡ true → self.now.kind ≡ ResolvedKind.Single → self.now.count ≡ 0 }
    {
        match self.kind {
            ResolvedKind::Refused => false,
            ResolvedKind::Single => self.count == 0,
            _ => self.count < usize::MAX,
        }
    }

    /// Accepts a part, after which the pass has this position: an array gets its constructor from
    /// its first element, and a single compound has the position after its part. Returns `false`,
    /// and changes nothing, if no part is accepted.
    #[inline(always)]
    pub(crate) fn take(&mut self, after: Position) -> bool
        ensures open { result ≡ true → self.old.kind ≡ ResolvedKind.Refused → ⊥ }
        ensures single { result ≡ true → self.old.kind ≡ ResolvedKind.Single → self.old.count ≡ 0 }
        ensures kind { self.new.kind ≡ self.old.kind }
        ensures taken { result ≡ true →
            kept self.new ≡ with_part self.old.kind (kept self.old) self.old.mark after }
        ensures same { result ≡ false → self.new ≡ self.old }
    {
        if !self.has_room() {
            return false;
        }
        self.count += 1;
        match self.kind {
            ResolvedKind::Array => {
                self.position = after;
                true
            }
            ResolvedKind::Single => {
                self.after = after;
                true
            }
            ResolvedKind::List => true,
            ResolvedKind::Map => {
                self.before_last = self.mark;
                true
            }
            ResolvedKind::Variant(_) => true,
            ResolvedKind::NewtypeVariant(_) => true,
            ResolvedKind::Transparent => true,
            ResolvedKind::Refused => true,
        }
    }

    /// Returns whether this is a single compound before a described value.
    #[inline(always)]
    pub(crate) fn is_descriptor(&self) -> bool {
        match self.kind {
            ResolvedKind::Single => match self.position {
                Position::Descriptor => match self.marker {
                    Some(Marker::Other) => true,
                    _ => false,
                },
                _ => false,
            },
            _ => false,
        }
    }

    /// Returns whether this is a single compound that accepts a described value.
    #[inline(always)]
    pub(crate) fn is_unmarked(&self) -> bool
        ensures kind { result ≡ true → self.now.kind ≡ ResolvedKind.Single }
        ensures marker { result ≡ true → self.now.marker ≡ Some Marker.Other }
        ensures position { result ≡ true → IsOrdinary self.now.position }
    {
        match self.kind {
            ResolvedKind::Single => match self.marker {
                Some(Marker::Other) => match self.position {
                    Position::Root => true,
                    Position::Inside => true,
                    _ => false,
                },
                _ => false,
            },
            _ => false,
        }
    }
}

/// Returns what a compound of this kind is encoded as under a marker.
#[inline(always)]
pub(crate) fn resolve(kind: CompoundKind, marker: Option<Marker>) -> ResolvedKind
    ensures { result ≡ resolve kind marker }
{
    if let CompoundKind::Single = kind {
        return ResolvedKind::Single;
    }
    match marker {
        Some(Marker::Other) => match kind {
            CompoundKind::List => ResolvedKind::List,
            CompoundKind::Map => ResolvedKind::Map,
            CompoundKind::Variant(index) => ResolvedKind::Variant(index),
            CompoundKind::NewtypeVariant(index) => ResolvedKind::NewtypeVariant(index),
            CompoundKind::Single => ResolvedKind::Single,
        },
        Some(Marker::Array) => match kind {
            CompoundKind::List => ResolvedKind::Array,
            _ => ResolvedKind::Refused,
        },
        Some(Marker::Transparent) => match kind {
            CompoundKind::List => ResolvedKind::Transparent,
            _ => ResolvedKind::Refused,
        },
        _ => ResolvedKind::Refused,
    }
}
