//! The position of a value, with the pending marker.

ghost use Rattle.std.specs.Prelude.{◌≡◌, ℕ, Option};
ghost use Rattle.amqp_ser.specs.Tree.{Tree};
ghost use Rattle.amqp_ser.specs.Marked.{with_marker};
ghost use Rattle.amqp_size.specs.State.{position_at, context_at};
ghost use Rattle.amqp_size.specs.Position.{position_of, meant, without_prefix, inner_context_of};
ghost use Rattle.amqp_size.specs.Position.{resolved_kind_of, the_marker};

use crate::position::Position;
use crate::resolved_kind::ResolvedKind;
use crate::scalar_marker::ScalarMarker;
use amqp_ser::{CompoundKind, Marker};

/// The position of a value, with the pending marker.
#[derive(Clone, Copy, Debug)]
pub enum Context {
    /// No marker.
    Unmarked(Position),
    /// The array marker.
    Array(Position),
    /// The transparent vector marker.
    Transparent(Position),
    /// A scalar marker.
    Scalar(Position, ScalarMarker),
    /// Markers that accept no value.
    Nothing(Position),
}

impl Context {
    /// Returns the position without the marker.
    #[inline(always)]
    pub(crate) fn position(self) -> Position
        ensures { (h : ℕ) → position_at result h ≡ position_of (context_at self h) }
    {
        match self {
            Context::Unmarked(position) => position,
            Context::Array(position) => position,
            Context::Transparent(position) => position,
            Context::Scalar(position, _) => position,
            Context::Nothing(position) => position,
        }
    }

    /// Returns the position after an error: without the marker and without descriptors.
    #[inline(always)]
    pub(crate) fn without_prefix(self) -> Position
        ensures { (h k : ℕ) →
            position_at result k ≡ without_prefix (position_of (context_at self h)) }
    {
        self.position().without_prefix()
    }

    /// Returns what a compound of this kind is encoded as.
    #[inline(always)]
    pub(crate) fn resolved_kind(self, kind: CompoundKind) -> ResolvedKind
        ensures { (h : ℕ) → result ≡ resolved_kind_of (context_at self h) kind }
    {
        match self {
            Context::Unmarked(_) => match kind {
                CompoundKind::List => ResolvedKind::List,
                CompoundKind::Map => ResolvedKind::Map,
                CompoundKind::Variant(index) => ResolvedKind::Variant(index),
                CompoundKind::NewtypeVariant(index) => ResolvedKind::NewtypeVariant(index),
                CompoundKind::Single => ResolvedKind::Single,
            },
            context => match kind {
                CompoundKind::List => context.marked_list_kind(),
                CompoundKind::Single => ResolvedKind::Single,
                _ => ResolvedKind::Refused,
            },
        }
    }

    /// Returns the position of the first part of a compound of this kind, with the pending marker.
    #[inline(always)]
    pub(crate) fn inner_context(self, resolved_kind: ResolvedKind) -> Context
        ensures { (h : ℕ) → context_at result h
            ≡ inner_context_of resolved_kind (context_at self h) }
    {
        match resolved_kind {
            ResolvedKind::Array => Context::Unmarked(Position::FirstElement),
            ResolvedKind::Transparent => Context::Unmarked(Position::Root),
            ResolvedKind::Single => self,
            _ => Context::Unmarked(Position::InCompound),
        }
    }

    /// Returns what a list is encoded as under this marker.
    #[inline(always)]
    fn marked_list_kind(self) -> ResolvedKind
        ensures { (h : ℕ) → result ≡ resolved_kind_of (context_at self h) CompoundKind.List }
    {
        match self {
            Context::Unmarked(_) => ResolvedKind::List,
            Context::Array(_) => ResolvedKind::Array,
            Context::Transparent(_) => ResolvedKind::Transparent,
            _ => ResolvedKind::Refused,
        }
    }

    /// Adds a marker.
    #[inline(always)]
    pub(crate) fn with_marker(self, marker: Marker) -> Context
        ensures meant { (h : ℕ) (t : Option Tree) →
            meant (context_at result h) t ≡ meant (context_at self h) (with_marker marker t) }
        ensures position { (h : ℕ) →
            position_of (context_at result h) ≡ position_of (context_at self h) }
    {
        match marker {
            Marker::Other => self,
            Marker::Array => self.with_array_marker(),
            Marker::Symbol => self.with_scalar_marker(ScalarMarker::Symbol),
            Marker::Timestamp => self.with_scalar_marker(ScalarMarker::Timestamp),
            Marker::Decimal32 => self.with_scalar_marker(ScalarMarker::Decimal32),
            Marker::Decimal64 => self.with_scalar_marker(ScalarMarker::Decimal64),
            Marker::Decimal128 => self.with_scalar_marker(ScalarMarker::Decimal128),
            Marker::Uuid => self.with_scalar_marker(ScalarMarker::Uuid),
            Marker::Transparent => self.with_transparent_marker(),
            Marker::Lazy => self.with_scalar_marker(ScalarMarker::Lazy),
        }
    }

    #[inline(always)]
    fn with_array_marker(self) -> Context
        ensures meant { (h : ℕ) (t : Option Tree) →
            meant (context_at result h) t ≡ meant (context_at self h) (with_marker Marker.Array t) }
        ensures position { (h : ℕ) →
            position_of (context_at result h) ≡ position_of (context_at self h) }
    {
        match self {
            Context::Unmarked(position) => Context::Array(position),
            context => Context::Nothing(context.position()),
        }
    }

    #[inline(always)]
    fn with_transparent_marker(self) -> Context
        ensures meant { (h : ℕ) (t : Option Tree) →
            meant (context_at result h) t
            ≡ meant (context_at self h) (with_marker Marker.Transparent t) }
        ensures position { (h : ℕ) →
            position_of (context_at result h) ≡ position_of (context_at self h) }
    {
        match self {
            Context::Unmarked(position) => Context::Transparent(position),
            context => Context::Nothing(context.position()),
        }
    }

    #[inline(always)]
    fn with_scalar_marker(self, marker: ScalarMarker) -> Context
        ensures meant { (h : ℕ) (t : Option Tree) →
            meant (context_at result h) t
            ≡ meant (context_at self h) (with_marker (the_marker marker) t) }
        ensures position { (h : ℕ) →
            position_of (context_at result h) ≡ position_of (context_at self h) }
    {
        match self {
            Context::Unmarked(position) => Context::Scalar(position, marker),
            context => Context::Nothing(context.position()),
        }
    }
}
