//! What precedes the next tree: its marker, or that it is a descriptor.

ghost use Rattle.std.specs.Prelude.{◌≡◌, ℕ, List, Option, Some, is_some};
ghost use Rattle.amqp_ser.specs.Composites.{as_described};
ghost use Rattle.amqp_ser.specs.Fixed.{fixed_scalar};
ghost use Rattle.amqp_ser.specs.Marked.{with_marker};
ghost use Rattle.amqp_ser.specs.Tree.{Descriptor, Tree, scalar, string, binary};
ghost use Rattle.amqp_ser.specs.Meant.{fits, meant};

use crate::fixed::Fixed;
use crate::kind::CompoundKind;
use crate::marker::Marker;
use amqp_frame::is_encoded_value;

/// What a serializer keeps of the calls before the next tree: the requirement on this tree.
///
/// # Example
/// `Marker(Symbol)` of the string `a` is the symbol `a`; of a number there is no tree.
#[derive(Clone, Copy)]
pub enum Pending {
    /// The tree is valid under this marker. `Marker::Other` is no marker.
    Marker(Marker),
    /// The tree is a descriptor: a ulong or a symbol.
    Descriptor,
    /// No tree is valid.
    Nothing,
}

impl Pending {
    /// Adds a marker inside this requirement: the result requires of a tree what `self` requires of
    /// the marked tree.
    #[inline(always)]
    pub fn with_marker(self, marker: Marker) -> Pending
        ensures { (t : Option Tree) → meant result t ≡ meant self (with_marker marker t) }
    {
        match (self, marker) {
            (pending, Marker::Other) => pending,
            (Pending::Marker(Marker::Other), marker) => Pending::Marker(marker),
            (Pending::Descriptor, Marker::Symbol) => Pending::Marker(Marker::Symbol),
            (_, _) => Pending::Nothing,
        }
    }

    /// Adds a descriptor inside this requirement: a described value is valid only without a marker,
    /// and is no descriptor.
    #[inline(always)]
    pub fn with_descriptor(self) -> Pending
        ensures { (d : Descriptor) (t : Option Tree) →
            as_described (Some d) (meant result t) ≡ meant self (as_described (Some d) t) }
    {
        match self {
            Pending::Marker(Marker::Other) => self,
            _ => Pending::Nothing,
        }
    }

    /// Returns whether null or this scalar is valid.
    #[inline(always)]
    pub fn takes_fixed(self, fixed: Fixed) -> bool
        ensures { result ≡ is_some (meant self (Some (scalar (fixed_scalar fixed)))) }
    {
        match (self, fixed) {
            (Pending::Marker(Marker::Other), _)
            | (Pending::Marker(Marker::Timestamp), Fixed::Long(_))
            | (Pending::Descriptor, Fixed::Ulong(_)) => true,
            _ => false,
        }
    }

    /// Returns whether a string is valid.
    #[inline(always)]
    pub fn takes_str(self) -> bool
        ensures { (bs : List ℕ) → result ≡ is_some (meant self (Some (scalar (string bs)))) }
    {
        matches!(self, Pending::Marker(Marker::Other | Marker::Symbol))
    }

    /// Returns whether this binary is valid.
    #[inline(always)]
    pub fn takes_bytes(self, bytes: &[u8]) -> bool
        ensures { result ≡ is_some (meant self (Some (scalar (binary bytes.now)))) }
    {
        match self {
            Pending::Marker(Marker::Other) => true,
            Pending::Marker(Marker::Decimal32) => bytes.len() == 4,
            Pending::Marker(Marker::Decimal64) => bytes.len() == 8,
            Pending::Marker(Marker::Decimal128 | Marker::Uuid) => bytes.len() == 16,
            Pending::Marker(Marker::Lazy) => is_encoded_value(bytes),
            _ => false,
        }
    }

    /// Returns whether a compound of this kind is valid. A single one always is: the requirement
    /// applies to its one value.
    #[inline(always)]
    pub fn takes(self, kind: CompoundKind) -> bool
        ensures { result ≡ fits kind self }
    {
        match (kind, self) {
            (CompoundKind::Single, _)
            | (_, Pending::Marker(Marker::Other))
            | (CompoundKind::List, Pending::Marker(Marker::Array | Marker::Transparent)) => true,
            _ => false,
        }
    }
}
