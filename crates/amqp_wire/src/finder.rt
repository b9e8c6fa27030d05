//! The serializer that searches for arrays without elements.

ghost use Rattle.std.specs.Prelude.{◌≡◌, ◌||◌, List, Option, Result, Ok, Err, IfErr, IsErr, true};
ghost use Rattle.std.specs.Prelude.{false};
ghost use Rattle.amqp_ser.specs.Tree.{Tree};
ghost use Rattle.amqp_wire.specs.Finder.{fresh};

use amqp_ser::{CompoundKind, Fixed, Marker, Pending, Serializer};
use std::mem;

/// A serializer whose result is whether the tree has an array without elements.
///
/// # Memory
/// None.
#[derive(Clone, Copy)]
pub struct Finder {
    /// The requirement on the next tree. It is reset after each tree, also after an error.
    pending: Pending,
}

/// The error of a value without a tree.
#[derive(Clone, Copy, Debug)]
pub struct NoTree;

/// A compound that is being searched.
#[derive(Drop)]
pub struct Searched {
    /// Whether a compound of this kind is valid where it was opened.
    fits: bool,
    /// The state before the next part.
    next: Finder,
    /// Whether it is an array to which no element has been accepted.
    is_empty_array: bool,
    /// Whether an accepted part has an array without elements.
    found: bool,
    /// The value of `found` before the last part.
    before_last: bool,
}

/// Returns whether one of the two is true.
#[inline(always)]
fn either(a: bool, b: bool) -> bool
    ensures { result ≡ (a || b) }
{
    a || b
}

impl Finder {
    /// Creates a search in a value without a marker.
    #[inline(always)]
    pub fn new() -> Finder
        ensures { result ≡ fresh }
    {
        Finder {
            pending: Pending::Marker(Marker::Other),
        }
    }

    /// Returns the state and resets it.
    #[inline(always)]
    fn take(&mut self) -> Finder
        ensures taken { result ≡ self.old }
        ensures fresh { self.new ≡ fresh }
    {
        mem::replace(self, Finder::new())
    }

    /// Returns the result for a scalar, which is valid if `fits`, and resets the state.
    #[inline(always)]
    fn scalar(&mut self, fits: bool) -> Result<bool, NoTree>
        ensures fresh { self.new ≡ fresh }
        ensures found { fits ≡ true → result ≡ Ok false }
        ensures refused { fits ≡ false → IsErr result }
    {
        *self = Finder::new();
        if fits { Ok(false) } else { Err(NoTree) }
    }
}

impl Serializer for Finder {
    ghost use Rattle.amqp_ser.specs.declared.kind.CompoundKind.{CompoundKind};
    ghost use Rattle.amqp_ser.specs.Ends.{EndsPart, EndsDescriptor};
    ghost use Rattle.amqp_ser.specs.Composites.{descriptor_of};
    ghost use Rattle.amqp_wire.specs.Finder.{Awaits, AwaitsDescriptor, Has, Permits};
    ghost use Rattle.amqp_wire.specs.Finder.{nothing_on_none};

    type Ok = bool;

    type Error = NoTree;

    type Open = Searched;

    ghost permits = { Permits };

    ghost has = { Has };

    ghost awaits = { Awaits };

    ghost awaits_descriptor = { AwaitsDescriptor };

    ghost is_misuse_error = { λ e. Unit {0} };

    ghost refuses_none = { nothing_on_none };

    fn serialize_fixed(&mut self, fixed: Fixed) -> Result<bool, NoTree> {
        self.scalar(self.pending.takes_fixed(fixed))
    }

    fn serialize_null(&mut self) -> Result<bool, NoTree> {
        self.serialize_fixed(Fixed::Null)
    }

    fn serialize_str(&mut self, _v: &str) -> Result<bool, NoTree> {
        self.scalar(self.pending.takes_str())
    }

    fn serialize_bytes(&mut self, v: &[u8]) -> Result<bool, NoTree> {
        self.scalar(self.pending.takes_bytes(v))
    }

    fn set_marker(&mut self, marker: Marker) {
        self.pending = self.pending.with_marker(marker);
    }

    /// Opens a compound. The requirement on a compound of kind `Single` applies to its one part.
    fn begin_compound(&mut self, kind: CompoundKind) -> Searched {
        let start = self.take();
        let next = match kind {
            CompoundKind::Single => start,
            _ => *self,
        };
        Searched {
            fits: start.pending.takes(kind),
            next,
            is_empty_array: matches!(
                (kind, start.pending),
                (CompoundKind::List, Pending::Marker(Marker::Array))
            ),
            found: false,
            before_last: false,
        }
    }

    fn placeholder(&self) -> Searched {
        Searched {
            fits: false,
            next: *self,
            is_empty_array: false,
            found: false,
            before_last: false,
        }
    }

    fn begin_part(&mut self, compound: &mut Searched) {
        *self = compound.next;
    }

    fn end_part(
        &mut self,
        compound: &mut Searched,
        part: Result<bool, NoTree>,
    ) -> Result<(), NoTree>
        ensures step { EndsPart Permits Has Awaits
            self.old compound.old part result self.new compound.new }
        ensures refused { IfErr part (λ _. IsErr result) }
    {
        match part {
            Ok(found) => {
                compound.before_last = compound.found;
                compound.found = either(compound.found, found);
                compound.is_empty_array = false;
                compound.next = Finder::new();
                Ok(())
            }
            Err(error) => Err(error),
        }
    }

    fn undo_part(&mut self, compound: &mut Searched) {
        compound.found = compound.before_last;
    }

    fn misuse_error(&mut self, _compound: &mut Searched) -> NoTree {
        NoTree
    }

    fn begin_descriptor(&mut self, _compound: &mut Searched) {
        self.pending = Pending::Descriptor;
    }

    fn end_descriptor(
        &mut self,
        compound: &mut Searched,
        part: Result<bool, NoTree>,
    ) -> Result<(), NoTree>
        ensures step { EndsDescriptor Permits Has AwaitsDescriptor
            self.old compound.old part result self.new compound.new }
        ensures refused { IfErr part (λ _. IsErr result) }
        ensures other_kinds { (start before : Finder) (d : Option Tree) →
            AwaitsDescriptor start before compound.old → Permits before d part self.old →
            descriptor_of d ≡ None → IsErr result }
    {
        match part {
            Ok(_) => {
                compound.next.pending = compound.next.pending.with_descriptor();
                Ok(())
            }
            Err(error) => Err(error),
        }
    }

    fn end(&mut self, compound: Searched) -> Result<bool, NoTree> {
        if compound.fits {
            Ok(either(compound.found, compound.is_empty_array))
        } else {
            Err(NoTree)
        }
    }
}
