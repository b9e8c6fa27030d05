//! A user-defined serializer: its result for a tree is the number of nodes.
//!
//! For readers who implement `Serializer`: shows all required methods. The definitions of its
//! contract are in `specs/Nodes.antt`, and the proofs in `proofs/`.

ghost use Rattle.std.specs.Prelude.{◌≡◌, ◌≤◌, ◌+◌, ◌^◌, Option, None, Result, Ok, Err, MatchResult};
ghost use Rattle.std.specs.Prelude.{IfErr, IsErr, true, false};
ghost use Rattle.serde_amqp.specs.Error.TheVariants.{InvalidValue, TooLong};
ghost use Rattle.serde_amqp.specs.Tree.{Tree};
ghost use Rattle.examples.specs.Nodes.{CountsNodes, fresh};

use serde_amqp::Error;
use serde_amqp::ser::{CompoundKind, Fixed, Marker, Pending, Serialize, Serializer};
use std::mem;

/// A serializer that counts the nodes of a tree.
///
/// The fields describe what precedes the next tree. They are reset after each tree, also if the
/// result is an error.
#[derive(Clone, Copy)]
pub struct NodeCounter {
    /// The number of descriptors before the next tree. Each adds one node.
    descriptors: u64,
    /// The marker of the next tree, or the position of a descriptor.
    pending: Pending,
}

/// A compound that is being counted.
#[derive(Drop)]
pub struct Counting {
    /// The number of nodes that the compound adds to those of its parts.
    own: u64,
    /// Whether a compound of this kind is allowed where it was opened.
    fits: bool,
    /// The state of the counter before the next part.
    next: NodeCounter,
    /// The number of nodes so far, including the descriptors before the compound.
    count: u64,
    /// The value of `count` before the last part.
    before_last: u64,
}

/// Returns the sum of two counts.
///
/// # Errors
/// Returns `Error::TooLong` if the sum is 2^64 or more.
fn add(a: u64, b: u64) -> Result<u64, Error>
    ensures { MatchResult result (λ n. n ≡ a + b) (λ e. (e ≡ TooLong) × (2 ^ 64 ≤ a + b)) }
{
    a.checked_add(b).ok_or(Error::TooLong)
}

impl NodeCounter {
    /// Returns a counter for a top-level tree.
    pub fn new() -> NodeCounter
        ensures { result ≡ fresh }
    {
        NodeCounter {
            descriptors: 0,
            pending: Pending::Marker(Marker::Other),
        }
    }

    /// Returns the state before this tree and resets the counter.
    fn take(&mut self) -> NodeCounter
        ensures taken { result ≡ self.old }
        ensures fresh { self.new ≡ fresh }
    {
        mem::replace(self, NodeCounter::new())
    }

    /// Counts one node and the descriptors before it. Resets the counter.
    ///
    /// # Errors
    /// Returns `Error::InvalidValue` if `fits` is false: the tree is not allowed here. Returns
    /// `Error::TooLong` if the count is 2^64 or more.
    fn count_one(&mut self, fits: bool) -> Result<u64, Error>
        ensures fresh { self.new ≡ fresh }
        ensures counts { fits ≡ true → MatchResult result (λ n. n ≡ self.old.descriptors + 1)
            (λ e. (e ≡ TooLong) × (2 ^ 64 ≤ self.old.descriptors + 1)) }
        ensures refuses { fits ≡ false → result ≡ Err InvalidValue }
    {
        let descriptors = self.take().descriptors;
        if fits {
            add(descriptors, 1)
        } else {
            Err(Error::InvalidValue)
        }
    }
}

impl Serializer for NodeCounter {
    ghost use Rattle.serde_amqp.specs.CompoundKind.{CompoundKind};
    ghost use Rattle.serde_amqp.specs.Ends.{EndsPart, EndsDescriptor};
    ghost use Rattle.serde_amqp.specs.Composites.{descriptor_of};
    ghost use Rattle.examples.specs.Nodes.{Awaits, AwaitsDescriptor, Has, Permits};
    ghost use Rattle.examples.specs.Nodes.{no_count_on_none};

    type Ok = u64;

    type Error = Error;

    type Open = Counting;

    ghost permits = { Permits };

    ghost has = { Has };

    ghost awaits = { Awaits };

    ghost awaits_descriptor = { AwaitsDescriptor };

    ghost is_misuse_error = { λ e. e ≡ InvalidValue };

    ghost refuses_none = { no_count_on_none };

    fn serialize_fixed(&mut self, fixed: Fixed) -> Result<u64, Error> {
        self.count_one(self.pending.takes_fixed(fixed))
    }

    fn serialize_null(&mut self) -> Result<u64, Error> {
        self.serialize_fixed(Fixed::Null)
    }

    fn serialize_str(&mut self, _v: &str) -> Result<u64, Error> {
        self.count_one(self.pending.takes_str())
    }

    fn serialize_bytes(&mut self, v: &[u8]) -> Result<u64, Error> {
        self.count_one(self.pending.takes_bytes(v))
    }

    /// Applies a marker to the next tree.
    ///
    /// The marked tree has as many nodes as the tree itself, but some trees are invalid under the
    /// marker.
    fn set_marker(&mut self, marker: Marker) {
        self.pending = self.pending.with_marker(marker);
    }

    /// Opens a compound.
    ///
    /// The descriptors and the marker before a compound of kind `Single` apply to its one part.
    fn begin_compound(&mut self, kind: CompoundKind) -> Counting {
        let start = self.take();
        let (own, next, count) = match kind {
            CompoundKind::Single => (0, start, 0),
            CompoundKind::Variant(_) => (2, *self, start.descriptors),
            _ => (1, *self, start.descriptors),
        };
        Counting {
            own,
            fits: start.pending.takes(kind),
            next,
            count,
            before_last: 0,
        }
    }

    fn placeholder(&self) -> Counting {
        Counting {
            own: 0,
            fits: false,
            next: *self,
            count: 0,
            before_last: 0,
        }
    }

    fn begin_part(&mut self, compound: &mut Counting) {
        *self = compound.next;
    }

    fn end_part(&mut self, compound: &mut Counting, part: Result<u64, Error>) -> Result<(), Error>
        ensures step { EndsPart Permits Has Awaits
            self.old compound.old part result self.new compound.new }
        ensures refused { IfErr part (λ _. IsErr result) }
    {
        let nodes = part?;
        let count = add(compound.count, nodes)?;
        compound.before_last = compound.count;
        compound.count = count;
        compound.next = NodeCounter::new();
        Ok(())
    }

    fn undo_part(&mut self, compound: &mut Counting) {
        compound.count = compound.before_last;
    }

    fn misuse_error(&mut self, _compound: &mut Counting) -> Error {
        Error::InvalidValue
    }

    fn begin_descriptor(&mut self, _compound: &mut Counting) {
        self.pending = Pending::Descriptor;
    }

    fn end_descriptor(
        &mut self,
        compound: &mut Counting,
        part: Result<u64, Error>,
    ) -> Result<(), Error>
        ensures step { EndsDescriptor Permits Has AwaitsDescriptor
            self.old compound.old part result self.new compound.new }
        ensures refused { IfErr part (λ _. IsErr result) }
        ensures other_kinds { (start before : NodeCounter) (d : Option Tree) →
            AwaitsDescriptor start before compound.old → Permits before d part self.old →
            descriptor_of d ≡ None → IsErr result }
    {
        part?;
        compound.next.descriptors = add(compound.next.descriptors, 1)?;
        compound.next.pending = compound.next.pending.with_descriptor();
        Ok(())
    }

    fn end(&mut self, compound: Counting) -> Result<u64, Error> {
        if compound.fits {
            add(compound.count, compound.own)
        } else {
            Err(Error::InvalidValue)
        }
    }
}

/// Returns the number of nodes of the tree of `value`.
///
/// # Errors
/// If the value has a tree, returns `Error::TooLong` if the tree has 2^64 nodes or more, and no
/// other error. If it has none, returns `Error::InvalidValue` or `Error::TooLong`.
///
/// # Memory
/// None.
///
/// # Example
/// The list of the strings `a` and `bc` has 3 nodes.
pub fn count_nodes<T: Serialize>(value: &T) -> Result<u64, Error>
    ensures { CountsNodes (T.tree value.now) result }
{
    value.serialize(&mut NodeCounter::new())
}
