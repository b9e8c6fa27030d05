//! The first fault of bytes that are no encoded value.

ghost use Rattle.std.specs.Prelude.{◌≡◌, min, IfErr, OnErr, OnOk};
ghost use Rattle.amqp_ser.specs.Tree.{Tree};
ghost use Rattle.amqp_decode.specs.Encodes.{Encodes};
ghost use Rattle.amqp_decode.specs.Places.{place_of};

use crate::cursor::{Cursor, Step, next, root};
use crate::node::Node;
use amqp_decode::fault_place_to_depth;
use amqp_writer::Fault;

/// The first fault of bytes that are no encoded value.
#[derive(Clone, Copy, Debug, PartialEq, Eq)]
pub struct FaultAt {
    /// Its offset, which `fault_place` of `amqp_decode` describes.
    pub at: usize,
    /// What it is.
    pub fault: Fault,
}

/// Checks that the bytes are exactly one encoded value with at most `depth` levels, and at most
/// 256.
///
/// # Errors
/// Returns the first fault. No clause says which of the kinds of faults it is.
///
/// # Memory
/// Allocates nothing.
///
/// # Example
/// With a depth of 256, `c0020140` has no fault, and `c002014f` has `Code` at offset 3.
pub fn check(data: &[u8], depth: u16) -> Result<(), FaultAt>
    ensures ok { OnOk result ((t : Tree) × Encodes (min depth 256) «data».now t) }
    ensures err { OnErr result ((t : Tree) → ¬ Encodes (min depth 256) «data».now t) }
    ensures place { IfErr result (λ p. p.at ≡ (place_of (min depth 256) «data».now).0) }
{
    let depth = depth.min(256);
    match fault_place_to_depth(data, depth) {
        None => Ok(()),
        Some(place) => Err(FaultAt {
            at: place.offset,
            fault: match walk(data, root(data.len(), 1), depth) {
                Ok(()) => Fault::Value,
                Err(fault) => fault,
            },
        }),
    }
}

// Moves over all values of a cursor, and those inside them, to the first fault.
fn walk(data: &[u8], start: Cursor, depth: u16) -> Result<(), Fault> {
    let mut cursor = start;
    let mut level = depth;
    let mut node = Node::default();
    for _ in 0..u64::MAX {
        match next(data, &mut cursor, &mut node) {
            Step::End => return Ok(()),
            Step::Found => {
                if level == 0 {
                    return Err(Fault::Depth);
                }
                if node.is_descriptor() {
                    level -= 1;
                } else {
                    if node.has_values() {
                        walk(data, node.inside(), level - 1)?;
                    }
                    level = depth;
                }
            }
            Step::Refused(fault) => return Err(fault),
        }
    }
    Ok(())
}
