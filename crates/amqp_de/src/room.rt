//! How much memory is reserved for values before they are read.

ghost use Rattle.std.specs.Prelude.{◌≡◌, [], ◌∷◌, ◌++◌, IfOk, OnOk};

use std::alloc::{AllocError, Global};
use std::mem::size_of_val;

/// The maximum number of values for which room is reserved.
pub(crate) const MAX_RESERVED_VALUES: usize = 256;

/// The maximum number of values of this size for which room is reserved.
#[inline(always)]
pub(crate) fn max_reserved(size: usize) -> usize {
    match size {
        0..=16 => MAX_RESERVED_VALUES,
        17..=32 => 128,
        33..=64 => 64,
        65..=128 => 32,
        129..=256 => 16,
        257..=512 => 8,
        _ => 4,
    }
}

/// The maximum number of entries for which room is reserved.
pub(crate) const MAX_RESERVED_ENTRIES: usize = 64;

/// Returns a vector of the first of `room` values, with memory for all of them, but for no more
/// than `max_reserved`.
#[inline(always)]
pub(crate) fn first_item<T: Drop>(
    alloc: Global,
    first: T,
    room: usize,
) -> Result<Vec<T>, AllocError>
    ensures { IfOk result (λ v. v.items ≡ first ∷ []) }
{
    let mut items = Vec::new(alloc);
    let most = max_reserved(size_of_val(&first));
    items.reserve_exact(room.min(most))?;
    match items.push(first) {
        Ok(()) => Ok(items),
        Err(_) => Err(AllocError),
    }
}

/// Appends a value. Before the first one, reserves memory for `room` values, but for no more than
/// `max_reserved`.
#[inline(always)]
pub(crate) fn push_item<T: Drop>(items: &mut Vec<T>, item: T, room: usize) -> Result<(), AllocError>
    ensures { OnOk result (items.new.items ≡ items.old.items ++ item ∷ []) }
{
    if items.is_empty() {
        let most = max_reserved(size_of_val(&item));
        items.reserve_exact(room.min(most))?;
    }
    match items.push(item) {
        Ok(()) => Ok(()),
        Err(_) => Err(AllocError),
    }
}
