//! Which words of a path are matched, level by level.

ghost use Rattle.std.specs.Prelude.{◌≡◌, ◌≤◌, false, length, IfOk};
ghost use Rattle.amqp_dump.specs.Masks.{mask_after};

use crate::fault::Fault;
use std::alloc::Global;

/// The mask of the value that was begun last, and those of the values that it is in.
///
/// The mask of a value has an entry for each word: whether the steps to the value match the words
/// before it. One entry more says whether the last step matches the last word.
///
/// # Memory
///
/// A mask for each open value.
#[derive(Drop)]
pub(crate) struct Masks {
    masks: Vec<Vec<bool>>,
}

impl Masks {
    /// Creates one of no values.
    pub(crate) fn new(alloc: Global) -> Masks {
        Masks {
            masks: Vec::new(alloc),
        }
    }

    /// Returns the number of masks.
    pub(crate) fn len(&self) -> usize
        ensures { result ≡ length self.now.masks.items }
    {
        self.masks.len()
    }

    /// Returns the mask of the innermost value, or an empty one.
    pub(crate) fn last(&self) -> &[bool] {
        match self.masks.last() {
            Some(mask) => mask.as_slice(),
            None => &[],
        }
    }

    /// Adds the mask of a value in the innermost one.
    pub(crate) fn push(&mut self, mask: Vec<bool>) -> Result<(), Fault> {
        self.masks.push(mask)?;
        Ok(())
    }

    /// Forgets the masks of all values but those that a value of this depth is in.
    pub(crate) fn close(&mut self, depth: usize)
        ensures open { length self.new.masks.items ≤ depth }
    {
        self.masks.truncate(depth);
    }
}

/// Returns the mask after a step. `before` is the mask before it, and `matched` says of each word
/// whether the step matches it. If `is_descriptor` is true, the step is a descriptor: it may come
/// between two words that do not name it. If `is_start` is true, the path may begin with the step.
pub(crate) fn after(
    alloc: Global,
    before: &[bool],
    matched: &[bool],
    is_descriptor: bool,
    is_start: bool,
) -> Result<Vec<bool>, Fault>
    ensures mask { IfOk result (λ mask.
        mask.items ≡ mask_after is_descriptor is_start false matched.now before.now) }
{
    let mut mask = Vec::new(alloc);
    let (mut opens, mut matches) = (before, matched);
    let mut starts = is_start;
    let mut came = false;
    while let Some((is_match, later)) = matches.split_first() {
        let Some((is_open, others)) = opens.split_first() else {
            mask.push(came)?;
            return Ok(mask);
        };
        let is_open = starts | *is_open;
        mask.push(came | (is_open & (is_descriptor & !*is_match)))?;
        came = is_open & *is_match;
        starts = false;
        opens = others;
        matches = later;
    }
    mask.push(came)?;
    Ok(mask)
}
