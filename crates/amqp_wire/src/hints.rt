//! The lengths and counts of compounds, which the first pass finds and the second pass takes.

ghost use Rattle.std.specs.Prelude.{◌≡◌, ◌++◌, true, length, IfSome};
ghost use Rattle.amqp_ser.specs.Encoding.{encoding};
ghost use Rattle.amqp_ser.specs.Extends.{Extends};
ghost use Rattle.amqp_ser.specs.Ranged.{IsRanged};
ghost use Rattle.amqp_ser.specs.Writable.{within_limits, uniform_arrays, inside};

use amqp_ser::{Hint, Whole};

/// The lengths and counts of compounds, in the order in which they are opened. No clause says that
/// they are those of a value: whoever takes one compares it with what was written.
///
/// The first compound that a pass opens has its hint here, whatever comes of it; a value of one
/// compound then needs no vector.
///
/// # Memory
/// 8 bytes for each further compound.
#[derive(Drop)]
pub struct Hints {
    first: Hint,
    is_opened: bool,
    is_taken: bool,
    hints: Vec<Hint>,
    taken: usize,
    /// Whether an allocation has ever failed.
    refused: bool,
}

impl Hints {
    /// Creates an empty list of hints. Of `hints` only the capacity is used.
    #[inline(always)]
    pub fn with_memory(hints: Vec<Hint>) -> Hints {
        let mut hints = hints;
        hints.clear();
        Hints {
            first: Hint { len: 0, count: 0 },
            is_opened: false,
            is_taken: false,
            hints,
            taken: 0,
            refused: false,
        }
    }

    /// Returns the memory.
    #[inline(always)]
    pub fn into_memory(self) -> Vec<Hint> {
        let Hints {
            first: _,
            is_opened: _,
            is_taken: _,
            hints,
            taken: _,
            refused: _,
        } = self;
        hints
    }

    /// Returns whether an allocation has ever failed.
    #[inline(always)]
    pub(crate) fn is_refused(&self) -> bool {
        self.refused
    }

    /// Reserves the slot of a compound and returns its number, also if an allocation fails.
    #[inline(always)]
    pub(crate) fn open(&mut self) -> usize {
        if !self.is_opened {
            self.is_opened = true;
            return 0;
        }
        let hint = Hint { len: 0, count: 0 };
        if self.hints.push(hint).is_err() {
            self.refused = true;
        }
        self.hints.len()
    }

    /// Sets the hint in a slot.
    #[inline(always)]
    pub(crate) fn close(&mut self, slot: usize, len: u32, count: u32) {
        if slot == 0 {
            self.first = Hint { len, count };
        } else if slot <= self.hints.len() {
            self.hints[slot - 1] = Hint { len, count };
        }
    }

    /// Returns the number of slots after the first.
    #[inline(always)]
    pub(crate) fn len(&self) -> usize {
        self.hints.len()
    }

    /// Removes all but `len` slots after the first.
    #[inline(always)]
    pub(crate) fn truncate(&mut self, len: usize) {
        self.hints.truncate(len);
    }

    /// Takes the next hint.
    #[inline(always)]
    pub(crate) fn next(&mut self) -> Option<Hint> {
        if !self.is_taken {
            self.is_taken = true;
            return Some(self.first);
        }
        if self.taken >= self.hints.len() {
            return None;
        }
        let hint = self.hints[self.taken];
        self.taken += 1;
        Some(hint)
    }

    /// Measures a whole value, and notes its hints.
    #[inline(always)]
    pub(crate) fn measure_whole<W: Whole>(&mut self, whole: &W) -> Option<usize>
        ensures measured { IfSome result (λ n. (within_limits (W.whole_tree whole.now) ≡ true)
            × ((uniform_arrays (W.whole_tree whole.now) ≡ true)
            × ((inside (W.whole_tree whole.now) ≡ true)
            × (n ≡ length (encoding (W.whole_tree whole.now)))))) }
        ensures ranged { IfSome result (λ _. IsRanged (W.whole_tree whole.now)) }
    {
        whole.whole_hints(&mut self.hints)
    }

    /// Appends a whole value, and takes its hints.
    #[inline(always)]
    pub(crate) fn write_whole<W: Whole>(&mut self, whole: &W, out: &mut Vec<u8>) -> bool
        ensures grown { Extends out.old.items out.new.items }
        ensures written { result ≡ true → (within_limits (W.whole_tree whole.now) ≡ true)
            × ((uniform_arrays (W.whole_tree whole.now) ≡ true)
            × ((inside (W.whole_tree whole.now) ≡ true)
            × (out.new.items ≡ out.old.items ++ encoding (W.whole_tree whole.now)))) }
    {
        whole.whole_write(self.hints.as_slice(), &mut self.taken, out)
    }

    /// Returns the number of hints that were taken after the first.
    #[inline(always)]
    pub(crate) fn taken(&self) -> usize {
        self.taken
    }

    /// Goes back to a number of hints that were taken after the first.
    #[inline(always)]
    pub(crate) fn return_to(&mut self, taken: usize) {
        self.taken = taken;
    }
}
