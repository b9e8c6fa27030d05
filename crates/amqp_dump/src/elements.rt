//! The elements of arrays.

ghost use Rattle.std.specs.Prelude.{◌≡◌, ◌+◌, ◌≤◌, IfSome};
ghost use Rattle.amqp_dump.specs.Kept.{Stays};

use crate::fault::Fault;
use crate::item::ItemKind;
use crate::level::Level;
use crate::scanner::{MAX_DEPTH, Scanner};
use crate::source::Taking;

// The most elements without bytes of an array that are items of their own.
const MAX_SHOWN: u32 = 7;

// The most elements without bytes that are items of their own, beside one for each byte.
const ALWAYS_SHOWN: u64 = 4096;

const EMPTY_LIST: u8 = 0x45;

impl Scanner {
    // Takes an element of an array.
    pub(crate) fn take_element<S: Taking>(
        &mut self,
        source: &mut S,
        level: Level,
    ) -> Result<ItemKind, Fault>
        ensures kept { Stays (S.held source.old) (S.left source.old) (S.held source.new)
            (S.left source.new) }
    {
        if level.code / 16 == 4 && level.index == 0 {
            match shown_with(self.shown, level.count, source.at()) {
                Some(shown) => self.shown = shown,
                None => return self.repeat(level),
            }
        }
        self.advance();
        self.take_payload(source, level.code)
    }

    // Leaves the elements of an array, which have no bytes, at once.
    fn repeat(&mut self, level: Level) -> Result<ItemKind, Fault> {
        if level.code == EMPTY_LIST && self.levels.len() >= MAX_DEPTH {
            return Err(Fault::TooDeep);
        }
        if let Some(level) = self.levels.last_mut() {
            level.index = level.count;
        }
        Ok(ItemKind::Repeats(level.count))
    }
}

// Returns how many elements without bytes are items of their own if the `count` of an array are, at
// this offset, or `None` if they are not to be: an array has at most 7, and the input at most one
// for each byte before and 4,096 more.
fn shown_with(shown: u64, count: u32, at: u64) -> Option<u64>
    ensures few { IfSome result (λ all. count ≤ 7) }
    ensures sum { IfSome result (λ all. all ≡ shown + count) }
    ensures bound { IfSome result (λ all. all ≤ at + 4096) }
{
    let all = shown.checked_add(u64::from(count))?;
    if count > MAX_SHOWN || all > at.saturating_add(ALWAYS_SHOWN) {
        return None;
    }
    Some(all)
}
