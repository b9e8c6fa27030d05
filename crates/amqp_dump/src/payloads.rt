//! Binaries, texts, and the checks of payloads.

ghost use Rattle.amqp_dump.specs.Kept.{Stays};

use crate::fault::Fault;
use crate::item::ItemKind;
use crate::scanner::{Long, Scanner};
use crate::source::{Taking, take_bytes};
use crate::texts::{bad_payload, missing_bytes};
use amqp_value::ValueKind;

// The most bytes of a long payload that are in one item after its first.
const PIECE: usize = 4096;

// Takes a part of a payload of which `after` bytes come later.
fn take_part<S: Taking>(source: &mut S, len: u32, after: u32) -> Result<(), Fault>
    ensures kept { Stays (S.held source.old) (S.left source.old) (S.held source.new)
        (S.left source.new) }
{
    match take_bytes(source, len as usize) {
        Err(Fault::EndOfInput(missing)) => {
            Err(Fault::EndOfInput(missing.saturating_add(u64::from(after))))
        }
        result => result,
    }
}

impl Scanner {
    // Takes a binary or a text.
    pub(crate) fn take_sized<S: Taking>(
        &mut self,
        source: &mut S,
        kind: ValueKind,
        code: u8,
        wide: bool,
    ) -> Result<ItemKind, Fault>
        ensures kept { Stays (S.held source.old) (S.left source.old) (S.held source.new)
            (S.left source.new) }
    {
        let size = self.take_number(source, wide)?;
        self.need(source, u64::from(size))?;
        let from = source.item_bytes().len();
        if size as usize <= self.piece {
            take_bytes(source, size as usize)?;
            self.check(source, kind, code, from)?;
            return Ok(ItemKind::Scalar(kind, code));
        }
        let long = Long { kind, left: size };
        self.take_piece(source, long, self.piece)?;
        Ok(ItemKind::Long(kind, size))
    }

    // Takes more of a binary or a text.
    pub(crate) fn take_more<S: Taking>(
        &mut self,
        source: &mut S,
        long: Long,
    ) -> Result<ItemKind, Fault>
        ensures kept { Stays (S.held source.old) (S.left source.old) (S.held source.new)
            (S.left source.new) }
    {
        self.take_piece(source, long, PIECE)?;
        Ok(ItemKind::More(long.kind, self.long.is_none()))
    }

    // Takes about `most` bytes of a binary or a text: whole characters.
    pub(crate) fn take_piece<S: Taking>(
        &mut self,
        source: &mut S,
        long: Long,
        most: usize,
    ) -> Result<(), Fault>
        ensures kept { Stays (S.held source.old) (S.left source.old) (S.held source.new)
            (S.left source.new) }
    {
        let from = source.item_bytes().len();
        let len = if most < long.left as usize {
            most as u32
        } else {
            long.left
        };
        let mut left = long.left.saturating_sub(len);
        take_part(source, len, left)?;
        if matches!(long.kind, ValueKind::String | ValueKind::Symbol) {
            let missing = missing_bytes(source.item_bytes()).min(left);
            take_part(source, missing, left.saturating_sub(missing))?;
            left = left.saturating_sub(missing);
            self.check(source, long.kind, 0xa1, from)?;
        }
        self.long = if left == 0 {
            None
        } else {
            Some(Long {
                kind: long.kind,
                left,
            })
        };
        Ok(())
    }

    // Checks the payload that begins at this place of the item.
    pub(crate) fn check<S: Taking>(
        &mut self,
        source: &S,
        kind: ValueKind,
        code: u8,
        from: usize,
    ) -> Result<(), Fault> {
        let (_, payload) = source
            .item_bytes()
            .split_at(from.min(source.item_bytes().len()));
        match bad_payload(kind, code, payload) {
            None => Ok(()),
            Some(at) => {
                self.bad = from.saturating_add(at);
                Err(Fault::Payload(kind))
            }
        }
    }
}
