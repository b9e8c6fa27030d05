//! The headers of lists, maps, arrays and described values.

ghost use Rattle.amqp_dump.specs.Kept.{Stays};

use crate::fault::Fault;
use crate::item::ItemKind;
use crate::kinds::kind_of_code;
use crate::level::{Level, LevelKind};
use crate::scanner::Scanner;
use crate::source::{Taking, take_byte};
use amqp_value::ValueKind;

impl Scanner {
    // The level of a compound with this many values that ends at this offset.
    pub(crate) fn compound(&self, kind: ValueKind, count: u32, end: u64) -> Level {
        let descriptor = match self.levels.last() {
            Some(level) if level.kind == LevelKind::Described && level.index == 2 => {
                level.descriptor
            }
            _ => None,
        };
        Level {
            kind: LevelKind::Compound(kind),
            index: 0,
            count,
            end,
            code: 0,
            descriptor: if kind == ValueKind::List {
                descriptor
            } else {
                None
            },
        }
    }

    // Takes the size and the count of a compound, and returns them and the offset of its end.
    pub(crate) fn take_header<S: Taking>(
        &self,
        source: &mut S,
        wide: bool,
    ) -> Result<(u32, u32, u64), Fault>
        ensures kept { Stays (S.held source.old) (S.left source.old) (S.held source.new)
            (S.left source.new) }
    {
        let size = self.take_number(source, wide)?;
        self.need(source, u64::from(size))?;
        let end = source.at().saturating_add(u64::from(size));
        let width = if wide { 4 } else { 1 };
        if size < width {
            return Err(Fault::SmallSize);
        }
        let count = self.take_number(source, wide)?;
        Ok((size.saturating_sub(width), count, end))
    }

    // Takes the header of a list or a map.
    pub(crate) fn open_compound<S: Taking>(
        &mut self,
        source: &mut S,
        kind: ValueKind,
        wide: bool,
    ) -> Result<ItemKind, Fault>
        ensures kept { Stays (S.held source.old) (S.left source.old) (S.held source.new)
            (S.left source.new) }
    {
        let (size, count, end) = self.take_header(source, wide)?;
        if kind == ValueKind::Map && count % 2 == 1 {
            return Err(Fault::OddCount);
        }
        let level = self.compound(kind, count, end);
        self.push(level)?;
        Ok(ItemKind::Opens(kind, count, size))
    }

    // Takes the header of an array.
    pub(crate) fn open_array<S: Taking>(
        &mut self,
        source: &mut S,
        wide: bool,
    ) -> Result<ItemKind, Fault>
        ensures kept { Stays (S.held source.old) (S.left source.old) (S.held source.new)
            (S.left source.new) }
    {
        let (size, count, end) = self.take_header(source, wide)?;
        let level = self.compound(ValueKind::Array, count, end);
        self.push(level)?;
        if count > 0 || size > 0 {
            self.take_constructor(source)?;
        }
        Ok(ItemKind::Opens(ValueKind::Array, count, size))
    }

    // Takes the constructor of the innermost array, or the 00 before its descriptor.
    pub(crate) fn take_constructor<S: Taking>(&mut self, source: &mut S) -> Result<ItemKind, Fault>
        ensures kept { Stays (S.held source.old) (S.left source.old) (S.held source.new)
            (S.left source.new) }
    {
        self.need(source, 1)?;
        let code = take_byte(source)?;
        if code != 0 && kind_of_code(code).is_none() {
            return Err(Fault::FormatCode);
        }
        if let Some(level) = self.levels.last_mut() {
            level.code = code;
            level.kind = if code == 0 {
                LevelKind::Constructor
            } else {
                LevelKind::Compound(ValueKind::Array)
            };
        }
        Ok(ItemKind::Constructor)
    }

    // Takes the descriptor of a described value, if it is a ulong or a short symbol.
    pub(crate) fn open_described<S: Taking>(&mut self, source: &mut S) -> Result<ItemKind, Fault>
        ensures kept { Stays (S.held source.old) (S.left source.old) (S.held source.new)
            (S.left source.new) }
    {
        let level = Level {
            kind: LevelKind::Described,
            index: 0,
            count: 2,
            end: self.end(),
            code: 0,
            descriptor: None,
        };
        self.push(level)?;
        self.need(source, 1)?;
        match source.peek()? {
            Some(0x44 | 0x53 | 0x80 | 0xa3) => {
                let code = take_byte(source)?;
                self.advance();
                let piece = self.piece;
                self.piece = piece.max(255);
                let item_bytes = self.take_payload(source, code);
                self.piece = piece;
                let _ = item_bytes?;
                Ok(ItemKind::Described(self.name_descriptor(source)))
            }
            Some(_) => Ok(ItemKind::Reserved),
            None => Err(Fault::EndOfInput(1)),
        }
    }
}
