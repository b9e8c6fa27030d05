//! Marks of what a decoder accepts and the standard does not have.

use crate::describe::is_in_array;
use crate::fault::Fault;
use crate::item::{Item, ItemKind};
use crate::level::{Level, LevelKind};
use crate::names;
use crate::texts::value_of;
use amqp_value::ValueKind;
use std::alloc::Global;

// The most keys of a map, and the most bytes of a key, that are kept to find repeated ones.
const MAX_KEYS: usize = 64;

const MAX_KEY: usize = 64;

/// What is remembered to find marks.
///
/// # Memory
///
/// At most 64 keys of at most 64 bytes for each open map.
#[derive(Drop)]
pub(crate) struct Marks {
    alloc: Global,
    maps: Vec<Vec<String>>,
    // The descriptor of the section before, or 0.
    section: u64,
    found: Vec<&'static str>,
}

impl Marks {
    /// Creates one at the start of an input.
    pub(crate) fn new(alloc: Global) -> Marks {
        Marks {
            alloc,
            maps: Vec::new(alloc),
            section: 0,
            found: Vec::new(alloc),
        }
    }

    /// Returns the marks of the item that was added last.
    pub(crate) fn found(&self) -> &[&'static str] {
        self.found.as_slice()
    }

    /// Forgets the values that are open, after a fault.
    pub(crate) fn reset(&mut self) {
        self.maps.clear();
        self.section = 0;
        self.found.clear();
    }

    /// Finds the marks of an item. `levels` are those that are open after it.
    pub(crate) fn add(&mut self, item: Item, levels: &[Level], bytes: &[u8]) -> Result<(), Fault> {
        self.found.clear();
        let (outer, _) = levels.split_at(item.depth.min(levels.len()));
        if item.kind.begins_value() {
            self.add_field(outer)?;
        }
        match item.kind {
            ItemKind::Frame(_, _) => self.section = 0,
            ItemKind::Described(code) => self.add_section(code, outer)?,
            ItemKind::Reserved => self.found.push("descriptor neither ulong nor symbol")?,
            ItemKind::Constructor => self.found.push("described constructor")?,
            ItemKind::Opens(kind, _, size) => self.add_opening(kind, size, levels)?,
            ItemKind::Closes(LevelKind::Compound(ValueKind::Map)) => {
                let _ = self.maps.pop();
            }
            ItemKind::Scalar(kind, code) => self.add_key(kind, code, outer, bytes)?,
            _ => {}
        }
        Ok(())
    }

    // Marks the first field past the last one of its type.
    fn add_field(&mut self, outer: &[Level]) -> Result<(), Fault> {
        let Some(level) = outer.last() else {
            return Ok(());
        };
        let Some(found) = level.descriptor.and_then(names::type_of) else {
            return Ok(());
        };
        let is_list = level.kind == LevelKind::Compound(ValueKind::List) && found.has_fields();
        if is_list && level.index as usize > found.fields.len() {
            self.found.push("past the last field")?;
        }
        Ok(())
    }

    // Marks a section out of order.
    fn add_section(&mut self, code: Option<u64>, outer: &[Level]) -> Result<(), Fault> {
        let in_frame = match outer {
            [] => false,
            [level] => level.kind == LevelKind::Frame,
            _ => return Ok(()),
        };
        let code = code.unwrap_or(0);
        if !(0x70..=0x78).contains(&code) {
            self.section = 0;
            return Ok(());
        }
        let before = self.section;
        self.section = code;
        if !in_frame && before >= 0x75 && code < 0x75 {
            return Ok(());
        }
        let is_body = (0x75..=0x77).contains(&code) && (0x75..=0x77).contains(&before);
        if before == code && code != 0x75 && code != 0x76 {
            self.found.push("section repeated")?;
        } else if before > code || (is_body && before != code) {
            self.found.push("section out of order")?;
        }
        Ok(())
    }

    fn add_opening(&mut self, kind: ValueKind, size: u32, levels: &[Level]) -> Result<(), Fault> {
        if kind == ValueKind::Map {
            self.maps.push(Vec::new(self.alloc))?;
        }
        if kind == ValueKind::Array && size == 0 {
            self.found.push("array without a constructor")?;
        }
        let is_described = levels
            .last()
            .is_some_and(|level| level.kind == LevelKind::Constructor);
        if is_described {
            self.found.push("described constructor")?;
        }
        Ok(())
    }

    // Marks a key that came before in its map.
    fn add_key(
        &mut self,
        kind: ValueKind,
        code: u8,
        outer: &[Level],
        bytes: &[u8],
    ) -> Result<(), Fault> {
        let is_key = outer.last().is_some_and(|level| {
            level.kind == LevelKind::Compound(ValueKind::Map) && level.index % 2 == 1
        });
        if !is_key || bytes.len() > MAX_KEY {
            return Ok(());
        }
        let value = value_of(self.alloc, bytes, code, is_in_array(outer))?;
        let name = kind.name();
        let key = format!(in self.alloc; "{name} {value}")?;
        let Some(keys) = self.maps.last_mut() else {
            return Ok(());
        };
        if keys.iter().any(|other| other.as_str() == key.as_str()) {
            self.found.push("key repeated")?;
        } else if keys.len() < MAX_KEYS {
            keys.push(key)?;
        }
        Ok(())
    }
}
