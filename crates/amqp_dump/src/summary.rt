//! Counts of what an input holds.

use crate::describe::element_kind;
use crate::fault::Fault;
use crate::item::{Item, ItemKind};
use crate::level::Level;
use crate::names;
use crate::scanner::MAX_DEPTH;
use amqp_value::ValueKind;
use std::alloc::Global;

// The numeric descriptors that are counted one by one.
const TYPES: usize = 256;

// The classes of sizes: the least size of the next class, and the name.
const SIZES: [(u64, &str); 5] = [
    (64, "below 64 bytes"),
    (1024, "of 64 bytes to 1 KiB"),
    (65_536, "of 1 to 64 KiB"),
    (1_048_576, "of 64 KiB to 1 MiB"),
    (u64::MAX, "of 1 MiB and more"),
];

/// Counts by kind and by described type, by depth and by size.
#[derive(Drop)]
pub struct Summary {
    kinds: Vec<u64>,
    types: Vec<u64>,
    others: u64,
    frames: u64,
    bytes: u64,
    faults: u64,
    // The number of values at each depth.
    depths: Vec<u64>,
    // The number of values, frames and protocol headers that are not inside of others, by size.
    sizes: Vec<u64>,
    // The bytes of the last of these, if there is one.
    root: Option<u64>,
}

const KINDS: [ValueKind; 25] = [
    ValueKind::Described,
    ValueKind::Null,
    ValueKind::Bool,
    ValueKind::Ubyte,
    ValueKind::Ushort,
    ValueKind::Uint,
    ValueKind::Ulong,
    ValueKind::Byte,
    ValueKind::Short,
    ValueKind::Int,
    ValueKind::Long,
    ValueKind::Float,
    ValueKind::Double,
    ValueKind::Decimal32,
    ValueKind::Decimal64,
    ValueKind::Decimal128,
    ValueKind::Char,
    ValueKind::Timestamp,
    ValueKind::Uuid,
    ValueKind::Binary,
    ValueKind::String,
    ValueKind::Symbol,
    ValueKind::List,
    ValueKind::Map,
    ValueKind::Array,
];

impl Summary {
    /// Creates one of nothing.
    pub(crate) fn new(alloc: Global) -> Result<Summary, Fault> {
        Ok(Summary {
            kinds: vec![in alloc; 0; KINDS.len()]?,
            types: vec![in alloc; 0; TYPES]?,
            others: 0,
            frames: 0,
            bytes: 0,
            faults: 0,
            depths: vec![in alloc; 0; MAX_DEPTH]?,
            sizes: vec![in alloc; 0; 5]?,
            root: None,
        })
    }

    /// Counts an item with these many bytes. `levels` are those that are open after it.
    pub(crate) fn add(&mut self, item: Item, levels: &[Level], len: usize) {
        let times = match item.kind {
            ItemKind::Repeats(count) => u64::from(count),
            _ => 1,
        };
        if item.kind.begins_value() {
            count(&mut self.depths, item.depth, times);
        }
        if item.depth == 0 && item.kind.begins_root() {
            self.end_root();
            self.root = Some(0);
        }
        self.add_bytes(len);
        match item.kind {
            ItemKind::Described(Some(code)) if code < TYPES as u64 => {
                count(&mut self.types, code as usize, 1);
            }
            ItemKind::Described(_) | ItemKind::Reserved => {
                self.others = self.others.saturating_add(1);
            }
            ItemKind::Opens(kind, _, _) | ItemKind::Scalar(kind, _) | ItemKind::Long(kind, _) => {
                count(&mut self.kinds, kind as usize, 1);
            }
            ItemKind::Repeats(_) => {
                if let Some((kind, _)) = element_kind(levels) {
                    count(&mut self.kinds, kind as usize, times);
                }
            }
            ItemKind::Frame(_, _) => self.frames = self.frames.saturating_add(1),
            _ => {}
        }
    }

    /// Counts a fault, and the bytes that were read before it.
    pub(crate) fn add_fault(&mut self, len: usize) {
        self.add_bytes(len);
        self.faults = self.faults.saturating_add(1);
    }

    /// Counts the size of the last value, frame or protocol header.
    pub(crate) fn end_root(&mut self) {
        if let Some(size) = self.root {
            let class = SIZES.iter().position(|(end, _)| size < *end);
            count(&mut self.sizes, class.unwrap_or(4), 1);
        }
        self.root = None;
    }

    fn add_bytes(&mut self, len: usize) {
        self.bytes = self.bytes.saturating_add(len as u64);
        if let Some(size) = self.root {
            self.root = Some(size.saturating_add(len as u64));
        }
    }

    /// Returns the lines of the summary.
    pub fn text(&self, alloc: Global) -> Result<String, Fault> {
        let mut text = String::new(alloc);
        let (bytes, frames, faults) = (self.bytes, self.frames, self.faults);
        writeln!(
            text,
            "summary: {bytes} bytes, {frames} frames, {faults} faults"
        )?;
        for (count, kind) in self.kinds.iter().zip(KINDS.iter()) {
            push_count(&mut text, *count, kind.name())?;
        }
        self.push_types(&mut text)?;
        for (depth, count) in self.depths.iter().enumerate() {
            if *count > 0 {
                writeln!(text, "  {count:>10} values at depth {depth}")?;
            }
        }
        for (count, (_, name)) in self.sizes.iter().zip(SIZES.iter()) {
            push_count(&mut text, *count, name)?;
        }
        Ok(text)
    }

    fn push_types(&self, text: &mut String) -> Result<(), Fault> {
        for (code, count) in self.types.iter().enumerate() {
            if *count == 0 {
                continue;
            }
            let name = match names::type_of(code as u64) {
                Some(found) => found.name,
                None => "described",
            };
            writeln!(text, "  {count:>10} {name} 0x{code:02x}")?;
        }
        push_count(text, self.others, "other descriptors")
    }
}

// Counts this many at a place.
fn count(counts: &mut Vec<u64>, place: usize, times: u64) {
    if let Some(count) = counts.get_mut(place) {
        *count = count.saturating_add(times);
    }
}

// Appends a line, if there is something to count.
fn push_count(text: &mut String, count: u64, name: &str) -> Result<(), Fault> {
    if count > 0 {
        writeln!(text, "  {count:>10} {name}")?;
    }
    Ok(())
}
