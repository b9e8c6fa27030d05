//! The text of encoded values, as `Display` writes them, item by item.

use crate::describe::{describe, is_in_array, push_descriptor};
use crate::fault::Fault;
use crate::item::{Item, ItemKind};
use crate::level::{Level, LevelKind};
use crate::line::Line;
use crate::texts::{first_payload, piece_value, push_safe, push_value, value_of};
use amqp_value::{Value, ValueKind};
use std::alloc::Global;

/// Appends what an item adds to the text of a value of the depth `base`. `levels` are those that
/// are open after the item, and `in_payload` says whether a binary or a text is open after it.
pub(crate) fn push_text(
    alloc: Global,
    line: &mut Line,
    item: Item,
    base: usize,
    levels: &[Level],
    bytes: &[u8],
    in_payload: bool,
) -> Result<(), Fault> {
    let (outer, _) = levels.split_at(item.depth.min(levels.len()));
    let is_all = matches!(item.kind, ItemKind::Repeats(_));
    if item.kind.begins_value() && !is_all && item.depth > base {
        line.push(separator(outer))?;
    }
    match item.kind {
        ItemKind::Described(_) => push_descriptor(alloc, line, bytes)?,
        ItemKind::Opens(ValueKind::Map, _, _) => line.push("{")?,
        ItemKind::Opens(_, _, _) => line.push("[")?,
        ItemKind::Closes(LevelKind::Compound(ValueKind::Map)) => line.push("}")?,
        ItemKind::Closes(LevelKind::Compound(_)) => line.push("]")?,
        ItemKind::Constructor => line.push(" -> ")?,
        ItemKind::Scalar(_, code) => {
            let value = value_of(alloc, bytes, code, is_in_array(levels))?;
            push_value(&mut line.text, &mut line.value_text, &value)?;
        }
        ItemKind::Long(kind, _) => {
            let value = first_payload(alloc, kind, levels, bytes)?;
            push_piece(line, kind, &value, true, !in_payload)?;
        }
        ItemKind::More(kind, _) => {
            let value = piece_value(alloc, kind, bytes)?;
            push_piece(line, kind, &value, false, !in_payload)?;
        }
        ItemKind::Repeats(_)
        | ItemKind::Protocol
        | ItemKind::Frame(_, _)
        | ItemKind::Raw
        | ItemKind::Extended => describe(alloc, line, item, levels, bytes)?,
        ItemKind::End | ItemKind::Reserved | ItemKind::Closes(_) => {}
    }
    if item.ends_line(base, in_payload) {
        line.push("\n")?;
    }
    Ok(())
}

// Returns the separator before the next value of the innermost level.
fn separator(outer: &[Level]) -> &'static str {
    let Some(level) = outer.last() else {
        return "";
    };
    match level.kind {
        LevelKind::Described if level.index > 1 => " -> ",
        LevelKind::Compound(ValueKind::Map) if level.index % 2 == 0 => ": ",
        LevelKind::Compound(_) if level.index > 1 => ", ",
        _ => "",
    }
}

// Appends the text of a piece of a payload: what begins it if it is the first, and what ends it if
// it is the last.
fn push_piece(
    line: &mut Line,
    kind: ValueKind,
    value: &Value,
    is_first: bool,
    is_last: bool,
) -> Result<(), Fault> {
    let (begin, end) = match kind {
        ValueKind::String => ("\"", "\""),
        ValueKind::Symbol => (":", ""),
        _ => ("0x[", "]"),
    };
    line.value_text.clear();
    write!(line.value_text, "{value}")?;
    let mut part = line.value_text.as_str();
    if !is_first {
        part = part.strip_prefix(begin).unwrap_or(part);
    }
    if !is_last {
        part = part.strip_suffix(end).unwrap_or(part);
    }
    push_safe(&mut line.text, part)
}
