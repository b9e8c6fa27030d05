//! The offset of a value in bytes, by its path: the positions in the lists, arrays and maps around
//! it.

ghost use Rattle.std.specs.Prelude.{◌≤◌, ◌<◌, ◌^◌, IfSome, length};

use crate::encoded_parts::split_name;
use amqp_decode::prefix::split_map;
use amqp_frame::frame_len;

// More than any position. Positions count from 1. They are the digits of a path, the outermost
// lowest, which has four of them at most.
const POSITIONS: usize = 0x7fff;

// More than any path of three positions.
const PATHS: usize = POSITIONS * POSITIONS * POSITIONS;

/// No path: one that is too long, or that has a position which is too large or unknown.
pub(crate) const TOO_FAR: usize = 0xfff_ffff_ffff_ffff;

/// Returns the path of a value whose part has this path, if the part is the last of this number of
/// parts.
pub(crate) fn path_around(path: usize, count_read: Option<usize>) -> usize
    ensures { result < 2 ^ 60 }
{
    match count_read {
        Some(count_read) if count_read < POSITIONS && path < PATHS => path * POSITIONS + count_read,
        _ => TOO_FAR,
    }
}

/// Returns the offset of the part at this index of the list, array or map with this path; without
/// an index, that of the value of the key with this name.
pub(crate) fn offset_of(
    bytes: &[u8],
    path: usize,
    index: Option<usize>,
    name: &str,
) -> Option<usize>
    ensures { IfSome result (λ offset. offset ≤ length bytes.now) }
{
    if path >= TOO_FAR {
        return None;
    }
    let mut at = EncodedPart { code: 0, bytes };
    let mut path = path;
    for _ in 0..4 {
        let position = path % POSITIONS;
        if position > 0 {
            at = value_in(at, position - 1)?;
        }
        path /= POSITIONS;
    }
    let left = match index {
        Some(index) => part_of(at, index)?.bytes.len(),
        None => left_from(at, name)?,
    };
    Some(bytes.len().saturating_sub(left))
}

// A value, with the bytes after it. The code is that of an element of an array, or 0.
#[derive(Clone, Copy)]
struct EncodedPart<'a> {
    code: u8,
    bytes: &'a [u8],
}

// Returns the format code after all descriptors, and the bytes after it.
fn opened(at: EncodedPart) -> Option<(u8, &[u8])> {
    if at.code != 0 {
        return Some((at.code, at.bytes));
    }
    let mut rest = at.bytes;
    for _ in 0..at.bytes.len() {
        let (code, after) = rest.split_first()?;
        if *code != 0 {
            return Some((*code, after));
        }
        rest = after.get(frame_len(after)?..)?;
    }
    None
}

// Returns the first part of a list, an array or a map.
fn first_of(at: EncodedPart) -> Option<EncodedPart> {
    let (code, payload) = opened(at)?;
    let header = match code {
        0x45 => 0,
        0xc0 | 0xc1 | 0xe0 => 2,
        0xd0 | 0xd1 | 0xf0 => 8,
        _ => return None,
    };
    let bytes = payload.get(header..)?;
    if code < 0xe0 {
        return Some(EncodedPart { code: 0, bytes });
    }
    let (code, bytes) = bytes.split_first()?;
    Some(EncodedPart { code: *code, bytes })
}

// Returns what follows a value.
fn next_to(at: EncodedPart) -> Option<EncodedPart> {
    let EncodedPart { code, bytes } = at;
    let len = match code >> 4 {
        0x0 => frame_len(bytes)?,
        0x4 => 0,
        0x5 => 1,
        0x6 => 2,
        0x7 => 4,
        0x8 => 8,
        0x9 => 16,
        0xa | 0xc | 0xe => 1 + *bytes.first()? as usize,
        _ => 4 + u32::from_be_bytes(*bytes.first_chunk::<4>()?) as usize,
    };
    let bytes = bytes.get(len..)?;
    Some(EncodedPart { code, bytes })
}

fn is_map(at: EncodedPart) -> bool {
    matches!(opened(at), Some((0xc1 | 0xd1, _)))
}

// Returns the element at this index, the key of the entry, or what follows the last one.
fn part_of(at: EncodedPart, index: usize) -> Option<EncodedPart> {
    let mut part = first_of(at)?;
    let values = if is_map(at) { 2 } else { 1 };
    for _ in 0..index.saturating_mul(values) {
        part = next_to(part)?;
    }
    Some(part)
}

// Returns the element at this index, or the value of the entry. `None` if the key has parts too.
fn value_in(at: EncodedPart, index: usize) -> Option<EncodedPart> {
    let part = part_of(at, index)?;
    if !is_map(at) {
        Some(part)
    } else if first_of(part).is_none() {
        next_to(part)
    } else {
        None
    }
}

// Returns how many bytes are left from the value of this key on, or after the map if there is none.
fn left_from(at: EncodedPart, name: &str) -> Option<usize> {
    let (code, payload) = opened(at)?;
    let (count, body, after) = split_map(code, payload).ok()?;
    let mut entry = EncodedPart {
        code: 0,
        bytes: body,
    };
    for _ in 0..count {
        if let Some((_, value)) = split_name(name, 1, entry.bytes) {
            return Some(value.len().saturating_add(1).saturating_add(after.len()));
        }
        entry = next_to(next_to(entry)?)?;
    }
    Some(after.len())
}
