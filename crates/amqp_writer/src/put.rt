//! Texts, binaries, descriptors, and values that are already encoded.

ghost use Rattle.std.specs.Prelude.{◌≡◌, ◌≤◌, ◌<◌, ◌^◌, ◌∷◌, length};
ghost use Rattle.amqp_ser.specs.Encoding.{descriptor_form};
ghost use Rattle.amqp_ser.specs.Tree.{code as numbered, name as named};
ghost use Rattle.amqp_writer.specs.Appended.{Describes, Puts, after_code, content_of, scalar_at, sized_at};

use crate::fault::Fault;
use crate::kinds::{BINARY, DECIMAL32, DECIMAL64, DECIMAL128, STRING, SYMBOL, UUID};
use crate::writer::Writer;
use amqp_frame::is_encoded_value;
use amqp_size::width::MAX_LEN;

/// Writes a binary, a string, a symbol, a decimal or a uuid, by its kind.
///
/// # Errors
/// The fault is `Value` if it is of none of these kinds, or the bytes are none of a value of its
/// kind, `Long` if they are too many, and `Misuse` if it cannot be in the array that is open.
///
/// # Example
/// The string `a` is written as `a10161`.
#[inline(always)]
pub fn put_bytes(out: &mut [u8], writer: &mut Writer, kind: u8, bytes: &[u8])
    ensures { length out.old < 2 ^ 64 → length bytes.now ≤ 4294967291 → Puts out.old out.new
        writer.old writer.new (scalar_at writer.old.element (content_of kind bytes.now)) }
{
    let is_other = writer.element != 0 && writer.element != kind;
    writer.note(is_other, Fault::Misuse);
    match kind {
        BINARY => put_sized(out, writer, BINARY, bytes),
        STRING => put_text(out, writer, STRING, bytes),
        SYMBOL => put_text(out, writer, SYMBOL, bytes),
        DECIMAL32 => put_fixed(out, writer, DECIMAL32, 4, bytes),
        DECIMAL64 => put_fixed(out, writer, DECIMAL64, 8, bytes),
        DECIMAL128 => put_fixed(out, writer, DECIMAL128, 16, bytes),
        _ => {
            writer.note(kind != UUID, Fault::Value);
            put_fixed(out, writer, UUID, 16, bytes);
        }
    }
}

// Writes a value of this many bytes.
#[inline(always)]
fn put_fixed(out: &mut [u8], writer: &mut Writer, kind: u8, len: usize, bytes: &[u8])
    ensures { length out.old < 2 ^ 64 → Puts out.old out.new writer.old writer.new
        (after_code writer.old.element kind bytes.now) }
{
    writer.note(bytes.len() != len, Fault::Value);
    if writer.element == 0 {
        writer.push_both(out, &[kind], bytes);
    } else {
        writer.push(out, bytes);
    }
    writer.counted();
}

// Writes UTF-8 after its length.
#[inline(always)]
fn put_text(out: &mut [u8], writer: &mut Writer, kind: u8, bytes: &[u8])
    ensures { length out.old < 2 ^ 64 → length bytes.now ≤ 4294967291 → Puts out.old out.new
        writer.old writer.new (sized_at writer.old.element kind bytes.now) }
{
    let is_other = std::str::from_utf8(bytes).is_err();
    writer.note(is_other, Fault::Value);
    put_sized(out, writer, kind, bytes);
}

// Writes bytes after their length.
#[inline(always)]
fn put_sized(out: &mut [u8], writer: &mut Writer, kind: u8, bytes: &[u8])
    ensures { length out.old < 2 ^ 64 → length bytes.now ≤ 4294967291 → Puts out.old out.new
        writer.old writer.new (sized_at writer.old.element kind bytes.now) }
{
    let len = bytes.len();
    if len > MAX_LEN {
        writer.fail(Fault::Long);
        return;
    }
    let [a, b, c, d] = (len as u32).to_be_bytes();
    if writer.element != 0 {
        writer.push_both(out, &[a, b, c, d], bytes);
    } else if len <= 254 {
        // a0, a1 and a3 are the codes of one byte for b0, b1 and b3
        writer.push_both(out, &[kind.saturating_sub(16), len as u8], bytes);
    } else {
        writer.push_both(out, &[kind, a, b, c, d], bytes);
    }
    writer.counted();
}

/// Writes a descriptor that is a number. The next value is described by it.
///
/// # Errors
/// The fault is `Misuse` in an array.
///
/// # Example
/// The code `73` is written as `005373`.
#[inline(always)]
pub fn put_code(out: &mut [u8], writer: &mut Writer, code: u64)
    ensures { Describes out.old out.new writer.old writer.new
        (0 ∷ descriptor_form (numbered code)) }
{
    let is_inside = writer.element != 0;
    writer.note(is_inside, Fault::Misuse);
    let [a, b, c, d, e, f, g, h] = code.to_be_bytes();
    if code > 255 {
        writer.push(out, &[0, 0x80, a, b, c, d, e, f, g, h]);
    } else if code == 0 {
        writer.push(out, &[0, 0x44]);
    } else {
        writer.push(out, &[0, 0x53, code as u8]);
    }
    writer.described = true;
}

/// Writes a descriptor that is a name. The next value is described by it.
///
/// # Errors
/// The fault is `Misuse` in an array, `Value` if the name is not UTF-8, and `Long` if it is too
/// long.
#[inline(always)]
pub fn put_name(out: &mut [u8], writer: &mut Writer, name: &[u8])
    ensures { length out.old < 2 ^ 64 → length name.now ≤ 4294967291 →
        Describes out.old out.new writer.old writer.new (0 ∷ descriptor_form (named name.now)) }
{
    let is_inside = writer.element != 0;
    writer.note(is_inside, Fault::Misuse);
    let is_other = std::str::from_utf8(name).is_err();
    writer.note(is_other, Fault::Value);
    let len = name.len();
    if len > MAX_LEN {
        writer.fail(Fault::Long);
        return;
    }
    let [a, b, c, d] = (len as u32).to_be_bytes();
    if len <= 254 {
        writer.push_both(out, &[0, 0xa3, len as u8], name);
    } else {
        writer.push_both(out, &[0, SYMBOL, a, b, c, d], name);
    }
    writer.described = true;
}

/// Writes a value that is already encoded.
///
/// # Errors
/// The fault is `Value` if the bytes are not exactly one encoded value, and `Misuse` in an array.
#[inline(always)]
pub fn put_encoded(out: &mut [u8], writer: &mut Writer, bytes: &[u8])
    ensures { Puts out.old out.new writer.old writer.new bytes.now }
{
    let is_inside = writer.element != 0;
    writer.note(is_inside, Fault::Misuse);
    writer.note(!is_encoded_value(bytes), Fault::Value);
    writer.put(out, bytes);
}
