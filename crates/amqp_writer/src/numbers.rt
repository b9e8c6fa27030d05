//! Values of fixed width.

ghost use Rattle.std.specs.Prelude.{◌≡◌, ◌∷◌, []};
ghost use Rattle.std.specs.Int.{w8, w16, w32, w64, to_be_bytes};
ghost use Rattle.amqp_ser.specs.Tree.{null, bool, ubyte, ushort, uint, ulong, byte, short, int, long, float, double, char, timestamp};
ghost use Rattle.amqp_writer.specs.Appended.{HasSame, Puts, after_code, scalar_at};

use crate::fault::Fault;
use crate::kinds::{
    BOOLEAN, BYTE, CHAR, DOUBLE, FLOAT, INT, LONG, NULL, SHORT, TIMESTAMP, UBYTE, UINT, ULONG,
    USHORT,
};
use crate::writer::Writer;

// Keeps a fault if a value of this kind cannot be in the array that is open.
#[inline(always)]
fn expect(writer: &mut Writer, code: u8)
    ensures at { writer.new.at ≡ writer.old.at }
    ensures most { writer.new.most ≡ writer.old.most }
    ensures fault { writer.new.fault ≡ 0 → writer.old.fault ≡ 0 }
    ensures same { HasSame writer.old writer.new }
{
    let is_other = writer.element != code;
    writer.note(is_other, Fault::Misuse);
}

// Writes a code, unless in an array, and a byte.
#[inline(always)]
fn put_1(out: &mut [u8], writer: &mut Writer, code: u8, n: u8)
    ensures { Puts out.old out.new writer.old writer.new
        (after_code writer.old.element code (to_be_bytes w8 n)) }
{
    if writer.element == 0 {
        writer.put(out, &[code, n]);
    } else {
        expect(writer, code);
        writer.put(out, &[n]);
    }
}

// Writes a code, unless in an array, and two bytes.
#[inline(always)]
fn put_2(out: &mut [u8], writer: &mut Writer, code: u8, n: u16)
    ensures { Puts out.old out.new writer.old writer.new
        (after_code writer.old.element code (to_be_bytes w16 n)) }
{
    let [a, b] = n.to_be_bytes();
    if writer.element == 0 {
        writer.put(out, &[code, a, b]);
    } else {
        expect(writer, code);
        writer.put(out, &[a, b]);
    }
}

// Writes a code, unless in an array, and four bytes.
#[inline(always)]
fn put_4(out: &mut [u8], writer: &mut Writer, code: u8, n: u32)
    ensures { Puts out.old out.new writer.old writer.new
        (after_code writer.old.element code (to_be_bytes w32 n)) }
{
    let [a, b, c, d] = n.to_be_bytes();
    if writer.element == 0 {
        writer.put(out, &[code, a, b, c, d]);
    } else {
        expect(writer, code);
        writer.put(out, &[a, b, c, d]);
    }
}

// Writes a code, unless in an array, and eight bytes.
#[inline(always)]
fn put_8(out: &mut [u8], writer: &mut Writer, code: u8, n: u64)
    ensures { Puts out.old out.new writer.old writer.new
        (after_code writer.old.element code (to_be_bytes w64 n)) }
{
    let [a, b, c, d, e, f, g, h] = n.to_be_bytes();
    if writer.element == 0 {
        writer.put(out, &[code, a, b, c, d, e, f, g, h]);
    } else {
        expect(writer, code);
        writer.put(out, &[a, b, c, d, e, f, g, h]);
    }
}

/// Writes null.
#[inline(always)]
pub fn put_null(out: &mut [u8], writer: &mut Writer)
    ensures { Puts out.old out.new writer.old writer.new (scalar_at writer.old.element null) }
{
    if writer.element == 0 {
        writer.put(out, &[NULL]);
    } else {
        expect(writer, NULL);
        writer.put(out, &[]);
    }
}

/// Writes a boolean.
#[inline(always)]
pub fn put_bool(out: &mut [u8], writer: &mut Writer, value: bool)
    ensures { Puts out.old out.new writer.old writer.new
        (scalar_at writer.old.element (bool value)) }
{
    if writer.element == 0 {
        if value {
            writer.put(out, &[0x41]);
        } else {
            writer.put(out, &[0x42]);
        }
    } else {
        expect(writer, BOOLEAN);
        if value {
            writer.put(out, &[1]);
        } else {
            writer.put(out, &[0]);
        }
    }
}

/// Writes a ubyte.
#[inline(always)]
pub fn put_ubyte(out: &mut [u8], writer: &mut Writer, value: u8)
    ensures { Puts out.old out.new writer.old writer.new
        (scalar_at writer.old.element (ubyte value)) }
{
    put_1(out, writer, UBYTE, value);
}

/// Writes a ushort.
#[inline(always)]
pub fn put_ushort(out: &mut [u8], writer: &mut Writer, value: u16)
    ensures { Puts out.old out.new writer.old writer.new
        (scalar_at writer.old.element (ushort value)) }
{
    put_2(out, writer, USHORT, value);
}

/// Writes a uint.
#[inline(always)]
pub fn put_uint(out: &mut [u8], writer: &mut Writer, value: u32)
    ensures { Puts out.old out.new writer.old writer.new
        (scalar_at writer.old.element (uint value)) }
{
    if writer.element != 0 || value > 255 {
        put_4(out, writer, UINT, value);
    } else {
        if value == 0 {
            writer.put(out, &[0x43]);
        } else {
            writer.put(out, &[0x52, value as u8]);
        }
    }
}

/// Writes a ulong.
#[inline(always)]
pub fn put_ulong(out: &mut [u8], writer: &mut Writer, value: u64)
    ensures { Puts out.old out.new writer.old writer.new
        (scalar_at writer.old.element (ulong value)) }
{
    if writer.element != 0 || value > 255 {
        put_8(out, writer, ULONG, value);
    } else {
        if value == 0 {
            writer.put(out, &[0x44]);
        } else {
            writer.put(out, &[0x53, value as u8]);
        }
    }
}

/// Writes a byte.
#[inline(always)]
pub fn put_byte(out: &mut [u8], writer: &mut Writer, value: i8)
    ensures { Puts out.old out.new writer.old writer.new
        (scalar_at writer.old.element (byte value)) }
{
    put_1(out, writer, BYTE, value.cast_unsigned());
}

/// Writes a short.
#[inline(always)]
pub fn put_short(out: &mut [u8], writer: &mut Writer, value: i16)
    ensures { Puts out.old out.new writer.old writer.new
        (scalar_at writer.old.element (short value)) }
{
    put_2(out, writer, SHORT, value.cast_unsigned());
}

/// Writes an int.
#[inline(always)]
pub fn put_int(out: &mut [u8], writer: &mut Writer, value: i32)
    ensures { Puts out.old out.new writer.old writer.new
        (scalar_at writer.old.element (int value)) }
{
    if writer.element == 0 && -128 <= value && value <= 127 {
        writer.put(out, &[0x54, (value as i8).cast_unsigned()]);
    } else {
        put_4(out, writer, INT, value.cast_unsigned());
    }
}

/// Writes a long.
#[inline(always)]
pub fn put_long(out: &mut [u8], writer: &mut Writer, value: i64)
    ensures { Puts out.old out.new writer.old writer.new
        (scalar_at writer.old.element (long value)) }
{
    if writer.element == 0 && -128 <= value && value <= 127 {
        writer.put(out, &[0x55, (value as i8).cast_unsigned()]);
    } else {
        put_8(out, writer, LONG, value.cast_unsigned());
    }
}

/// Writes a float, given by its bits.
#[inline(always)]
pub fn put_float(out: &mut [u8], writer: &mut Writer, bits: u32)
    ensures { Puts out.old out.new writer.old writer.new
        (scalar_at writer.old.element (float bits)) }
{
    put_4(out, writer, FLOAT, bits);
}

/// Writes a double, given by its bits.
#[inline(always)]
pub fn put_double(out: &mut [u8], writer: &mut Writer, bits: u64)
    ensures { Puts out.old out.new writer.old writer.new
        (scalar_at writer.old.element (double bits)) }
{
    put_8(out, writer, DOUBLE, bits);
}

/// Writes a character.
#[inline(always)]
pub fn put_char(out: &mut [u8], writer: &mut Writer, value: char)
    ensures { Puts out.old out.new writer.old writer.new
        (scalar_at writer.old.element (char value)) }
{
    put_4(out, writer, CHAR, value as u32);
}

/// Writes a timestamp, in milliseconds.
#[inline(always)]
pub fn put_timestamp(out: &mut [u8], writer: &mut Writer, milliseconds: i64)
    ensures { Puts out.old out.new writer.old writer.new
        (scalar_at writer.old.element (timestamp milliseconds)) }
{
    put_8(out, writer, TIMESTAMP, milliseconds.cast_unsigned());
}
