//! Appends scalars to a buffer within its capacity.
//!
//! Each function returns whether the capacity suffices and no limit is exceeded. After `false`, the
//! buffer may contain a part of the bytes.

ghost use Rattle.std.specs.Prelude.{◌≡◌, ◌<◌, ◌≤◌, ◌++◌, ◌∷◌, ◌+◌, length, true};
ghost use Rattle.std.specs.Int.{w16, w32, w64, to_be_bytes};
ghost use Rattle.std.specs.Vec.{vec_capacity};
ghost use Rattle.amqp_ser.specs.Tree as tree;
ghost use Rattle.amqp_ser.specs.Carried.{descriptor_content};
ghost use Rattle.amqp_ser.specs.Encoding.{descriptor_form};
ghost use Rattle.amqp_ser.specs.Writable.{descriptor_fits};
ghost use Rattle.amqp_ser.specs.Scalars.{scalar_form, sized};
ghost use Rattle.amqp_value.specs.Wrote.{Grows};

use amqp_data::{Descriptor, EncodingCodes};
use amqp_size::width::MAX_LEN;

/// Appends a few bytes, one by one.
#[inline(always)]
pub(crate) fn put_few(bytes: &[u8], out: &mut Vec<u8>) -> bool
    ensures put { result ≡ true → out.new.items ≡ out.old.items ++ bytes.now }
    ensures kept { Grows out.old out.new }
{
    if bytes.len() > out.capacity() - out.len() {
        return false;
    }
    put_reserved(bytes, bytes.len(), out)
}

/// Appends `bytes`, which must be `width` bytes, without a test of the capacity.
#[inline(always)]
pub(crate) fn put_reserved(bytes: &[u8], width: usize, out: &mut Vec<u8>) -> bool
    requires { length out.now.items + width ≤ vec_capacity out.now }
    ensures put { result ≡ true → out.new.items ≡ out.old.items ++ bytes.now }
    ensures width { result ≡ true → length out.new.items ≡ length out.old.items + width }
    ensures capacity { result ≡ true → vec_capacity out.new ≡ vec_capacity out.old }
    ensures kept { Grows out.old out.new }
{
    if bytes.len() != width {
        return false;
    }
    for byte in bytes {
        out.push_reserved(*byte);
    }
    true
}

/// Appends bytes with one copy.
#[inline(always)]
pub(crate) fn put(bytes: &[u8], out: &mut Vec<u8>) -> bool
    ensures put { result ≡ true → out.new.items ≡ out.old.items ++ bytes.now }
    ensures kept { Grows out.old out.new }
{
    if bytes.len() > out.capacity() - out.len() {
        return false;
    }
    out.extend_from_slice(bytes).is_ok()
}

/// Appends a code and a number of 16 bits.
#[inline(always)]
pub(crate) fn put_u16(code: u8, v: u16, out: &mut Vec<u8>) -> bool
    ensures put { result ≡ true → out.new.items ≡ out.old.items ++ (code ∷ to_be_bytes w16 v) }
    ensures kept { Grows out.old out.new }
{
    let [a, b] = v.to_be_bytes();
    put_few(&[code, a, b], out)
}

/// Appends a code and a number of 32 bits.
#[inline(always)]
pub(crate) fn put_u32(code: u8, v: u32, out: &mut Vec<u8>) -> bool
    ensures put { result ≡ true → out.new.items ≡ out.old.items ++ (code ∷ to_be_bytes w32 v) }
    ensures kept { Grows out.old out.new }
{
    let [a, b, c, d] = v.to_be_bytes();
    put_few(&[code, a, b, c, d], out)
}

/// Appends a code and a number of 64 bits.
#[inline(always)]
pub(crate) fn put_u64(code: u8, v: u64, out: &mut Vec<u8>) -> bool
    ensures put { result ≡ true → out.new.items ≡ out.old.items ++ (code ∷ to_be_bytes w64 v) }
    ensures kept { Grows out.old out.new }
{
    let [a, b, c, d, e, f, g, h] = v.to_be_bytes();
    put_few(&[code, a, b, c, d, e, f, g, h], out)
}

/// Appends a uint.
#[inline(always)]
pub(crate) fn put_uint(v: u32, out: &mut Vec<u8>) -> bool
    ensures put { result ≡ true → out.new.items ≡ out.old.items ++ scalar_form (tree.uint v) }
    ensures kept { Grows out.old out.new }
{
    if v == 0 {
        put_few(&[EncodingCodes::Uint0 as u8], out)
    } else if v < 256 {
        put_few(&[EncodingCodes::SmallUint as u8, v as u8], out)
    } else {
        put_u32(EncodingCodes::Uint as u8, v, out)
    }
}

/// Appends a ulong.
#[inline(always)]
pub(crate) fn put_ulong(v: u64, out: &mut Vec<u8>) -> bool
    ensures put { result ≡ true → out.new.items ≡ out.old.items ++ scalar_form (tree.ulong v) }
    ensures kept { Grows out.old out.new }
{
    if v == 0 {
        put_few(&[EncodingCodes::Ulong0 as u8], out)
    } else if v < 256 {
        put_few(&[EncodingCodes::SmallUlong as u8, v as u8], out)
    } else {
        put_u64(EncodingCodes::Ulong as u8, v, out)
    }
}

/// Appends an int.
#[inline(always)]
pub(crate) fn put_int(v: i32, out: &mut Vec<u8>) -> bool
    ensures put { result ≡ true → out.new.items ≡ out.old.items ++ scalar_form (tree.int v) }
    ensures kept { Grows out.old out.new }
{
    if -128 <= v && v <= 127 {
        put_few(
            &[EncodingCodes::SmallInt as u8, (v as i8).cast_unsigned()],
            out,
        )
    } else {
        put_u32(EncodingCodes::Int as u8, v.cast_unsigned(), out)
    }
}

/// Appends a long.
#[inline(always)]
pub(crate) fn put_long(v: i64, out: &mut Vec<u8>) -> bool
    ensures put { result ≡ true → out.new.items ≡ out.old.items ++ scalar_form (tree.long v) }
    ensures kept { Grows out.old out.new }
{
    if -128 <= v && v <= 127 {
        put_few(
            &[EncodingCodes::SmallLong as u8, (v as i8).cast_unsigned()],
            out,
        )
    } else {
        put_u64(EncodingCodes::Long as u8, v.cast_unsigned(), out)
    }
}

/// Appends a timestamp.
#[inline(always)]
pub(crate) fn put_timestamp(milliseconds: i64, out: &mut Vec<u8>) -> bool
    ensures put { result ≡ true →
        out.new.items ≡ out.old.items ++ scalar_form (tree.timestamp milliseconds) }
    ensures kept { Grows out.old out.new }
{
    put_u64(
        EncodingCodes::Timestamp as u8,
        milliseconds.cast_unsigned(),
        out,
    )
}

/// Appends a code and bytes of a fixed number.
#[inline(always)]
pub(crate) fn put_exact(code: u8, bytes: &[u8], out: &mut Vec<u8>) -> bool
    ensures put { result ≡ true → out.new.items ≡ out.old.items ++ (code ∷ bytes.now) }
    ensures kept { Grows out.old out.new }
{
    put_few(&[code], out) && put(bytes, out)
}

/// Appends a text or a binary: its code, its length and its bytes.
#[inline(always)]
fn put_text(short: u8, long: u8, bytes: &[u8], out: &mut Vec<u8>) -> bool
    ensures fits { result ≡ true → length bytes.now ≤ 4294967291 }
    ensures put { result ≡ true → out.new.items ≡ out.old.items ++ sized short long bytes.now }
    ensures kept { Grows out.old out.new }
{
    let n = bytes.len();
    if n <= 254 {
        put_few(&[short, n as u8], out) && put(bytes, out)
    } else if n <= MAX_LEN {
        put_u32(long, n as u32, out) && put(bytes, out)
    } else {
        false
    }
}

/// Appends a binary.
#[inline(always)]
pub(crate) fn put_binary(bytes: &[u8], out: &mut Vec<u8>) -> bool
    ensures fits { result ≡ true → length bytes.now ≤ 4294967291 }
    ensures put { result ≡ true → out.new.items
        ≡ out.old.items ++ scalar_form (tree.binary bytes.now) }
    ensures kept { Grows out.old out.new }
{
    put_text(
        EncodingCodes::Vbin8 as u8,
        EncodingCodes::Vbin32 as u8,
        bytes,
        out,
    )
}

/// Appends a string.
#[inline(always)]
pub(crate) fn put_string(bytes: &[u8], out: &mut Vec<u8>) -> bool
    ensures fits { result ≡ true → length bytes.now ≤ 4294967291 }
    ensures put { result ≡ true → out.new.items
        ≡ out.old.items ++ scalar_form (tree.string bytes.now) }
    ensures kept { Grows out.old out.new }
{
    put_text(
        EncodingCodes::Str8 as u8,
        EncodingCodes::Str32 as u8,
        bytes,
        out,
    )
}

/// Appends a symbol.
#[inline(always)]
pub(crate) fn put_symbol(bytes: &[u8], out: &mut Vec<u8>) -> bool
    ensures fits { result ≡ true → length bytes.now ≤ 4294967291 }
    ensures put { result ≡ true → out.new.items
        ≡ out.old.items ++ scalar_form (tree.symbol bytes.now) }
    ensures kept { Grows out.old out.new }
{
    put_text(
        EncodingCodes::Sym8 as u8,
        EncodingCodes::Sym32 as u8,
        bytes,
        out,
    )
}

/// Appends the payload of a text or a binary in an array.
#[inline(always)]
pub(crate) fn put_text_payload(bytes: &[u8], out: &mut Vec<u8>) -> bool
    ensures fits { result ≡ true → length bytes.now ≤ 4294967291 }
    ensures put { result ≡ true →
        out.new.items ≡ out.old.items ++ (to_be_bytes w32 (length bytes.now) ++ bytes.now) }
    ensures kept { Grows out.old out.new }
{
    let n = bytes.len();
    if n <= MAX_LEN {
        put_few(&(n as u32).to_be_bytes(), out) && put(bytes, out)
    } else {
        false
    }
}

/// Appends a descriptor, without the `00` before it.
#[inline(always)]
pub(crate) fn put_descriptor(descriptor: &Descriptor, out: &mut Vec<u8>) -> bool
    ensures fits { result ≡ true → descriptor_fits (descriptor_content descriptor.now) ≡ true }
    ensures put { result ≡ true →
        out.new.items ≡ out.old.items ++ descriptor_form (descriptor_content descriptor.now) }
    ensures kept { Grows out.old out.new }
{
    match descriptor {
        Descriptor::Name(name) => put_symbol(name.as_inner().as_bytes(), out),
        Descriptor::Code(code) => put_ulong(*code, out),
    }
}
