//! Appends the headers of compounds to a buffer within its capacity, like `append`.

ghost use Rattle.std.specs.Prelude.{◌≡◌, ◌≤◌, ◌++◌, ◌+◌, true};
ghost use Rattle.std.specs.Int.{w32, to_be_bytes};
ghost use Rattle.amqp_value.specs.Wrote.{Grows, counted_header, list_header, array_header};

use crate::whole::append::put_few;
use amqp_data::EncodingCodes;
use amqp_size::width::{MAX_COUNT, MAX_LEN};

/// Appends the size and the count of a compound in four bytes each, for a body of `len` bytes.
#[inline(always)]
pub(crate) fn put_wide_header(len: usize, count: usize, out: &mut Vec<u8>) -> bool
    ensures fits { result ≡ true → len ≤ 4294967291 }
    ensures few { result ≡ true → count ≤ 4294967295 }
    ensures put { result ≡ true →
        out.new.items ≡ out.old.items ++ (to_be_bytes w32 (len + 4) ++ to_be_bytes w32 count) }
    ensures kept { Grows out.old out.new }
{
    if len > MAX_LEN || count > MAX_COUNT {
        return false;
    }
    let [a, b, c, d] = (len as u32 + 4).to_be_bytes();
    let [e, f, g, h] = (count as u32).to_be_bytes();
    put_few(&[a, b, c, d, e, f, g, h], out)
}

/// Appends the header of a map, or of a list that is not empty, whose body has `len` bytes.
#[inline(always)]
fn put_counted_header(short: u8, long: u8, len: usize, count: usize, out: &mut Vec<u8>) -> bool
    ensures fits { result ≡ true → len ≤ 4294967291 }
    ensures few { result ≡ true → count ≤ 4294967295 }
    ensures put { result ≡ true →
        out.new.items ≡ out.old.items ++ counted_header short long len count }
    ensures kept { Grows out.old out.new }
{
    if len <= 254 {
        if count > 255 {
            return false;
        }
        return put_few(&[short, len as u8 + 1, count as u8], out);
    }
    put_few(&[long], out) && put_wide_header(len, count, out)
}

/// Appends the header of a map whose keys and values have `len` bytes.
#[inline(always)]
pub(crate) fn put_map_header(len: usize, count: usize, out: &mut Vec<u8>) -> bool
    ensures fits { result ≡ true → len ≤ 4294967291 }
    ensures few { result ≡ true → count ≤ 4294967295 }
    ensures put { result ≡ true →
        out.new.items ≡ out.old.items ++ counted_header 0xc1 0xd1 len count }
    ensures kept { Grows out.old out.new }
{
    put_counted_header(
        EncodingCodes::Map8 as u8,
        EncodingCodes::Map32 as u8,
        len,
        count,
        out,
    )
}

/// Appends the header of a list whose body has `len` bytes.
#[inline(always)]
pub(crate) fn put_list_header(len: usize, count: usize, out: &mut Vec<u8>) -> bool
    ensures fits { result ≡ true → len ≤ 4294967291 }
    ensures put { result ≡ true → out.new.items ≡ out.old.items ++ list_header len count }
    ensures kept { Grows out.old out.new }
{
    if len == 0 {
        return put_few(&[EncodingCodes::List0 as u8], out);
    }
    put_counted_header(
        EncodingCodes::List8 as u8,
        EncodingCodes::List32 as u8,
        len,
        count,
        out,
    )
}

/// Appends the header of an array whose content has `len` bytes.
#[inline(always)]
pub(crate) fn put_array_header(len: usize, count: usize, out: &mut Vec<u8>) -> bool
    ensures fits { result ≡ true → len ≤ 4294967291 }
    ensures few { result ≡ true → count ≤ 4294967295 }
    ensures put { result ≡ true → out.new.items ≡ out.old.items ++ array_header len count }
    ensures kept { Grows out.old out.new }
{
    if len <= 254 && count <= 255 {
        return put_few(
            &[EncodingCodes::Array8 as u8, len as u8 + 1, count as u8],
            out,
        );
    }
    put_few(&[EncodingCodes::Array32 as u8], out) && put_wide_header(len, count, out)
}
