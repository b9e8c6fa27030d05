//! The lengths of scalars and headers, or `NOT_MEASURED` if a limit is exceeded.

ghost use Rattle.std.specs.Prelude.{◌≡◌, ◌+◌, ◌<◌, ◌≤◌, true, length};
ghost use Rattle.amqp_ser.specs.Tree as tree;
ghost use Rattle.amqp_ser.specs.Carried.{descriptor_content};
ghost use Rattle.amqp_ser.specs.Encoding.{descriptor_form};
ghost use Rattle.amqp_ser.specs.Limits.{fits};
ghost use Rattle.amqp_ser.specs.Ranged.{IsRangedDescriptor};
ghost use Rattle.amqp_ser.specs.Scalars.{scalar_form};
ghost use Rattle.amqp_ser.specs.Writable.{descriptor_fits};
ghost use Rattle.amqp_size.specs.Width.{text_form_len, map_form_len, list_form_len, array_form_len};
ghost use Rattle.amqp_value.specs.Measured.{IsLength};

use crate::whole::ranges::read_text;
use amqp_data::Descriptor;
use amqp_size::width::{MAX_COUNT, MAX_LEN};

/// The result for a value that is not measured.
pub(crate) const NOT_MEASURED: usize = usize::MAX;

/// Returns the length of a uint.
#[inline(always)]
pub(crate) fn uint_size(v: u32) -> usize
    ensures { result ≡ length (scalar_form (tree.uint v)) }
{
    if v == 0 {
        1
    } else if v <= 255 {
        2
    } else {
        5
    }
}

/// Returns the length of a ulong.
#[inline(always)]
pub(crate) fn ulong_size(v: u64) -> usize
    ensures len { result ≡ length (scalar_form (tree.ulong v)) }
    ensures few { result < 10 }
{
    if v == 0 {
        1
    } else if v <= 255 {
        2
    } else {
        9
    }
}

/// Returns the length of an int.
#[inline(always)]
pub(crate) fn int_size(v: i32) -> usize
    ensures { result ≡ length (scalar_form (tree.int v)) }
{
    if -128 <= v && v <= 127 { 2 } else { 5 }
}

/// Returns the length of a long.
#[inline(always)]
pub(crate) fn long_size(v: i64) -> usize
    ensures { result ≡ length (scalar_form (tree.long v)) }
{
    if -128 <= v && v <= 127 { 2 } else { 9 }
}

/// Returns the number of the bytes.
#[inline(always)]
pub(crate) fn exact_size(bytes: &[u8]) -> usize
    ensures len { result ≡ length bytes.now }
    ensures few { result < 9223372036854775808 }
{
    bytes.len()
}

/// Returns the length of a text or a binary of `n` bytes.
#[inline(always)]
pub(crate) fn text_size(n: usize) -> usize
    ensures fits { IsLength result → fits n ≡ true }
    ensures len { IsLength result → result ≡ text_form_len n }
{
    if n <= 254 {
        return n + 2;
    }
    long_text_size(n)
}

/// Like `text_size`, for more than 254 bytes. It is not inlined, so that a short text takes one
/// comparison.
#[inline(never)]
fn long_text_size(n: usize) -> usize
    ensures fits { IsLength result → fits n ≡ true }
    ensures len { IsLength result → 254 < n → result ≡ text_form_len n }
{
    if n <= MAX_LEN { n + 5 } else { NOT_MEASURED }
}

/// Returns the length of the payload of a text or a binary of `n` bytes in an array.
#[inline(always)]
pub(crate) fn text_payload_size(n: usize) -> usize
    ensures fits { IsLength result → fits n ≡ true }
    ensures len { IsLength result → result ≡ n + 4 }
{
    if n <= MAX_LEN { n + 4 } else { NOT_MEASURED }
}

/// Returns the length of a descriptor.
#[inline(always)]
pub(crate) fn descriptor_size(descriptor: &Descriptor) -> usize
    ensures fits { IsLength result → descriptor_fits (descriptor_content descriptor.now) ≡ true }
    ensures len { IsLength result →
        result ≡ length (descriptor_form (descriptor_content descriptor.now)) }
    ensures ranged { IsRangedDescriptor (descriptor_content descriptor.now) }
{
    match descriptor {
        Descriptor::Name(name) => {
            read_text(name.as_inner());
            text_size(name.as_inner().len())
        }
        Descriptor::Code(code) => ulong_size(*code),
    }
}

/// Returns the length of a list whose body has `n` bytes.
#[inline(always)]
pub(crate) fn list_size(n: usize) -> usize
    ensures fits { IsLength result → fits n ≡ true }
    ensures len { IsLength result → result ≡ list_form_len n }
{
    if n == 0 { 1 } else { map_size(n) }
}

/// Returns the length of a map whose body has `n` bytes.
#[inline(always)]
pub(crate) fn map_size(n: usize) -> usize
    ensures fits { IsLength result → fits n ≡ true }
    ensures len { IsLength result → result ≡ map_form_len n }
{
    if n <= 254 {
        return n + 3;
    }
    long_body_size(n)
}

/// Like `map_size`, for more than 254 bytes.
#[inline(never)]
fn long_body_size(n: usize) -> usize
    ensures fits { IsLength result → fits n ≡ true }
    ensures len { IsLength result → 254 < n → result ≡ map_form_len n }
{
    if n <= MAX_LEN { n + 9 } else { NOT_MEASURED }
}

/// Returns the length of an array of `count` elements whose content has `n` bytes.
#[inline(always)]
pub(crate) fn array_size(n: usize, count: usize) -> usize
    ensures fits { IsLength result → fits n ≡ true }
    ensures few { IsLength result → count ≤ 4294967295 }
    ensures len { IsLength result → result ≡ array_form_len n count }
{
    if n <= 254 && count <= 255 {
        n + 3
    } else if n <= MAX_LEN && count <= MAX_COUNT {
        n + 9
    } else {
        NOT_MEASURED
    }
}

/// Returns the length of the payload of a compound in an array, whose body has `n` bytes after the
/// size and the count.
#[inline(always)]
pub(crate) fn compound_payload_size(n: usize) -> usize
    ensures fits { IsLength result → fits n ≡ true }
    ensures len { IsLength result → result ≡ n + 8 }
{
    if n <= MAX_LEN { n + 8 } else { NOT_MEASURED }
}
