//! How much memory is reserved for the elements of a list or a map.

ghost use Rattle.std.specs.Prelude.{◌≡◌, ◌<◌, ◌≤◌, length, OnOk, vec_len, vec_capacity};

use std::alloc::AllocError;

/// The largest number of elements that are reserved by a count. They take 2,048 bytes.
const MAX_RESERVED_ELEMENTS: usize = 64;

/// The largest number of entries that are reserved by a count. They take 4,096 bytes.
const MAX_RESERVED_ENTRIES: u32 = 64;

/// The smallest number of elements of a longer list, and of entries of a map, that are reserved.
const MIN_RESERVED: usize = 4;

/// Returns for how many elements of a list memory is reserved before they are read: all of a list
/// of at most 64, and four of a longer one.
///
/// An element takes at least one byte of the body. A count that is larger than the body is false,
/// and reserves at most four. No more than `spare` are reserved.
#[inline(always)]
pub fn reserved(count: u32, body: &[u8], spare: usize) -> usize
    ensures most { result ≤ spare }
    ensures few { length body.now < count → result ≤ 4 }
{
    let most = (count as usize).min(body.len());
    if most == count as usize && most <= MAX_RESERVED_ELEMENTS && most <= spare {
        most
    } else {
        most.min(MIN_RESERVED).min(spare)
    }
}

/// Returns for how many keys and values of a map memory is reserved before they are read: twice the
/// capacity that a vector has after as many insertions, a power of two and at least 4 entries, for
/// a map of at most 64.
///
/// A count that is larger than the body reserves nothing; nor does one for which more than `spare`
/// would be reserved.
#[inline(always)]
pub fn reserved_of_a_map(count: u32, body: &[u8], spare: usize) -> usize
    ensures most { result ≤ spare }
    ensures none { length body.now < count → result ≡ 0 }
{
    let entries = count / 2;
    if entries == 0 || entries > MAX_RESERVED_ENTRIES || count as usize > body.len() {
        return 0;
    }
    let room = 2 * (entries as usize).next_power_of_two().max(MIN_RESERVED);
    if room <= spare { room } else { 0 }
}

/// Makes room for one more element of a list of which `missing` elements are missing.
///
/// # Errors
/// Returns `AllocError` if an allocation fails.
///
/// # Memory
/// Doubles the capacity if it is used up, but reserves no more than the missing elements. A list
/// with no capacity reserves one element.
#[inline(always)]
pub fn reserve_element<T>(list: &mut Vec<T>, missing: usize) -> Result<(), AllocError>
    requires { 0 < missing }
    ensures items { list.new.items ≡ list.old.items }
    ensures room { OnOk result (vec_len list.new < vec_capacity list.new) }
{
    if list.len() < list.capacity() {
        return Ok(());
    }
    let more = if list.is_empty() {
        1
    } else {
        list.len().max(MIN_RESERVED)
    };
    list.reserve_exact(more.min(missing))
}
