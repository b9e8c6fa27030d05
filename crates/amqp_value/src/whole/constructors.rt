//! The constructors of the elements of arrays (AMQP 1.0 part 1, section 1.6.24).

ghost use Rattle.std.specs.Prelude.{◌≡◌, ◌<◌, Some, None, true};
ghost use Rattle.amqp_ser.specs.Encoding.{constructor};
ghost use Rattle.amqp_ser.specs.Writable.{each_constructor};
ghost use Rattle.amqp_value.specs.TreeOf.{tree_of, all_of};
ghost use Rattle.amqp_value.specs.Measured.{HaveRanges, width_for};

use crate::Value;
use crate::whole::ranges::read_scalar;

/// Returns the constructor of a value in an array, or 0 for a described value, which has none.
#[inline(always)]
pub(crate) fn constructor_of(value: &Value) -> u8
    ensures some { 0 < result → constructor (tree_of value.now) ≡ Some result }
    ensures none { result ≡ 0 → constructor (tree_of value.now) ≡ None }
{
    value.format_code()
}

/// Returns whether each element has this constructor, in which case its scalars are in range. The
/// common numbers have loops of their own, in which one comparison of the variant is left.
#[inline(always)]
pub(crate) fn all_have(items: &[Value], code: u8) -> bool
    ensures each { result ≡ true → 0 < code →
        each_constructor (Some code) (all_of items.now) ≡ true }
    ensures ranged { result ≡ true → HaveRanges (all_of items.now) }
{
    match code {
        0x70 => each_has(items, 0x70),
        0x71 => each_has(items, 0x71),
        0x80 => each_has(items, 0x80),
        0x81 => each_has(items, 0x81),
        0x82 => each_has(items, 0x82),
        _ => each_has(items, code),
    }
}

/// Returns whether each element has this constructor.
#[inline(always)]
fn each_has(items: &[Value], code: u8) -> bool
    ensures each { result ≡ true → 0 < code →
        each_constructor (Some code) (all_of items.now) ≡ true }
    ensures ranged { result ≡ true → HaveRanges (all_of items.now) }
{
    for item in items {
        if constructor_of(item) != code {
            return false;
        }
        read_scalar(item);
    }
    true
}

/// Returns the width of the numbers with this constructor, or 0 for another constructor.
#[inline(always)]
pub(crate) fn width_of(code: u8) -> usize
    ensures { result ≡ width_for code }
{
    if 0x50 <= code && code <= 0x56 {
        1
    } else if 0x60 <= code && code <= 0x61 {
        2
    } else if 0x70 <= code && code <= 0x73 {
        4
    } else if 0x80 <= code && code <= 0x83 {
        8
    } else {
        0
    }
}
