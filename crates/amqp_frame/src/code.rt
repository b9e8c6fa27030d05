//! The format codes of encoded values, and the lengths of their payloads.

ghost use Rattle.std.specs.Prelude.{◌≡◌, ◌≤◌, length};
ghost use Rattle.amqp_frame.specs.Code.{is_primitive_code, category, size_width, body_len};

/// How the length of a payload is determined.
#[derive(Clone, Copy, Debug, PartialEq, Eq)]
pub enum Category {
    /// The format code determines the length (AMQP 1.0 part 1, section 1.2.1).
    Fixed(u8),
    /// The payload begins with a size of one byte, the number of bytes that follow (sections 1.2.2
    /// to 1.2.4).
    OneByteSize,
    /// The payload begins with a size of four bytes, the number of bytes that follow (sections
    /// 1.2.2 to 1.2.4).
    FourByteSize,
}

/// Returns whether `code` is an accepted format code of a primitive type.
///
/// # Example
///
/// True for `40`, `a1` and `c0`. False for `00`, `4f` and `ff`.
#[tactic(auto, unfolding(crate::specs::Code::is_primitive_code))]
pub fn is_primitive(code: u8) -> bool
    ensures { result ≡ is_primitive_code code }
{
    0x40 <= code && code < 0xFF && code % 16 < 15
}

/// Returns the category of a format code, from its high four bits.
///
/// # Example
///
/// `70` gives `Fixed(4)`. `a1`, `c0` and `e0` give `OneByteSize`. `b1`, `d0` and `f0` give
/// `FourByteSize`.
#[tactic(auto, unfolding(crate::specs::Code::category))]
#[inline(always)]
pub fn category_of(code: u8) -> Category
    ensures { result ≡ category code }
{
    match code / 16 {
        4 => Category::Fixed(0),
        5 => Category::Fixed(1),
        6 => Category::Fixed(2),
        7 => Category::Fixed(4),
        8 => Category::Fixed(8),
        9 => Category::Fixed(16),
        high if high % 2 == 0 => Category::OneByteSize,
        _ => Category::FourByteSize,
    }
}

/// Returns the number of bytes at the start of a payload that are its size.
///
/// # Example
///
/// `Fixed(4)` gives 0. `OneByteSize` gives 1. `FourByteSize` gives 4.
#[tactic(auto, unfolding(crate::specs::Code::size_width))]
pub fn size_width_of(category: Category) -> usize
    ensures width { result ≡ size_width category }
    ensures bound { result ≤ 4 }
{
    match category {
        Category::Fixed(_) => 0,
        Category::OneByteSize => 1,
        Category::FourByteSize => 4,
    }
}

/// Returns the number of bytes that follow the size.
///
/// # Example
///
/// `Fixed(4)` gives 4. `OneByteSize` and `08` give 8. `FourByteSize` and `00000100` give 256.
#[tactic(auto, unfolding(crate::specs::Code::size_width, crate::specs::Code::body_len))]
pub fn body_len_of(category: Category, size: &[u8]) -> u32
    requires { length size.now ≡ size_width category }
    ensures { result ≡ body_len category size.now }
{
    match category {
        Category::Fixed(len) => u32::from(len),
        Category::OneByteSize => u32::from(size[0]),
        Category::FourByteSize => u32::from_be_bytes([size[0], size[1], size[2], size[3]]),
    }
}
