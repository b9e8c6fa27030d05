//! The lengths of texts, lists, maps and arrays: the arithmetic of all headers.
//!
//! `text_len`, `list_len`, `map_len` and `array_len` accept lengths and counts of any size, and
//! return an error above the limits.

ghost use Rattle.std.specs.Prelude.{◌≡◌, ◌≤◌, ◌&&◌, ℕ, List, length, true, false, MatchResult};
ghost use Rattle.std.specs.Prelude.{IfOk};
ghost use Rattle.amqp_ser.specs.Limits.{fits, is_count};
ghost use Rattle.amqp_size.specs.Width.{uint_form_len, text_form_len, map_form_len, list_form_len};
ghost use Rattle.amqp_size.specs.Width.{array_form_len, text_at, list_at, map_at, array_at};

use crate::limits::within_limit;
pub use crate::limits::{MAX_COUNT, MAX_LEN};
use amqp_data::Error;

/// Returns the length of a uint outside an array.
pub fn uint_form_len(n: u32) -> usize
    ensures { result ≡ uint_form_len n }
{
    if n == 0 {
        1
    } else if n <= 255 {
        2
    } else {
        5
    }
}

/// Returns the length of a text or a binary of `n` bytes outside an array.
pub fn text_form_len(n: usize) -> usize
    requires { n ≤ 4294967291 }
    ensures { result ≡ text_form_len n }
{
    if n <= 254 { n + 2 } else { n + 5 }
}

/// Returns the length of a map whose body has `n` bytes.
pub fn map_form_len(n: usize) -> usize
    requires { n ≤ 4294967291 }
    ensures { result ≡ map_form_len n }
{
    if n <= 254 { n + 3 } else { n + 9 }
}

/// Returns the length of a list whose body has `n` bytes.
pub fn list_form_len(n: usize) -> usize
    requires { n ≤ 4294967291 }
    ensures { result ≡ list_form_len n }
{
    if n == 0 { 1 } else { map_form_len(n) }
}

/// Returns the length of an array of `count` elements whose content has `n` bytes.
pub fn array_form_len(n: usize, count: usize) -> usize
    requires { n ≤ 4294967291 }
    ensures { result ≡ array_form_len n count }
{
    if n <= 254 && count <= 255 {
        n + 3
    } else {
        n + 9
    }
}

/// Returns the length of a text, a symbol or a binary of this many bytes: the complete form, or the
/// payload in an array.
///
/// # Errors
/// Returns `TooLong` if and only if `text` exceeds 4,294,967,291.
///
/// # Memory
/// None.
///
/// # Example
/// The length is 256 for 254 bytes, and 260 for 255 bytes. In an array, it is 4 for 0 bytes.
pub fn text_len(text: usize, in_array: bool) -> Result<usize, Error>
    ensures limit { MatchResult result (λ _. fits text ≡ true)
        (λ e. (fits text ≡ false) × (e ≡ Error.TooLong)) }
    ensures length { IfOk result (λ len. (c8 c32 : ℕ) (bs : List ℕ) → length bs ≡ text →
        length (text_at in_array c8 c32 bs) ≡ len) }
{
    let n = within_limit(text)?;
    Ok(if in_array { n + 4 } else { text_form_len(n) })
}

/// Returns the length of a list whose elements have this many bytes together: the complete form, or
/// the payload in an array.
///
/// # Errors
/// Returns `TooLong` if and only if `elements` exceeds 4,294,967,291.
///
/// # Memory
/// None.
///
/// # Example
/// The length is 1 for 0 bytes, 257 for 254 bytes, and 264 for 255 bytes. In an array, it is 8 for
/// 0 bytes.
pub fn list_len(elements: usize, in_array: bool) -> Result<usize, Error>
    ensures limit { MatchResult result (λ _. fits elements ≡ true)
        (λ e. (fits elements ≡ false) × (e ≡ Error.TooLong)) }
    ensures length { IfOk result (λ len. (m : ℕ) (body : List ℕ) → length body ≡ elements →
        length (list_at in_array m body) ≡ len) }
{
    let n = within_limit(elements)?;
    Ok(if in_array { n + 8 } else { list_form_len(n) })
}

/// Returns the length of a map whose keys and values have this many bytes together: the complete
/// form, or the payload in an array.
///
/// # Errors
/// Returns `TooLong` if and only if `entries` exceeds 4,294,967,291.
///
/// # Memory
/// None.
///
/// # Example
/// The length is 3 for 0 bytes, 257 for 254 bytes, and 264 for 255 bytes. In an array, it is 8 for
/// 0 bytes.
pub fn map_len(entries: usize, in_array: bool) -> Result<usize, Error>
    ensures limit { MatchResult result (λ _. fits entries ≡ true)
        (λ e. (fits entries ≡ false) × (e ≡ Error.TooLong)) }
    ensures length { IfOk result (λ len. (m : ℕ) (body : List ℕ) → length body ≡ entries →
        length (map_at in_array m body) ≡ len) }
{
    let n = within_limit(entries)?;
    Ok(if in_array { n + 8 } else { map_form_len(n) })
}

/// Returns the length of an array whose content, including the constructor, has this many bytes:
/// the complete form, or the payload in an array.
///
/// # Errors
/// Returns `TooLong` if and only if `content` exceeds 4,294,967,291 or `count` exceeds
/// 4,294,967,295.
///
/// # Memory
/// None.
///
/// # Example
/// The length is 4 for 1 byte and 255 elements, and 10 for 1 byte and 256 elements. In an array, it
/// is 8 for 0 bytes and 0 elements.
pub fn array_len(content: usize, count: usize, in_array: bool) -> Result<usize, Error>
    ensures limit { MatchResult result (λ _. (fits content && is_count count) ≡ true)
        (λ e. ((fits content && is_count count) ≡ false) × (e ≡ Error.TooLong)) }
    ensures length { IfOk result (λ len. (body : List ℕ) → length body ≡ content →
        length (array_at in_array count body) ≡ len) }
{
    let n = within_limit(content)?;
    if count > MAX_COUNT {
        return Err(Error::TooLong);
    }
    Ok(if in_array {
        n + 8
    } else {
        array_form_len(n, count)
    })
}
