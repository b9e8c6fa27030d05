//! Reads payloads.

ghost use Rattle.std.specs.Prelude.{◌≡◌, IfOk, IfErr, Some, None, ◌≢◌};
ghost use Rattle.amqp_data.specs.FormatCode.{code_of};
ghost use Rattle.amqp_frame.specs.Code.{category};
ghost use Rattle.amqp_decode.specs.Parsed.{cut, number_at, sized_at, content_at, counted_in};
ghost use Rattle.amqp_decode.specs.Codes.{primitive_of, shape_of_code};
ghost use Rattle.amqp_decode.specs.WithoutBytes.{has_no_payload};

use amqp_data::{EncodingCodes, Error};
use amqp_frame::{Category, category_of};

// Splits off the first `len` bytes.
#[inline(always)]
fn cut_at(bytes: &[u8], len: usize) -> Result<(&[u8], &[u8]), Error>
    ensures ok { IfOk result (λ r. cut len bytes.now ≡ Some (r.0.now, r.1.now)) }
    ensures err { IfErr result (λ e. cut len bytes.now ≡ None) }
    ensures eof { IfErr result (λ e. e ≡ Error.UnexpectedEof) }
{
    if len <= bytes.len() {
        Ok(bytes.split_at(len))
    } else {
        Err(Error::UnexpectedEof)
    }
}

// Reads a number of four bytes if `wide`, otherwise of one byte, and returns it with the bytes
// after it.
#[inline(always)]
fn read_number(wide: bool, bytes: &[u8]) -> Result<(u32, &[u8]), Error>
    ensures ok { IfOk result (λ r. number_at wide bytes.now ≡ Some (r.0, r.1.now)) }
    ensures err { IfErr result (λ e. number_at wide bytes.now ≡ None) }
    ensures eof { IfErr result (λ e. e ≡ Error.UnexpectedEof) }
{
    if wide {
        let (prefix, rest) = cut_at(bytes, 4)?;
        let number = u32::from_be_bytes([prefix[0], prefix[1], prefix[2], prefix[3]]);
        Ok((number, rest))
    } else {
        match bytes.split_first() {
            Some((first, rest)) => Ok((u32::from(*first), rest)),
            None => Err(Error::UnexpectedEof),
        }
    }
}

// Reads a size and that many bytes, and returns them with the bytes after them.
#[tactic(auto, unfolding(crate::specs::Parsed::sized_at))]
#[inline(always)]
fn read_sized(wide: bool, bytes: &[u8]) -> Result<(&[u8], &[u8]), Error>
    ensures ok { IfOk result (λ r. sized_at wide bytes.now ≡ Some (r.0.now, r.1.now)) }
    ensures err { IfErr result (λ e. sized_at wide bytes.now ≡ None) }
    ensures eof { IfErr result (λ e. e ≡ Error.UnexpectedEof) }
{
    let (len, rest) = read_number(wide, bytes)?;
    cut_at(rest, len as usize)
}

/// Reads the payload of this code at the start of `bytes`, and returns its content with the bytes
/// after the payload.
///
/// # Errors
/// Returns `UnexpectedEof` if the bytes end before the payload does.
#[inline(always)]
pub fn read_payload(code: EncodingCodes, bytes: &[u8]) -> Result<(&[u8], &[u8]), Error>
    ensures ok { IfOk result (λ r.
        content_at (category (code_of code)) bytes.now ≡ Some (r.0.now, r.1.now)) }
    ensures err { IfErr result (λ e. content_at (category (code_of code)) bytes.now ≡ None) }
    ensures eof { IfErr result (λ e. e ≡ Error.UnexpectedEof) }
{
    match category_of(u8::from(code)) {
        Category::Fixed(len) => cut_at(bytes, usize::from(len)),
        Category::OneByteSize => read_sized(false, bytes),
        Category::FourByteSize => read_sized(true, bytes),
    }
}

/// Reads the count of elements, and returns it with the bytes after it.
///
/// # Errors
/// Returns `UnexpectedEof` if the content ends before the count does.
#[tactic(auto, unfolding(crate::specs::Parsed::counted_in))]
#[inline(always)]
pub fn read_count(count: Count, content: &[u8]) -> Result<(u32, &[u8]), Error>
    ensures ok { IfOk result (λ r. counted_in count content.now ≡ Some (r.0, r.1.now)) }
    ensures err { IfErr result (λ e. counted_in count content.now ≡ None) }
    ensures eof { IfErr result (λ e. e ≡ Error.UnexpectedEof) }
{
    match count {
        Count::Absent => Ok((0, content)),
        Count::OneByte => read_number(false, content),
        Count::FourBytes => read_number(true, content),
    }
}

/// The width of a count of elements.
#[derive(Clone, Copy, Debug, PartialEq, Eq)]
pub enum Count {
    /// No count: there are no elements.
    Absent,
    /// One byte.
    OneByte,
    /// Four bytes.
    FourBytes,
}

/// What the payload of a format code contains (AMQP 1.0 part 1, sections 1.2 and 1.6).
#[derive(Clone, Copy, Debug, PartialEq, Eq)]
pub enum PayloadShape {
    /// A descriptor and a value, without a payload of their own.
    Described,
    /// Null or a scalar.
    Scalar,
    /// A count and elements, each with its format code.
    List(Count),
    /// A count, then keys and values alternately.
    Map(Count),
    /// A count, a constructor, and elements without format codes.
    Array(Count),
}

/// Returns what the payload of this code contains.
#[inline(always)]
pub fn payload_shape(code: EncodingCodes) -> PayloadShape
    ensures { result ≡ shape_of_code code }
{
    match code {
        EncodingCodes::DescribedType => PayloadShape::Described,
        EncodingCodes::List0 => PayloadShape::List(Count::Absent),
        EncodingCodes::List8 => PayloadShape::List(Count::OneByte),
        EncodingCodes::List32 => PayloadShape::List(Count::FourBytes),
        EncodingCodes::Map8 => PayloadShape::Map(Count::OneByte),
        EncodingCodes::Map32 => PayloadShape::Map(Count::FourBytes),
        EncodingCodes::Array8 => PayloadShape::Array(Count::OneByte),
        EncodingCodes::Array32 => PayloadShape::Array(Count::FourBytes),
        _ => PayloadShape::Scalar,
    }
}

/// Returns whether the values of this code have no payload. As array elements they have no bytes.
pub fn has_no_payload(code: EncodingCodes) -> bool
    ensures { result ≡ has_no_payload code }
{
    matches!(
        code,
        EncodingCodes::Null
            | EncodingCodes::BooleanTrue
            | EncodingCodes::BooleanFalse
            | EncodingCodes::Uint0
            | EncodingCodes::Ulong0
            | EncodingCodes::List0
    )
}

/// Returns the format code of a primitive type with this byte.
///
/// # Errors
/// Returns `InvalidValue` for the code of described values, and `InvalidFormatCode` if no format
/// code has this byte.
#[inline(always)]
pub fn primitive_code(byte: u8) -> Result<EncodingCodes, Error>
    ensures ok { IfOk result (λ code. primitive_of byte ≡ Some code) }
    ensures err { IfErr result (λ e. primitive_of byte ≡ None) }
    ensures described { IfErr result (λ e. byte ≡ 0 → e ≡ Error.InvalidValue) }
    ensures kind { IfErr result (λ e. ¬ (e ≡ Error.TooLong)) }
    ensures unnamed { IfErr result (λ e. byte ≢ 0 → e ≡ Error.InvalidFormatCode) }
{
    if byte == 0 {
        return Err(Error::InvalidValue);
    }
    EncodingCodes::try_from(byte)
}
