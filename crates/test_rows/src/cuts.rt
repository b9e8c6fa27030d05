//! Calls that find the end of an encoded value without decoding its payload.

use crate::notation::{bytes_of, number_of, word_of};
use crate::row::refusal;
use amqp_data::Error;
use amqp_decode::decode_value;
use amqp_frame::{LazyValue, Read, SliceReader, frame_len, is_encoded_value};
use std::alloc::Global;

/// Returns the length of the encoded value at the start of the bytes, and whether it is all of
/// them.
pub fn encoded_value(alloc: Global, bytes: &[u8]) -> Result<String, Error> {
    let whole = is_encoded_value(bytes);
    match frame_len(bytes) {
        Some(len) => Ok(format!(in alloc; "{len} {whole}")?),
        None => Ok(format!(in alloc; "none {whole}")?),
    }
}

/// Returns the result of each call of `LazyValue::from_reader` until no byte is left.
pub fn cut(alloc: Global, bytes: &[u8]) -> Result<String, Error> {
    let mut reader = SliceReader::new(bytes);
    let mut text = next(alloc, &mut reader)?;
    for _ in 0..bytes.len() {
        if reader.peek()?.is_none() {
            break;
        }
        text.push_str(" ")?;
        text.push_str(&next(alloc, &mut reader)?)?;
    }
    Ok(text)
}

// Returns the next encoded value, or the error.
fn next(alloc: Global, reader: &mut SliceReader<'_>) -> Result<String, Error> {
    match LazyValue::from_reader(alloc, reader) {
        Ok(value) => word_of(alloc, value.as_slice()),
        Err(error) => refusal(alloc, &error),
    }
}

/// Takes an encoded value of at most this length from a reader; the arguments are `LENGTH BYTES`.
/// Returns its bytes or the error, and the bytes that are left.
pub fn cut_within(alloc: Global, arguments: &str) -> Result<String, Error> {
    let Some((limit, bytes)) = arguments.split_once(' ') else {
        return Err(Error::Message("one argument"));
    };
    let bytes = bytes_of(alloc, bytes)?;
    let limit = number_of(limit)? as usize;
    let mut reader = SliceReader::new(&bytes);
    let taken = match LazyValue::from_reader_limited(alloc, &mut reader, limit) {
        Ok(value) => word_of(alloc, value.as_slice())?,
        Err(Error::OutOfMemory) => return Err(Error::OutOfMemory),
        Err(error) => refusal(alloc, &error)?,
    };
    let mut left = Vec::new(alloc);
    for _ in 0..bytes.len() {
        if let Some(byte) = reader.next()? {
            left.push(byte)?;
        }
    }
    Ok(format!(in alloc; "{taken} {}", word_of(alloc, &left)?)?)
}

/// Returns the number of proper prefixes of the bytes, and the number of incomplete ones.
pub fn prefixes(alloc: Global, bytes: &[u8]) -> Result<String, Error> {
    let mut incomplete = 0usize;
    for end in 0..bytes.len() {
        let prefix = bytes.get(..end).unwrap_or(bytes);
        if is_incomplete(alloc, prefix) {
            incomplete = incomplete.saturating_add(1);
        }
    }
    Ok(format!(in alloc; "{} {incomplete}", bytes.len())?)
}

// Returns whether `decode_value` and `LazyValue::from_reader` fail with `UnexpectedEof` and
// `frame_len` finds no encoded value.
fn is_incomplete(alloc: Global, bytes: &[u8]) -> bool {
    let value = decode_value(alloc, bytes);
    let cut = LazyValue::from_reader(alloc, &mut SliceReader::new(bytes));
    matches!(&value, Err(Error::UnexpectedEof))
        && matches!(&cut, Err(Error::UnexpectedEof))
        && frame_len(bytes).is_none()
        && !is_encoded_value(bytes)
}
