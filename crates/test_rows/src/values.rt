//! Calls on decoded values.

use crate::notation::{bytes_of, number_of, word_of};
use crate::row::refusal;
use amqp_data::Error;
use amqp_decode::{
    Located, Place, decode_value, decode_value_limited, decode_value_limited_located,
    decode_value_located, fault_place,
};
use amqp_frame::{LazyValue, SliceReader};
use amqp_ser::Whole as _;
use amqp_size::serialized_size;
use amqp_to_value::to_value;
use amqp_value::Value;
use amqp_wire::to_vec;
use std::alloc::Global;
use std::cmp::Ordering;

/// Returns the encoding of the decoded value, and its text.
pub fn decode(alloc: Global, bytes: &[u8]) -> Result<String, Error> {
    shown(alloc, &decode_value(alloc, bytes)?)
}

/// Like `decode`, with a limit on elements that have no bytes; the arguments are `LIMIT BYTES`.
pub fn decode_within(alloc: Global, arguments: &str) -> Result<String, Error> {
    let Some((limit, bytes)) = arguments.split_once(' ') else {
        return Err(Error::Message("one argument"));
    };
    let bytes = bytes_of(alloc, bytes)?;
    shown(
        alloc,
        &decode_value_limited(alloc, &bytes, number_of(limit)?)?,
    )
}

/// Returns the offset and the depth of the first fault with the error, or `none`. Both calls must
/// agree.
pub fn place(alloc: Global, bytes: &[u8]) -> Result<String, Error> {
    let (error, place) = match decode_value_located(alloc, bytes) {
        Ok(_) => (None, None),
        Err(
            Located {
                error: Error::OutOfMemory,
                place: None,
            },
        ) => return Err(Error::OutOfMemory),
        Err(Located { error, place }) => (Some(error), place),
    };
    if fault_place(bytes) != place {
        return Ok(String::from_str(alloc, "another place")?);
    }
    match (error, place) {
        (Some(error), Some(place)) => {
            let (offset, depth) = (place.offset, place.depth);
            Ok(format!(in alloc; "{offset} {depth} <{error}>")?)
        }
        _ => Ok(String::from_str(alloc, "none")?),
    }
}

/// Returns the error within a limit on elements that have no bytes, if there is one, and the place
/// of the first fault; the arguments are `LIMIT BYTES`. An error has this place, or none at the
/// limit.
pub fn place_within(alloc: Global, arguments: &str) -> Result<String, Error> {
    let Some((limit, bytes)) = arguments.split_once(' ') else {
        return Err(Error::Message("one argument"));
    };
    let bytes = bytes_of(alloc, bytes)?;
    let fault = fault_place(&bytes);
    match decode_value_limited_located(alloc, &bytes, number_of(limit)?) {
        Ok(_) => place_text(alloc, fault),
        Err(
            Located {
                error: Error::OutOfMemory,
                ..
            },
        ) => Err(Error::OutOfMemory),
        Err(Located { error, place }) => {
            if place != (if error == Error::TooLong { None } else { fault }) {
                return Ok(String::from_str(alloc, "another place")?);
            }
            Ok(format!(in alloc; "<{error}> {}", place_text(alloc, fault)?)?)
        }
    }
}

// Returns the offset and the depth, or `none`.
fn place_text(alloc: Global, place: Option<Place>) -> Result<String, Error> {
    match place {
        Some(place) => Ok(format!(in alloc; "{} {}", place.offset, place.depth)?),
        None => Ok(String::from_str(alloc, "none")?),
    }
}

/// Returns the length and the bytes that the value returns without a serializer, or `none` for each
/// that it does not return.
pub fn whole(alloc: Global, bytes: &[u8]) -> Result<String, Error> {
    let value = decode_value(alloc, bytes)?;
    let mut text = String::new(alloc);
    match value.whole_len() {
        Some(len) => text.push_str(&format!(in alloc; "{len}")?)?,
        None => text.push_str("none")?,
    }
    match value.whole_bytes(alloc) {
        Some(bytes) => text.push_str(&format!(in alloc; " {}", hex::encode(alloc, &bytes)?)?)?,
        None => text.push_str(" none")?,
    }
    Ok(text)
}

/// Returns the number of elements or pairs of the compound, the size of the value, and whether its
/// bytes are the given ones and its image is itself.
pub fn long(alloc: Global, bytes: &[u8]) -> Result<String, Error> {
    let value = decode_value(alloc, bytes)?;
    let count = count_of(alloc, &value)?;
    let size = serialized_size(&value)?;
    let is_written = to_vec(alloc, &value)?.as_slice() == bytes;
    let is_image = to_value(alloc, &value)? == value;
    Ok(format!(in alloc; "{count} {size} {is_written} {is_image}")?)
}

/// Returns whether the text of the value has these bytes; the arguments are `BYTES TEXT`.
pub fn text(alloc: Global, arguments: &str) -> Result<String, Error> {
    let Some((bytes, wanted)) = arguments.split_once(' ') else {
        return Err(Error::Message("one argument"));
    };
    let text = decode_value(alloc, &bytes_of(alloc, bytes)?)?.to_string(alloc)?;
    let is_wanted = text.as_bytes() == bytes_of(alloc, wanted)?.as_slice();
    Ok(format!(in alloc; "{is_wanted}")?)
}

/// Returns the format code of the value, in hexadecimal.
pub fn code(alloc: Global, bytes: &[u8]) -> Result<String, Error> {
    let code = decode_value(alloc, bytes)?.format_code();
    Ok(format!(in alloc; "{code:02x}")?)
}

/// Returns the number of elements of the list or array, or of pairs of the map.
pub fn count(alloc: Global, bytes: &[u8]) -> Result<String, Error> {
    count_of(alloc, &decode_value(alloc, bytes)?)
}

/// The same of the image of the lazy value of these bytes.
pub fn count_lazy(alloc: Global, bytes: &[u8]) -> Result<String, Error> {
    let lazy = LazyValue::from_reader(alloc, &mut SliceReader::new(bytes))?;
    count_of(alloc, &to_value(alloc, &lazy)?)
}

fn count_of(alloc: Global, value: &Value) -> Result<String, Error> {
    let count = match value {
        Value::List(items) => items.len(),
        Value::Map(map) => map.len(),
        Value::Array(array) => array.as_inner().len(),
        _ => return Err(Error::Message("no compound")),
    };
    Ok(format!(in alloc; "{count}")?)
}

/// Returns the number of lists around the empty one.
pub fn depth(alloc: Global, bytes: &[u8]) -> Result<String, Error> {
    let value = decode_value(alloc, bytes)?;
    match depth_of(&value) {
        Some(depth) => Ok(format!(in alloc; "{depth}")?),
        None => Err(Error::Message("no list around an empty one")),
    }
}

/// Returns the order of two values by `cmp`, and which of `<`, `=` and `>` are true for them.
pub fn compare(alloc: Global, arguments: &str) -> Result<String, Error> {
    let Some((first, second)) = arguments.split_once(' ') else {
        return Err(Error::Message("one argument"));
    };
    let first = decode_value(alloc, &bytes_of(alloc, first)?)?;
    let second = decode_value(alloc, &bytes_of(alloc, second)?)?;
    let mut text = String::from_str(alloc, order_of(&first, &second))?;
    text.push_str(if first < second { "<" } else { "" })?;
    text.push_str(if first == second { "=" } else { "" })?;
    text.push_str(if first > second { ">" } else { "" })?;
    Ok(text)
}

fn order_of(first: &Value, second: &Value) -> &'static str {
    match first.cmp(second) {
        Ordering::Less => "less ",
        Ordering::Equal => "equal ",
        Ordering::Greater => "greater ",
    }
}

/// Returns the encoding of the value, or the error, and its text, which is the same from `format!`
/// and `to_string`.
pub fn shown(alloc: Global, value: &Value) -> Result<String, Error> {
    let text = value.to_string(alloc)?;
    if format!(in alloc; "{value}")?.as_str() != text.as_str() {
        return Err(Error::Message("another text"));
    }
    let mut shown = match to_vec(alloc, value) {
        Ok(bytes) => word_of(alloc, &bytes)?,
        Err(error) => refusal(alloc, &error)?,
    };
    shown.push_str(" ")?;
    shown.push_str(&text)?;
    Ok(shown)
}

// Returns the number of lists around the empty one.
fn depth_of(value: &Value) -> Option<u32> {
    let mut inner = value;
    for depth in 0..1000u32 {
        let Value::List(items) = inner else {
            return None;
        };
        let Some(item) = items.first() else {
            return Some(depth);
        };
        inner = item;
    }
    None
}
