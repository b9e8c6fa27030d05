//! Bytes in hexadecimal, with repetition.
//!
//! A word consists of parts joined by `+`. `HEX` denotes bytes, and `HEX*COUNT` these bytes `COUNT`
//! times. `HEX#COUNT` denotes these bytes `COUNT` times, each time followed by the number of the
//! repetition, from 1, in four bytes. `CODE^COUNT` denotes `COUNT` nested compounds of one element
//! around everything that follows: each has the code, a size and a count of four bytes each, and
//! the element. `-` denotes no bytes.

use amqp_data::Error;
use hex::FromHexError;
use std::alloc::Global;

/// Returns the bytes that the word denotes.
pub fn bytes_of(alloc: Global, word: &str) -> Result<Vec<u8>, Error> {
    let mut bytes = Vec::new(alloc);
    if word == "-" {
        return Ok(bytes);
    }
    for part in word.rsplit('+') {
        bytes = followed(alloc, part, &bytes)?;
    }
    Ok(bytes)
}

/// Returns the word that denotes the bytes.
pub fn word_of(alloc: Global, bytes: &[u8]) -> Result<String, Error> {
    if bytes.is_empty() {
        return Ok(String::from_str(alloc, "-")?);
    }
    Ok(hex::encode(alloc, bytes)?)
}

/// Returns the decimal number that the word denotes.
pub fn number_of(word: &str) -> Result<u32, Error> {
    match word.parse() {
        Ok(number) => Ok(number),
        Err(_) => Err(Error::Message("no number")),
    }
}

// Returns the bytes of one part, followed by the rest.
fn followed(alloc: Global, part: &str, rest: &[u8]) -> Result<Vec<u8>, Error> {
    let mut bytes = if let Some((digits, count)) = part.split_once('*') {
        repeated(alloc, &digits_of(alloc, digits)?, number_of(count)?)?
    } else if let Some((digits, count)) = part.split_once('#') {
        numbered(alloc, &digits_of(alloc, digits)?, number_of(count)?)?
    } else if let Some((code, depth)) = part.split_once('^') {
        opened(
            alloc,
            &digits_of(alloc, code)?,
            number_of(depth)?,
            rest.len(),
        )?
    } else {
        digits_of(alloc, part)?
    };
    bytes.extend_from_slice(rest)?;
    Ok(bytes)
}

fn digits_of(alloc: Global, digits: &str) -> Result<Vec<u8>, Error> {
    match hex::decode(alloc, digits.as_bytes()) {
        Ok(bytes) => Ok(bytes),
        Err(FromHexError::OutOfMemory) => Err(Error::OutOfMemory),
        Err(_) => Err(Error::Message("no hexadecimal")),
    }
}

fn repeated(alloc: Global, piece: &[u8], count: u32) -> Result<Vec<u8>, Error> {
    let mut bytes = Vec::new(alloc);
    for _ in 0..count {
        bytes.extend_from_slice(piece)?;
    }
    Ok(bytes)
}

fn numbered(alloc: Global, piece: &[u8], count: u32) -> Result<Vec<u8>, Error> {
    let mut bytes = Vec::new(alloc);
    for number in 0..count {
        bytes.extend_from_slice(piece)?;
        bytes.extend_from_slice(&number.wrapping_add(1).to_be_bytes())?;
    }
    Ok(bytes)
}

// Returns the headers of `depth` nested compounds of one element around `inside` bytes.
fn opened(alloc: Global, code: &[u8], depth: u32, inside: usize) -> Result<Vec<u8>, Error> {
    let Ok(inside) = u32::try_from(inside) else {
        return Err(Error::TooLong);
    };
    let mut bytes = Vec::new(alloc);
    for outer in 0..depth {
        let inner = depth.wrapping_sub(outer).wrapping_sub(1);
        let size = inside.wrapping_add(4).wrapping_add(inner.wrapping_mul(9));
        bytes.extend_from_slice(code)?;
        bytes.extend_from_slice(&size.to_be_bytes())?;
        bytes.extend_from_slice(&[0, 0, 0, 1])?;
    }
    Ok(bytes)
}
