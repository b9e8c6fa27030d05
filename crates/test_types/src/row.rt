//! The results of rows.

use crate::lists::{Column, Gap, Pair, Place};
use crate::maps::{Blank, Product, Shop};
use crate::partial::{Envelope, Heading, Line, Note, Reply, Said, Seen, Sent, Turn};
use crate::singles::{Address, Figure, Number, Port, Price, Request, Side, Weight};
use crate::wide::{Order, Settings, Stock, Year};
use serde_amqp::value::{RoundTrip, round_trip};
use serde_amqp::{Error, from_slice, round_trip_bytes, to_vec};
use std::alloc::Global;

/// Returns what is printed after a row: the name of a type and an encoding.
pub fn answer(alloc: Global, line: &str) -> Result<String, Error> {
    let Some((name, word)) = line.split_once(' ') else {
        return Err(Error::Message("no encoding"));
    };
    let Ok(bytes) = hex::decode(alloc, word.as_bytes()) else {
        return Err(Error::Message("no hexadecimal"));
    };
    match written(alloc, name, &bytes)? {
        Some(written) => Ok(hex::encode(alloc, &written)?),
        None => Err(Error::Message("no type")),
    }
}

// Returns the bytes by which the value is written.
fn written(alloc: Global, name: &str, bytes: &[u8]) -> Result<Option<Vec<u8>>, Error> {
    if let Some(written) = struct_written(alloc, name, bytes)? {
        return Ok(Some(written));
    }
    if let Some(written) = other_written(alloc, name, bytes)? {
        return Ok(Some(written));
    }
    partly(alloc, name, bytes)
}

fn struct_written(alloc: Global, name: &str, bytes: &[u8]) -> Result<Option<Vec<u8>>, Error> {
    Ok(Some(match name {
        "Place" => again::<Place>(alloc, bytes)?,
        "Pair" => again::<Pair>(alloc, bytes)?,
        "Gap" => again::<Gap>(alloc, bytes)?,
        "Column" => again::<Column>(alloc, bytes)?,
        "Blank" => again::<Blank>(alloc, bytes)?,
        "Shop" => again::<Shop>(alloc, bytes)?,
        "Product" => again::<Product>(alloc, bytes)?,
        "Order" => again::<Order>(alloc, bytes)?,
        "Stock" => again::<Stock>(alloc, bytes)?,
        "Year" => again::<Year>(alloc, bytes)?,
        "Settings" => again::<Settings>(alloc, bytes)?,
        _ => return Ok(None),
    }))
}

fn other_written(alloc: Global, name: &str, bytes: &[u8]) -> Result<Option<Vec<u8>>, Error> {
    Ok(Some(match name {
        "Number" => again::<Number>(alloc, bytes)?,
        "Weight" => again::<Weight>(alloc, bytes)?,
        "Price" => again::<Price>(alloc, bytes)?,
        "Address" => again::<Address>(alloc, bytes)?,
        "Side" => again::<Side>(alloc, bytes)?,
        "Port" => again::<Port>(alloc, bytes)?,
        "Request" => again::<Request>(alloc, bytes)?,
        "Figure" => again::<Figure>(alloc, bytes)?,
        _ => return Ok(None),
    }))
}

// The same of a type that is only read, only written, or does not round-trip.
fn partly(alloc: Global, name: &str, bytes: &[u8]) -> Result<Option<Vec<u8>>, Error> {
    Ok(Some(match name {
        "Seen" => to_vec(alloc, &Sent(from_slice::<Seen>(alloc, bytes)?.0))?,
        "Reply" => {
            let number = from_slice::<Reply>(alloc, bytes)?.number;
            to_vec(alloc, &Note { number, text: None })?
        }
        "Heading" => to_vec(alloc, &turn(from_slice::<Heading>(alloc, bytes)?))?,
        "Envelope" => to_vec(alloc, &from_slice::<Envelope>(alloc, bytes)?)?,
        "Line" => {
            let number = from_slice::<Seen>(alloc, bytes)?.0;
            to_vec(alloc, &Line { number, text: None })?
        }
        "Said" => match from_slice::<bool>(alloc, bytes)? {
            true => to_vec(alloc, &Said::Daily)?,
            false => to_vec(alloc, &Said::Never)?,
        },
        _ => return Ok(None),
    }))
}

fn turn(heading: Heading) -> Turn {
    match heading {
        Heading::Ahead => Turn::Halt,
        Heading::Both { from, to } => Turn::Both { from, to },
    }
}

// Reads a value from its bytes, writes it, and compares it with what is read again from the bytes
// and from the untyped value.
fn again<T: RoundTrip + PartialEq>(alloc: Global, bytes: &[u8]) -> Result<Vec<u8>, Error> {
    let value = from_slice::<T>(alloc, bytes)?;
    if round_trip(alloc, &value)? != value || round_trip_bytes(alloc, &value)? != value {
        return Err(Error::Message("another value"));
    }
    to_vec(alloc, &value)
}
