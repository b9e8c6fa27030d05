//! The call of a row.

use crate::{cuts, notation, values};
use amqp_data::Error;
use std::alloc::Global;

/// Returns the result of the row's call.
pub fn answer(alloc: Global, line: &str) -> Result<String, Error> {
    let Some((call, arguments)) = line.split_once(' ') else {
        return Err(Error::Message("no arguments"));
    };
    match call {
        "decode_within" => values::decode_within(alloc, arguments),
        "place_within" => values::place_within(alloc, arguments),
        "cut_within" => cuts::cut_within(alloc, arguments),
        "text" => values::text(alloc, arguments),
        "compare" => values::compare(alloc, arguments),
        _ => of_bytes(alloc, call, &notation::bytes_of(alloc, arguments)?),
    }
}

// Returns the result of a call whose only argument is bytes.
fn of_bytes(alloc: Global, call: &str, bytes: &[u8]) -> Result<String, Error> {
    match call {
        "decode" => values::decode(alloc, bytes),
        "whole" => values::whole(alloc, bytes),
        "long" => values::long(alloc, bytes),
        "code" => values::code(alloc, bytes),
        "place" => values::place(alloc, bytes),
        "count" => values::count(alloc, bytes),
        "count_lazy" => values::count_lazy(alloc, bytes),
        "depth" => values::depth(alloc, bytes),
        "encoded_value" => cuts::encoded_value(alloc, bytes),
        "cut" => cuts::cut(alloc, bytes),
        "prefixes" => cuts::prefixes(alloc, bytes),
        _ => Err(Error::Message("no such call")),
    }
}

/// Returns the error in angle brackets.
pub fn refusal(alloc: Global, error: &Error) -> Result<String, Error> {
    Ok(format!(in alloc; "<{error}>")?)
}
