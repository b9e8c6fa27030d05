//! Evaluates rows: prints each line of the input, followed by the result of its call.
//!
//! A row is the name of a call and its arguments, with bytes in hexadecimal (`notation`). A line
//! that begins with `#` is a comment. Comments and empty lines are printed unchanged.
//!
//! | Row | Result |
//! |---|---|
//! | `decode BYTES` | the value, as the bytes that `to_vec` returns and its text |
//! | `decode_within LIMIT BYTES` | like `decode`, with `decode_value_limited` |
//! | `whole BYTES` | the length and the bytes by which the value encodes itself: `whole_len`, `whole_bytes` |
//! | `long BYTES` | like `count`, with the size, and whether bytes and image are those given |
//! | `place BYTES` | the offset and the depth of the first fault, with the error, or `none`: `decode_value_located` and `fault_place` |
//! | `place_within LIMIT BYTES` | the error of `decode_value_limited_located`, if any, and the place of the first fault, or `none` |
//! | `text BYTES TEXT` | whether the text of the value has these bytes |
//! | `code BYTES` | the format code of the value |
//! | `count BYTES` | the number of elements or pairs of the compound |
//! | `count_lazy BYTES` | the same of the image of the lazy value |
//! | `depth BYTES` | the number of lists around the empty one |
//! | `compare BYTES BYTES` | `cmp` of the two values, and which of `<`, `=` and `>` are true |
//! | `encoded_value BYTES` | `frame_len` and `is_encoded_value` |
//! | `cut BYTES` | the result of each call of `LazyValue::from_reader` until no byte is left |
//! | `cut_within LENGTH BYTES` | the result of `LazyValue::from_reader_limited`, and the bytes that are left |
//! | `prefixes BYTES` | the number of proper prefixes, and of incomplete ones |
//!
//! An error is printed in angle brackets. The bytes of a value show its kind, which its text does
//! not. The rows of calls that read or write a type are in `tests/rows`, a program that has these
//! calls too.
#![tactic(auto)]

mod cuts;
mod notation;
mod row;
mod values;

use std::io;
use std::io::{BufWriter, Write};

fn main(rt: HostRuntime) -> io::Result<()> {
    let alloc = rt.alloc();
    let input = io::read_to_string(alloc, rt.reader())?;
    let mut output = BufWriter::new(alloc, io::writer(&rt))?;
    for line in input.lines() {
        output.write_all(line.as_bytes())?;
        if !line.is_empty() && !line.starts_with('#') {
            output.write_all(b" = ")?;
            match row::answer(alloc, line) {
                Ok(text) => output.write_all(text.as_bytes())?,
                Err(error) => write!(output, "<{error}>")?,
            }
        }
        output.write_all(b"\n")?;
    }
    output.flush()
}
