//! Reads types of every annotation of `tools/derive`, and writes them again: prints each line of
//! the input, followed by the encoding that is written.
//!
//! A row is the name of a type and an encoding in hexadecimal. An error is printed in angle
//! brackets. Lines that begin with `#` are printed unchanged. The check proves the impls, also of
//! structs of 14 to 32 fields of all kinds.
#![tactic(auto)]

mod lists;
mod maps;
mod partial;
mod row;
mod singles;
mod wide;

use std::io;
use std::io::{BufWriter, Write};

fn main(rt: HostRuntime) -> io::Result<()> {
    let alloc = rt.alloc();
    let input = io::read_to_string(alloc, rt.reader())?;
    let mut output = BufWriter::new(alloc, io::writer(&rt))?;
    for line in input.lines() {
        output.write_all(line.as_bytes())?;
        if !line.starts_with('#') {
            output.write_all(b" = ")?;
            match row::answer(alloc, line) {
                Ok(text) => output.write_all(text.as_bytes())?,
                Err(error) => write!(output, "<{error}>")?,
            }
        }
        output.write_all(b"\n")?;
    }
    output.flush()
}
