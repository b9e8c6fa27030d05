//! Prints a gust as bytes, and then the gusts in standard input.
#![tactic(auto)]

mod gust;

use gust::Gust;
use serde_amqp::decode::decode_value_limited;
use serde_amqp::lazy::LazyValue;
use serde_amqp::read::{IoReader, Read};
use serde_amqp::value::round_trip;
use serde_amqp::{Error, from_value, to_value, to_vec};
use std::alloc::Global;
use std::io::{BufReader, Read as _};

/// Prints a gust, and the gusts that it reads.
pub fn main(rt: HostRuntime) -> Result<(), Error> {
    let alloc = rt.alloc();
    let gust = Gust {
        speed: 90_000,
        from: None,
        at: Some(725),
    };
    print_gust(&rt, alloc, &round_trip(alloc, &gust)?)?;
    let input = BufReader::new(alloc, rt.reader()).map_err(|_| Error::OutOfMemory)?;
    receive(&rt, alloc, &mut IoReader::new(input.take(65_536)))
}

// Prints the encoding of the gust, and its untyped value.
fn print_gust(rt: &impl Print, alloc: Global, gust: &Gust) -> Result<(), Error> {
    for byte in to_vec(alloc, gust)?.iter() {
        let _ = print!(rt; "{byte:02x}");
    }
    let value = to_value(alloc, gust)?;
    let _ = println!(rt; " {value}");
    Ok(())
}

// Prints the gusts until the input ends, and the error of a value that is no gust.
fn receive<R: Read>(rt: &impl Print, alloc: Global, reader: &mut R) -> Result<(), Error> {
    for _ in 0..u64::MAX {
        if reader.peek()?.is_none() {
            return Ok(());
        }
        let encoded = LazyValue::from_reader(alloc, reader)?;
        let value = decode_value_limited(alloc, encoded.as_slice(), 100)?;
        match from_value::<Gust>(alloc, value) {
            Ok(gust) => print_gust(rt, alloc, &gust)?,
            Err(error) => {
                let _ = println!(rt; "no gust: {error}");
            }
        }
    }
    Err(Error::TooLong)
}
