//! Structs of one to 32 fields, which are written, and read from their bytes and from their untyped
//! values.
//!
//! For readers who ask how many fields a struct may have. `tools/derive` writes the impls from the
//! annotations above the structs, and the check proves that each value is read back.

mod hours;
mod month;

use hours::{Hour, Pressure};
use month::Month;
use serde_amqp::value::{RoundTrip, round_trip};
use serde_amqp::{Error, from_slice, to_vec};
use std::alloc::Global;

/// Prints the length of a value of each struct, and whether it was read back both ways.
pub fn print_lengths(rt: &impl Print, alloc: Global) -> Result<(), Error> {
    print_length(rt, alloc, &Pressure { pascals: 101_325 })?;
    print_length(rt, alloc, &new_hour(alloc)?)?;
    print_length(rt, alloc, &new_month(alloc)?)
}

// Writes a value, and reads it from its bytes and from its untyped value.
fn print_length<T>(rt: &impl Print, alloc: Global, value: &T) -> Result<(), Error>
where
    T: RoundTrip + PartialEq,
{
    let bytes = to_vec(alloc, value)?;
    let from_bytes = from_slice::<T>(alloc, &bytes)?;
    let from_untyped = round_trip(alloc, value)?;
    let is_same = from_bytes == *value && from_untyped == *value;
    let _ = println!(rt; "{} bytes, read back: {is_same}", bytes.len());
    Ok(())
}

fn new_hour(alloc: Global) -> Result<Hour, Error> {
    Ok(Hour {
        station: 12,
        hour: 725,
        temperature: -300,
        pressure: None,
        humidity: Some(81),
        is_raining: Some(true),
        remark: Some(String::from_str(alloc, "fog")?),
        wind_from: None,
        wind_speed: None,
    })
}

fn new_month(alloc: Global) -> Result<Month, Error> {
    Ok(Month {
        station: String::from_str(alloc, "Ny-Alesund")?,
        d1: 1,
        d2: 2,
        d3: 3,
        d4: 4,
        d5: 5,
        d6: 6,
        d7: 7,
        d8: 8,
        d9: 9,
        d10: 10,
        d11: 11,
        d12: 12,
        d13: 13,
        d14: 14,
        d15: 15,
        d16: 16,
        d17: 17,
        d18: 18,
        d19: 19,
        d20: 20,
        d21: 21,
        d22: 22,
        d23: 23,
        d24: 24,
        d25: 25,
        d26: 26,
        d27: 27,
        d28: 28,
        d29: Some(29),
        d30: None,
        d31: None,
    })
}
