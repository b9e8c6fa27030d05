//! Reads scalars, and the headers of lists, maps, arrays and described values, from the start of
//! bytes.
//!
//! Each function takes a format code that has been read and the bytes after it, and returns what it
//! read with the bytes that are left, or fails with `GaveUp`. A caller then calls `decode_value`,
//! which reads every form of a value, or returns an error with its cause.

mod compounds;
mod gave_up;
mod integers;
mod scalars;
mod texts;
mod values;

pub use compounds::{
    below, split_array, split_byte, split_bytes, split_described, split_list, split_map,
    split_number, split_sized,
};
pub use gave_up::GaveUp;
pub use integers::{
    read_byte, read_int, read_long, read_short, read_ubyte, read_uint, read_ulong, read_ushort,
};
pub use scalars::{
    read_bool, read_char, read_decimal32, read_decimal64, read_decimal128, read_double, read_float,
    read_null, read_timestamp, read_uuid,
};
pub use texts::{read_binary, read_string, read_symbol, split_string};
pub use values::{read_value_after_code, split_descriptor};
