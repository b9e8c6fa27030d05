//! Types of the language and of AMQP that are read.

/// The content of a value, if it is of this kind.
macro_rules! of_kind {
    ($value:ident, $kind:ident) => {
        match $value {
            Value::$kind(content) => Some(content),
            _ => None,
        }
    };
}

mod arrays;
mod decimals;
mod described;
mod fixed_widths;
mod floats;
mod hash_maps;
mod holders;
mod lazy;
mod lists;
mod maps;
mod multiple;
mod signed;
mod texts;
mod transparent;
mod tuples;
mod unit;
mod unsigned;
