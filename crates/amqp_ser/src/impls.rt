//! The trees of Rust's own types and of the AMQP data types.

mod data;
mod holders;
mod lazy_value;
mod maps;
mod multiple;
mod scalars;
mod text;
mod tuples;
