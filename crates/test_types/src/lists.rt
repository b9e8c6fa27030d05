//! Lists: with and without a descriptor, of named fields, of fields without names, and of none.

mod derived;

use serde_amqp::primitives::Symbol;

/// A place: a list without a descriptor.
// amqp: encoding = "list", new
#[derive(Debug, PartialEq, Drop)]
pub struct Place {
    pub x: i32,
    pub y: i32,
    pub level: Option<i32>,
}

/// A list of all fields, without names, after a name.
// amqp: encoding = "list", name = "test:pair", full
#[derive(Debug, PartialEq, Drop)]
pub struct Pair(pub u32, pub Option<String>);

/// A list without fields.
// amqp: encoding = "list", code = 0x10
#[derive(Debug, PartialEq, Drop)]
pub struct Gap;

/// A list of all fields that is also read by their names.
// amqp: encoding = "list", full, by_name
#[derive(Debug, PartialEq, Drop)]
pub struct Column {
    pub number: u32,
    // amqp: default = true
    pub is_wide: bool,
    pub colour: Option<Symbol>,
}
