//! Structs of one field, and enums.

mod derived;

use crate::wide::{Order, Settings};
use serde_amqp::primitives::{Symbol, Uuid};

/// A uint, which can be the key of a map.
// amqp: encoding = "basic", map_key
#[derive(Debug, PartialEq, Drop)]
pub struct Number(pub u32);

/// A value in a field with a name, after a name.
// amqp: encoding = "basic", name = "test:weight"
#[derive(Debug, PartialEq, Drop)]
pub struct Weight {
    pub grams: u32,
}

/// A value after a code.
// amqp: encoding = "basic", code = 0x12
#[derive(Debug, PartialEq, Drop)]
pub struct Price(pub u64);

/// A number, a text or a UUID.
// amqp: encoding = "scalar"
#[derive(Debug, PartialEq, Drop)]
pub enum Address {
    Number(u64),
    Text(String),
    Id(Uuid),
}

/// One of two strings.
// amqp: encoding = "restricted", source = "String", values = ["east", "west"]
#[derive(Debug, PartialEq, Drop)]
pub enum Side {
    East,
    West,
}

/// One of two ushorts.
// amqp: encoding = "restricted", source = "u16", values = [80, 443]
#[derive(Debug, PartialEq, Drop)]
pub enum Port {
    Plain,
    Secure,
}

/// One of two composites.
// amqp: encoding = "described"
#[derive(Debug, PartialEq, Drop)]
pub enum Request {
    Order(Order),
    Settings(Settings),
}

/// A variant by its index.
// amqp: encoding = "index"
#[derive(Debug, PartialEq, Drop)]
pub enum Figure {
    Point,
    Circle(u32),
    Box(u16, u16),
    Label {
        text: String,
        colour: Option<Symbol>,
    },
}
