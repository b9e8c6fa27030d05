//! Types that are only read, only written, or do not round-trip.

mod derived;

use serde_amqp::lazy::LazyValue;

/// A value that is only read.
// amqp: encoding = "basic", read_only
#[derive(Debug, PartialEq, Drop)]
pub struct Seen(pub u32);

/// A value that is only written.
// amqp: encoding = "basic", write_only
#[derive(Debug, PartialEq, Drop)]
pub struct Sent(pub u32);

/// A list of all fields that is only written.
// amqp: encoding = "list", full, write_only
#[derive(Debug, PartialEq, Drop)]
pub struct Line {
    pub number: u32,
    pub text: Option<String>,
}

/// A map after a name that is only written.
// amqp: encoding = "map", name = "test:note", write_only
#[derive(Debug, PartialEq, Drop)]
pub struct Note {
    pub number: u32,
    pub text: Option<String>,
}

/// A map after a name that is only read.
// amqp: encoding = "map", name = "test:reply", read_only
#[derive(Debug, PartialEq, Drop)]
pub struct Reply {
    pub number: u32,
}

/// A list with a value that is not decoded.
// amqp: encoding = "list", code = 0x13, no_round_trip
#[derive(Drop)]
pub struct Envelope {
    pub subject: Option<String>,
    pub content: LazyValue,
}

/// One of two ubytes, only written.
// amqp: encoding = "restricted", source = "u8", values = [0, 7], write_only
#[derive(Debug, PartialEq, Drop)]
pub enum Said {
    Never,
    Daily,
}

/// A variant that is only read.
// amqp: encoding = "index", read_only
#[derive(Debug, PartialEq, Drop)]
pub enum Heading {
    Ahead,
    Both { from: u32, to: u32 },
}

/// A variant that is only written.
// amqp: encoding = "index", write_only
#[derive(Debug, PartialEq, Drop)]
pub enum Turn {
    Halt,
    Both { from: u32, to: u32 },
}
