//! Structs of 14 to 32 fields of all kinds.

mod derived;

use crate::lists::Place;
use serde_amqp::Value;
use serde_amqp::primitives::{
    Array, ByteBuf, F32Bits, F64Bits, OrderedMap, Symbol, Timestamp, Uuid,
};

/// A list of 20 fields.
// amqp: encoding = "list", code = 0x14, name = "test:order", rename_all = "kebab-case", new
#[derive(Debug, PartialEq, Drop)]
pub struct Order {
    pub id: u64,
    pub title: String,
    pub remark: Option<String>,
    pub labels: Vec<Symbol>,
    // amqp: default = 3
    pub priority: u8,
    pub made: Timestamp,
    pub photograph: Option<ByteBuf>,
    pub properties: OrderedMap<String, Value>,
    pub maker: Uuid,
    pub weight: Option<u32>,
    pub from: Place,
    pub to: Option<Place>,
    // amqp: default = true
    pub is_open: bool,
    pub prices: Array<u32>,
    pub balance: i64,
    pub height: F64Bits,
    pub grade: char,
    pub width: Option<F32Bits>,
    pub kind: Option<Symbol>,
    pub change: i32,
}

/// A map of 20 fields.
// amqp: encoding = "map", code = 0x15, name = "test:stock", rename_all = "kebab-case"
#[derive(Debug, PartialEq, Drop)]
pub struct Stock {
    pub number: u32,
    pub place: Place,
    pub title: String,
    pub kind: Option<Symbol>,
    pub notes: Option<OrderedMap<Symbol, Value>>,
    // amqp: default = 1
    pub size: u16,
    pub made: Option<Timestamp>,
    pub is_sold: bool,
    pub maker: Option<String>,
    pub price: u64,
    // amqp: default = 20
    pub tax: Option<u8>,
    pub photograph: ByteBuf,
    pub labels: Option<Vec<String>>,
    pub id: Option<Uuid>,
    pub least: i16,
    pub most: Option<i64>,
    pub grade: Option<char>,
    pub others: Option<Array<u64>>,
    pub back: Option<Place>,
    pub rating: Option<u32>,
}

/// A list of 32 fields.
// amqp: encoding = "list", code = 0x16
#[derive(Debug, PartialEq, Drop)]
pub struct Year {
    pub station: String,
    pub number: u32,
    pub place: Place,
    pub height: Option<i32>,
    pub first: Timestamp,
    pub last: Option<Timestamp>,
    // amqp: default = 365
    pub days: u16,
    pub rain: Vec<u32>,
    pub snow: Option<Vec<u32>>,
    pub warmest: i16,
    pub coldest: i16,
    pub mean: F32Bits,
    pub spread: Option<F64Bits>,
    pub winds: Array<u8>,
    pub calm: Option<u32>,
    // amqp: default
    pub is_leap: bool,
    pub observer: Option<String>,
    pub kinds: Option<Vec<Symbol>>,
    pub remarks: OrderedMap<u16, String>,
    pub others: Option<OrderedMap<Symbol, Value>>,
    pub id: Uuid,
    pub former: Option<Uuid>,
    pub curve: ByteBuf,
    pub picture: Option<ByteBuf>,
    pub grade: char,
    pub mark: Option<char>,
    pub hours: u64,
    // amqp: default = 12
    pub months: Option<u8>,
    pub change: i8,
    pub lowest: Option<i64>,
    pub moved: Option<Place>,
    pub is_final: bool,
}

/// A list of 14 fields with defaults.
// amqp: encoding = "list", code = 0x17, name = "test:settings", rename_all = "kebab-case"
#[derive(Debug, PartialEq, Drop)]
pub struct Settings {
    // amqp: default = 1
    pub a: u8,
    // amqp: default = 2
    pub b: u16,
    // amqp: default = 3
    pub c: u32,
    // amqp: default = 4
    pub d: u64,
    // amqp: default = true
    pub e: bool,
    // amqp: default = 6
    pub f: Option<u8>,
    // amqp: default = 7
    pub g: Option<u16>,
    // amqp: default = 8
    pub h: Option<u32>,
    // amqp: default = 9
    pub i: Option<u64>,
    // amqp: default
    pub j: Option<bool>,
    // amqp: default = 11
    pub k: u32,
    // amqp: default = 12
    pub l: u32,
    // amqp: default = 13
    pub m: u64,
    // amqp: default = 14
    pub n: u8,
}
