//! Maps from the names of their fields.

mod derived;

/// A map without fields.
// amqp: encoding = "map"
#[derive(Debug, PartialEq, Drop)]
pub struct Blank {}

/// A map after a name.
// amqp: encoding = "map", name = "test:shop"
#[derive(Debug, PartialEq, Drop)]
pub struct Shop {
    pub number: u32,
    pub motto: Option<String>,
}

/// A map after a code.
// amqp: encoding = "map", code = 0x11, rename_all = "kebab-case", new
#[derive(Debug, PartialEq, Drop)]
pub struct Product {
    pub product_name: String,
    // amqp: name = "number"
    pub count: u32,
    // amqp: default
    pub stock: u16,
    // amqp: default = 1
    pub size: Option<u64>,
}
