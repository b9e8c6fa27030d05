//! A struct of 32 fields, most of them required.

mod derived;

/// The rain of each day of a month, in thousandths of a millimetre.
// amqp: encoding = "list", code = 0x33
#[derive(Debug, PartialEq, Drop)]
pub struct Month {
    pub station: String,
    pub d1: u32,
    pub d2: u32,
    pub d3: u32,
    pub d4: u32,
    pub d5: u32,
    pub d6: u32,
    pub d7: u32,
    pub d8: u32,
    pub d9: u32,
    pub d10: u32,
    pub d11: u32,
    pub d12: u32,
    pub d13: u32,
    pub d14: u32,
    pub d15: u32,
    pub d16: u32,
    pub d17: u32,
    pub d18: u32,
    pub d19: u32,
    pub d20: u32,
    pub d21: u32,
    pub d22: u32,
    pub d23: u32,
    pub d24: u32,
    pub d25: u32,
    pub d26: u32,
    pub d27: u32,
    pub d28: u32,
    // amqp: default = 0
    pub d29: Option<u32>,
    pub d30: Option<u32>,
    pub d31: Option<u32>,
}
