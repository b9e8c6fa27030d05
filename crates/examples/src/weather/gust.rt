//! A described list that omits the absent fields at its end.
//!
//! For readers who need composites as the AMQP standard writes them. `tools/derive` writes the
//! impls from the annotation above the struct.

mod derived;

/// A gust of wind: a list described by the code 0x17.
// amqp: encoding = "list", code = 0x17
#[derive(Debug, PartialEq, Drop)]
pub struct Gust {
    /// The speed, in metres per hour.
    pub speed: u32,
    /// The direction that the wind comes from, in degrees, if known.
    pub from: Option<u16>,
    /// The minute of the day, if known.
    pub at: Option<u16>,
}
