//! Structs of one and nine fields, required, optional and with defaults.

mod derived;

/// The reading of one instrument.
// amqp: encoding = "list", code = 0x30
#[derive(Debug, PartialEq, Drop)]
pub struct Pressure {
    /// The pressure of the air, in pascals.
    pub pascals: u32,
}

/// What a station measures each hour.
// amqp: encoding = "list", code = 0x31, name = "examples:hour", rename_all = "kebab-case"
#[derive(Debug, PartialEq, Drop)]
pub struct Hour {
    /// The number of the station.
    pub station: u32,
    /// The hour since the beginning of the year.
    pub hour: u16,
    /// The temperature, in thousandths of a degree Celsius.
    pub temperature: i32,
    /// The pressure, if the instrument works.
    pub pressure: Option<u32>,
    /// The relative humidity, in percent.
    // amqp: default = 50
    pub humidity: Option<u8>,
    /// Whether it rains.
    // amqp: default = false
    pub is_raining: Option<bool>,
    /// What an observer adds.
    pub remark: Option<String>,
    /// The direction of the wind, in degrees, if there is any.
    pub wind_from: Option<u16>,
    /// The speed of the wind, in metres per hour.
    pub wind_speed: Option<u32>,
}
