//! Round trips of null and the scalars.

use crate::round_trips::RoundTrip;
use amqp_data::{ByteBuf, Dec32, Dec64, Dec128, F32Bits, F64Bits, Symbol, Timestamp, Uuid};

impl RoundTrip for () {
    fn law() {}
}

impl RoundTrip for bool {
    fn law() {}
}

impl RoundTrip for u8 {
    fn law() {}
}

impl RoundTrip for u16 {
    fn law() {}
}

impl RoundTrip for u32 {
    fn law() {}
}

impl RoundTrip for u64 {
    fn law() {}
}

impl RoundTrip for i8 {
    fn law() {}
}

impl RoundTrip for i16 {
    fn law() {}
}

impl RoundTrip for i32 {
    fn law() {}
}

impl RoundTrip for i64 {
    fn law() {}
}

impl RoundTrip for char {
    fn law() {}
}

impl RoundTrip for F32Bits {
    fn law() {}
}

impl RoundTrip for F64Bits {
    fn law() {}
}

impl RoundTrip for Dec32 {
    fn law() {}
}

impl RoundTrip for Dec64 {
    fn law() {}
}

impl RoundTrip for Dec128 {
    fn law() {}
}

impl RoundTrip for Timestamp {
    fn law() {}
}

impl RoundTrip for Uuid {
    fn law() {}
}

impl RoundTrip for ByteBuf {
    fn law() {}
}

impl RoundTrip for String {
    fn law() {}
}

impl RoundTrip for Symbol {
    fn law() {}
}
