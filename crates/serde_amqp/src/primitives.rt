//! AMQP types that have no counterpart in Rust (AMQP 1.0 part 1, section 1.6), and conversion of a
//! day number to a date.

pub use amqp_data::{
    Array, ByteBuf, Dec32, Dec64, Dec128, Entry, F32Bits, F64Bits, Iter, IterMut, Keys, MapIndex,
    Multiple, OrderedMap, OrderedMapBuilder, Symbol, SymbolRef, Timestamp, Uuid, Values, ValuesMut,
    civil_from_days, finds_distinct_keys,
};
pub use amqp_frame::LazyValue;
