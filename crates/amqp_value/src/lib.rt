//! The untyped value of AMQP 1.0 data.
//!
//! A `Value` holds data of any AMQP type. Its equality, order and hash depend on its contents only,
//! and `Display` writes its text for logs and diagnostics. `laws` states how the image of a tree,
//! which a value serializer returns, is encoded.
#![tactic(auto)]

mod accessors;
mod build;
mod escape;
mod format_code;
mod from;
mod inserts;
pub mod laws;
mod map_builder;
mod serialize;
mod show;
mod try_from;
mod value;
mod whole;

pub use accessors::ValueKind;
pub use build::{BuildList, BuildMap, IntoValue};
pub use inserts::Inserts;
pub use map_builder::{MapBuilder, is_short_key};
pub use try_from::ConvertFault;
pub use value::Value;
