//! Accessors that read lists, maps and variants one element at a time.

mod map;
mod seq;
mod variant;

pub use map::MapAccess;
pub use seq::SeqAccess;
pub use variant::{EnumAccess, VariantAccess};
