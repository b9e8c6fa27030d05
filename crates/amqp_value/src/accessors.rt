//! Accessors: calls that look into a value without a `match`.
//!
//! None of them allocates. `as_` borrows or copies the content, `as_.._mut` lends it to be changed,
//! and `into_` moves it out. To convert the elements of a container too, use `TryFrom`.

mod containers;
mod kind;
mod lent;
mod owned;
mod scalars;
mod texts;

pub use kind::ValueKind;
