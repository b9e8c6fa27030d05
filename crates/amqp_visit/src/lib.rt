//! Visitors: reading an untyped value call by call, as serde does.
//!
//! A [`Deserializer`] passes its value as a [`Visit`] to a [`Visitor`], which reads the parts by
//! accessors: [`SeqAccess`], [`MapAccess`], [`EnumAccess`] and [`VariantAccess`]. It is for types
//! whose reading the seeds of `amqp_de` do not describe. Such a type reads any source by
//! [`Deserializer::from_source`] and [`finish`].
#![tactic(auto)]

mod access;
mod compounds;
mod deserializer;
mod enums;
mod names;
mod newtypes;
mod numbers;
mod scalars;
mod visit;
mod visitor;

pub use access::{EnumAccess, MapAccess, SeqAccess, VariantAccess};
pub use amqp_de::{Deserialize, Of as TypeSeed, Seed as DeserializeSeed};
pub use deserializer::{Deserializer, finish};
pub use visit::Visit;
pub use visitor::Visitor;
