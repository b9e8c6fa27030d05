//! Serialization of values through their data trees.
//!
//! A type that implements `Serialize` declares the data tree of its values. A `Serializer` turns a
//! data tree into its length, its bytes or an untyped value. There is one law: the result of
//! serializing a value is the serializer's result for the tree of the value. This crate defines the
//! traits, the compounds and the trees of Rust's own types. It does not write bytes.
//!
//! `Pending` is what a serializer keeps before the next tree.
#![tactic(auto)]

mod calls;
mod composite;
mod compound;
mod fields;
mod fixed;
mod hint;
mod impls;
mod kind;
pub mod laws;
mod marker;
mod name;
mod names;
mod optional_field;
mod pending;
mod serialize;
mod serializer;
mod struct_encoding;
mod whole;

pub use calls::compounds::SerializeCompounds;
pub use calls::scalars::SerializeScalars;
pub use composite::{ListOf, MapOf, SymbolMapOf, VariantOf};
pub use compound::{
    Compound, SerializeMap, SerializeSeq, SerializeStruct, SerializeStructVariant, SerializeTuple,
    SerializeTupleStruct, SerializeTupleVariant,
};
pub use fields::{Field, Fields, Keys};
pub use fixed::Fixed;
pub use hint::Hint;
pub use kind::CompoundKind;
pub use marker::{Marker, marker_named};
pub use name::Name;
pub use optional_field::OptionalField;
pub use pending::Pending;
pub use serialize::Serialize;
pub use serializer::Serializer;
pub use struct_encoding::StructEncoding;
pub use whole::Whole;

/// Builds the fields of a struct, in order: `fields! { "name": value, "other"?: option, .. }`.
///
/// A name is a literal, or an expression in parentheses whose value is a `&str`. After `:`, the
/// value is the field or a reference to it. After `?:`, the value is a reference to an `Option`. A
/// field that is `None` is absent: a map omits it, and a list omits it if no later field is
/// present. To serialize the fields as a list, a map from their names or a variant, wrap them in
/// [`ListOf`], [`MapOf`], [`SymbolMapOf`] or [`VariantOf`].
///
/// # Example
/// `ListOf(fields! { "x": 1u8, "y"?: &None::<bool> })` is `c003015001`. `MapOf` of the same fields
/// is `c10602a101785001`.
#[macro_export]
macro_rules! fields {
    () => { () };
    ($name:tt : $value:expr $(, $($rest:tt)*)?) => {
        $crate::Field { name: $name, value: $value, rest: $crate::fields!($($($rest)*)?) }
    };
    ($name:tt ? : $value:expr $(, $($rest:tt)*)?) => {
        $crate::OptionalField { name: $name, value: $value, rest: $crate::fields!($($($rest)*)?) }
    };
}
