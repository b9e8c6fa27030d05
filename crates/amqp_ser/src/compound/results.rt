//! What all compounds have in common: the types of their results, and a text for diagnostics.

use crate::compound::{
    SerializeMap, SerializeSeq, SerializeStruct, SerializeStructVariant, SerializeTupleStruct,
    SerializeTupleVariant,
};
use crate::serializer::Serializer;
use std::fmt;
use std::fmt::{Debug, Formatter, Write};

/// A compound that is being serialized. Its calls return these types.
///
/// # Example
/// Those of a `SerializeSeq<'_, S>` are `S::Ok` and `S::Error`.
pub trait Compound {
    /// What `end` returns.
    type Ok: Drop;
    /// The error of each call.
    type Error: Drop;
}

impl<S: Serializer> Compound for SerializeMap<'_, S> {
    type Ok = S::Ok;

    type Error = S::Error;
}

impl<S: Serializer> Compound for SerializeSeq<'_, S> {
    type Ok = S::Ok;

    type Error = S::Error;
}

impl<S: Serializer> Compound for SerializeStruct<'_, S> {
    type Ok = S::Ok;

    type Error = S::Error;
}

impl<S: Serializer> Compound for SerializeStructVariant<'_, S> {
    type Ok = S::Ok;

    type Error = S::Error;
}

impl<S: Serializer> Compound for SerializeTupleStruct<'_, S> {
    type Ok = S::Ok;

    type Error = S::Error;
}

impl<S: Serializer> Compound for SerializeTupleVariant<'_, S> {
    type Ok = S::Ok;

    type Error = S::Error;
}

/// Writes the name of the type.
impl<S: Serializer> Debug for SerializeMap<'_, S> {
    fn fmt<W: Write>(&self, f: &mut Formatter<W>) -> fmt::Result {
        f.write_str("SerializeMap")
    }
}

/// Writes the name of the type.
impl<S: Serializer> Debug for SerializeSeq<'_, S> {
    fn fmt<W: Write>(&self, f: &mut Formatter<W>) -> fmt::Result {
        f.write_str("SerializeSeq")
    }
}

/// Writes the name of the type.
impl<S: Serializer> Debug for SerializeStruct<'_, S> {
    fn fmt<W: Write>(&self, f: &mut Formatter<W>) -> fmt::Result {
        f.write_str("SerializeStruct")
    }
}

/// Writes the name of the type.
impl<S: Serializer> Debug for SerializeStructVariant<'_, S> {
    fn fmt<W: Write>(&self, f: &mut Formatter<W>) -> fmt::Result {
        f.write_str("SerializeStructVariant")
    }
}

/// Writes the name of the type.
impl<S: Serializer> Debug for SerializeTupleStruct<'_, S> {
    fn fmt<W: Write>(&self, f: &mut Formatter<W>) -> fmt::Result {
        f.write_str("SerializeTupleStruct")
    }
}

/// Writes the name of the type.
impl<S: Serializer> Debug for SerializeTupleVariant<'_, S> {
    fn fmt<W: Write>(&self, f: &mut Formatter<W>) -> fmt::Result {
        f.write_str("SerializeTupleVariant")
    }
}
