//! Deserialization: the traits, the sources to read from, and helpers for user-defined types.

pub use crate::{built, named, place, values, variants};
pub use amqp_de::{
    After, AfterCode, AfterName, Alternatives, AnyOf, Branch, Branches, ByIndex, Composite,
    DataVariant, Defaulted, Describes, Deserialize, Either, Encoded, EncodedElements,
    EncodedEntries, Fault, FaultKind, FieldKind, FieldSeeds, FieldValues, Four, FullListOf, Held,
    HeldElements, HeldEntries, ListOf, MapOf, Named, NamedFields, Nameless, Never, NoBranch,
    Numbered, Of, One, OneOf, OneOfTypes, Readable, Record, Scalar, Seed, Shape, Source,
    SourceKind, UnitVariant, Variants, keys_differ, laws, read, read_composite, read_shaped,
    read_string, read_symbol,
};
pub use amqp_visit::{
    DeserializeSeed, Deserializer, EnumAccess, MapAccess, SeqAccess, TypeSeed, VariantAccess,
    Visit, Visitor, finish,
};
