//! What the impls that `tools/derive` writes use: traits, types, functions and macros of the other
//! modules, under one path.

pub use crate::{built, fields, named, place, variants};
pub use amqp_de::{
    AfterCode, AfterName, AnyOf, ByIndex, Composite, DataVariant, Defaulted, Deserialize, Either,
    Fault, Four, FullListOf, ListOf, MapOf, Named, Nameless, Never, Of, One, OneOfTypes, Readable,
    Record, Shape, Source, UnitVariant, read_shaped, read_string, read_symbol,
};
pub use amqp_from_value::{
    MapKey, RoundTrip, RoundTripComposite, RoundTripReadable, ShapeTree, after_name_returns,
    composite_returns, laws, named_after_name_returns, named_composite_returns, named_parts_return,
    parts_return,
};
pub use amqp_ser::{Name, Serialize, SerializeCompounds, SerializeScalars, Serializer, VariantOf};
pub use amqp_value::{Value, ValueKind};
pub use std::alloc::Global;
pub use std::marker::PhantomData;
