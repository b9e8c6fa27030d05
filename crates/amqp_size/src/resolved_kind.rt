//! What an open compound is encoded as.

/// What an open compound is encoded as.
#[derive(Clone, Copy, Debug)]
pub enum ResolvedKind {
    /// A list.
    List,
    /// A map.
    Map,
    /// The variant of this index with a list of fields.
    Variant(u32),
    /// The variant of this index with one value.
    NewtypeVariant(u32),
    /// An array.
    Array,
    /// The elements one after another, without a header.
    Transparent,
    /// One value, encoded as itself.
    Single,
    /// A compound that the pending marker does not accept.
    Refused,
}
