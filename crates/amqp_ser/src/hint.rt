//! The hint of a compound.

/// What a first pass over a value finds of a compound, for the pass that writes it.
#[derive(Clone, Copy, Debug)]
pub struct Hint {
    /// The length of the body, or of an array's content, in bytes.
    pub len: u32,
    /// The number of parts.
    pub count: u32,
}
