//! The deserializer of an untyped value.

ghost use Rattle.std.specs.Prelude.{◌≡◌, false, IfErr};
ghost use Rattle.amqp_value.specs.TreeOf.{tree_of};
ghost use Rattle.amqp_de.specs.Results.{IsMemory, Takes};
ghost use Rattle.amqp_de.specs.FromBytes.{IsOfReading};
ghost use Rattle.amqp_visit.specs.Results.{Answers, Finishes, IsFaultOf, Restores};

use amqp_data::Error;
use amqp_de::{Deserialize, Fault, FaultKind, Held, Seed, Source, from_value};
use amqp_value::Value;
use std::alloc::Global;

/// A deserializer of an untyped value.
///
/// Each `deserialize_..` method accepts the kinds of its row and calls the visit of that row on a
/// [`Visitor`](crate::Visitor) (AMQP 1.0 part 1, section 1.6).
///
/// | Kind | Method | Visit |
/// |---|---|---|
/// | null | `deserialize_unit`, `_unit_struct` | `visit_unit` |
/// | boolean | `deserialize_bool` | `visit_bool` |
/// | ubyte, ushort, uint, ulong | `deserialize_u8` to `_u64` | `visit_u8` to `visit_u64` |
/// | byte, short, int, long | `deserialize_i8` to `_i64` | `visit_i8` to `visit_i64` |
/// | float, double | `deserialize_f32`, `_f64` | `visit_f32`, `visit_f64` |
/// | char | `deserialize_char` | `visit_char` |
/// | string | `deserialize_str`, `_string` | `visit_string` |
/// | binary | `deserialize_bytes`, `_byte_buf` | `visit_byte_buf` |
/// | null; any other | `deserialize_option` | `visit_none`; `visit_some` |
/// | list | `deserialize_seq`, `_tuple`, `_struct`, `_tuple_struct` | `visit_seq` |
/// | array | `deserialize_array` | `visit_seq` |
/// | map | `deserialize_map` | `visit_map` |
/// | described value | `deserialize_described` | `visit_described` |
/// | uint, symbol, list, map | `deserialize_enum` | `visit_enum` |
/// | uint; symbol | `deserialize_identifier` | `visit_u32`; `visit_string` |
/// | any | `deserialize_newtype_struct` | `visit_newtype_struct` |
/// | any | `deserialize_any` | the visit of its kind |
/// | any, ignored | `deserialize_ignored_any` | `visit_unit` |
///
/// A name of [`amqp_data::markers`] selects another row. A newtype of such a name accepts a symbol
/// (`visit_string`), a timestamp (`visit_i64`), a uuid or a decimal (`visit_bytes`), an array
/// (`visit_seq`), or any value as its encoding (`visit_byte_buf`). A struct accepts a described
/// value. An enum accepts any value (`visit_value`), a descriptor (`visit_u64`, `visit_string`), or
/// an array or a format code (`visit_seq`, `visit_u8`).
///
/// # Errors
/// A `deserialize_..` method returns `InvalidValue` if it does not accept the kind of the value,
/// and the message `Expecting a Value` if a variant is read from an empty list or map. All other
/// errors are the visitor's, and of `deserialize_written` also those of encoding.
///
/// # Example
/// A type that is read by a visitor. By the lemmas `takes` and `brings`, the law of the visitor's
/// call is the law of the type.
///
/// ```text
/// #[tactic(auto, using(amqp_visit::proofs::Visited::takes, amqp_visit::proofs::Visited::brings))]
/// fn read<S: Source>(alloc: Global, source: S) -> Result<(Point, S::Rest), Fault> {
///     let (value, rest) = match Deserializer::from_source(alloc, source) {
///         Ok(opened) => opened,
///         Err(fault) => return Err(fault),
///     };
///     finish(value.deserialize_seq(PointVisitor { alloc }), rest)
/// }
/// ```
#[derive(Drop)]
pub struct Deserializer {
    pub(crate) alloc: Global,
    pub(crate) value: Value,
}

impl Deserializer {
    ghost use Rattle.amqp_visit.specs.Trees.{value_tree};

    /// Returns a deserializer of the value.
    pub fn new(alloc: Global, value: Value) -> Deserializer
        ensures { value_tree result ≡ tree_of value }
    {
        Deserializer { alloc, value }
    }

    /// Reads the value of a source as an untyped one, and returns its deserializer and what is
    /// left.
    ///
    /// # Errors
    /// Of a source that holds a value, only out of memory.
    pub fn from_source<S: Source>(
        alloc: Global,
        source: S,
    ) -> Result<(Deserializer, S::Rest), Fault>
        ensures read { Takes (λ t d. value_tree d ≡ t) (S.value source) (S.is_whole source)
            (S.left source) result }
        ensures whole { IfErr result (λ e. S.is_whole source → IsMemory e) }
    {
        match source.untyped(alloc) {
            Ok((value, rest)) => Ok((Deserializer { alloc, value }, rest)),
            Err(fault) => Err(fault),
        }
    }

    /// Returns the value.
    pub fn into_value(self) -> Value
        ensures { tree_of result ≡ value_tree self }
    {
        let Deserializer { value, .. } = self;
        value
    }

    /// Returns `false`: the format is not human-readable.
    pub fn is_human_readable(&self) -> bool
        ensures { result ≡ false }
    {
        false
    }

    /// Reads the value as a `T`, like `from_value`.
    ///
    /// # Errors
    /// Returns the error of the type, which is out of memory or means that the value cannot be
    /// read.
    pub fn read<T: Deserialize>(self) -> Result<T, Error>
        ensures read { Answers (T.reads (value_tree self)) result }
        ensures law { Restores T.image T.restorable T.same (value_tree self) result }
        ensures kind { IfErr result IsOfReading }
    {
        from_value(self.alloc, self.value)
    }

    /// Reads the value with a seed.
    ///
    /// # Errors
    /// Returns the seed's error, which is out of memory or means that the value cannot be read.
    pub fn read_seed<S: Seed>(self, alloc: Global, seed: S) -> Result<S::Value, Error>
        requires { S.fits seed }
        ensures read { Answers (S.reads seed (value_tree self)) result }
        ensures law { Restores (S.image seed) (S.restorable seed) (S.same seed)
            (value_tree self) result }
        ensures kind { IfErr result IsOfReading }
    {
        match seed.read(alloc, Held { value: self.value }) {
            Ok((read, _rest)) => Ok(read),
            Err(fault) => Err(fault.into_error()),
        }
    }
}

// Returns the error with a place that is unknown.
fn fault_of(error: Error) -> Fault
    ensures { IsFaultOf error result }
{
    let kind = match error {
        Error::OutOfMemory => FaultKind::OutOfMemory,
        Error::TooLong => FaultKind::TooLong,
        Error::Message(words) => FaultKind::Message(words),
        Error::InvalidValue | Error::InvalidFormatCode | Error::UnexpectedEof | Error::Io => {
            FaultKind::Invalid
        }
    };
    Fault::new(kind)
}

/// Returns what was read of a source, with what is left of the source.
///
/// # Errors
/// Returns the error of `read` as a fault. An error of a reader or of malformed bytes becomes an
/// invalid value.
pub fn finish<T, R: Drop>(read: Result<T, Error>, rest: R) -> Result<(T, R), Fault>
    ensures { Finishes read rest result }
{
    match read {
        Ok(value) => Ok((value, rest)),
        Err(error) => Err(fault_of(error)),
    }
}
