//! Reading a type from the bytes of one encoded value, and from an untyped value.

ghost use Rattle.std.specs.Prelude.{◌≡◌, [], suc, IfErr, IfSome, MatchResult, Some};
ghost use Rattle.amqp_data.specs.declared.error.Error.TheVariants.{OutOfMemory};
ghost use Rattle.amqp_ser.specs.Tree.{Tree};
ghost use Rattle.amqp_value.specs.TreeOf.{tree_of};
ghost use Rattle.amqp_decode.specs.Faults.{DecodeFails};
ghost use Rattle.amqp_decode.specs.Parsed.{parse};
ghost use Rattle.amqp_decode.specs.Encodes.{Encodes};
ghost use Rattle.amqp_decode.specs.WithoutBytes.{elements_without_bytes};
ghost use Rattle.amqp_de.specs.Results.{IsMemory, ReadsAndRestores};
ghost use Rattle.amqp_de.specs.Answers.{Answers, Restores};
ghost use Rattle.amqp_de.specs.FromBytes.{IsOfReading, ReadsEncoded};

use crate::deserialize::Deserialize;
use crate::encoded_parts::Encoded;
use crate::fault::Fault;
use crate::held::read_value;
use amqp_data::Error;
use amqp_decode::decode_value;
use amqp_value::Value;
use std::alloc::Global;

/// The maximum number of levels inside a value that `from_slice` reads.
pub const MAX_INNER_LEVELS: u16 = 255;

/// Reads a `T` from the value.
///
/// # Errors
/// Returns `Error::OutOfMemory` if an allocation fails. Otherwise returns an error if and only if
/// the value cannot be read as a `T`; the implementation of `T` determines which of `InvalidValue`,
/// `TooLong` and `Message`. The value is dropped.
///
/// # Memory
/// Allocates from `alloc` what the implementation of `T` allocates.
///
/// # Example
/// `Value::Uint(1)` is read as the `u32` 1, and gives `InvalidValue` as a `u64`.
pub fn from_value<T: Deserialize>(alloc: Global, value: Value) -> Result<T, Error>
    ensures read { Answers (λ e. e ≡ OutOfMemory) (T.reads (tree_of value)) result }
    ensures law { (x : T) → T.restorable x → tree_of value ≡ T.image x →
        MatchResult result (λ y. T.same y x) (λ e. e ≡ OutOfMemory) }
    ensures kind { IfErr result IsOfReading }
{
    match read_value::<T>(alloc, value) {
        Ok(read) => Ok(read),
        Err(fault) => Err(fault.into_error()),
    }
}

/// Reads a `T` from the value, like [`from_value`], and says which field could not be read.
///
/// # Errors
/// Returns the error of `from_value`, the name or the position of the innermost field or element
/// that could not be read, its type and the type that is read. The value is dropped.
///
/// # Memory
/// Allocates from `alloc` what `from_value` allocates.
///
/// # Example
/// As a struct of the fields `id` and `size`, both a `u32`, the list of the uint 1 and the string
/// `a` gives `FaultKind::Invalid` with the field `size`, the index 1, `ValueKind::Uint` wanted and
/// `ValueKind::String` found.
pub fn from_value_located<T: Deserialize>(alloc: Global, value: Value) -> Result<T, Fault>
    ensures read { Answers IsMemory (T.reads (tree_of value)) result }
    ensures law { Restores T.image T.restorable T.same IsMemory (tree_of value) result }
{
    match read_value::<T>(alloc, value) {
        Ok(read) => Ok(read),
        Err(fault) => Err(fault),
    }
}

/// Reads a `T` from the bytes of exactly one encoded value.
///
/// # Encoding
/// Accepts the bytes that `decode_value` accepts: every form of AMQP 1.0 part 1, section 1.6, to a
/// depth of 256. `T` determines which values are read.
///
/// # Errors
/// Returns the errors of `decode_value` if the bytes are not one encoded value, or if bytes are
/// left over, and otherwise the errors of `from_value`. An error other than `OutOfMemory` is
/// returned only if the bytes encode no value of which a `T` can be read.
///
/// # Memory
/// Allocates the `T` from `alloc`, without an untyped value. If that fails, what it allocated is
/// freed, and the bytes are decoded to an untyped value, which is freed too.
///
/// # Example
/// `5205` is read as the `u32` 5. `520540` and `5105` are not.
pub fn from_slice<T: Deserialize>(alloc: Global, bytes: &[u8]) -> Result<T, Error>
    ensures read { Answers (λ e. e ≡ OutOfMemory) (ReadsEncoded T.reads bytes.now) result }
    ensures law { (x : T) → T.restorable x → Encodes 256 bytes.now (T.image x) →
        MatchResult result (λ y. T.same y x) (λ e. e ≡ OutOfMemory) }
    ensures fault { ((t : Tree) → ¬ Encodes 256 bytes.now t) →
        IfErr result (DecodeFails 256 bytes.now) }
    ensures kind { IfErr result (λ e. (t : Tree) → Encodes 256 bytes.now t → IsOfReading e) }
{
    match read_bytes::<T>(alloc, bytes, MAX_INNER_LEVELS) {
        Some(read) => Ok(read),
        None => read_by_value::<T>(alloc, bytes),
    }
}

/// Reads a `T` from exactly one encoded value. Fails if it has array elements without bytes.
#[inline(always)]
pub fn read_bytes<T: Deserialize>(alloc: Global, bytes: &[u8], depth: u16) -> Option<T>
    ensures read { IfSome result (λ x. (t : Tree) × (parse (suc depth) bytes.now ≡ Some (t, []))
        × ReadsAndRestores T.reads T.image T.restorable T.same t x) }
    ensures none { IfSome result (λ _. elements_without_bytes (suc depth) bytes.now ≡ 0) }
{
    let (code, payload) = bytes.split_first()?;
    let encoded = Encoded {
        code: *code,
        bytes: payload,
        depth,
    };
    match T::read(alloc, encoded) {
        Ok((read, rest)) => { if rest.is_empty() { Some(read) } else { None } }
        Err(_) => None,
    }
}

// Reads a `T` from the untyped value that the bytes encode.
#[inline(never)]
fn read_by_value<T: Deserialize>(alloc: Global, bytes: &[u8]) -> Result<T, Error>
    ensures read { Answers (λ e. e ≡ OutOfMemory) (ReadsEncoded T.reads bytes.now) result }
    ensures law { (x : T) → T.restorable x → Encodes 256 bytes.now (T.image x) →
        MatchResult result (λ y. T.same y x) (λ e. e ≡ OutOfMemory) }
    ensures fault { ((t : Tree) → ¬ Encodes 256 bytes.now t) →
        IfErr result (DecodeFails 256 bytes.now) }
    ensures kind { IfErr result (λ e. (t : Tree) → Encodes 256 bytes.now t → IsOfReading e) }
{
    match decode_value(alloc, bytes) {
        Ok(value) => match from_value::<T>(alloc, value) {
            Ok(read) => Ok(read),
            Err(error) => Err(error),
        },
        Err(Error::OutOfMemory) => Err(Error::OutOfMemory),
        Err(error) => Err(error),
    }
}
