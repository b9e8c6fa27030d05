//! Decodes one encoded value, and says where the bytes have a fault.

ghost use Rattle.std.specs.Prelude.{◌≡◌, ◌≤◌, ◌<◌, ◌⊎◌, IfOk, IfErr, IfNone, IfSome, OnSome, None};
ghost use Rattle.amqp_data.specs.declared.error.Error.TheVariants.{OutOfMemory, TooLong};
ghost use Rattle.amqp_ser.specs.Tree.{Tree};
ghost use Rattle.amqp_value.specs.TreeOf.{tree_of};
ghost use Rattle.amqp_decode.specs.Faults.{DecodeFails, decode_fault};
ghost use Rattle.amqp_decode.specs.Located.{IsPlace, IsPlaced};
ghost use Rattle.amqp_decode.specs.Encodes.{Encodes};
ghost use Rattle.amqp_decode.specs.WithoutBytes.{elements_without_bytes};

use crate::decode::{decode_value, decode_value_limited};
use crate::skip::check_values;
use amqp_data::Error;
use amqp_value::Value;
use std::alloc::Global;

/// Where bytes have their first fault.
#[derive(Clone, Copy, Debug, PartialEq, Eq)]
pub struct Place {
    /// The offset of the byte. It is the length of the input if the input ends too early.
    pub offset: usize,
    /// The number of lists, maps, arrays and described values that the byte is in.
    pub depth: u16,
}

/// An error of decoding, with its place.
#[derive(Debug, PartialEq, Eq, Drop)]
pub struct Located {
    /// The error that `decode_value` or `decode_value_limited` returns.
    pub error: Error,
    /// Where the bytes have their first fault. `None` if an allocation failed, or if a limit is
    /// exceeded.
    pub place: Option<Place>,
}

/// Decodes one encoded value, like `decode_value`, and says where the bytes have their first fault.
///
/// If decoding fails, the bytes are read once more, without a value.
///
/// # Errors
/// Returns the error of `decode_value`, with the place of the first fault in the order of the
/// bytes. A byte that is no format code, the first byte of a value that is too deep, and the code
/// of a descriptor of another kind are such places. Bytes that end too early have the fault at
/// their end, and a payload that ends too early at the byte after it. An odd count of a map has it
/// at its last byte, a scalar at its first byte or at the first character that is not UTF-8, and
/// bytes left over at the first of them.
///
/// # Memory
/// Allocates from `alloc` as `decode_value` does. The place is found without memory.
///
/// # Example
/// `c003024046`, a list of null and a byte that is no format code, fails with `InvalidFormatCode`
/// at offset 4 and depth 1.
pub fn decode_value_located(alloc: Global, bytes: &[u8]) -> Result<Value, Located>
    ensures ok { IfOk result (λ v. Encodes 256 bytes.now (tree_of v)) }
    ensures err { IfErr result (λ e. ¬ (e.error ≡ OutOfMemory) →
        (t : Tree) → ¬ Encodes 256 bytes.now t) }
    ensures fault { IfErr result (λ e. DecodeFails 256 bytes.now e.error) }
    ensures place { IfErr result (λ e. ¬ (e.error ≡ OutOfMemory) → IsPlaced e.place 256 bytes.now) }
    ensures memory { IfErr result (λ e. e.error ≡ OutOfMemory → e.place ≡ None) }
{
    match decode_value(alloc, bytes) {
        Ok(value) => Ok(value),
        Err(error) => Err(with_place(error, bytes)),
    }
}

/// Decodes one encoded value that contains at most `elements` array elements without bytes, like
/// `decode_value_limited`, and says where the bytes have their first fault.
///
/// If the bytes have a fault, they are read once more, without a value.
///
/// # Errors
/// Returns the error of `decode_value_limited`: with the place that `decode_value_located`
/// describes if the bytes have a fault, and without a place if it is `TooLong` or out of memory.
///
/// # Memory
/// Allocates from `alloc` as `decode_value_limited` does. The place is found without memory.
///
/// # Example
/// With a limit of two elements, `e0020340`, an array of three nulls, fails with `TooLong` and no
/// place, and `e003024046` with `InvalidValue` at offset 4 and depth 1.
pub fn decode_value_limited_located(
    alloc: Global,
    bytes: &[u8],
    elements: u32,
) -> Result<Value, Located>
    ensures ok { IfOk result (λ v. Encodes 256 bytes.now (tree_of v)) }
    ensures within { IfOk result (λ v. elements_without_bytes 256 bytes.now ≤ elements) }
    ensures too_long { IfErr result (λ e. e.error ≡ TooLong →
        elements < elements_without_bytes 256 bytes.now) }
    ensures err { IfErr result (λ e. ¬ (e.error ≡ OutOfMemory) → ¬ (e.error ≡ TooLong) →
        (t : Tree) → ¬ Encodes 256 bytes.now t) }
    ensures fault { IfErr result (λ e. ¬ (e.error ≡ OutOfMemory) → ¬ (e.error ≡ TooLong) →
        e.error ≡ decode_fault 256 bytes.now) }
    ensures place { IfErr result (λ e. ¬ (e.error ≡ OutOfMemory) → ¬ (e.error ≡ TooLong) →
        IsPlaced e.place 256 bytes.now) }
    ensures none { IfErr result (λ e. (e.error ≡ OutOfMemory) ⊎ (e.error ≡ TooLong) →
        e.place ≡ None) }
{
    match decode_value_limited(alloc, bytes, elements) {
        Ok(value) => Ok(value),
        Err(Error::TooLong) => Err(Located {
            error: Error::TooLong,
            place: None,
        }),
        Err(error) => Err(with_place(error, bytes)),
    }
}

// Returns the error of decoding the bytes, with the place of their first fault unless an allocation
// failed.
fn with_place(error: Error, bytes: &[u8]) -> Located
    ensures error { result.error ≡ error }
    ensures place { ¬ (error ≡ OutOfMemory) → ((t : Tree) → ¬ Encodes 256 bytes.now t) →
        IsPlaced result.place 256 bytes.now }
    ensures memory { error ≡ OutOfMemory → result.place ≡ None }
{
    let place = match error {
        Error::OutOfMemory => None,
        _ => fault_place(bytes),
    };
    Located { error, place }
}

/// Returns where bytes that are not one encoded value have their first fault, and `None` if they
/// are one.
///
/// # Memory
/// Allocates nothing.
///
/// # Example
/// `None` for `40`, and offset 1 at depth 0 for `4040`.
pub fn fault_place(bytes: &[u8]) -> Option<Place>
    ensures none { IfNone result ((t : Tree) × Encodes 256 bytes.now t) }
    ensures err { OnSome result ((t : Tree) → ¬ Encodes 256 bytes.now t) }
    ensures place { IfSome result (λ p. IsPlace p 256 bytes.now) }
{
    fault_place_to_depth(bytes, 256)
}

/// Returns where bytes that are not one encoded value with at most `depth` levels have their first
/// fault, and `None` if they are one.
///
/// # Memory
/// Allocates nothing.
///
/// # Example
/// With a depth of 1, `None` for `40`, and offset 3 at depth 1 for `c0020140`.
pub fn fault_place_to_depth(bytes: &[u8], depth: u16) -> Option<Place>
    requires { depth ≤ 256 }
    ensures none { IfNone result ((t : Tree) × Encodes depth bytes.now t) }
    ensures err { OnSome result ((t : Tree) → ¬ Encodes depth bytes.now t) }
    ensures place { IfSome result (λ p. IsPlace p depth bytes.now) }
{
    match check_values(1, bytes, depth, 0) {
        Ok(()) => None,
        Err(from_end) => Some(Place {
            offset: bytes.len().saturating_sub(from_end.left),
            depth: depth.saturating_sub(from_end.levels),
        }),
    }
}
