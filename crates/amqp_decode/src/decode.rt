//! Decodes one encoded value.

ghost use Rattle.std.specs.Prelude.{◌≡◌, ◌≤◌, ◌<◌, IfOk, IfErr};
ghost use Rattle.amqp_data.specs.declared.error.Error.TheVariants.{OutOfMemory, TooLong};
ghost use Rattle.amqp_ser.specs.Tree.{Tree};
ghost use Rattle.amqp_value.specs.TreeOf.{tree_of};
ghost use Rattle.amqp_decode.specs.Encodes.{Encodes};
ghost use Rattle.amqp_decode.specs.WithoutBytes.{IsExceeded, IsWithin, elements_without_bytes};
ghost use Rattle.amqp_decode.specs.Faults.{DecodeFails, FailsBy, decode_fault};

use crate::read::read_value;
use amqp_data::Error;
use amqp_value::Value;
use std::alloc::Global;

/// Decodes one encoded value into an untyped value.
///
/// # Encoding
/// Accepts every format code of AMQP 1.0 part 1, section 1.6, in every form, also as the
/// constructor of an array. Texts are UTF-8, characters are Unicode scalar values, and the payload
/// of a boolean is the byte 00 or 01. The elements of a list, a map or an array fill its payload.
/// The count of a map is even, and its entries are inserted in order. An array without elements may
/// end after its count or contain one constructor. A descriptor is a ulong or a symbol. The depth
/// is at most 256. A scalar or an empty compound has depth 1, any other compound has one more than
/// its deepest part, and a described value has one more than its value. An array whose constructor
/// is described (section 1.2) is not accepted.
///
/// # Errors
/// Returns the error of the first fault, in the order of the bytes. Returns `InvalidFormatCode` if
/// a byte is not a format code where one is required. Returns `UnexpectedEof` if the bytes or a
/// payload end too early. Returns `InvalidValue` if bytes are left over, and for every other
/// invalid input. Returns `OutOfMemory` if an allocation fails.
///
/// # Memory
/// Allocates from `alloc`. A list of at most 64 elements reserves memory for all of them before the
/// first is read, a longer list for four, a map of at most 64 entries for the next power of two of
/// entries, at least four, and an array of numbers for those whose bytes are there. All open lists
/// and maps together reserve in this way memory for at most one element, key or value for each byte
/// of the input, 32 bytes each, and each list for at least one element. Capacities double as more
/// elements are read. An array whose elements have no bytes, such as nulls, takes memory for as
/// many elements as its count says. `decode_value_limited` limits them.
///
/// # Example
/// `43`, `5200` and `7000000000` are the uint 0.
pub fn decode_value(alloc: Global, bytes: &[u8]) -> Result<Value, Error>
    ensures ok { IfOk result (λ v. Encodes 256 bytes.now (tree_of v)) }
    ensures err { IfErr result (λ e. ¬ (e ≡ OutOfMemory) → (t : Tree) → ¬ Encodes 256 bytes.now t) }
    ensures fault { IfErr result (DecodeFails 256 bytes.now) }
{
    decode_value_to_depth(alloc, bytes, None, 256)
}

/// Decodes one encoded value that contains at most `elements` array elements without bytes.
///
/// These are nulls, and elements with the constructors of `true`, `false`, the zeros and the empty
/// list (`40` to `45`). All arrays of the input are counted together, each by its count.
///
/// # Errors
/// Returns `TooLong` if and only if an array has more such elements than the earlier ones leave of
/// the limit, and otherwise the errors of `decode_value`.
///
/// # Memory
/// Allocates from `alloc` as `decode_value` does. An element without bytes takes 32 bytes of
/// memory. Those of an array are not reserved before they are counted.
///
/// # Example
/// `e0020340`, an array of three nulls, fails with a limit of two elements and is accepted with a
/// limit of three. A list of two such arrays requires a limit of six.
pub fn decode_value_limited(alloc: Global, bytes: &[u8], elements: u32) -> Result<Value, Error>
    ensures ok { IfOk result (λ v. Encodes 256 bytes.now (tree_of v)) }
    ensures within { IfOk result (λ v. elements_without_bytes 256 bytes.now ≤ elements) }
    ensures too_long { IfErr result (λ e. e ≡ TooLong →
        elements < elements_without_bytes 256 bytes.now) }
    ensures err { IfErr result (λ e. ¬ (e ≡ OutOfMemory) → ¬ (e ≡ TooLong) →
        (t : Tree) → ¬ Encodes 256 bytes.now t) }
    ensures fault { FailsBy (decode_fault 256 bytes.now) result }
{
    decode_value_to_depth(alloc, bytes, Some(elements), 256)
}

/// Decodes one encoded value with at most `depth` levels, like `decode_value_limited` if there is a
/// limit on elements without bytes, and like `decode_value` if there is none.
///
/// # Errors
/// Returns the errors of `decode_value_limited`, and `InvalidValue` for a value with more levels.
///
/// # Memory
/// Allocates from `alloc` as `decode_value` does.
///
/// # Example
/// `c0020140`, a list of null, has two levels. It fails with a `depth` of one.
#[inline(always)]
pub fn decode_value_to_depth(
    alloc: Global,
    bytes: &[u8],
    elements: Option<u32>,
    depth: u16,
) -> Result<Value, Error>
    requires { depth ≤ 256 }
    ensures ok { IfOk result (λ v. Encodes depth bytes.now (tree_of v)) }
    ensures within { IfOk result (λ v. IsWithin elements (elements_without_bytes depth bytes.now)) }
    ensures too_long { IfErr result (λ e. e ≡ TooLong →
        IsExceeded elements (elements_without_bytes depth bytes.now)) }
    ensures err { IfErr result (λ e. ¬ (e ≡ OutOfMemory) → ¬ (e ≡ TooLong) →
        (t : Tree) → ¬ Encodes depth bytes.now t) }
    ensures fault { FailsBy (decode_fault depth bytes.now) result }
{
    let mut rest = bytes;
    let mut limit = elements;
    let value = read_value(alloc, &mut rest, depth, &mut limit, bytes.len())?;
    if rest.is_empty() {
        Ok(value)
    } else {
        Err(Error::InvalidValue)
    }
}
