//! Marker names, with which a `Serialize` implementation selects a kind that serde has no method
//! for.
//!
//! A newtype, struct or enum with one of these names is written as the kind that the marker
//! denotes. Each marker consists of two underscores and the name of the constant.

/// Marks a newtype over a string as a symbol.
///
/// # Example
/// The string `amqp` is encoded as `a304616d7170`.
pub const SYMBOL: &str = "__SYMBOL";
/// Marks a newtype over a borrowed string as a symbol.
///
/// # Example
/// The string `a:b` is encoded as `a303613a62`.
pub const SYMBOL_REF: &str = "__SYMBOL_REF";
/// Marks a newtype over a long as a timestamp.
///
/// # Example
/// The long 13 is encoded as `83000000000000000d`.
pub const TIMESTAMP: &str = "__TIMESTAMP";
/// Marks a newtype over a binary of 16 bytes as a uuid.
///
/// # Example
/// The bytes 00, 11, 22 up to FF are encoded as `9800112233445566778899aabbccddeeff`.
pub const UUID: &str = "__UUID";
/// Marks a newtype over a binary of 4 bytes as a decimal32.
///
/// # Example
/// The bytes 01 to 04 are encoded as `7401020304`.
pub const DECIMAL32: &str = "__DECIMAL32";
/// Marks a newtype over a binary of 8 bytes as a decimal64.
///
/// # Example
/// The bytes 01 to 08 are encoded as `840102030405060708`.
pub const DECIMAL64: &str = "__DECIMAL64";
/// Marks a newtype over a binary of 16 bytes as a decimal128.
///
/// # Example
/// The bytes 00 to 0F are encoded as `94000102030405060708090a0b0c0d0e0f`.
pub const DECIMAL128: &str = "__DECIMAL128";
/// Marks a newtype over a list as an array.
///
/// # Example
/// The list of `true` and `false` is encoded as `e00402560100`.
pub const ARRAY: &str = "__ARRAY";
/// Marks a newtype over a list as a transparent vector: its elements one after another, with no
/// header.
///
/// # Example
/// The list of `true` and `false` is encoded as `4142`.
pub const TRANSPARENT_VEC: &str = "__TRANSPARENT_VEC";
/// Marks a newtype over a binary that is one encoded value. It is written as that value.
///
/// # Example
/// The bytes 50 and 01 are encoded as `5001`.
pub const LAZY_VALUE: &str = "__LAZY_VALUE";
/// The key of a field that contains a descriptor.
///
/// # Example
/// The ulong 1 is encoded as `005301`, before the value.
pub const DESCRIPTOR: &str = "__DESCRIPTOR";
/// Marks an enum whose newtype variants are written as their value only, without the variant index.
///
/// # Example
/// The variant 1 with the value `true` is encoded as `41`. In another enum it is `c10402520141`.
pub const VALUE: &str = "__VALUE";
/// Marks a struct that is a described value with a single field.
///
/// # Example
/// The code 1 with the field `true` is encoded as `00530141`.
pub const DESCRIBED_BASIC: &str = "__DESCRIBED_BASIC";
/// Marks a struct that is a described list of its fields.
///
/// # Example
/// The code 1 with the field `true` is encoded as `005301c0020141`.
pub const DESCRIBED_LIST: &str = "__DESCRIBED_LIST";
/// Marks a struct that is a described map with the field names as keys.
///
/// # Example
/// The code 1 with the field `x`, which is `true`, is encoded as `005301c10502a1017841`.
pub const DESCRIBED_MAP: &str = "__DESCRIBED_MAP";
