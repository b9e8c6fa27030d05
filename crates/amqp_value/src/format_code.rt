//! The format code of a value's type.

ghost use Rattle.std.specs.Prelude.{◌≡◌};
ghost use Rattle.amqp_value.specs.FormatCode.{code_of_kind};
ghost use Rattle.amqp_value.specs.TreeOf.{tree_of};

use crate::Value;
use amqp_data::EncodingCodes;

impl Value {
    /// Returns the format code of the value's type: the constructor that the value has as an
    /// element of an array, which is the widest code of its type. A described value cannot be an
    /// element; its code is the `00` that it begins with.
    ///
    /// # Example
    /// A `Bool` has `56`, a `List` has `d0` and a `Described` has `00`.
    #[inline(always)]
    pub fn format_code(&self) -> u8
        ensures { result ≡ code_of_kind (tree_of self.now) }
    {
        match self {
            Value::Described(_) => EncodingCodes::DescribedType as u8,
            Value::Null => EncodingCodes::Null as u8,
            Value::Bool(_) => EncodingCodes::Boolean as u8,
            Value::Ubyte(_) => EncodingCodes::Ubyte as u8,
            Value::Ushort(_) => EncodingCodes::Ushort as u8,
            Value::Uint(_) => EncodingCodes::Uint as u8,
            Value::Ulong(_) => EncodingCodes::Ulong as u8,
            Value::Byte(_) => EncodingCodes::Byte as u8,
            Value::Short(_) => EncodingCodes::Short as u8,
            Value::Int(_) => EncodingCodes::Int as u8,
            Value::Long(_) => EncodingCodes::Long as u8,
            Value::Float(_) => EncodingCodes::Float as u8,
            Value::Double(_) => EncodingCodes::Double as u8,
            Value::Decimal32(_) => EncodingCodes::Decimal32 as u8,
            Value::Decimal64(_) => EncodingCodes::Decimal64 as u8,
            Value::Decimal128(_) => EncodingCodes::Decimal128 as u8,
            Value::Char(_) => EncodingCodes::Char as u8,
            Value::Timestamp(_) => EncodingCodes::Timestamp as u8,
            Value::Uuid(_) => EncodingCodes::Uuid as u8,
            Value::Binary(_) => EncodingCodes::Vbin32 as u8,
            Value::String(_) => EncodingCodes::Str32 as u8,
            Value::Symbol(_) => EncodingCodes::Sym32 as u8,
            Value::List(_) => EncodingCodes::List32 as u8,
            Value::Map(_) => EncodingCodes::Map32 as u8,
            Value::Array(_) => EncodingCodes::Array32 as u8,
        }
    }
}
