//! The type of a value, without its content.

ghost use Rattle.std.specs.Prelude.{◌≡◌, Some};
ghost use Rattle.amqp_value.specs.ValueKind.{kind_name, kind_of};

use crate::Value;
use std::fmt;
use std::fmt::{Display, Formatter, Write};

/// The type of a value, without its content. The order is that of the variants of [`Value`].
///
/// # Example
/// The kind of the value encoded as `5001` is `ValueKind::Ubyte`, displayed as `ubyte`.
#[derive(Debug, PartialEq, Eq, PartialOrd, Ord, Hash, Clone, Copy)]
pub enum ValueKind {
    /// A value with a descriptor (section 1.1.2).
    Described,
    /// `null` (section 1.6.1).
    Null,
    /// `boolean` (section 1.6.2).
    Bool,
    /// `ubyte` (section 1.6.3).
    Ubyte,
    /// `ushort` (section 1.6.4).
    Ushort,
    /// `uint` (section 1.6.5).
    Uint,
    /// `ulong` (section 1.6.6).
    Ulong,
    /// `byte` (section 1.6.7).
    Byte,
    /// `short` (section 1.6.8).
    Short,
    /// `int` (section 1.6.9).
    Int,
    /// `long` (section 1.6.10).
    Long,
    /// `float` (section 1.6.11).
    Float,
    /// `double` (section 1.6.12).
    Double,
    /// `decimal32` (section 1.6.13).
    Decimal32,
    /// `decimal64` (section 1.6.14).
    Decimal64,
    /// `decimal128` (section 1.6.15).
    Decimal128,
    /// `char` (section 1.6.16).
    Char,
    /// `timestamp` (section 1.6.17).
    Timestamp,
    /// `uuid` (section 1.6.18).
    Uuid,
    /// `binary` (section 1.6.19).
    Binary,
    /// `string` (section 1.6.20).
    String,
    /// `symbol` (section 1.6.21).
    Symbol,
    /// `list` (section 1.6.22).
    List,
    /// `map` (section 1.6.23).
    Map,
    /// `array` (section 1.6.24).
    Array,
}

impl ValueKind {
    /// Returns the name of the type in AMQP 1.0 part 1, section 1.6, or `described`.
    ///
    /// # Example
    /// `boolean` for `ValueKind::Bool`.
    pub fn name(self) -> &'static str
        ensures { result.now ≡ kind_name self }
    {
        match self {
            ValueKind::Described => "described",
            ValueKind::Null => "null",
            ValueKind::Bool => "boolean",
            ValueKind::Ubyte => "ubyte",
            ValueKind::Ushort => "ushort",
            ValueKind::Uint => "uint",
            ValueKind::Ulong => "ulong",
            ValueKind::Byte => "byte",
            ValueKind::Short => "short",
            ValueKind::Int => "int",
            ValueKind::Long => "long",
            ValueKind::Float => "float",
            ValueKind::Double => "double",
            ValueKind::Decimal32 => "decimal32",
            ValueKind::Decimal64 => "decimal64",
            ValueKind::Decimal128 => "decimal128",
            ValueKind::Char => "char",
            ValueKind::Timestamp => "timestamp",
            ValueKind::Uuid => "uuid",
            ValueKind::Binary => "binary",
            ValueKind::String => "string",
            ValueKind::Symbol => "symbol",
            ValueKind::List => "list",
            ValueKind::Map => "map",
            ValueKind::Array => "array",
        }
    }
}

/// Writes the name.
///
/// # Example
/// `boolean`.
impl Display for ValueKind {
    ghost output = { λ kind. Some (kind_name kind) };

    fn fmt<W: Write>(&self, f: &mut Formatter<W>) -> fmt::Result {
        f.write_str(self.name())
    }
}

impl Value {
    /// Returns the type of the value.
    ///
    /// # Example
    /// `ValueKind::Ubyte` for the value encoded as `5001`.
    pub fn kind(&self) -> ValueKind
        ensures { result ≡ kind_of self.now }
    {
        match self {
            Value::Described(_) => ValueKind::Described,
            Value::Null => ValueKind::Null,
            Value::Bool(_) => ValueKind::Bool,
            Value::Ubyte(_) => ValueKind::Ubyte,
            Value::Ushort(_) => ValueKind::Ushort,
            Value::Uint(_) => ValueKind::Uint,
            Value::Ulong(_) => ValueKind::Ulong,
            Value::Byte(_) => ValueKind::Byte,
            Value::Short(_) => ValueKind::Short,
            Value::Int(_) => ValueKind::Int,
            Value::Long(_) => ValueKind::Long,
            Value::Float(_) => ValueKind::Float,
            Value::Double(_) => ValueKind::Double,
            Value::Decimal32(_) => ValueKind::Decimal32,
            Value::Decimal64(_) => ValueKind::Decimal64,
            Value::Decimal128(_) => ValueKind::Decimal128,
            Value::Char(_) => ValueKind::Char,
            Value::Timestamp(_) => ValueKind::Timestamp,
            Value::Uuid(_) => ValueKind::Uuid,
            Value::Binary(_) => ValueKind::Binary,
            Value::String(_) => ValueKind::String,
            Value::Symbol(_) => ValueKind::Symbol,
            Value::List(_) => ValueKind::List,
            Value::Map(_) => ValueKind::Map,
            Value::Array(_) => ValueKind::Array,
        }
    }
}
