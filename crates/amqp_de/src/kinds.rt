//! Numbers for the types of values, and the error for a value of a type that is not read.

ghost use Rattle.std.specs.Prelude.{◌≡◌};
ghost use Rattle.amqp_de.specs.declared.fault.FaultKind.TheVariants.{Invalid};
ghost use Rattle.amqp_de.specs.Results.{IsMemory, kind_of};

use crate::fault::Fault;
use amqp_value::{Value, ValueKind};

impl Fault {
    /// Drops a value of another type than the several that are read, and returns the error for it.
    ///
    /// # Example
    /// For the uint 1, the type that is found is a uint.
    #[inline(never)]
    pub fn unexpected(value: Value) -> Fault
        ensures memory { ¬ (IsMemory result) }
        ensures kind { kind_of result ≡ Invalid }
    {
        let found = value.kind();
        drop(value);
        Fault::other(None, found)
    }
}

/// Returns the number of a type, which is not 0 and less than 256.
pub(crate) fn number_of(kind: ValueKind) -> u64 {
    (kind as u64).saturating_add(1)
}

/// Returns the type with this number, if there is one.
pub(crate) fn kind_numbered(number: u64) -> Option<ValueKind> {
    match number {
        1 => Some(ValueKind::Described),
        2 => Some(ValueKind::Null),
        3 => Some(ValueKind::Bool),
        4 => Some(ValueKind::Ubyte),
        5 => Some(ValueKind::Ushort),
        6 => Some(ValueKind::Uint),
        7 => Some(ValueKind::Ulong),
        8 => Some(ValueKind::Byte),
        9 => Some(ValueKind::Short),
        10 => Some(ValueKind::Int),
        11 => Some(ValueKind::Long),
        12 => Some(ValueKind::Float),
        13 => Some(ValueKind::Double),
        14 => Some(ValueKind::Decimal32),
        15 => Some(ValueKind::Decimal64),
        16 => Some(ValueKind::Decimal128),
        17 => Some(ValueKind::Char),
        18 => Some(ValueKind::Timestamp),
        19 => Some(ValueKind::Uuid),
        20 => Some(ValueKind::Binary),
        21 => Some(ValueKind::String),
        22 => Some(ValueKind::Symbol),
        23 => Some(ValueKind::List),
        24 => Some(ValueKind::Map),
        25 => Some(ValueKind::Array),
        _ => None,
    }
}
