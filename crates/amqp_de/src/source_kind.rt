//! The kinds of values that seeds tell apart before they read one.

ghost use Rattle.std.specs.Prelude.{◌≡◌};
ghost use Rattle.amqp_value.specs.TreeOf.{tree_of};
ghost use Rattle.amqp_de.specs.SourceKinds.{source_kind_of};

use amqp_value::Value;

/// The kind of a value.
#[derive(Clone, Copy)]
pub enum SourceKind {
    /// A list.
    List,
    /// An array.
    Array,
    /// A map.
    Map,
    /// An unsigned 32-bit integer.
    Uint,
    /// Any other value, or one of which the kind is not known.
    Other,
}

/// Returns the kind of the value.
pub(crate) fn source_kind_of(value: &Value) -> SourceKind
    ensures { result ≡ source_kind_of (tree_of value.now) }
{
    match value {
        Value::List(_) => SourceKind::List,
        Value::Array(_) => SourceKind::Array,
        Value::Map(_) => SourceKind::Map,
        Value::Uint(_) => SourceKind::Uint,
        _ => SourceKind::Other,
    }
}

/// Returns the kind of a value that is encoded with this format code.
#[inline(always)]
pub(crate) fn source_kind_of_code(code: u8) -> SourceKind {
    match code {
        0x45 | 0xc0 | 0xd0 => SourceKind::List,
        0xe0 | 0xf0 => SourceKind::Array,
        0xc1 | 0xd1 => SourceKind::Map,
        0x43 | 0x52 | 0x70 => SourceKind::Uint,
        _ => SourceKind::Other,
    }
}
