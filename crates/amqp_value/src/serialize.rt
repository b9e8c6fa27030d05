//! Serialization of a value, whose tree has the same kinds at every depth.

ghost use Rattle.std.specs.Prelude.{Some};
ghost use Rattle.amqp_value.specs.TreeOf.{tree_of};

use crate::Value;
use amqp_ser::{Serialize, SerializeScalars, Serializer};

impl Serialize for Value {
    ghost tree = { λ v. Some (tree_of v) };

    #[cycle(serialize)]
    fn serialize<S: Serializer>(&self, serializer: &mut S) -> Result<S::Ok, S::Error> {
        match serializer.try_whole(self) {
            Some(ok) => Ok(ok),
            None => serialize_parts(self, serializer),
        }
    }
}

/// Serializes a value through the methods of the serializer, in a function of its own, so that a
/// value that is written at once saves no registers for it.
#[inline(never)]
#[cycle(serialize)]
fn serialize_parts<S: Serializer>(value: &Value, serializer: &mut S) -> Result<S::Ok, S::Error>
    ensures { S.permits serializer.old (Some (tree_of value.now)) result serializer.new }
{
    match value {
        Value::Described(v) => apart(v, serializer),
        Value::Null => serializer.serialize_unit(),
        Value::Bool(v) => v.serialize(serializer),
        Value::Ubyte(v) => v.serialize(serializer),
        Value::Ushort(v) => v.serialize(serializer),
        Value::Uint(v) => v.serialize(serializer),
        Value::Ulong(v) => v.serialize(serializer),
        Value::Byte(v) => v.serialize(serializer),
        Value::Short(v) => v.serialize(serializer),
        Value::Int(v) => v.serialize(serializer),
        Value::Long(v) => v.serialize(serializer),
        Value::Float(v) => v.serialize(serializer),
        Value::Double(v) => v.serialize(serializer),
        Value::Decimal32(v) => v.serialize(serializer),
        Value::Decimal64(v) => v.serialize(serializer),
        Value::Decimal128(v) => v.serialize(serializer),
        Value::Char(v) => v.serialize(serializer),
        Value::Timestamp(v) => v.serialize(serializer),
        Value::Uuid(v) => v.serialize(serializer),
        Value::Binary(v) => v.serialize(serializer),
        Value::String(v) => v.serialize(serializer),
        Value::Symbol(v) => v.serialize(serializer),
        Value::List(v) => apart(v, serializer),
        Value::Map(v) => apart(v, serializer),
        Value::Array(v) => apart(v, serializer),
    }
}

/// Serializes a compound. The stack space of its result is cleared only if there is a compound.
#[inline(always)]
fn apart<T: Serialize, S: Serializer>(compound: &T, serializer: &mut S) -> Result<S::Ok, S::Error>
    ensures { S.permits serializer.old (T.tree compound.now) result serializer.new }
{
    serialize_compound(compound, serializer)
}

/// Serializes a compound in a separate function, so that a scalar clears no stack space for it.
#[inline(never)]
fn serialize_compound<T: Serialize, S: Serializer>(
    compound: &T,
    serializer: &mut S,
) -> Result<S::Ok, S::Error>
    ensures { S.permits serializer.old (T.tree compound.now) result serializer.new }
{
    compound.serialize(serializer)
}
