//! What a deserializer passes to a visitor.

use crate::access::{EnumAccess, MapAccess, SeqAccess};
use crate::deserializer::Deserializer;
use amqp_data::{ByteBuf, Descriptor, F32Bits, F64Bits};
use amqp_value::Value;

/// The argument of [`Visitor::visit`](crate::Visitor::visit): one variant for each visit.
#[derive(Drop)]
pub enum Visit<'a> {
    /// An absent value.
    None,
    /// The value of an `Option` that is `Some`.
    Some(Deserializer),
    /// Null.
    Unit,
    /// A boolean.
    Bool(bool),
    /// An unsigned integer of 8 bits.
    U8(u8),
    /// An unsigned integer of 16 bits.
    U16(u16),
    /// An unsigned integer of 32 bits.
    U32(u32),
    /// An unsigned integer of 64 bits.
    U64(u64),
    /// A signed integer of 8 bits.
    I8(i8),
    /// A signed integer of 16 bits.
    I16(i16),
    /// A signed integer of 32 bits.
    I32(i32),
    /// A signed integer of 64 bits.
    I64(i64),
    /// The bits of a float.
    F32(F32Bits),
    /// The bits of a double.
    F64(F64Bits),
    /// A character.
    Char(char),
    /// A string.
    String(String),
    /// A binary.
    ByteBuf(ByteBuf),
    /// The bytes of a decimal or a uuid. The call of the deserializer determines which of them it
    /// is, and so the number of bytes.
    Bytes(&'a [u8]),
    /// The value of a newtype.
    Newtype(Deserializer),
    /// The elements of a list or an array.
    Seq(SeqAccess),
    /// The keys and values of a map. The accessor has no pending value.
    Map(MapAccess),
    /// A variant of an enum.
    Enum(EnumAccess),
    /// A descriptor and the value after it.
    Described(Descriptor, Deserializer),
    /// An untyped value.
    Value(Value),
}
