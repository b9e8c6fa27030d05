//! Builds a value from what a deserializer passes.

ghost use Rattle.std.specs.Prelude.{◌≡◌, None, string_bytes};
ghost use Rattle.amqp_data.specs.Fixed.{f32_bits, f64_bits};
ghost use Rattle.amqp_data.specs.Items.{byte_buf_bytes};
ghost use Rattle.amqp_ser.specs.Carried.{descriptor_content};
ghost use Rattle.amqp_ser.specs.Tree.{null, bool, ubyte, ushort, uint, ulong, byte, short, int};
ghost use Rattle.amqp_ser.specs.Tree.{long, float, double, char, binary, string};
ghost use Rattle.amqp_value.specs.TreeOf.{tree_of};
ghost use Rattle.amqp_visit.specs.Events.{Event, HasNoPendingValue, Visits, event_of};
ghost use Rattle.amqp_visit.specs.Events.{unchanged_event, none_event, some_event, newtype_event};
ghost use Rattle.amqp_visit.specs.Events.{seq_event, map_event, enum_event, described_event};
ghost use Rattle.amqp_visit.specs.Events.{value_event, bytes_event};
ghost use Rattle.amqp_visit.specs.Trees.{enum_content, enum_index, map_left, pending_value};
ghost use Rattle.amqp_visit.specs.Trees.{seq_left, value_tree};

use crate::access::{EnumAccess, MapAccess, SeqAccess};
use crate::deserializer::Deserializer;
use crate::visit::Visit;
use amqp_data::{ByteBuf, Descriptor, Error, F32Bits, F64Bits};
use amqp_value::Value;

/// Builds a value from what a deserializer passes.
///
/// # Errors
/// `visit` returns an error if no value is produced from its event.
///
/// # Implementer notes
/// Required method: `visit`. Match each visit that can produce a value, and return `InvalidValue`
/// in the arm `_`, for all others. `visit` must return a value that `gives` relates to the event,
/// and may return an error other than out of memory only if there is no such value. If `represents`
/// relates the event to `x`, it must return a value with the same contents as `x`, or run out of
/// memory. The methods named after a visit call it.
///
/// # Example
/// A visitor that reads the first element of a list:
///
/// ```text
/// fn visit(self, visit: Visit<'_>) -> Result<u32, Error> {
///     match visit {
///         Visit::Seq(mut elements) => match elements.next_element(self.alloc)? {
///             Some(first) => Ok(first),
///             None => Err(Error::InvalidValue),
///         },
///         _ => Err(Error::InvalidValue),
///     }
/// }
/// ```
pub trait Visitor: Sized + Drop {
    /// The type of the value that is built.
    type Value: Drop;

    /// Which events produce which values.
    ghost gives: { Self → Event → Self.Value → Type 0 };

    /// Which event represents a value that round-trips.
    ghost represents: { Self → Event → Self.Value → Type 0 };

    /// Whether two values have the same contents.
    ghost same: { Self.Value → Self.Value → Type 0 };

    /// Builds a value from what is passed.
    ///
    /// # Errors
    /// Returns an error other than out of memory only if this event produces no value.
    fn visit(self, visit: Visit<'_>) -> Result<Self::Value, Error>
        requires { HasNoPendingValue visit }
        ensures { Visits (gives self) (represents self) same (event_of visit.entry) result };

    /// Visits an absent value: calls `visit` with `Visit::None`.
    final fn visit_none(self) -> Result<Self::Value, Error>
        ensures { Visits (gives self) (represents self) same none_event result }
    {
        self.visit(Visit::None)
    }

    /// Visits the value of an `Option` that is `Some`: calls `visit` with `Visit::Some`.
    final fn visit_some(self, deserializer: Deserializer) -> Result<Self::Value, Error>
        ensures { Visits (gives self) (represents self) same
            (some_event (value_tree deserializer)) result }
    {
        self.visit(Visit::Some(deserializer))
    }

    /// Visits `()`, from null: calls `visit` with `Visit::Unit`.
    final fn visit_unit(self) -> Result<Self::Value, Error>
        ensures { Visits (gives self) (represents self) same (unchanged_event null) result }
    {
        self.visit(Visit::Unit)
    }

    /// Visits a `bool`: calls `visit` with `Visit::Bool`.
    final fn visit_bool(self, value: bool) -> Result<Self::Value, Error>
        ensures { Visits (gives self) (represents self) same (unchanged_event (bool value)) result }
    {
        self.visit(Visit::Bool(value))
    }

    /// Visits a `u8`: calls `visit` with `Visit::U8`.
    final fn visit_u8(self, value: u8) -> Result<Self::Value, Error>
        ensures { Visits (gives self) (represents self) same
            (unchanged_event (ubyte value)) result }
    {
        self.visit(Visit::U8(value))
    }

    /// Visits a `u16`: calls `visit` with `Visit::U16`.
    final fn visit_u16(self, value: u16) -> Result<Self::Value, Error>
        ensures { Visits (gives self) (represents self) same
            (unchanged_event (ushort value)) result }
    {
        self.visit(Visit::U16(value))
    }

    /// Visits a `u32`: calls `visit` with `Visit::U32`.
    final fn visit_u32(self, value: u32) -> Result<Self::Value, Error>
        ensures { Visits (gives self) (represents self) same (unchanged_event (uint value)) result }
    {
        self.visit(Visit::U32(value))
    }

    /// Visits a `u64`: calls `visit` with `Visit::U64`.
    final fn visit_u64(self, value: u64) -> Result<Self::Value, Error>
        ensures { Visits (gives self) (represents self) same
            (unchanged_event (ulong value)) result }
    {
        self.visit(Visit::U64(value))
    }

    /// Visits an `i8`: calls `visit` with `Visit::I8`.
    final fn visit_i8(self, value: i8) -> Result<Self::Value, Error>
        ensures { Visits (gives self) (represents self) same (unchanged_event (byte value)) result }
    {
        self.visit(Visit::I8(value))
    }

    /// Visits an `i16`: calls `visit` with `Visit::I16`.
    final fn visit_i16(self, value: i16) -> Result<Self::Value, Error>
        ensures { Visits (gives self) (represents self) same
            (unchanged_event (short value)) result }
    {
        self.visit(Visit::I16(value))
    }

    /// Visits an `i32`: calls `visit` with `Visit::I32`.
    final fn visit_i32(self, value: i32) -> Result<Self::Value, Error>
        ensures { Visits (gives self) (represents self) same (unchanged_event (int value)) result }
    {
        self.visit(Visit::I32(value))
    }

    /// Visits an `i64`: calls `visit` with `Visit::I64`.
    final fn visit_i64(self, value: i64) -> Result<Self::Value, Error>
        ensures { Visits (gives self) (represents self) same (unchanged_event (long value)) result }
    {
        self.visit(Visit::I64(value))
    }

    /// Visits the bits of an `f32`: calls `visit` with `Visit::F32`.
    final fn visit_f32(self, value: F32Bits) -> Result<Self::Value, Error>
        ensures { Visits (gives self) (represents self) same
            (unchanged_event (float (f32_bits value))) result }
    {
        self.visit(Visit::F32(value))
    }

    /// Visits the bits of an `f64`: calls `visit` with `Visit::F64`.
    final fn visit_f64(self, value: F64Bits) -> Result<Self::Value, Error>
        ensures { Visits (gives self) (represents self) same
            (unchanged_event (double (f64_bits value))) result }
    {
        self.visit(Visit::F64(value))
    }

    /// Visits a `char`: calls `visit` with `Visit::Char`.
    final fn visit_char(self, value: char) -> Result<Self::Value, Error>
        ensures { Visits (gives self) (represents self) same (unchanged_event (char value)) result }
    {
        self.visit(Visit::Char(value))
    }

    /// Visits a `String`: calls `visit` with `Visit::String`.
    final fn visit_string(self, value: String) -> Result<Self::Value, Error>
        ensures { Visits (gives self) (represents self) same
            (unchanged_event (string (string_bytes value))) result }
    {
        self.visit(Visit::String(value))
    }

    /// Visits a binary: calls `visit` with `Visit::ByteBuf`.
    final fn visit_byte_buf(self, value: ByteBuf) -> Result<Self::Value, Error>
        ensures { Visits (gives self) (represents self) same
            (unchanged_event (binary (byte_buf_bytes value))) result }
    {
        self.visit(Visit::ByteBuf(value))
    }

    /// Visits the bytes of a decimal or a uuid: calls `visit` with `Visit::Bytes`.
    final fn visit_bytes(self, bytes: &[u8]) -> Result<Self::Value, Error>
        ensures { Visits (gives self) (represents self) same (bytes_event bytes.now) result }
    {
        self.visit(Visit::Bytes(bytes))
    }

    /// Visits the value of a newtype: calls `visit` with `Visit::Newtype`.
    final fn visit_newtype_struct(self, deserializer: Deserializer) -> Result<Self::Value, Error>
        ensures { Visits (gives self) (represents self) same
            (newtype_event (value_tree deserializer)) result }
    {
        self.visit(Visit::Newtype(deserializer))
    }

    /// Visits the elements of a list or an array: calls `visit` with `Visit::Seq`.
    final fn visit_seq(self, elements: SeqAccess) -> Result<Self::Value, Error>
        ensures { Visits (gives self) (represents self) same
            (seq_event (seq_left elements)) result }
    {
        self.visit(Visit::Seq(elements))
    }

    /// Visits the keys and values of a map: calls `visit` with `Visit::Map`.
    final fn visit_map(self, entries: MapAccess) -> Result<Self::Value, Error>
        requires { pending_value entries ≡ None }
        ensures { Visits (gives self) (represents self) same (map_event (map_left entries)) result }
    {
        self.visit(Visit::Map(entries))
    }

    /// Visits a variant of an enum: calls `visit` with `Visit::Enum`.
    final fn visit_enum(self, variant: EnumAccess) -> Result<Self::Value, Error>
        ensures { Visits (gives self) (represents self) same
            (enum_event (enum_index variant) (enum_content variant)) result }
    {
        self.visit(Visit::Enum(variant))
    }

    /// Visits a descriptor and the value after it: calls `visit` with `Visit::Described`.
    final fn visit_described(
        self,
        descriptor: Descriptor,
        deserializer: Deserializer,
    ) -> Result<Self::Value, Error>
        ensures { Visits (gives self) (represents self) same
            (described_event (descriptor_content descriptor) (value_tree deserializer)) result }
    {
        self.visit(Visit::Described(descriptor, deserializer))
    }

    /// Visits an untyped value: calls `visit` with `Visit::Value`.
    final fn visit_value(self, value: Value) -> Result<Self::Value, Error>
        ensures { Visits (gives self) (represents self) same (value_event (tree_of value)) result }
    {
        self.visit(Visit::Value(value))
    }
}
