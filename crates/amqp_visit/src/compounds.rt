//! The methods of a deserializer for lists, arrays, maps and described values.

ghost use Rattle.amqp_ser.specs.Tree.{null};
ghost use Rattle.amqp_visit.specs.Accepted.{IsArray, IsDescribed, IsList, IsMap, IsStruct};
ghost use Rattle.amqp_visit.specs.Events.{Visits, ByArray, ByDescribed, ByList, ByMap, ByStruct};
ghost use Rattle.amqp_visit.specs.Events.{any_event, is_described_name, unchanged_event};
ghost use Rattle.amqp_visit.specs.Results.{InvalidUnless};
ghost use Rattle.amqp_visit.specs.Trees.{value_tree};

use crate::access::{MapAccess, SeqAccess};
use crate::deserializer::Deserializer;
use crate::names::is_described_name;
use crate::visitor::Visitor;
use amqp_data::Error;
use amqp_value::Value;

impl Deserializer {
    /// Deserializes the elements of a list.
    ///
    /// # Errors
    /// Returns `InvalidValue` if the value is not a list; otherwise the visitor's error.
    ///
    /// # Example
    /// For the list of the ubytes 1 and 2, calls `visit_seq` with these two elements. An array of
    /// them is invalid.
    pub fn deserialize_seq<V: Visitor>(self, visitor: V) -> Result<V::Value, Error>
        ensures visits { Visits (ByList (V.gives visitor)) (ByList (V.represents visitor))
            V.same (value_tree self) result }
        ensures invalid { InvalidUnless (IsList (value_tree self)) result }
    {
        let Deserializer { alloc, value } = self;
        match value {
            Value::List(elements) => visitor.visit_seq(SeqAccess::new(alloc, elements)),
            _ => Err(Error::InvalidValue),
        }
    }

    /// Deserializes a tuple, like `deserialize_seq`.
    ///
    /// # Errors
    /// Returns `InvalidValue` if the value is not a list; otherwise the visitor's error.
    ///
    /// # Example
    /// For the list of the ubyte 1 and `true`, calls `visit_seq` with these two elements.
    pub fn deserialize_tuple<V: Visitor>(self, visitor: V) -> Result<V::Value, Error>
        ensures visits { Visits (ByList (V.gives visitor)) (ByList (V.represents visitor))
            V.same (value_tree self) result }
        ensures invalid { InvalidUnless (IsList (value_tree self)) result }
    {
        self.deserialize_seq(visitor)
    }

    /// Deserializes the elements of an array.
    ///
    /// # Errors
    /// Returns `InvalidValue` if the value is not an array; otherwise the visitor's error.
    ///
    /// # Example
    /// For the array of the ubytes 1 and 2, calls `visit_seq` with these two elements. A list of
    /// them is invalid.
    pub fn deserialize_array<V: Visitor>(self, visitor: V) -> Result<V::Value, Error>
        ensures visits { Visits (ByArray (V.gives visitor)) (ByArray (V.represents visitor))
            V.same (value_tree self) result }
        ensures invalid { InvalidUnless (IsArray (value_tree self)) result }
    {
        let Deserializer { alloc, value } = self;
        match value {
            Value::Array(elements) => {
                visitor.visit_seq(SeqAccess::new(alloc, elements.into_inner()))
            }
            _ => Err(Error::InvalidValue),
        }
    }

    /// Deserializes the keys and values of a map.
    ///
    /// # Errors
    /// Returns `InvalidValue` if the value is not a map; otherwise the visitor's error.
    ///
    /// # Example
    /// For the map from the ubyte 1 to `true`, calls `visit_map` with this pair.
    pub fn deserialize_map<V: Visitor>(self, visitor: V) -> Result<V::Value, Error>
        ensures visits { Visits (ByMap (V.gives visitor)) (ByMap (V.represents visitor))
            V.same (value_tree self) result }
        ensures invalid { InvalidUnless (IsMap (value_tree self)) result }
    {
        let Deserializer { alloc, value } = self;
        match value {
            Value::Map(entries) => visitor.visit_map(MapAccess::new(alloc, entries)),
            _ => Err(Error::InvalidValue),
        }
    }

    /// Deserializes a described value: a descriptor and the value after it.
    ///
    /// # Errors
    /// Returns `InvalidValue` if the value is not described; otherwise the visitor's error.
    ///
    /// # Example
    /// For `true` described by the code 1, calls `visit_described` with this code and a
    /// deserializer of `true`. The value `true` without a descriptor is invalid.
    pub fn deserialize_described<V: Visitor>(self, visitor: V) -> Result<V::Value, Error>
        ensures visits { Visits (ByDescribed (V.gives visitor)) (ByDescribed (V.represents visitor))
            V.same (value_tree self) result }
        ensures invalid { InvalidUnless (IsDescribed (value_tree self)) result }
    {
        let Deserializer { alloc, value } = self;
        match value {
            Value::Described(described) => {
                let described = Box::into_inner(described);
                let inner = Deserializer::new(alloc, described.value);
                visitor.visit_described(described.descriptor, inner)
            }
            _ => Err(Error::InvalidValue),
        }
    }

    /// Deserializes a struct: the elements of a list, or, if the name is that of a described
    /// struct, a descriptor and the value after it.
    ///
    /// # Errors
    /// Returns `InvalidValue` if the value is not a list, or, for the name of a described struct,
    /// not a described value; otherwise the visitor's error.
    ///
    /// # Example
    /// For the list of the ubyte 1, calls `visit_seq` with this element. For that list described by
    /// the code 1, under the name `DESCRIBED_LIST`, calls `visit_described`.
    pub fn deserialize_struct<V: Visitor>(self, name: &str, visitor: V) -> Result<V::Value, Error>
        ensures visits { Visits (ByStruct (V.gives visitor) (is_described_name name.now))
            (ByStruct (V.represents visitor) (is_described_name name.now))
            V.same (value_tree self) result }
        ensures invalid { InvalidUnless
            (IsStruct (is_described_name name.now) (value_tree self)) result }
    {
        if is_described_name(name) {
            self.deserialize_described(visitor)
        } else {
            self.deserialize_seq(visitor)
        }
    }

    /// Deserializes a tuple struct, like `deserialize_struct`.
    ///
    /// # Errors
    /// Returns the errors of `deserialize_struct`.
    ///
    /// # Example
    /// For the list of the ubyte 1, calls `visit_seq` with this element.
    pub fn deserialize_tuple_struct<V: Visitor>(
        self,
        name: &str,
        visitor: V,
    ) -> Result<V::Value, Error>
        ensures visits { Visits (ByStruct (V.gives visitor) (is_described_name name.now))
            (ByStruct (V.represents visitor) (is_described_name name.now))
            V.same (value_tree self) result }
        ensures invalid { InvalidUnless
            (IsStruct (is_described_name name.now) (value_tree self)) result }
    {
        self.deserialize_struct(name, visitor)
    }

    /// Ignores the value and reports null.
    ///
    /// # Errors
    /// Returns the visitor's error.
    ///
    /// # Example
    /// For the empty list, calls `visit_unit()`.
    pub fn deserialize_ignored_any<V: Visitor>(self, visitor: V) -> Result<V::Value, Error>
        ensures { Visits (V.gives visitor) (V.represents visitor) V.same
            (unchanged_event null) result }
    {
        visitor.visit_unit()
    }

    /// Deserializes a value by its kind. A symbol, timestamp, uuid or decimal is reported as an
    /// untyped value.
    ///
    /// # Errors
    /// Returns the visitor's error.
    ///
    /// # Example
    /// For `true`, calls `visit_bool(true)`. For the array of the ubyte 1, calls `visit_seq` with
    /// this element. For the symbol `a`, calls `visit_value` with it.
    pub fn deserialize_any<V: Visitor>(self, visitor: V) -> Result<V::Value, Error>
        ensures { Visits (V.gives visitor) (V.represents visitor) V.same
            (any_event (value_tree self)) result }
    {
        let Deserializer { alloc, value } = self;
        match value {
            Value::Null => visitor.visit_unit(),
            Value::Bool(value) => visitor.visit_bool(value),
            Value::Ubyte(value) => visitor.visit_u8(value),
            Value::Ushort(value) => visitor.visit_u16(value),
            Value::Uint(value) => visitor.visit_u32(value),
            Value::Ulong(value) => visitor.visit_u64(value),
            Value::Byte(value) => visitor.visit_i8(value),
            Value::Short(value) => visitor.visit_i16(value),
            Value::Int(value) => visitor.visit_i32(value),
            Value::Long(value) => visitor.visit_i64(value),
            Value::Float(value) => visitor.visit_f32(value),
            Value::Double(value) => visitor.visit_f64(value),
            Value::Char(value) => visitor.visit_char(value),
            Value::Binary(value) => visitor.visit_byte_buf(value),
            Value::String(value) => visitor.visit_string(value),
            Value::List(values) => visitor.visit_seq(SeqAccess::new(alloc, values)),
            Value::Array(array) => visitor.visit_seq(SeqAccess::new(alloc, array.into_inner())),
            Value::Map(map) => visitor.visit_map(MapAccess::new(alloc, map)),
            Value::Described(described) => {
                let described = Box::into_inner(described);
                let inner = Deserializer::new(alloc, described.value);
                visitor.visit_described(described.descriptor, inner)
            }
            Value::Symbol(value) => visitor.visit_value(Value::Symbol(value)),
            Value::Timestamp(value) => visitor.visit_value(Value::Timestamp(value)),
            Value::Uuid(value) => visitor.visit_value(Value::Uuid(value)),
            Value::Decimal32(value) => visitor.visit_value(Value::Decimal32(value)),
            Value::Decimal64(value) => visitor.visit_value(Value::Decimal64(value)),
            Value::Decimal128(value) => visitor.visit_value(Value::Decimal128(value)),
        }
    }
}
