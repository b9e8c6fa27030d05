//! The methods of a deserializer for characters, texts and bytes, and for values that may be null.

ghost use Rattle.std.specs.Prelude.{◌≡◌};
ghost use Rattle.amqp_ser.specs.Tree.{scalar, null, char, string, binary};
ghost use Rattle.amqp_visit.specs.Accepted.{IsOf};
ghost use Rattle.amqp_visit.specs.Events.{Visits, ByScalar, ByOption, ByUnit};
ghost use Rattle.amqp_visit.specs.Results.{InvalidUnless};
ghost use Rattle.amqp_visit.specs.Trees.{value_tree};

use crate::deserializer::Deserializer;
use crate::visitor::Visitor;
use amqp_data::Error;
use amqp_value::Value;

impl Deserializer {
    /// Deserializes a `char` from a char.
    ///
    /// # Errors
    /// Returns `InvalidValue` if the value is not a char; otherwise the visitor's error.
    ///
    /// # Example
    /// For the char `a`, calls `visit_char('a')`.
    pub fn deserialize_char<V: Visitor>(self, visitor: V) -> Result<V::Value, Error>
        ensures visits { Visits (ByScalar (V.gives visitor) char)
            (ByScalar (V.represents visitor) char)
            V.same (value_tree self) result }
        ensures invalid { InvalidUnless (IsOf char (value_tree self)) result }
    {
        match self.value {
            Value::Char(value) => visitor.visit_char(value),
            _ => Err(Error::InvalidValue),
        }
    }

    /// Deserializes a `String` from a string.
    ///
    /// # Errors
    /// Returns `InvalidValue` if the value is not a string; otherwise the visitor's error.
    ///
    /// # Example
    /// For the string `a`, calls `visit_string` with it. The symbol `a` is invalid.
    pub fn deserialize_string<V: Visitor>(self, visitor: V) -> Result<V::Value, Error>
        ensures visits { Visits (ByScalar (V.gives visitor) string)
            (ByScalar (V.represents visitor) string)
            V.same (value_tree self) result }
        ensures invalid { InvalidUnless (IsOf string (value_tree self)) result }
    {
        let Deserializer { value, .. } = self;
        match value {
            Value::String(value) => visitor.visit_string(value),
            _ => Err(Error::InvalidValue),
        }
    }

    /// Deserializes a string, like `deserialize_string`.
    ///
    /// # Errors
    /// Returns `InvalidValue` if the value is not a string; otherwise the visitor's error.
    ///
    /// # Example
    /// For the string `a`, calls `visit_string` with it.
    pub fn deserialize_str<V: Visitor>(self, visitor: V) -> Result<V::Value, Error>
        ensures visits { Visits (ByScalar (V.gives visitor) string)
            (ByScalar (V.represents visitor) string)
            V.same (value_tree self) result }
        ensures invalid { InvalidUnless (IsOf string (value_tree self)) result }
    {
        self.deserialize_string(visitor)
    }

    /// Deserializes a `ByteBuf` from a binary.
    ///
    /// # Errors
    /// Returns `InvalidValue` if the value is not a binary; otherwise the visitor's error.
    ///
    /// # Example
    /// For the binary 01, 02, calls `visit_byte_buf` with it. A list of ubytes is invalid.
    pub fn deserialize_byte_buf<V: Visitor>(self, visitor: V) -> Result<V::Value, Error>
        ensures visits { Visits (ByScalar (V.gives visitor) binary)
            (ByScalar (V.represents visitor) binary)
            V.same (value_tree self) result }
        ensures invalid { InvalidUnless (IsOf binary (value_tree self)) result }
    {
        let Deserializer { value, .. } = self;
        match value {
            Value::Binary(value) => visitor.visit_byte_buf(value),
            _ => Err(Error::InvalidValue),
        }
    }

    /// Deserializes a binary, like `deserialize_byte_buf`.
    ///
    /// # Errors
    /// Returns `InvalidValue` if the value is not a binary; otherwise the visitor's error.
    ///
    /// # Example
    /// For the binary 01, 02, calls `visit_byte_buf` with it.
    pub fn deserialize_bytes<V: Visitor>(self, visitor: V) -> Result<V::Value, Error>
        ensures visits { Visits (ByScalar (V.gives visitor) binary)
            (ByScalar (V.represents visitor) binary)
            V.same (value_tree self) result }
        ensures invalid { InvalidUnless (IsOf binary (value_tree self)) result }
    {
        self.deserialize_byte_buf(visitor)
    }

    /// Deserializes an `Option`: null as `None`, and any other value as `Some`.
    ///
    /// # Errors
    /// Returns the visitor's error.
    ///
    /// # Example
    /// For null, calls `visit_none()`. For the uint 5, calls `visit_some` with a deserializer of
    /// it.
    pub fn deserialize_option<V: Visitor>(self, visitor: V) -> Result<V::Value, Error>
        ensures { Visits (ByOption (V.gives visitor)) (ByOption (V.represents visitor))
            V.same (value_tree self) result }
    {
        match self.value {
            Value::Null => visitor.visit_none(),
            value => visitor.visit_some(Deserializer::new(self.alloc, value)),
        }
    }

    /// Deserializes `()` from null.
    ///
    /// # Errors
    /// Returns `InvalidValue` if the value is not null; otherwise the visitor's error.
    ///
    /// # Example
    /// For null, calls `visit_unit()`. The boolean `false` is invalid.
    pub fn deserialize_unit<V: Visitor>(self, visitor: V) -> Result<V::Value, Error>
        ensures visits { Visits (ByUnit (V.gives visitor)) (ByUnit (V.represents visitor))
            V.same (value_tree self) result }
        ensures invalid { InvalidUnless (value_tree self ≡ scalar null) result }
    {
        match self.value {
            Value::Null => visitor.visit_unit(),
            _ => Err(Error::InvalidValue),
        }
    }

    /// Deserializes a unit struct, like `deserialize_unit`. The name is ignored.
    ///
    /// # Errors
    /// Returns `InvalidValue` if the value is not null; otherwise the visitor's error.
    ///
    /// # Example
    /// For null and any name, calls `visit_unit()`.
    pub fn deserialize_unit_struct<V: Visitor>(
        self,
        _name: &str,
        visitor: V,
    ) -> Result<V::Value, Error>
        ensures visits { Visits (ByUnit (V.gives visitor)) (ByUnit (V.represents visitor))
            V.same (value_tree self) result }
        ensures invalid { InvalidUnless (value_tree self ≡ scalar null) result }
    {
        self.deserialize_unit(visitor)
    }
}
