//! The methods of a deserializer for booleans and numbers.

ghost use Rattle.amqp_ser.specs.Tree.{bool, ubyte, ushort, uint, ulong, byte, short, int, long};
ghost use Rattle.amqp_ser.specs.Tree.{float, double};
ghost use Rattle.amqp_visit.specs.Accepted.{IsOf};
ghost use Rattle.amqp_visit.specs.Events.{Visits, ByScalar};
ghost use Rattle.amqp_visit.specs.Results.{InvalidUnless};
ghost use Rattle.amqp_visit.specs.Trees.{value_tree};

use crate::deserializer::Deserializer;
use crate::visitor::Visitor;
use amqp_data::Error;
use amqp_value::Value;

impl Deserializer {
    /// Deserializes a `bool` from a boolean.
    ///
    /// # Errors
    /// Returns `InvalidValue` if the value is not a boolean; otherwise the visitor's error.
    ///
    /// # Example
    /// For `true`, calls `visit_bool(true)`. The ubyte 1 is invalid.
    pub fn deserialize_bool<V: Visitor>(self, visitor: V) -> Result<V::Value, Error>
        ensures visits { Visits (ByScalar (V.gives visitor) bool)
            (ByScalar (V.represents visitor) bool)
            V.same (value_tree self) result }
        ensures invalid { InvalidUnless (IsOf bool (value_tree self)) result }
    {
        match self.value {
            Value::Bool(value) => visitor.visit_bool(value),
            _ => Err(Error::InvalidValue),
        }
    }

    /// Deserializes a `u8` from a ubyte.
    ///
    /// # Errors
    /// Returns `InvalidValue` if the value is not a ubyte; otherwise the visitor's error.
    ///
    /// # Example
    /// For the ubyte 5, calls `visit_u8(5)`. The uint 5 is invalid.
    pub fn deserialize_u8<V: Visitor>(self, visitor: V) -> Result<V::Value, Error>
        ensures visits { Visits (ByScalar (V.gives visitor) ubyte)
            (ByScalar (V.represents visitor) ubyte)
            V.same (value_tree self) result }
        ensures invalid { InvalidUnless (IsOf ubyte (value_tree self)) result }
    {
        match self.value {
            Value::Ubyte(value) => visitor.visit_u8(value),
            _ => Err(Error::InvalidValue),
        }
    }

    /// Deserializes a `u16` from a ushort.
    ///
    /// # Errors
    /// Returns `InvalidValue` if the value is not a ushort; otherwise the visitor's error.
    ///
    /// # Example
    /// For the ushort 256, calls `visit_u16(256)`.
    pub fn deserialize_u16<V: Visitor>(self, visitor: V) -> Result<V::Value, Error>
        ensures visits { Visits (ByScalar (V.gives visitor) ushort)
            (ByScalar (V.represents visitor) ushort)
            V.same (value_tree self) result }
        ensures invalid { InvalidUnless (IsOf ushort (value_tree self)) result }
    {
        match self.value {
            Value::Ushort(value) => visitor.visit_u16(value),
            _ => Err(Error::InvalidValue),
        }
    }

    /// Deserializes a `u32` from a uint.
    ///
    /// # Errors
    /// Returns `InvalidValue` if the value is not a uint; otherwise the visitor's error.
    ///
    /// # Example
    /// For the uint 1, calls `visit_u32(1)`. The ulong 1 is invalid.
    pub fn deserialize_u32<V: Visitor>(self, visitor: V) -> Result<V::Value, Error>
        ensures visits { Visits (ByScalar (V.gives visitor) uint)
            (ByScalar (V.represents visitor) uint)
            V.same (value_tree self) result }
        ensures invalid { InvalidUnless (IsOf uint (value_tree self)) result }
    {
        match self.value {
            Value::Uint(value) => visitor.visit_u32(value),
            _ => Err(Error::InvalidValue),
        }
    }

    /// Deserializes a `u64` from a ulong.
    ///
    /// # Errors
    /// Returns `InvalidValue` if the value is not a ulong; otherwise the visitor's error.
    ///
    /// # Example
    /// For the ulong 13, calls `visit_u64(13)`.
    pub fn deserialize_u64<V: Visitor>(self, visitor: V) -> Result<V::Value, Error>
        ensures visits { Visits (ByScalar (V.gives visitor) ulong)
            (ByScalar (V.represents visitor) ulong)
            V.same (value_tree self) result }
        ensures invalid { InvalidUnless (IsOf ulong (value_tree self)) result }
    {
        match self.value {
            Value::Ulong(value) => visitor.visit_u64(value),
            _ => Err(Error::InvalidValue),
        }
    }

    /// Deserializes an `i8` from a byte.
    ///
    /// # Errors
    /// Returns `InvalidValue` if the value is not a byte; otherwise the visitor's error.
    ///
    /// # Example
    /// For the byte -1, calls `visit_i8(-1)`.
    pub fn deserialize_i8<V: Visitor>(self, visitor: V) -> Result<V::Value, Error>
        ensures visits { Visits (ByScalar (V.gives visitor) byte)
            (ByScalar (V.represents visitor) byte)
            V.same (value_tree self) result }
        ensures invalid { InvalidUnless (IsOf byte (value_tree self)) result }
    {
        match self.value {
            Value::Byte(value) => visitor.visit_i8(value),
            _ => Err(Error::InvalidValue),
        }
    }

    /// Deserializes an `i16` from a short.
    ///
    /// # Errors
    /// Returns `InvalidValue` if the value is not a short; otherwise the visitor's error.
    ///
    /// # Example
    /// For the short -2, calls `visit_i16(-2)`.
    pub fn deserialize_i16<V: Visitor>(self, visitor: V) -> Result<V::Value, Error>
        ensures visits { Visits (ByScalar (V.gives visitor) short)
            (ByScalar (V.represents visitor) short)
            V.same (value_tree self) result }
        ensures invalid { InvalidUnless (IsOf short (value_tree self)) result }
    {
        match self.value {
            Value::Short(value) => visitor.visit_i16(value),
            _ => Err(Error::InvalidValue),
        }
    }

    /// Deserializes an `i32` from an int.
    ///
    /// # Errors
    /// Returns `InvalidValue` if the value is not an int; otherwise the visitor's error.
    ///
    /// # Example
    /// For the int 128, calls `visit_i32(128)`.
    pub fn deserialize_i32<V: Visitor>(self, visitor: V) -> Result<V::Value, Error>
        ensures visits { Visits (ByScalar (V.gives visitor) int)
            (ByScalar (V.represents visitor) int)
            V.same (value_tree self) result }
        ensures invalid { InvalidUnless (IsOf int (value_tree self)) result }
    {
        match self.value {
            Value::Int(value) => visitor.visit_i32(value),
            _ => Err(Error::InvalidValue),
        }
    }

    /// Deserializes an `i64` from a long.
    ///
    /// # Errors
    /// Returns `InvalidValue` if the value is not a long; otherwise the visitor's error.
    ///
    /// # Example
    /// For the long -1, calls `visit_i64(-1)`. A timestamp is invalid.
    pub fn deserialize_i64<V: Visitor>(self, visitor: V) -> Result<V::Value, Error>
        ensures visits { Visits (ByScalar (V.gives visitor) long)
            (ByScalar (V.represents visitor) long)
            V.same (value_tree self) result }
        ensures invalid { InvalidUnless (IsOf long (value_tree self)) result }
    {
        match self.value {
            Value::Long(value) => visitor.visit_i64(value),
            _ => Err(Error::InvalidValue),
        }
    }

    /// Deserializes the bits of an `f32` from a float.
    ///
    /// # Errors
    /// Returns `InvalidValue` if the value is not a float; otherwise the visitor's error.
    ///
    /// # Example
    /// For the float 1.5, calls `visit_f32` with the bits 3FC00000.
    pub fn deserialize_f32<V: Visitor>(self, visitor: V) -> Result<V::Value, Error>
        ensures visits { Visits (ByScalar (V.gives visitor) float)
            (ByScalar (V.represents visitor) float)
            V.same (value_tree self) result }
        ensures invalid { InvalidUnless (IsOf float (value_tree self)) result }
    {
        let Deserializer { value, .. } = self;
        match value {
            Value::Float(value) => visitor.visit_f32(value),
            _ => Err(Error::InvalidValue),
        }
    }

    /// Deserializes the bits of an `f64` from a double.
    ///
    /// # Errors
    /// Returns `InvalidValue` if the value is not a double; otherwise the visitor's error.
    ///
    /// # Example
    /// For the double 1.5, calls `visit_f64` with the bits 3FF8000000000000.
    pub fn deserialize_f64<V: Visitor>(self, visitor: V) -> Result<V::Value, Error>
        ensures visits { Visits (ByScalar (V.gives visitor) double)
            (ByScalar (V.represents visitor) double)
            V.same (value_tree self) result }
        ensures invalid { InvalidUnless (IsOf double (value_tree self)) result }
    {
        let Deserializer { value, .. } = self;
        match value {
            Value::Double(value) => visitor.visit_f64(value),
            _ => Err(Error::InvalidValue),
        }
    }
}
