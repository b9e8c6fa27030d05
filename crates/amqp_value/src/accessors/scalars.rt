//! Accessors of scalars. An accessor of one type returns the content if the value is of that type.

ghost use Rattle.std.specs.Prelude.{◌≡◌};
ghost use Rattle.amqp_value.specs.Accessors.{integer_in, integer_of, is_null_value, natural_in};
ghost use Rattle.amqp_value.specs.Accessors.{natural_of};
ghost use Rattle.amqp_value.specs.Contents as content;

use crate::Value;
use amqp_data::{F32Bits, F64Bits, Timestamp, Uuid};

impl Value {
    /// Returns whether the value is null.
    ///
    /// # Example
    /// True for the value encoded as `40`, false for an empty list, encoded as `45`.
    pub fn is_null(&self) -> bool
        ensures { result ≡ is_null_value self.now }
    {
        match self {
            Value::Null => true,
            _ => false,
        }
    }

    /// Returns the number if the value is an integer of any of the eight types and not negative.
    ///
    /// # Example
    /// `Some(7)` for the ubyte 7, encoded as `5007`, and for the int 7, encoded as `5407`. `None`
    /// for the int -1, encoded as `54ff`.
    pub fn as_u64(&self) -> Option<u64>
        ensures { result ≡ natural_in self.now }
    {
        match self {
            Value::Ubyte(number) => Some(u64::from(*number)),
            Value::Ushort(number) => Some(u64::from(*number)),
            Value::Uint(number) => Some(u64::from(*number)),
            Value::Ulong(number) => Some(*number),
            Value::Byte(number) => natural(i64::from(*number)),
            Value::Short(number) => natural(i64::from(*number)),
            Value::Int(number) => natural(i64::from(*number)),
            Value::Long(number) => natural(*number),
            _ => None,
        }
    }

    /// Returns the number if the value is an integer of any of the eight types and less than 2^63.
    ///
    /// # Example
    /// `Some(7)` for the ubyte 7, encoded as `5007`, and `Some(-1)` for the int -1, encoded as
    /// `54ff`. `None` for the ulong 2^63, encoded as `808000000000000000`.
    pub fn as_i64(&self) -> Option<i64>
        ensures { result ≡ integer_in self.now }
    {
        match self {
            Value::Ubyte(number) => Some(i64::from(*number)),
            Value::Ushort(number) => Some(i64::from(*number)),
            Value::Uint(number) => Some(i64::from(*number)),
            Value::Ulong(number) => integer(*number),
            Value::Byte(number) => Some(i64::from(*number)),
            Value::Short(number) => Some(i64::from(*number)),
            Value::Int(number) => Some(i64::from(*number)),
            Value::Long(number) => Some(*number),
            _ => None,
        }
    }

    /// Returns the content if the value is a boolean.
    ///
    /// # Example
    /// `Some(true)` for `true`, encoded as `41`. `None` for null.
    pub fn as_bool(&self) -> Option<bool>
        ensures { result ≡ content.bool_in self.now }
    {
        match self {
            Value::Bool(content) => Some(*content),
            _ => None,
        }
    }

    /// Returns the content if the value is a ubyte.
    ///
    /// # Example
    /// `Some(7)` for the ubyte 7, encoded as `5007`. `None` for null.
    pub fn as_ubyte(&self) -> Option<u8>
        ensures { result ≡ content.ubyte_in self.now }
    {
        match self {
            Value::Ubyte(content) => Some(*content),
            _ => None,
        }
    }

    /// Returns the content if the value is a ushort.
    ///
    /// # Example
    /// `Some(7)` for the ushort 7, encoded as `600007`. `None` for null.
    pub fn as_ushort(&self) -> Option<u16>
        ensures { result ≡ content.ushort_in self.now }
    {
        match self {
            Value::Ushort(content) => Some(*content),
            _ => None,
        }
    }

    /// Returns the content if the value is a uint.
    ///
    /// # Example
    /// `Some(7)` for the uint 7, encoded as `5207`. `None` for null.
    pub fn as_uint(&self) -> Option<u32>
        ensures { result ≡ content.uint_in self.now }
    {
        match self {
            Value::Uint(content) => Some(*content),
            _ => None,
        }
    }

    /// Returns the content if the value is a ulong.
    ///
    /// # Example
    /// `Some(7)` for the ulong 7, encoded as `5307`. `None` for null.
    pub fn as_ulong(&self) -> Option<u64>
        ensures { result ≡ content.ulong_in self.now }
    {
        match self {
            Value::Ulong(content) => Some(*content),
            _ => None,
        }
    }

    /// Returns the content if the value is a byte.
    ///
    /// # Example
    /// `Some(-1)` for the byte -1, encoded as `51ff`. `None` for null.
    pub fn as_byte(&self) -> Option<i8>
        ensures { result ≡ content.byte_in self.now }
    {
        match self {
            Value::Byte(content) => Some(*content),
            _ => None,
        }
    }

    /// Returns the content if the value is a short.
    ///
    /// # Example
    /// `Some(-1)` for the short -1, encoded as `61ffff`. `None` for null.
    pub fn as_short(&self) -> Option<i16>
        ensures { result ≡ content.short_in self.now }
    {
        match self {
            Value::Short(content) => Some(*content),
            _ => None,
        }
    }

    /// Returns the content if the value is an int.
    ///
    /// # Example
    /// `Some(-1)` for the int -1, encoded as `54ff`. `None` for null.
    pub fn as_int(&self) -> Option<i32>
        ensures { result ≡ content.int_in self.now }
    {
        match self {
            Value::Int(content) => Some(*content),
            _ => None,
        }
    }

    /// Returns the content if the value is a long.
    ///
    /// # Example
    /// `Some(-1)` for the long -1, encoded as `55ff`. `None` for null.
    pub fn as_long(&self) -> Option<i64>
        ensures { result ≡ content.long_in self.now }
    {
        match self {
            Value::Long(content) => Some(*content),
            _ => None,
        }
    }

    /// Returns the content if the value is a float.
    ///
    /// # Example
    /// `Some` with its bits, `0x3fc00000` for the float 1.5, encoded as `723fc00000`. `None` for
    /// null.
    pub fn as_float(&self) -> Option<F32Bits>
        ensures { result ≡ content.float_in self.now }
    {
        match self {
            Value::Float(content) => Some(*content),
            _ => None,
        }
    }

    /// Returns the content if the value is a double.
    ///
    /// # Example
    /// `Some` with its bits, `0x3ff8000000000000` for the double 1.5, encoded as
    /// `823ff8000000000000`. `None` for null.
    pub fn as_double(&self) -> Option<F64Bits>
        ensures { result ≡ content.double_in self.now }
    {
        match self {
            Value::Double(content) => Some(*content),
            _ => None,
        }
    }

    /// Returns the content if the value is a char.
    ///
    /// # Example
    /// `Some('a')` for the char `a`, encoded as `7300000061`. `None` for null.
    pub fn as_char(&self) -> Option<char>
        ensures { result ≡ content.char_in self.now }
    {
        match self {
            Value::Char(content) => Some(*content),
            _ => None,
        }
    }

    /// Returns the content if the value is a timestamp.
    ///
    /// # Example
    /// `Some` with that timestamp for 13 milliseconds after the epoch, encoded as
    /// `83000000000000000d`. `None` for null.
    pub fn as_timestamp(&self) -> Option<Timestamp>
        ensures { result ≡ content.timestamp_in self.now }
    {
        match self {
            Value::Timestamp(content) => Some(*content),
            _ => None,
        }
    }

    /// Returns the content if the value is a uuid.
    ///
    /// # Example
    /// `Some` with that uuid for the uuid of the bytes 00, 11 to FF, encoded as
    /// `9800112233445566778899aabbccddeeff`. `None` for null.
    pub fn as_uuid(&self) -> Option<Uuid>
        ensures { result ≡ content.uuid_in self.now }
    {
        match self {
            Value::Uuid(content) => Some(*content),
            _ => None,
        }
    }
}

// Returns the number if it is not negative.
fn natural(number: i64) -> Option<u64>
    ensures { result ≡ natural_of number }
{
    if number >= 0 {
        Some(number as u64)
    } else {
        None
    }
}

// Returns the number if it is less than 2^63.
fn integer(number: u64) -> Option<i64>
    ensures { result ≡ integer_of number }
{
    if number < 9_223_372_036_854_775_808 {
        Some(number as i64)
    } else {
        None
    }
}
