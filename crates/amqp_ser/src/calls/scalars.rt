//! The calls that serialize scalars of Rust's types.

ghost use Rattle.std.specs.Prelude.{◌≡◌, Some, Result, Ok, false};
ghost use Rattle.amqp_ser.specs.Tree.{scalar, null, bool, ubyte, ushort, uint, ulong, byte, short};
ghost use Rattle.amqp_ser.specs.Tree.{int, long, float, double, char};
ghost use Rattle.amqp_data.specs.Fixed.{f32_bits, f64_bits};

use crate::fixed::Fixed;
use crate::serializer::Serializer;
use amqp_data::{F32Bits, F64Bits};

/// Serializes scalars, one method for each of Rust's types.
///
/// Every serializer has these methods.
pub trait SerializeScalars: Serializer {
    /// Returns `false`: values are never serialized in a human-readable form.
    ///
    /// # Example
    /// A `Uuid` is `98` and its 16 bytes, never its text.
    #[inline(always)]
    final fn is_human_readable(&self) -> bool
        ensures { result ≡ false }
    {
        false
    }

    /// Serializes a `bool` as a boolean.
    ///
    /// # Encoding
    /// `41` for true, `42` for false; in an array `56`, then `01` or `00` (AMQP 1.0 part 1, section
    /// 1.6.2).
    ///
    /// # Errors
    /// Returns the serializer's error, such as `InvalidValue` if the pending marker does not accept
    /// this type or if the elements of the enclosing array have another type.
    ///
    /// # Example
    /// `true` is `41`.
    #[inline(always)]
    final fn serialize_bool(&mut self, v: bool) -> Result<Self::Ok, Self::Error>
        ensures { Self.permits self.old (Some (scalar (bool v))) result self.new }
    {
        self.serialize_fixed(Fixed::Bool(v))
    }

    /// Serializes an `i8` as a byte.
    ///
    /// # Encoding
    /// `51` and one byte (AMQP 1.0 part 1, section 1.6.7).
    ///
    /// # Errors
    /// Returns the serializer's error, such as `InvalidValue` if the pending marker does not accept
    /// this type or if the elements of the enclosing array have another type.
    ///
    /// # Example
    /// -1 is `51ff`.
    #[inline(always)]
    final fn serialize_i8(&mut self, v: i8) -> Result<Self::Ok, Self::Error>
        ensures { Self.permits self.old (Some (scalar (byte v))) result self.new }
    {
        self.serialize_fixed(Fixed::Byte(v))
    }

    /// Serializes an `i16` as a short.
    ///
    /// # Encoding
    /// `61` and two bytes (AMQP 1.0 part 1, section 1.6.8).
    ///
    /// # Errors
    /// Returns the serializer's error, such as `InvalidValue` if the pending marker does not accept
    /// this type or if the elements of the enclosing array have another type.
    ///
    /// # Example
    /// -2 is `61fffe`.
    #[inline(always)]
    final fn serialize_i16(&mut self, v: i16) -> Result<Self::Ok, Self::Error>
        ensures { Self.permits self.old (Some (scalar (short v))) result self.new }
    {
        self.serialize_fixed(Fixed::Short(v))
    }

    /// Serializes an `i32` as an int.
    ///
    /// # Encoding
    /// `54` and one byte from -128 to 127, otherwise `71` and four bytes; in an array always `71`
    /// (AMQP 1.0 part 1, section 1.6.9).
    ///
    /// # Errors
    /// Returns the serializer's error, such as `InvalidValue` if the pending marker does not accept
    /// this type or if the elements of the enclosing array have another type.
    ///
    /// # Example
    /// 1 is `5401`, 128 is `7100000080`.
    #[inline(always)]
    final fn serialize_i32(&mut self, v: i32) -> Result<Self::Ok, Self::Error>
        ensures { Self.permits self.old (Some (scalar (int v))) result self.new }
    {
        self.serialize_fixed(Fixed::Int(v))
    }

    /// Serializes an `i64` as a long.
    ///
    /// # Encoding
    /// `55` and one byte from -128 to 127, otherwise `81` and eight bytes; in an array always `81`
    /// (AMQP 1.0 part 1, section 1.6.10).
    ///
    /// # Errors
    /// Returns the serializer's error, such as `InvalidValue` if the pending marker does not accept
    /// this type or if the elements of the enclosing array have another type.
    ///
    /// # Example
    /// -1 is `55ff`, 128 is `810000000000000080`.
    #[inline(always)]
    final fn serialize_i64(&mut self, v: i64) -> Result<Self::Ok, Self::Error>
        ensures { Self.permits self.old (Some (scalar (long v))) result self.new }
    {
        self.serialize_fixed(Fixed::Long(v))
    }

    /// Serializes a `u8` as a ubyte.
    ///
    /// # Encoding
    /// `50` and one byte (AMQP 1.0 part 1, section 1.6.3).
    ///
    /// # Errors
    /// Returns the serializer's error, such as `InvalidValue` if the pending marker does not accept
    /// this type or if the elements of the enclosing array have another type.
    ///
    /// # Example
    /// 5 is `5005`.
    #[inline(always)]
    final fn serialize_u8(&mut self, v: u8) -> Result<Self::Ok, Self::Error>
        ensures { Self.permits self.old (Some (scalar (ubyte v))) result self.new }
    {
        self.serialize_fixed(Fixed::Ubyte(v))
    }

    /// Serializes a `u16` as a ushort.
    ///
    /// # Encoding
    /// `60` and two bytes (AMQP 1.0 part 1, section 1.6.4).
    ///
    /// # Errors
    /// Returns the serializer's error, such as `InvalidValue` if the pending marker does not accept
    /// this type or if the elements of the enclosing array have another type.
    ///
    /// # Example
    /// 256 is `600100`.
    #[inline(always)]
    final fn serialize_u16(&mut self, v: u16) -> Result<Self::Ok, Self::Error>
        ensures { Self.permits self.old (Some (scalar (ushort v))) result self.new }
    {
        self.serialize_fixed(Fixed::Ushort(v))
    }

    /// Serializes a `u32` as a uint.
    ///
    /// # Encoding
    /// `43` for 0, `52` and one byte up to 255, otherwise `70` and four bytes; in an array always
    /// `70` (AMQP 1.0 part 1, section 1.6.5).
    ///
    /// # Errors
    /// Returns the serializer's error, such as `InvalidValue` if the pending marker does not accept
    /// this type or if the elements of the enclosing array have another type.
    ///
    /// # Example
    /// 0 is `43`, 1 is `5201`, 256 is `7000000100`.
    #[inline(always)]
    final fn serialize_u32(&mut self, v: u32) -> Result<Self::Ok, Self::Error>
        ensures { Self.permits self.old (Some (scalar (uint v))) result self.new }
    {
        self.serialize_fixed(Fixed::Uint(v))
    }

    /// Serializes a `u64` as a ulong.
    ///
    /// # Encoding
    /// `44` for 0, `53` and one byte up to 255, otherwise `80` and eight bytes; in an array always
    /// `80` (AMQP 1.0 part 1, section 1.6.6).
    ///
    /// # Errors
    /// Returns the serializer's error, such as `InvalidValue` if the pending marker does not accept
    /// this type or if the elements of the enclosing array have another type.
    ///
    /// # Example
    /// 0 is `44`, 13 is `530d`, 256 is `800000000000000100`.
    #[inline(always)]
    final fn serialize_u64(&mut self, v: u64) -> Result<Self::Ok, Self::Error>
        ensures { Self.permits self.old (Some (scalar (ulong v))) result self.new }
    {
        self.serialize_fixed(Fixed::Ulong(v))
    }

    /// Serializes the bits of an `f32` as a float.
    ///
    /// # Encoding
    /// `72` and four bytes (AMQP 1.0 part 1, section 1.6.11).
    ///
    /// # Errors
    /// Returns the serializer's error, such as `InvalidValue` if the pending marker does not accept
    /// this type or if the elements of the enclosing array have another type.
    ///
    /// # Example
    /// The bits 3FC00000, which are 1.5, are `723fc00000`.
    #[inline(always)]
    final fn serialize_f32(&mut self, v: F32Bits) -> Result<Self::Ok, Self::Error>
        ensures { Self.permits self.old (Some (scalar (float (f32_bits v)))) result self.new }
    {
        self.serialize_fixed(Fixed::Float(v.into_inner()))
    }

    /// Serializes the bits of an `f64` as a double.
    ///
    /// # Encoding
    /// `82` and eight bytes (AMQP 1.0 part 1, section 1.6.12).
    ///
    /// # Errors
    /// Returns the serializer's error, such as `InvalidValue` if the pending marker does not accept
    /// this type or if the elements of the enclosing array have another type.
    ///
    /// # Example
    /// The bits 3FF8000000000000, which are 1.5, are `823ff8000000000000`.
    #[inline(always)]
    final fn serialize_f64(&mut self, v: F64Bits) -> Result<Self::Ok, Self::Error>
        ensures { Self.permits self.old (Some (scalar (double (f64_bits v)))) result self.new }
    {
        self.serialize_fixed(Fixed::Double(v.into_inner()))
    }

    /// Serializes a `char`.
    ///
    /// # Encoding
    /// `73` and the Unicode scalar value in four bytes (AMQP 1.0 part 1, section 1.6.16).
    ///
    /// # Errors
    /// Returns the serializer's error, such as `InvalidValue` if the pending marker does not accept
    /// this type or if the elements of the enclosing array have another type.
    ///
    /// # Example
    /// `a` is `7300000061`.
    #[inline(always)]
    final fn serialize_char(&mut self, v: char) -> Result<Self::Ok, Self::Error>
        ensures { Self.permits self.old (Some (scalar (char v))) result self.new }
    {
        self.serialize_fixed(Fixed::Char(v))
    }

    /// Serializes `None` as null.
    ///
    /// # Encoding
    /// `40` (AMQP 1.0 part 1, section 1.6.1).
    ///
    /// # Errors
    /// Returns the serializer's error, such as `InvalidValue` if the pending marker does not accept
    /// this type or if the elements of the enclosing array have another type.
    ///
    /// # Example
    /// `None` is `40`.
    #[inline(always)]
    final fn serialize_none(&mut self) -> Result<Self::Ok, Self::Error>
        ensures { Self.permits self.old (Some (scalar null)) result self.new }
    {
        self.serialize_null()
    }

    /// Serializes `()` as null.
    ///
    /// # Encoding
    /// `40` (AMQP 1.0 part 1, section 1.6.1).
    ///
    /// # Errors
    /// Returns the serializer's error, such as `InvalidValue` if the pending marker does not accept
    /// this type or if the elements of the enclosing array have another type.
    ///
    /// # Example
    /// `()` is `40`.
    #[inline(always)]
    final fn serialize_unit(&mut self) -> Result<Self::Ok, Self::Error>
        ensures { Self.permits self.old (Some (scalar null)) result self.new }
    {
        self.serialize_null()
    }

    /// Serializes a unit struct as null.
    ///
    /// # Encoding
    /// `40` (AMQP 1.0 part 1, section 1.6.1).
    ///
    /// # Errors
    /// Returns the serializer's error, such as `InvalidValue` if the pending marker does not accept
    /// this type or if the elements of the enclosing array have another type.
    ///
    /// # Example
    /// A unit struct is `40`, whatever its name.
    #[inline(always)]
    final fn serialize_unit_struct(&mut self, _name: &'static str) -> Result<Self::Ok, Self::Error>
        ensures { Self.permits self.old (Some (scalar null)) result self.new }
    {
        self.serialize_null()
    }

    /// Serializes a unit variant as its index, a uint.
    ///
    /// # Encoding
    /// The encoding of the index as a `u32` (AMQP 1.0 part 1, section 1.6.5).
    ///
    /// # Errors
    /// Returns the serializer's error, such as `InvalidValue` if the pending marker does not accept
    /// this type or if the elements of the enclosing array have another type.
    ///
    /// # Example
    /// The variant 3 is `5203`.
    #[inline(always)]
    final fn serialize_unit_variant(
        &mut self,
        _name: &'static str,
        index: u32,
        _variant: &'static str,
    ) -> Result<Self::Ok, Self::Error>
        ensures { Self.permits self.old (Some (scalar (uint index))) result self.new }
    {
        self.serialize_fixed(Fixed::Uint(index))
    }
}

impl<S: Serializer> SerializeScalars for S {}
