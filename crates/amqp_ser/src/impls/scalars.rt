//! Null, booleans, integers and characters.

ghost use Rattle.std.specs.Prelude.{Some};
ghost use Rattle.amqp_ser.specs.Tree.{scalar, null, bool, ubyte, ushort, uint, ulong, byte, short};
ghost use Rattle.amqp_ser.specs.Tree.{int, long, char};

use crate::calls::scalars::SerializeScalars;
use crate::serialize::Serialize;
use crate::serializer::Serializer;

impl Serialize for () {
    ghost tree = { λ _. Some (scalar null) };

    #[inline(always)]
    fn serialize<S: Serializer>(&self, serializer: &mut S) -> Result<S::Ok, S::Error> {
        serializer.serialize_unit()
    }
}

impl Serialize for bool {
    ghost tree = { λ v. Some (scalar (bool v)) };

    #[inline(always)]
    fn serialize<S: Serializer>(&self, serializer: &mut S) -> Result<S::Ok, S::Error> {
        serializer.serialize_bool(*self)
    }
}

impl Serialize for i8 {
    ghost tree = { λ v. Some (scalar (byte v)) };

    #[inline(always)]
    fn serialize<S: Serializer>(&self, serializer: &mut S) -> Result<S::Ok, S::Error> {
        serializer.serialize_i8(*self)
    }
}

impl Serialize for i16 {
    ghost tree = { λ v. Some (scalar (short v)) };

    #[inline(always)]
    fn serialize<S: Serializer>(&self, serializer: &mut S) -> Result<S::Ok, S::Error> {
        serializer.serialize_i16(*self)
    }
}

impl Serialize for i32 {
    ghost tree = { λ v. Some (scalar (int v)) };

    #[inline(always)]
    fn serialize<S: Serializer>(&self, serializer: &mut S) -> Result<S::Ok, S::Error> {
        serializer.serialize_i32(*self)
    }
}

impl Serialize for i64 {
    ghost tree = { λ v. Some (scalar (long v)) };

    #[inline(always)]
    fn serialize<S: Serializer>(&self, serializer: &mut S) -> Result<S::Ok, S::Error> {
        serializer.serialize_i64(*self)
    }
}

impl Serialize for u8 {
    ghost tree = { λ v. Some (scalar (ubyte v)) };

    #[inline(always)]
    fn serialize<S: Serializer>(&self, serializer: &mut S) -> Result<S::Ok, S::Error> {
        serializer.serialize_u8(*self)
    }
}

impl Serialize for u16 {
    ghost tree = { λ v. Some (scalar (ushort v)) };

    #[inline(always)]
    fn serialize<S: Serializer>(&self, serializer: &mut S) -> Result<S::Ok, S::Error> {
        serializer.serialize_u16(*self)
    }
}

impl Serialize for u32 {
    ghost tree = { λ v. Some (scalar (uint v)) };

    #[inline(always)]
    fn serialize<S: Serializer>(&self, serializer: &mut S) -> Result<S::Ok, S::Error> {
        serializer.serialize_u32(*self)
    }
}

impl Serialize for u64 {
    ghost tree = { λ v. Some (scalar (ulong v)) };

    #[inline(always)]
    fn serialize<S: Serializer>(&self, serializer: &mut S) -> Result<S::Ok, S::Error> {
        serializer.serialize_u64(*self)
    }
}

impl Serialize for char {
    ghost tree = { λ v. Some (scalar (char v)) };

    #[inline(always)]
    fn serialize<S: Serializer>(&self, serializer: &mut S) -> Result<S::Ok, S::Error> {
        serializer.serialize_char(*self)
    }
}
