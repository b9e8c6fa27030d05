//! AMQP data types. A type that serde's data model does not have is serialized as the nearest kind,
//! under a marker.

ghost use Rattle.std.specs.Prelude.{Some};
ghost use Rattle.amqp_ser.specs.Carried.{array_of, descriptor_content, transparent_of};
ghost use Rattle.amqp_ser.specs.Composites.{as_described};
ghost use Rattle.amqp_ser.specs.Tree.{scalar, float, double, decimal32, decimal64, decimal128};
ghost use Rattle.amqp_ser.specs.Tree.{timestamp, uuid, binary, symbol};
ghost use Rattle.amqp_data.specs.Fixed.{dec32_bytes, dec64_bytes, dec128_bytes, f32_bits, f64_bits};
ghost use Rattle.amqp_data.specs.Fixed.{milliseconds_of, uuid_bytes};
ghost use Rattle.amqp_data.specs.Items.{array_items, byte_buf_bytes, transparent_items};
ghost use Rattle.amqp_data.specs.Text.{symbol_ref_text, symbol_text};

use super::holders::serialize_items;
use crate::calls::scalars::SerializeScalars;
use crate::compound::described::serialize_described;
use crate::marker::Marker;
use crate::serialize::Serialize;
use crate::serializer::Serializer;
use amqp_data::{
    Array, ByteBuf, Dec32, Dec64, Dec128, Described, Descriptor, F32Bits, F64Bits, Symbol,
    SymbolRef, Timestamp, TransparentVec, Uuid,
};

impl Serialize for F32Bits {
    ghost tree = { λ v. Some (scalar (float (f32_bits v))) };

    #[inline(always)]
    fn serialize<S: Serializer>(&self, serializer: &mut S) -> Result<S::Ok, S::Error> {
        serializer.serialize_f32(*self)
    }
}

impl Serialize for F64Bits {
    ghost tree = { λ v. Some (scalar (double (f64_bits v))) };

    #[inline(always)]
    fn serialize<S: Serializer>(&self, serializer: &mut S) -> Result<S::Ok, S::Error> {
        serializer.serialize_f64(*self)
    }
}

impl Serialize for Dec32 {
    ghost tree = { λ v. Some (scalar (decimal32 (dec32_bytes v))) };

    #[inline(always)]
    fn serialize<S: Serializer>(&self, serializer: &mut S) -> Result<S::Ok, S::Error> {
        serializer.set_marker(Marker::Decimal32);
        serializer.serialize_bytes(self.as_inner())
    }
}

impl Serialize for Dec64 {
    ghost tree = { λ v. Some (scalar (decimal64 (dec64_bytes v))) };

    #[inline(always)]
    fn serialize<S: Serializer>(&self, serializer: &mut S) -> Result<S::Ok, S::Error> {
        serializer.set_marker(Marker::Decimal64);
        serializer.serialize_bytes(self.as_inner())
    }
}

impl Serialize for Dec128 {
    ghost tree = { λ v. Some (scalar (decimal128 (dec128_bytes v))) };

    #[inline(always)]
    fn serialize<S: Serializer>(&self, serializer: &mut S) -> Result<S::Ok, S::Error> {
        serializer.set_marker(Marker::Decimal128);
        serializer.serialize_bytes(self.as_inner())
    }
}

impl Serialize for Timestamp {
    ghost tree = { λ v. Some (scalar (timestamp (milliseconds_of v))) };

    #[inline(always)]
    fn serialize<S: Serializer>(&self, serializer: &mut S) -> Result<S::Ok, S::Error> {
        serializer.set_marker(Marker::Timestamp);
        serializer.serialize_i64(self.milliseconds())
    }
}

impl Serialize for Uuid {
    ghost tree = { λ v. Some (scalar (uuid (uuid_bytes v))) };

    #[inline(always)]
    fn serialize<S: Serializer>(&self, serializer: &mut S) -> Result<S::Ok, S::Error> {
        serializer.set_marker(Marker::Uuid);
        serializer.serialize_bytes(self.as_inner())
    }
}

impl Serialize for ByteBuf {
    ghost tree = { λ v. Some (scalar (binary (byte_buf_bytes v))) };

    #[inline(always)]
    fn serialize<S: Serializer>(&self, serializer: &mut S) -> Result<S::Ok, S::Error> {
        serializer.serialize_bytes(self.as_inner().as_slice())
    }
}

impl Serialize for Symbol {
    ghost tree = { λ v. Some (scalar (symbol (symbol_text v))) };

    #[inline(always)]
    fn serialize<S: Serializer>(&self, serializer: &mut S) -> Result<S::Ok, S::Error> {
        SymbolRef::from(self.as_inner().as_str()).serialize(serializer)
    }
}

impl Serialize for SymbolRef<'_> {
    ghost tree = { λ v. Some (scalar (symbol (symbol_ref_text v))) };

    #[inline(always)]
    fn serialize<S: Serializer>(&self, serializer: &mut S) -> Result<S::Ok, S::Error> {
        serializer.set_marker(Marker::Symbol);
        serializer.serialize_str(self.as_inner())
    }
}

impl<T: Serialize> Serialize for Array<T> {
    ghost tree = { λ v. array_of T.tree (array_items v) };

    #[inline(always)]
    fn serialize<S: Serializer>(&self, serializer: &mut S) -> Result<S::Ok, S::Error> {
        serializer.set_marker(Marker::Array);
        self.as_inner().serialize(serializer)
    }
}

impl<T: Serialize> Serialize for TransparentVec<T> {
    ghost tree = { λ v. transparent_of T.tree (transparent_items v) };

    #[inline(always)]
    fn serialize<S: Serializer>(&self, serializer: &mut S) -> Result<S::Ok, S::Error> {
        serializer.set_marker(Marker::Transparent);
        serialize_items(self.as_slice(), serializer)
    }
}

impl<T: Serialize> Serialize for Described<T> {
    ghost tree = { λ v. as_described (Some (descriptor_content v.descriptor)) (T.tree v.value) };

    #[inline(always)]
    fn serialize<S: Serializer>(&self, serializer: &mut S) -> Result<S::Ok, S::Error> {
        match &self.descriptor {
            Descriptor::Name(name) => serialize_described(serializer, name, &self.value),
            Descriptor::Code(code) => serialize_described(serializer, code, &self.value),
        }
    }
}
