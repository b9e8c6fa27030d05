//! Descriptors and described values.

ghost use Rattle.std.specs.Prelude.{◌≡◌};
ghost use Rattle.amqp_ser.specs.Carried.{descriptor_content};
ghost use Rattle.amqp_ser.specs.Tree.{described};
ghost use Rattle.amqp_decode.specs.Encodes.{descriptor_scalar};
ghost use Rattle.amqp_de.specs.Fields.{OnDescribed};
ghost use Rattle.amqp_de.specs.Reads.{Always, descriptor_tree};

use crate::deserialize::Deserialize;
use crate::fault::Fault;
use crate::scalar::Scalar;
use crate::source::Source;
use amqp_data::{Described, Descriptor};
use amqp_decode::prefix::{GaveUp, read_symbol, read_ulong};
use amqp_value::{Value, ValueKind};
use std::alloc::Global;

/// A ulong or a symbol.
impl Scalar for Descriptor {
    ghost content = { λ d. descriptor_scalar (descriptor_content d) };

    #[inline(always)]
    fn kind() -> Option<ValueKind> {
        None
    }

    #[inline(always)]
    fn from_value(value: Value) -> Option<Descriptor> {
        match value {
            Value::Ulong(code) => Some(Descriptor::Code(code)),
            Value::Symbol(name) => Some(Descriptor::Name(name)),
            _ => None,
        }
    }

    fn from_bytes(alloc: Global, code: u8, bytes: &[u8]) -> Result<(Descriptor, &[u8]), GaveUp> {
        match read_ulong(code, bytes) {
            Ok((number, rest)) => Ok((Descriptor::Code(number), rest)),
            Err(_) => match read_symbol(alloc, code, bytes) {
                Ok((name, rest)) => Ok((Descriptor::Name(name), rest)),
                Err(error) => Err(error),
            },
        }
    }
}

impl Deserialize for Descriptor {
    ghost reads = { λ t d. t ≡ descriptor_tree (descriptor_content d) };

    ghost image = { λ d. descriptor_tree (descriptor_content d) };

    ghost same = { λ d e. descriptor_content d ≡ descriptor_content e };

    fn read<S: Source>(alloc: Global, source: S) -> Result<(Descriptor, S::Rest), Fault> {
        source.scalar::<Descriptor>(alloc)
    }
}

impl<T: Deserialize> Deserialize for Described<T> {
    ghost reads = { λ t x.
        OnDescribed (descriptor_content x.descriptor) (λ u. T.reads u x.value) t };

    ghost image = { λ x. described (descriptor_content x.descriptor) (T.image x.value) };

    ghost restorable = { λ x. T.restorable x.value };

    ghost same = { λ x y. (descriptor_content x.descriptor ≡ descriptor_content y.descriptor)
        × T.same x.value y.value };

    fn read<S: Source>(alloc: Global, source: S) -> Result<(Described<T>, S::Rest), Fault> {
        let (descriptor, inner) = match source.described(alloc) {
            Ok(opened) => opened,
            Err(fault) => return Err(fault),
        };
        let (value, rest) = match T::read(alloc, inner) {
            Ok(read) => read,
            Err(fault) => return Err(fault),
        };
        Ok((Described { descriptor, value }, rest))
    }
}
