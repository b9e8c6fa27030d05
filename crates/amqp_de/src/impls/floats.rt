//! Binary floating-point numbers, by their bits. Each is read only from a value of its own kind.

ghost use Rattle.std.specs.Prelude.{◌≡◌};
ghost use Rattle.amqp_data.specs.Fixed.{f32_bits, f64_bits};
ghost use Rattle.amqp_ser.specs.Tree.{scalar, float, double};

use crate::deserialize::Deserialize;
use crate::fault::Fault;
use crate::numbers::{Number, read_numbers};
use crate::scalar::Scalar;
use crate::source::Source;
use amqp_data::{F32Bits, F64Bits};
use amqp_decode::prefix::{GaveUp, read_double, read_float};
use amqp_value::{Value, ValueKind};
use std::alloc::Global;

impl Scalar for F32Bits {
    ghost content = { λ x. float (f32_bits x) };

    #[inline(always)]
    fn kind() -> Option<ValueKind> {
        Some(ValueKind::Float)
    }

    #[inline(always)]
    fn from_value(value: Value) -> Option<F32Bits> {
        of_kind!(value, Float)
    }

    #[inline(always)]
    fn from_bytes(_alloc: Global, code: u8, bytes: &[u8]) -> Result<(F32Bits, &[u8]), GaveUp> {
        read_float(code, bytes)
    }

    #[inline(always)]
    fn from_payloads(
        alloc: Global,
        code: u8,
        count: u32,
        bytes: &[u8],
    ) -> Result<Vec<F32Bits>, GaveUp> {
        read_numbers::<F32Bits, 4, 0x72>(alloc, code, count, bytes)
    }
}

impl Deserialize for F32Bits {
    ghost reads = { λ t x. t ≡ scalar (float (f32_bits x)) };

    ghost image = { λ x. scalar (float (f32_bits x)) };

    ghost same = { λ x y. f32_bits x ≡ f32_bits y };

    #[inline(always)]
    fn read<S: Source>(alloc: Global, source: S) -> Result<(F32Bits, S::Rest), Fault> {
        source.scalar::<F32Bits>(alloc)
    }

    #[inline(always)]
    fn read_all<S: Source>(alloc: Global, elements: S::Elements) -> Result<Vec<F32Bits>, Fault> {
        S::scalars::<F32Bits>(alloc, elements)
    }
}

#[tactic(auto, using(crate::proofs::Chunks::float_payload))]
impl Number<4, 0x72> for F32Bits {
    ghost content = { λ x. float (f32_bits x) };

    #[inline(always)]
    fn from_payload(payload: &[u8; 4]) -> F32Bits {
        F32Bits::from(u32::from_be_bytes(*payload))
    }
}

impl Scalar for F64Bits {
    ghost content = { λ x. double (f64_bits x) };

    #[inline(always)]
    fn kind() -> Option<ValueKind> {
        Some(ValueKind::Double)
    }

    #[inline(always)]
    fn from_value(value: Value) -> Option<F64Bits> {
        of_kind!(value, Double)
    }

    #[inline(always)]
    fn from_bytes(_alloc: Global, code: u8, bytes: &[u8]) -> Result<(F64Bits, &[u8]), GaveUp> {
        read_double(code, bytes)
    }

    #[inline(always)]
    fn from_payloads(
        alloc: Global,
        code: u8,
        count: u32,
        bytes: &[u8],
    ) -> Result<Vec<F64Bits>, GaveUp> {
        read_numbers::<F64Bits, 8, 0x82>(alloc, code, count, bytes)
    }
}

impl Deserialize for F64Bits {
    ghost reads = { λ t x. t ≡ scalar (double (f64_bits x)) };

    ghost image = { λ x. scalar (double (f64_bits x)) };

    ghost same = { λ x y. f64_bits x ≡ f64_bits y };

    #[inline(always)]
    fn read<S: Source>(alloc: Global, source: S) -> Result<(F64Bits, S::Rest), Fault> {
        source.scalar::<F64Bits>(alloc)
    }

    #[inline(always)]
    fn read_all<S: Source>(alloc: Global, elements: S::Elements) -> Result<Vec<F64Bits>, Fault> {
        S::scalars::<F64Bits>(alloc, elements)
    }
}

#[tactic(auto, using(crate::proofs::Chunks::double_payload))]
impl Number<8, 0x82> for F64Bits {
    ghost content = { λ x. double (f64_bits x) };

    #[inline(always)]
    fn from_payload(payload: &[u8; 8]) -> F64Bits {
        F64Bits::from(u64::from_be_bytes(*payload))
    }
}
