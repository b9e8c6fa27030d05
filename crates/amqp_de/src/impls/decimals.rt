//! Decimal floating-point numbers, by their bytes. Each is read only from a value of its own kind.

ghost use Rattle.std.specs.Prelude.{◌≡◌};
ghost use Rattle.amqp_data.specs.Fixed.{dec32_bytes, dec64_bytes, dec128_bytes};
ghost use Rattle.amqp_ser.specs.Tree.{scalar, decimal32, decimal64, decimal128};

use crate::deserialize::Deserialize;
use crate::fault::Fault;
use crate::scalar::Scalar;
use crate::source::Source;
use amqp_data::{Dec32, Dec64, Dec128};
use amqp_decode::prefix::{GaveUp, read_decimal32, read_decimal64, read_decimal128};
use amqp_value::{Value, ValueKind};
use std::alloc::Global;

impl Scalar for Dec32 {
    ghost content = { λ x. decimal32 (dec32_bytes x) };

    #[inline(always)]
    fn kind() -> Option<ValueKind> {
        Some(ValueKind::Decimal32)
    }

    #[inline(always)]
    fn from_value(value: Value) -> Option<Dec32> {
        of_kind!(value, Decimal32)
    }

    #[inline(always)]
    fn from_bytes(_alloc: Global, code: u8, bytes: &[u8]) -> Result<(Dec32, &[u8]), GaveUp> {
        read_decimal32(code, bytes)
    }
}

impl Deserialize for Dec32 {
    ghost reads = { λ t x. t ≡ scalar (decimal32 (dec32_bytes x)) };

    ghost image = { λ x. scalar (decimal32 (dec32_bytes x)) };

    ghost same = { λ x y. dec32_bytes x ≡ dec32_bytes y };

    #[inline(always)]
    fn read<S: Source>(alloc: Global, source: S) -> Result<(Dec32, S::Rest), Fault> {
        source.scalar::<Dec32>(alloc)
    }

    #[inline(always)]
    fn read_all<S: Source>(alloc: Global, elements: S::Elements) -> Result<Vec<Dec32>, Fault> {
        S::scalars::<Dec32>(alloc, elements)
    }
}

impl Scalar for Dec64 {
    ghost content = { λ x. decimal64 (dec64_bytes x) };

    #[inline(always)]
    fn kind() -> Option<ValueKind> {
        Some(ValueKind::Decimal64)
    }

    #[inline(always)]
    fn from_value(value: Value) -> Option<Dec64> {
        of_kind!(value, Decimal64)
    }

    #[inline(always)]
    fn from_bytes(_alloc: Global, code: u8, bytes: &[u8]) -> Result<(Dec64, &[u8]), GaveUp> {
        read_decimal64(code, bytes)
    }
}

impl Deserialize for Dec64 {
    ghost reads = { λ t x. t ≡ scalar (decimal64 (dec64_bytes x)) };

    ghost image = { λ x. scalar (decimal64 (dec64_bytes x)) };

    ghost same = { λ x y. dec64_bytes x ≡ dec64_bytes y };

    #[inline(always)]
    fn read<S: Source>(alloc: Global, source: S) -> Result<(Dec64, S::Rest), Fault> {
        source.scalar::<Dec64>(alloc)
    }

    #[inline(always)]
    fn read_all<S: Source>(alloc: Global, elements: S::Elements) -> Result<Vec<Dec64>, Fault> {
        S::scalars::<Dec64>(alloc, elements)
    }
}

impl Scalar for Dec128 {
    ghost content = { λ x. decimal128 (dec128_bytes x) };

    #[inline(always)]
    fn kind() -> Option<ValueKind> {
        Some(ValueKind::Decimal128)
    }

    #[inline(always)]
    fn from_value(value: Value) -> Option<Dec128> {
        of_kind!(value, Decimal128)
    }

    #[inline(always)]
    fn from_bytes(_alloc: Global, code: u8, bytes: &[u8]) -> Result<(Dec128, &[u8]), GaveUp> {
        read_decimal128(code, bytes)
    }
}

impl Deserialize for Dec128 {
    ghost reads = { λ t x. t ≡ scalar (decimal128 (dec128_bytes x)) };

    ghost image = { λ x. scalar (decimal128 (dec128_bytes x)) };

    ghost same = { λ x y. dec128_bytes x ≡ dec128_bytes y };

    #[inline(always)]
    fn read<S: Source>(alloc: Global, source: S) -> Result<(Dec128, S::Rest), Fault> {
        source.scalar::<Dec128>(alloc)
    }

    #[inline(always)]
    fn read_all<S: Source>(alloc: Global, elements: S::Elements) -> Result<Vec<Dec128>, Fault> {
        S::scalars::<Dec128>(alloc, elements)
    }
}
