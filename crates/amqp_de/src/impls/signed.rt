//! Signed integers. Each type is read only from a value of its own kind.

ghost use Rattle.std.specs.Prelude.{◌≡◌};
ghost use Rattle.amqp_ser.specs.Tree.{scalar, byte, short, int, long};

use crate::deserialize::Deserialize;
use crate::fault::Fault;
use crate::numbers::read_numbers;
use crate::scalar::Scalar;
use crate::source::Source;
use amqp_data::ordered_keys_differ;
use amqp_decode::prefix::{GaveUp, read_byte, read_int, read_long, read_short};
use amqp_value::{Value, ValueKind};
use std::alloc::Global;

impl Scalar for i8 {
    ghost content = { byte };

    #[inline(always)]
    fn kind() -> Option<ValueKind> {
        Some(ValueKind::Byte)
    }

    #[inline(always)]
    fn from_value(value: Value) -> Option<i8> {
        of_kind!(value, Byte)
    }

    #[inline(always)]
    fn from_bytes(_alloc: Global, code: u8, bytes: &[u8]) -> Result<(i8, &[u8]), GaveUp> {
        read_byte(code, bytes)
    }
}

impl Deserialize for i8 {
    ghost reads = { λ t x. t ≡ scalar (byte x) };

    ghost image = { λ x. scalar (byte x) };

    #[inline(always)]
    fn read<S: Source>(alloc: Global, source: S) -> Result<(i8, S::Rest), Fault> {
        source.scalar::<i8>(alloc)
    }

    #[inline(always)]
    fn read_all<S: Source>(alloc: Global, elements: S::Elements) -> Result<Vec<i8>, Fault> {
        S::scalars::<i8>(alloc, elements)
    }

    fn have_distinct_trees<V>(alloc: Global, entries: &[(i8, V)]) -> bool {
        ordered_keys_differ(alloc, entries)
    }
}

impl Scalar for i16 {
    ghost content = { short };

    #[inline(always)]
    fn kind() -> Option<ValueKind> {
        Some(ValueKind::Short)
    }

    #[inline(always)]
    fn from_value(value: Value) -> Option<i16> {
        of_kind!(value, Short)
    }

    #[inline(always)]
    fn from_bytes(_alloc: Global, code: u8, bytes: &[u8]) -> Result<(i16, &[u8]), GaveUp> {
        read_short(code, bytes)
    }

    #[inline(always)]
    fn from_payloads(alloc: Global, code: u8, count: u32, body: &[u8]) -> Result<Vec<i16>, GaveUp> {
        read_numbers::<i16, 2, 0x61>(alloc, code, count, body)
    }
}

impl Deserialize for i16 {
    ghost reads = { λ t x. t ≡ scalar (short x) };

    ghost image = { λ x. scalar (short x) };

    #[inline(always)]
    fn read<S: Source>(alloc: Global, source: S) -> Result<(i16, S::Rest), Fault> {
        source.scalar::<i16>(alloc)
    }

    #[inline(always)]
    fn read_all<S: Source>(alloc: Global, elements: S::Elements) -> Result<Vec<i16>, Fault> {
        S::scalars::<i16>(alloc, elements)
    }

    fn have_distinct_trees<V>(alloc: Global, entries: &[(i16, V)]) -> bool {
        ordered_keys_differ(alloc, entries)
    }
}

impl Scalar for i32 {
    ghost content = { int };

    #[inline(always)]
    fn kind() -> Option<ValueKind> {
        Some(ValueKind::Int)
    }

    #[inline(always)]
    fn from_value(value: Value) -> Option<i32> {
        of_kind!(value, Int)
    }

    #[inline(always)]
    fn from_bytes(_alloc: Global, code: u8, bytes: &[u8]) -> Result<(i32, &[u8]), GaveUp> {
        read_int(code, bytes)
    }

    #[inline(always)]
    fn from_payloads(alloc: Global, code: u8, count: u32, body: &[u8]) -> Result<Vec<i32>, GaveUp> {
        read_numbers::<i32, 4, 0x71>(alloc, code, count, body)
    }
}

impl Deserialize for i32 {
    ghost reads = { λ t x. t ≡ scalar (int x) };

    ghost image = { λ x. scalar (int x) };

    #[inline(always)]
    fn read<S: Source>(alloc: Global, source: S) -> Result<(i32, S::Rest), Fault> {
        source.scalar::<i32>(alloc)
    }

    #[inline(always)]
    fn read_all<S: Source>(alloc: Global, elements: S::Elements) -> Result<Vec<i32>, Fault> {
        S::scalars::<i32>(alloc, elements)
    }

    fn have_distinct_trees<V>(alloc: Global, entries: &[(i32, V)]) -> bool {
        ordered_keys_differ(alloc, entries)
    }
}

impl Scalar for i64 {
    ghost content = { long };

    #[inline(always)]
    fn kind() -> Option<ValueKind> {
        Some(ValueKind::Long)
    }

    #[inline(always)]
    fn from_value(value: Value) -> Option<i64> {
        of_kind!(value, Long)
    }

    #[inline(always)]
    fn from_bytes(_alloc: Global, code: u8, bytes: &[u8]) -> Result<(i64, &[u8]), GaveUp> {
        read_long(code, bytes)
    }

    #[inline(always)]
    fn from_payloads(alloc: Global, code: u8, count: u32, body: &[u8]) -> Result<Vec<i64>, GaveUp> {
        read_numbers::<i64, 8, 0x81>(alloc, code, count, body)
    }
}

impl Deserialize for i64 {
    ghost reads = { λ t x. t ≡ scalar (long x) };

    ghost image = { λ x. scalar (long x) };

    #[inline(always)]
    fn read<S: Source>(alloc: Global, source: S) -> Result<(i64, S::Rest), Fault> {
        source.scalar::<i64>(alloc)
    }

    #[inline(always)]
    fn read_all<S: Source>(alloc: Global, elements: S::Elements) -> Result<Vec<i64>, Fault> {
        S::scalars::<i64>(alloc, elements)
    }

    fn have_distinct_trees<V>(alloc: Global, entries: &[(i64, V)]) -> bool {
        ordered_keys_differ(alloc, entries)
    }
}
