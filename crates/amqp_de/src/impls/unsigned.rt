//! Unsigned integers. Each type is read only from a value of its own kind.

ghost use Rattle.std.specs.Prelude.{◌≡◌};
ghost use Rattle.amqp_ser.specs.Tree.{scalar, ubyte, ushort, uint, ulong};

use crate::deserialize::Deserialize;
use crate::fault::Fault;
use crate::numbers::read_numbers;
use crate::scalar::Scalar;
use crate::source::Source;
use amqp_data::ordered_keys_differ;
use amqp_decode::prefix::{GaveUp, read_ubyte, read_uint, read_ulong, read_ushort};
use amqp_value::{Value, ValueKind};
use std::alloc::Global;

impl Scalar for u8 {
    ghost content = { ubyte };

    #[inline(always)]
    fn kind() -> Option<ValueKind> {
        Some(ValueKind::Ubyte)
    }

    #[inline(always)]
    fn from_value(value: Value) -> Option<u8> {
        of_kind!(value, Ubyte)
    }

    #[inline(always)]
    fn from_bytes(_alloc: Global, code: u8, bytes: &[u8]) -> Result<(u8, &[u8]), GaveUp> {
        read_ubyte(code, bytes)
    }
}

impl Deserialize for u8 {
    ghost reads = { λ t x. t ≡ scalar (ubyte x) };

    ghost image = { λ x. scalar (ubyte x) };

    #[inline(always)]
    fn read<S: Source>(alloc: Global, source: S) -> Result<(u8, S::Rest), Fault> {
        source.scalar::<u8>(alloc)
    }

    #[inline(always)]
    fn read_all<S: Source>(alloc: Global, elements: S::Elements) -> Result<Vec<u8>, Fault> {
        S::scalars::<u8>(alloc, elements)
    }

    fn have_distinct_trees<V>(alloc: Global, entries: &[(u8, V)]) -> bool {
        ordered_keys_differ(alloc, entries)
    }
}

impl Scalar for u16 {
    ghost content = { ushort };

    #[inline(always)]
    fn kind() -> Option<ValueKind> {
        Some(ValueKind::Ushort)
    }

    #[inline(always)]
    fn from_value(value: Value) -> Option<u16> {
        of_kind!(value, Ushort)
    }

    #[inline(always)]
    fn from_bytes(_alloc: Global, code: u8, bytes: &[u8]) -> Result<(u16, &[u8]), GaveUp> {
        read_ushort(code, bytes)
    }

    #[inline(always)]
    fn from_payloads(alloc: Global, code: u8, count: u32, body: &[u8]) -> Result<Vec<u16>, GaveUp> {
        read_numbers::<u16, 2, 0x60>(alloc, code, count, body)
    }
}

impl Deserialize for u16 {
    ghost reads = { λ t x. t ≡ scalar (ushort x) };

    ghost image = { λ x. scalar (ushort x) };

    #[inline(always)]
    fn read<S: Source>(alloc: Global, source: S) -> Result<(u16, S::Rest), Fault> {
        source.scalar::<u16>(alloc)
    }

    #[inline(always)]
    fn read_all<S: Source>(alloc: Global, elements: S::Elements) -> Result<Vec<u16>, Fault> {
        S::scalars::<u16>(alloc, elements)
    }

    fn have_distinct_trees<V>(alloc: Global, entries: &[(u16, V)]) -> bool {
        ordered_keys_differ(alloc, entries)
    }
}

impl Scalar for u32 {
    ghost content = { uint };

    #[inline(always)]
    fn kind() -> Option<ValueKind> {
        Some(ValueKind::Uint)
    }

    #[inline(always)]
    fn from_value(value: Value) -> Option<u32> {
        of_kind!(value, Uint)
    }

    #[inline(always)]
    fn from_bytes(_alloc: Global, code: u8, bytes: &[u8]) -> Result<(u32, &[u8]), GaveUp> {
        read_uint(code, bytes)
    }

    #[inline(always)]
    fn from_payloads(alloc: Global, code: u8, count: u32, body: &[u8]) -> Result<Vec<u32>, GaveUp> {
        read_numbers::<u32, 4, 0x70>(alloc, code, count, body)
    }
}

impl Deserialize for u32 {
    ghost reads = { λ t x. t ≡ scalar (uint x) };

    ghost image = { λ x. scalar (uint x) };

    #[inline(always)]
    fn read<S: Source>(alloc: Global, source: S) -> Result<(u32, S::Rest), Fault> {
        source.scalar::<u32>(alloc)
    }

    #[inline(always)]
    fn read_all<S: Source>(alloc: Global, elements: S::Elements) -> Result<Vec<u32>, Fault> {
        S::scalars::<u32>(alloc, elements)
    }

    fn have_distinct_trees<V>(alloc: Global, entries: &[(u32, V)]) -> bool {
        ordered_keys_differ(alloc, entries)
    }
}

impl Scalar for u64 {
    ghost content = { ulong };

    #[inline(always)]
    fn kind() -> Option<ValueKind> {
        Some(ValueKind::Ulong)
    }

    #[inline(always)]
    fn from_value(value: Value) -> Option<u64> {
        of_kind!(value, Ulong)
    }

    #[inline(always)]
    fn from_bytes(_alloc: Global, code: u8, bytes: &[u8]) -> Result<(u64, &[u8]), GaveUp> {
        read_ulong(code, bytes)
    }

    #[inline(always)]
    fn from_payloads(alloc: Global, code: u8, count: u32, body: &[u8]) -> Result<Vec<u64>, GaveUp> {
        read_numbers::<u64, 8, 0x80>(alloc, code, count, body)
    }
}

impl Deserialize for u64 {
    ghost reads = { λ t x. t ≡ scalar (ulong x) };

    ghost image = { λ x. scalar (ulong x) };

    #[inline(always)]
    fn read<S: Source>(alloc: Global, source: S) -> Result<(u64, S::Rest), Fault> {
        source.scalar::<u64>(alloc)
    }

    #[inline(always)]
    fn read_all<S: Source>(alloc: Global, elements: S::Elements) -> Result<Vec<u64>, Fault> {
        S::scalars::<u64>(alloc, elements)
    }

    fn have_distinct_trees<V>(alloc: Global, entries: &[(u64, V)]) -> bool {
        ordered_keys_differ(alloc, entries)
    }
}
