//! Characters, timestamps and identifiers. Each type is read only from a value of its own kind.

ghost use Rattle.std.specs.Prelude.{◌≡◌};
ghost use Rattle.amqp_data.specs.Fixed.{milliseconds_of, uuid_bytes};
ghost use Rattle.amqp_ser.specs.Tree.{scalar, char, timestamp, uuid};

use crate::deserialize::Deserialize;
use crate::fault::Fault;
use crate::numbers::{Number, read_numbers};
use crate::scalar::Scalar;
use crate::source::Source;
use amqp_data::{Timestamp, Uuid, ordered_keys_differ};
use amqp_decode::prefix::{GaveUp, read_char, read_timestamp, read_uuid};
use amqp_value::{Value, ValueKind};
use std::alloc::Global;

impl Scalar for char {
    ghost content = { char };

    #[inline(always)]
    fn kind() -> Option<ValueKind> {
        Some(ValueKind::Char)
    }

    #[inline(always)]
    fn from_value(value: Value) -> Option<char> {
        of_kind!(value, Char)
    }

    #[inline(always)]
    fn from_bytes(_alloc: Global, code: u8, bytes: &[u8]) -> Result<(char, &[u8]), GaveUp> {
        read_char(code, bytes)
    }
}

impl Deserialize for char {
    ghost reads = { λ t x. t ≡ scalar (char x) };

    ghost image = { λ x. scalar (char x) };

    #[inline(always)]
    fn read<S: Source>(alloc: Global, source: S) -> Result<(char, S::Rest), Fault> {
        source.scalar::<char>(alloc)
    }

    #[inline(always)]
    fn read_all<S: Source>(alloc: Global, elements: S::Elements) -> Result<Vec<char>, Fault> {
        S::scalars::<char>(alloc, elements)
    }

    fn have_distinct_trees<V>(alloc: Global, entries: &[(char, V)]) -> bool {
        ordered_keys_differ(alloc, entries)
    }
}

impl Scalar for Timestamp {
    ghost content = { λ x. timestamp (milliseconds_of x) };

    #[inline(always)]
    fn kind() -> Option<ValueKind> {
        Some(ValueKind::Timestamp)
    }

    #[inline(always)]
    fn from_value(value: Value) -> Option<Timestamp> {
        of_kind!(value, Timestamp)
    }

    #[inline(always)]
    fn from_bytes(_alloc: Global, code: u8, bytes: &[u8]) -> Result<(Timestamp, &[u8]), GaveUp> {
        read_timestamp(code, bytes)
    }

    #[inline(always)]
    fn from_payloads(
        alloc: Global,
        code: u8,
        count: u32,
        bytes: &[u8],
    ) -> Result<Vec<Timestamp>, GaveUp> {
        read_numbers::<Timestamp, 8, 0x83>(alloc, code, count, bytes)
    }
}

impl Deserialize for Timestamp {
    ghost reads = { λ t x. t ≡ scalar (timestamp (milliseconds_of x)) };

    ghost image = { λ x. scalar (timestamp (milliseconds_of x)) };

    ghost same = { λ x y. milliseconds_of x ≡ milliseconds_of y };

    #[inline(always)]
    fn read<S: Source>(alloc: Global, source: S) -> Result<(Timestamp, S::Rest), Fault> {
        source.scalar::<Timestamp>(alloc)
    }

    #[inline(always)]
    fn read_all<S: Source>(alloc: Global, elements: S::Elements) -> Result<Vec<Timestamp>, Fault> {
        S::scalars::<Timestamp>(alloc, elements)
    }

    fn have_distinct_trees<V>(alloc: Global, entries: &[(Timestamp, V)]) -> bool {
        ordered_keys_differ(alloc, entries)
    }
}

#[tactic(auto, using(crate::proofs::Chunks::timestamp_payload))]
impl Number<8, 0x83> for Timestamp {
    ghost content = { λ x. timestamp (milliseconds_of x) };

    #[inline(always)]
    fn from_payload(payload: &[u8; 8]) -> Timestamp {
        Timestamp::from(i64::from_be_bytes(*payload))
    }
}

impl Scalar for Uuid {
    ghost content = { λ x. uuid (uuid_bytes x) };

    #[inline(always)]
    fn kind() -> Option<ValueKind> {
        Some(ValueKind::Uuid)
    }

    #[inline(always)]
    fn from_value(value: Value) -> Option<Uuid> {
        of_kind!(value, Uuid)
    }

    #[inline(always)]
    fn from_bytes(_alloc: Global, code: u8, bytes: &[u8]) -> Result<(Uuid, &[u8]), GaveUp> {
        read_uuid(code, bytes)
    }
}

impl Deserialize for Uuid {
    ghost reads = { λ t x. t ≡ scalar (uuid (uuid_bytes x)) };

    ghost image = { λ x. scalar (uuid (uuid_bytes x)) };

    ghost same = { λ x y. uuid_bytes x ≡ uuid_bytes y };

    #[inline(always)]
    fn read<S: Source>(alloc: Global, source: S) -> Result<(Uuid, S::Rest), Fault> {
        source.scalar::<Uuid>(alloc)
    }

    #[inline(always)]
    fn read_all<S: Source>(alloc: Global, elements: S::Elements) -> Result<Vec<Uuid>, Fault> {
        S::scalars::<Uuid>(alloc, elements)
    }

    fn have_distinct_trees<V>(alloc: Global, entries: &[(Uuid, V)]) -> bool {
        ordered_keys_differ(alloc, entries)
    }
}
