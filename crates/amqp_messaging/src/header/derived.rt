//! tools/derive wrote this file from header.rt: it is not edited by hand.

ghost use Rattle.std.specs.Prelude.{◌≡◌, None, false, codes};
ghost use Rattle.serde_amqp.specs.Derive.{value_or, ◌▸◌, by_parts, after_code};

use super::Header;
use serde_amqp::derive::{
    Composite, Fault, Four, Global, ListOf, One, Record, RoundTripComposite, Serialize,
    SerializeCompounds, Serializer, Shape, ShapeTree, Source, built, composite_returns, fields,
    named, read_shaped,
};

type HeaderShape = ListOf<Four<Option<bool>, Option<u8>, Option<u32>, Option<bool>, Row>>;

type Row = One<Option<u32>, ()>;

impl Record for Header {
    type Values = <HeaderShape as Shape>::Value;

    ghost parts = { λ x. x.durable ▸ x.priority ▸ x.ttl ▸ x.first_acquirer ▸ x.delivery_count ▸
        tt };

    fn from_parts(values: <HeaderShape as Shape>::Value) -> Header {
        built! { values => Header { durable, priority, ttl, first_acquirer, delivery_count } }
    }
}

impl Composite for Header {
    ghost descriptor_code = { 0x70 };

    ghost descriptor_name = { codes "amqp:header:list" };

    ghost body = { by_parts ⟦<HeaderShape as Shape>⟧.laws ⟦<Header as Record>⟧.parts };

    fn descriptor() -> (u64, &'static str) {
        (0x70, "amqp:header:list")
    }

    #[inline(always)]
    fn read_body<S: Source>(alloc: Global, source: S) -> Result<(Header, S::Rest), Fault> {
        let fields = named! {
            "durable"?, "priority"?, "ttl"?, "first-acquirer"?, "delivery-count"?
        };
        read_shaped(alloc, source, ListOf(fields))
    }
}

impl Serialize for Header {
    ghost tree = { after_code 0x70 ⟦<HeaderShape as ShapeTree>⟧.tree ⟦<Header as Record>⟧.parts };

    fn serialize<S: Serializer>(&self, serializer: &mut S) -> Result<S::Ok, S::Error> {
        serializer.serialize_described(
            &0x70u64,
            &ListOf(fields! {
                "durable"?: &self.durable, "priority"?: &self.priority, "ttl"?: &self.ttl,
                "first-acquirer"?: &self.first_acquirer, "delivery-count"?: &self.delivery_count
            }),
        )
    }
}

impl RoundTripComposite for Header {
    fn composite_law() {
        composite_returns::<Header, HeaderShape>();
    }
}

impl Header {
    /// Returns `durable`, or `false` if it is absent.
    pub fn durable_or_default(&self) -> bool
        ensures { result ≡ value_or false self.now.durable }
    {
        self.durable.unwrap_or(false)
    }

    /// Returns `priority`, or `4` if it is absent.
    pub fn priority_or_default(&self) -> u8
        ensures { result ≡ value_or 4 self.now.priority }
    {
        self.priority.unwrap_or(4)
    }

    /// Returns `first_acquirer`, or `false` if it is absent.
    pub fn first_acquirer_or_default(&self) -> bool
        ensures { result ≡ value_or false self.now.first_acquirer }
    {
        self.first_acquirer.unwrap_or(false)
    }

    /// Returns `delivery_count`, or `0` if it is absent.
    pub fn delivery_count_or_default(&self) -> u32
        ensures { result ≡ value_or 0 self.now.delivery_count }
    {
        self.delivery_count.unwrap_or(0)
    }
}
