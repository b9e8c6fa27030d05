//! tools/derive wrote this file from target.rt: it is not edited by hand.

ghost use Rattle.std.specs.Prelude.{◌≡◌, None, false, codes};
ghost use Rattle.serde_amqp.specs.Derive.{value_or, ◌▸◌, by_parts, after_code};

use super::{
    Address, Multiple, OrderedMap, Symbol, Target, TerminusDurability, TerminusExpiryPolicy, Value,
};
use serde_amqp::derive::{
    Composite, Fault, Four, Global, ListOf, One, Record, RoundTripComposite, Serialize,
    SerializeCompounds, Serializer, Shape, ShapeTree, Source, built, composite_returns, fields,
    named, read_shaped,
};

type TargetShape = ListOf<Row>;

type Row = Four<Option<Address>, Option<TerminusDurability>, Kind, Option<u32>, Row2>;

type Row2 = One<Option<bool>, One<Option<OrderedMap<Symbol, Value>>, Row3>>;

type Row3 = One<Option<Multiple<Symbol>>, ()>;

type Kind = Option<TerminusExpiryPolicy>;

impl Record for Target {
    type Values = <TargetShape as Shape>::Value;

    ghost parts = { λ x. x.address ▸ x.durable ▸ x.expiry_policy ▸ x.timeout ▸ x.dynamic ▸
        x.dynamic_node_properties ▸ x.capabilities ▸ tt };

    fn from_parts(values: <TargetShape as Shape>::Value) -> Target {
        built! { values => Target {
            address, durable, expiry_policy, timeout, dynamic, dynamic_node_properties,
            capabilities
        } }
    }
}

impl Composite for Target {
    ghost descriptor_code = { 0x29 };

    ghost descriptor_name = { codes "amqp:target:list" };

    ghost body = { by_parts ⟦<TargetShape as Shape>⟧.laws ⟦<Target as Record>⟧.parts };

    fn descriptor() -> (u64, &'static str) {
        (0x29, "amqp:target:list")
    }

    #[inline(always)]
    fn read_body<S: Source>(alloc: Global, source: S) -> Result<(Target, S::Rest), Fault> {
        let fields = named! {
            "address"?, "durable"?, "expiry-policy"?, "timeout"?, "dynamic"?,
            "dynamic-node-properties"?, "capabilities"?
        };
        read_shaped(alloc, source, ListOf(fields))
    }
}

impl Serialize for Target {
    ghost tree = { after_code 0x29 ⟦<TargetShape as ShapeTree>⟧.tree ⟦<Target as Record>⟧.parts };

    fn serialize<S: Serializer>(&self, serializer: &mut S) -> Result<S::Ok, S::Error> {
        serializer.serialize_described(
            &0x29u64,
            &ListOf(fields! {
                "address"?: &self.address, "durable"?: &self.durable,
                "expiry-policy"?: &self.expiry_policy, "timeout"?: &self.timeout,
                "dynamic"?: &self.dynamic,
                "dynamic-node-properties"?: &self.dynamic_node_properties,
                "capabilities"?: &self.capabilities
            }),
        )
    }
}

impl RoundTripComposite for Target {
    fn composite_law() {
        composite_returns::<Target, TargetShape>();
    }
}

impl Target {
    /// Returns `timeout`, or `0` if it is absent.
    pub fn timeout_or_default(&self) -> u32
        ensures { result ≡ value_or 0 self.now.timeout }
    {
        self.timeout.unwrap_or(0)
    }

    /// Returns `dynamic`, or `false` if it is absent.
    pub fn dynamic_or_default(&self) -> bool
        ensures { result ≡ value_or false self.now.dynamic }
    {
        self.dynamic.unwrap_or(false)
    }
}
