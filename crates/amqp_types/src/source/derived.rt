//! tools/derive wrote this file from source.rt: it is not edited by hand.

ghost use Rattle.std.specs.Prelude.{◌≡◌, None, false, codes};
ghost use Rattle.serde_amqp.specs.Derive.{value_or, ◌▸◌, by_parts, after_code};

use super::{
    Address, DistributionMode, Multiple, OrderedMap, Outcome, Source, Symbol, TerminusDurability,
    TerminusExpiryPolicy, Value,
};
use serde_amqp::derive::{
    Composite, Fault, Four, Global, ListOf, One, Record, RoundTripComposite, Serialize,
    SerializeCompounds, Serializer, Shape, ShapeTree, built, composite_returns, fields, named,
    read_shaped,
};

type SourceShape = ListOf<Row>;

type Row = Four<Option<Address>, Option<TerminusDurability>, Kind, Option<u32>, Row2>;

type Row2 = Four<Option<bool>, Kind2, Option<DistributionMode>, Kind2, Row3>;

type Row3 = One<Option<Outcome>, One<Option<Multiple<Symbol>>, One<Option<Multiple<Symbol>>, ()>>>;

type Kind = Option<TerminusExpiryPolicy>;

type Kind2 = Option<OrderedMap<Symbol, Value>>;

impl Record for Source {
    type Values = <SourceShape as Shape>::Value;

    ghost parts = { λ x. x.address ▸ x.durable ▸ x.expiry_policy ▸ x.timeout ▸ x.dynamic ▸
        x.dynamic_node_properties ▸ x.distribution_mode ▸ x.filter ▸ x.default_outcome ▸ x.outcomes
        ▸ x.capabilities ▸ tt };

    fn from_parts(values: <SourceShape as Shape>::Value) -> Source {
        built! { values => Source {
            address, durable, expiry_policy, timeout, dynamic, dynamic_node_properties,
            distribution_mode, filter, default_outcome, outcomes, capabilities
        } }
    }
}

impl Composite for Source {
    ghost descriptor_code = { 0x28 };

    ghost descriptor_name = { codes "amqp:source:list" };

    ghost body = { by_parts ⟦<SourceShape as Shape>⟧.laws ⟦<Source as Record>⟧.parts };

    fn descriptor() -> (u64, &'static str) {
        (0x28, "amqp:source:list")
    }

    #[inline(always)]
    fn read_body<S: serde_amqp::derive::Source>(
        alloc: Global,
        source: S,
    ) -> Result<(Source, S::Rest), Fault> {
        let fields = named! {
            "address"?, "durable"?, "expiry-policy"?, "timeout"?, "dynamic"?,
            "dynamic-node-properties"?, "distribution-mode"?, "filter"?, "default-outcome"?,
            "outcomes"?, "capabilities"?
        };
        read_shaped(alloc, source, ListOf(fields))
    }
}

impl Serialize for Source {
    ghost tree = { after_code 0x28 ⟦<SourceShape as ShapeTree>⟧.tree ⟦<Source as Record>⟧.parts };

    fn serialize<S: Serializer>(&self, serializer: &mut S) -> Result<S::Ok, S::Error> {
        serializer.serialize_described(
            &0x28u64,
            &ListOf(fields! {
                "address"?: &self.address, "durable"?: &self.durable,
                "expiry-policy"?: &self.expiry_policy, "timeout"?: &self.timeout,
                "dynamic"?: &self.dynamic,
                "dynamic-node-properties"?: &self.dynamic_node_properties,
                "distribution-mode"?: &self.distribution_mode, "filter"?: &self.filter,
                "default-outcome"?: &self.default_outcome, "outcomes"?: &self.outcomes,
                "capabilities"?: &self.capabilities
            }),
        )
    }
}

impl RoundTripComposite for Source {
    fn composite_law() {
        composite_returns::<Source, SourceShape>();
    }
}

impl Source {
    /// Returns `timeout`, or `0` if it is absent.
    pub fn timeout_or_default(&self) -> u32
        ensures { result ≡ value_or 0 self.now.timeout }
    {
        self.timeout.unwrap_or(0)
    }

    /// Returns `dynamic`, or `false` if it is absent.
    pub fn dynamic_or_default(&self) -> bool
        ensures { result ≡ value_or false self.now.dynamic }
    {
        self.dynamic.unwrap_or(false)
    }
}
