//! tools/derive wrote this file from flow.rt: it is not edited by hand.

ghost use Rattle.std.specs.Prelude.{◌≡◌, None, false, codes};
ghost use Rattle.serde_amqp.specs.Derive.{value_or, ◌▸◌, by_parts, after_code};

use super::{Flow, OrderedMap, Symbol, Value};
use serde_amqp::derive::{
    Composite, Fault, Four, Global, ListOf, Of, One, Record, RoundTripComposite, Serialize,
    SerializeCompounds, Serializer, Shape, ShapeTree, Source, built, composite_returns, fields,
    named, read_shaped,
};

type FlowShape = ListOf<Four<Option<u32>, Of<u32>, Of<u32>, Of<u32>, Row>>;

type Row = Four<Option<u32>, Option<u32>, Option<u32>, Option<u32>, One<Option<bool>, Row2>>;

type Row2 = One<Option<bool>, One<Option<OrderedMap<Symbol, Value>>, ()>>;

impl Record for Flow {
    type Values = <FlowShape as Shape>::Value;

    ghost parts = { λ x. x.next_incoming_id ▸ x.incoming_window ▸ x.next_outgoing_id ▸
        x.outgoing_window ▸ x.handle ▸ x.delivery_count ▸ x.link_credit ▸ x.available ▸ x.drain ▸
        x.echo ▸ x.properties ▸ tt };

    fn from_parts(values: <FlowShape as Shape>::Value) -> Flow {
        built! { values => Flow {
            next_incoming_id, incoming_window, next_outgoing_id, outgoing_window, handle,
            delivery_count, link_credit, available, drain, echo, properties
        } }
    }
}

impl Composite for Flow {
    ghost descriptor_code = { 0x13 };

    ghost descriptor_name = { codes "amqp:flow:list" };

    ghost body = { by_parts ⟦<FlowShape as Shape>⟧.laws ⟦<Flow as Record>⟧.parts };

    fn descriptor() -> (u64, &'static str) {
        (0x13, "amqp:flow:list")
    }

    #[inline(always)]
    fn read_body<S: Source>(alloc: Global, source: S) -> Result<(Flow, S::Rest), Fault> {
        let fields = named! {
            "next-incoming-id"?, "incoming-window", "next-outgoing-id", "outgoing-window",
            "handle"?, "delivery-count"?, "link-credit"?, "available"?, "drain"?, "echo"?,
            "properties"?
        };
        read_shaped(alloc, source, ListOf(fields))
    }
}

impl Serialize for Flow {
    ghost tree = { after_code 0x13 ⟦<FlowShape as ShapeTree>⟧.tree ⟦<Flow as Record>⟧.parts };

    fn serialize<S: Serializer>(&self, serializer: &mut S) -> Result<S::Ok, S::Error> {
        serializer.serialize_described(
            &0x13u64,
            &ListOf(fields! {
                "next-incoming-id"?: &self.next_incoming_id,
                "incoming-window": &self.incoming_window,
                "next-outgoing-id": &self.next_outgoing_id,
                "outgoing-window": &self.outgoing_window, "handle"?: &self.handle,
                "delivery-count"?: &self.delivery_count, "link-credit"?: &self.link_credit,
                "available"?: &self.available, "drain"?: &self.drain, "echo"?: &self.echo,
                "properties"?: &self.properties
            }),
        )
    }
}

impl RoundTripComposite for Flow {
    fn composite_law() {
        composite_returns::<Flow, FlowShape>();
    }
}

impl Flow {
    /// Returns a value with these fields. The others are `None`.
    pub fn new(incoming_window: u32, next_outgoing_id: u32, outgoing_window: u32) -> Flow
        ensures { ⟦<Flow as Record>⟧.parts result ≡ None ▸ incoming_window ▸ next_outgoing_id ▸
            outgoing_window ▸ None ▸ None ▸ None ▸ None ▸ None ▸ None ▸ None ▸ tt }
    {
        Flow {
            next_incoming_id: None,
            incoming_window,
            next_outgoing_id,
            outgoing_window,
            handle: None,
            delivery_count: None,
            link_credit: None,
            available: None,
            drain: None,
            echo: None,
            properties: None,
        }
    }

    /// Returns `drain`, or `false` if it is absent.
    pub fn drain_or_default(&self) -> bool
        ensures { result ≡ value_or false self.now.drain }
    {
        self.drain.unwrap_or(false)
    }

    /// Returns `echo`, or `false` if it is absent.
    pub fn echo_or_default(&self) -> bool
        ensures { result ≡ value_or false self.now.echo }
    {
        self.echo.unwrap_or(false)
    }
}
