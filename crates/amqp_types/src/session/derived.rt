//! tools/derive wrote this file from session.rt: it is not edited by hand.

ghost use Rattle.std.specs.Prelude.{◌≡◌, None, codes};
ghost use Rattle.serde_amqp.specs.Derive.{value_or, ◌▸◌, by_parts, after_code};

use super::{Begin, Multiple, OrderedMap, Symbol, Value};
use serde_amqp::derive::{
    Composite, Fault, Four, Global, ListOf, Of, Record, RoundTripComposite, Serialize,
    SerializeCompounds, Serializer, Shape, ShapeTree, Source, built, composite_returns, fields,
    named, read_shaped,
};

type BeginShape = ListOf<Four<Option<u16>, Of<u32>, Of<u32>, Of<u32>, Row>>;

type Row = Four<Option<u32>, Option<Multiple<Symbol>>, Option<Multiple<Symbol>>, Kind, ()>;

type Kind = Option<OrderedMap<Symbol, Value>>;

impl Record for Begin {
    type Values = <BeginShape as Shape>::Value;

    ghost parts = { λ x. x.remote_channel ▸ x.next_outgoing_id ▸ x.incoming_window ▸
        x.outgoing_window ▸ x.handle_max ▸ x.offered_capabilities ▸ x.desired_capabilities ▸
        x.properties ▸ tt };

    fn from_parts(values: <BeginShape as Shape>::Value) -> Begin {
        built! { values => Begin {
            remote_channel, next_outgoing_id, incoming_window, outgoing_window, handle_max,
            offered_capabilities, desired_capabilities, properties
        } }
    }
}

impl Composite for Begin {
    ghost descriptor_code = { 0x11 };

    ghost descriptor_name = { codes "amqp:begin:list" };

    ghost body = { by_parts ⟦<BeginShape as Shape>⟧.laws ⟦<Begin as Record>⟧.parts };

    fn descriptor() -> (u64, &'static str) {
        (0x11, "amqp:begin:list")
    }

    #[inline(always)]
    fn read_body<S: Source>(alloc: Global, source: S) -> Result<(Begin, S::Rest), Fault> {
        let fields = named! {
            "remote-channel"?, "next-outgoing-id", "incoming-window", "outgoing-window",
            "handle-max"?, "offered-capabilities"?, "desired-capabilities"?, "properties"?
        };
        read_shaped(alloc, source, ListOf(fields))
    }
}

impl Serialize for Begin {
    ghost tree = { after_code 0x11 ⟦<BeginShape as ShapeTree>⟧.tree ⟦<Begin as Record>⟧.parts };

    fn serialize<S: Serializer>(&self, serializer: &mut S) -> Result<S::Ok, S::Error> {
        serializer.serialize_described(
            &0x11u64,
            &ListOf(fields! {
                "remote-channel"?: &self.remote_channel, "next-outgoing-id": &self.next_outgoing_id,
                "incoming-window": &self.incoming_window, "outgoing-window": &self.outgoing_window,
                "handle-max"?: &self.handle_max,
                "offered-capabilities"?: &self.offered_capabilities,
                "desired-capabilities"?: &self.desired_capabilities,
                "properties"?: &self.properties
            }),
        )
    }
}

impl RoundTripComposite for Begin {
    fn composite_law() {
        composite_returns::<Begin, BeginShape>();
    }
}

impl Begin {
    /// Returns a value with these fields. The others are `None`.
    pub fn new(next_outgoing_id: u32, incoming_window: u32, outgoing_window: u32) -> Begin
        ensures { ⟦<Begin as Record>⟧.parts result ≡ None ▸ next_outgoing_id ▸ incoming_window ▸
            outgoing_window ▸ None ▸ None ▸ None ▸ None ▸ tt }
    {
        Begin {
            remote_channel: None,
            next_outgoing_id,
            incoming_window,
            outgoing_window,
            handle_max: None,
            offered_capabilities: None,
            desired_capabilities: None,
            properties: None,
        }
    }

    /// Returns `handle_max`, or `4294967295` if it is absent.
    pub fn handle_max_or_default(&self) -> u32
        ensures { result ≡ value_or 4294967295 self.now.handle_max }
    {
        self.handle_max.unwrap_or(4294967295)
    }
}
