//! tools/derive wrote this file from connection.rt: it is not edited by hand.

ghost use Rattle.std.specs.Prelude.{◌≡◌, None, codes};
ghost use Rattle.serde_amqp.specs.Derive.{value_or, ◌▸◌, by_parts, after_code};

use super::{Multiple, Open, OrderedMap, Symbol, Value};
use serde_amqp::derive::{
    Composite, Fault, Four, Global, ListOf, Of, One, Record, RoundTripComposite, Serialize,
    SerializeCompounds, Serializer, Shape, ShapeTree, Source, built, composite_returns, fields,
    named, read_shaped,
};

type OpenShape = ListOf<Four<Of<String>, Option<String>, Option<u32>, Option<u16>, Row>>;

type Row = Four<Option<u32>, Kind, Kind, Kind, One<Option<Multiple<Symbol>>, Row2>>;

type Row2 = One<Option<OrderedMap<Symbol, Value>>, ()>;

type Kind = Option<Multiple<Symbol>>;

impl Record for Open {
    type Values = <OpenShape as Shape>::Value;

    ghost parts = { λ x. x.container_id ▸ x.hostname ▸ x.max_frame_size ▸ x.channel_max ▸
        x.idle_time_out ▸ x.outgoing_locales ▸ x.incoming_locales ▸ x.offered_capabilities ▸
        x.desired_capabilities ▸ x.properties ▸ tt };

    fn from_parts(values: <OpenShape as Shape>::Value) -> Open {
        built! { values => Open {
            container_id, hostname, max_frame_size, channel_max, idle_time_out, outgoing_locales,
            incoming_locales, offered_capabilities, desired_capabilities, properties
        } }
    }
}

impl Composite for Open {
    ghost descriptor_code = { 0x10 };

    ghost descriptor_name = { codes "amqp:open:list" };

    ghost body = { by_parts ⟦<OpenShape as Shape>⟧.laws ⟦<Open as Record>⟧.parts };

    fn descriptor() -> (u64, &'static str) {
        (0x10, "amqp:open:list")
    }

    #[inline(always)]
    fn read_body<S: Source>(alloc: Global, source: S) -> Result<(Open, S::Rest), Fault> {
        let fields = named! {
            "container-id", "hostname"?, "max-frame-size"?, "channel-max"?, "idle-time-out"?,
            "outgoing-locales"?, "incoming-locales"?, "offered-capabilities"?,
            "desired-capabilities"?, "properties"?
        };
        read_shaped(alloc, source, ListOf(fields))
    }
}

impl Serialize for Open {
    ghost tree = { after_code 0x10 ⟦<OpenShape as ShapeTree>⟧.tree ⟦<Open as Record>⟧.parts };

    fn serialize<S: Serializer>(&self, serializer: &mut S) -> Result<S::Ok, S::Error> {
        serializer.serialize_described(
            &0x10u64,
            &ListOf(fields! {
                "container-id": &self.container_id, "hostname"?: &self.hostname,
                "max-frame-size"?: &self.max_frame_size, "channel-max"?: &self.channel_max,
                "idle-time-out"?: &self.idle_time_out, "outgoing-locales"?: &self.outgoing_locales,
                "incoming-locales"?: &self.incoming_locales,
                "offered-capabilities"?: &self.offered_capabilities,
                "desired-capabilities"?: &self.desired_capabilities,
                "properties"?: &self.properties
            }),
        )
    }
}

impl RoundTripComposite for Open {
    fn composite_law() {
        composite_returns::<Open, OpenShape>();
    }
}

impl Open {
    /// Returns a value with these fields. The others are `None`.
    pub fn new(container_id: String) -> Open
        ensures { ⟦<Open as Record>⟧.parts result ≡ container_id ▸ None ▸ None ▸ None ▸ None ▸ None
            ▸ None ▸ None ▸ None ▸ None ▸ tt }
    {
        Open {
            container_id,
            hostname: None,
            max_frame_size: None,
            channel_max: None,
            idle_time_out: None,
            outgoing_locales: None,
            incoming_locales: None,
            offered_capabilities: None,
            desired_capabilities: None,
            properties: None,
        }
    }

    /// Returns `max_frame_size`, or `4294967295` if it is absent.
    pub fn max_frame_size_or_default(&self) -> u32
        ensures { result ≡ value_or 4294967295 self.now.max_frame_size }
    {
        self.max_frame_size.unwrap_or(4294967295)
    }

    /// Returns `channel_max`, or `65535` if it is absent.
    pub fn channel_max_or_default(&self) -> u16
        ensures { result ≡ value_or 65535 self.now.channel_max }
    {
        self.channel_max.unwrap_or(65535)
    }
}
