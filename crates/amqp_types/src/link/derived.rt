//! tools/derive wrote this file from link.rt: it is not edited by hand.

ghost use Rattle.std.specs.Prelude.{◌≡◌, None, false, codes};
ghost use Rattle.serde_amqp.specs.Derive.{value_or, ◌▸◌, by_parts, after_code};

use super::{
    AnyTarget, Attach, ByteBuf, DeliveryState, Multiple, OrderedMap, ReceiverSettleMode, Role,
    SenderSettleMode, Source, Symbol, Value,
};
use serde_amqp::derive::{
    Composite, Fault, Four, Global, ListOf, Of, One, Record, RoundTripComposite, Serialize,
    SerializeCompounds, Serializer, Shape, ShapeTree, built, composite_returns, fields, named,
    read_shaped,
};

type AttachShape = ListOf<Four<Of<String>, Of<u32>, Of<Role>, Option<SenderSettleMode>, Row>>;

type Row = Four<Option<ReceiverSettleMode>, Option<Source>, Option<AnyTarget>, Kind, Row2>;

type Row2 = Four<Option<bool>, Option<u32>, Option<u64>, Option<Multiple<Symbol>>, Row3>;

type Row3 = One<Option<Multiple<Symbol>>, One<Option<OrderedMap<Symbol, Value>>, ()>>;

type Kind = Option<OrderedMap<ByteBuf, Option<DeliveryState>>>;

impl Record for Attach {
    type Values = <AttachShape as Shape>::Value;

    ghost parts = { λ x. x.name ▸ x.handle ▸ x.role ▸ x.snd_settle_mode ▸ x.rcv_settle_mode ▸
        x.source ▸ x.target ▸ x.unsettled ▸ x.incomplete_unsettled ▸ x.initial_delivery_count ▸
        x.max_message_size ▸ x.offered_capabilities ▸ x.desired_capabilities ▸ x.properties ▸ tt };

    fn from_parts(values: <AttachShape as Shape>::Value) -> Attach {
        built! { values => Attach {
            name, handle, role, snd_settle_mode, rcv_settle_mode, source, target, unsettled,
            incomplete_unsettled, initial_delivery_count, max_message_size, offered_capabilities,
            desired_capabilities, properties
        } }
    }
}

impl Composite for Attach {
    ghost descriptor_code = { 0x12 };

    ghost descriptor_name = { codes "amqp:attach:list" };

    ghost body = { by_parts ⟦<AttachShape as Shape>⟧.laws ⟦<Attach as Record>⟧.parts };

    fn descriptor() -> (u64, &'static str) {
        (0x12, "amqp:attach:list")
    }

    #[inline(always)]
    fn read_body<S: serde_amqp::derive::Source>(
        alloc: Global,
        source: S,
    ) -> Result<(Attach, S::Rest), Fault> {
        let fields = named! {
            "name", "handle", "role", "snd-settle-mode"?, "rcv-settle-mode"?, "source"?, "target"?,
            "unsettled"?, "incomplete-unsettled"?, "initial-delivery-count"?, "max-message-size"?,
            "offered-capabilities"?, "desired-capabilities"?, "properties"?
        };
        read_shaped(alloc, source, ListOf(fields))
    }
}

impl Serialize for Attach {
    ghost tree = { after_code 0x12 ⟦<AttachShape as ShapeTree>⟧.tree ⟦<Attach as Record>⟧.parts };

    fn serialize<S: Serializer>(&self, serializer: &mut S) -> Result<S::Ok, S::Error> {
        serializer.serialize_described(
            &0x12u64,
            &ListOf(fields! {
                "name": &self.name, "handle": &self.handle, "role": &self.role,
                "snd-settle-mode"?: &self.snd_settle_mode,
                "rcv-settle-mode"?: &self.rcv_settle_mode, "source"?: &self.source,
                "target"?: &self.target, "unsettled"?: &self.unsettled,
                "incomplete-unsettled"?: &self.incomplete_unsettled,
                "initial-delivery-count"?: &self.initial_delivery_count,
                "max-message-size"?: &self.max_message_size,
                "offered-capabilities"?: &self.offered_capabilities,
                "desired-capabilities"?: &self.desired_capabilities,
                "properties"?: &self.properties
            }),
        )
    }
}

impl RoundTripComposite for Attach {
    fn composite_law() {
        composite_returns::<Attach, AttachShape>();
    }
}

impl Attach {
    /// Returns a value with these fields. The others are `None`.
    pub fn new(name: String, handle: u32, role: Role) -> Attach
        ensures { ⟦<Attach as Record>⟧.parts result ≡ name ▸ handle ▸ role ▸ None ▸ None ▸ None ▸
            None ▸ None ▸ None ▸ None ▸ None ▸ None ▸ None ▸ None ▸ tt }
    {
        Attach {
            name,
            handle,
            role,
            snd_settle_mode: None,
            rcv_settle_mode: None,
            source: None,
            target: None,
            unsettled: None,
            incomplete_unsettled: None,
            initial_delivery_count: None,
            max_message_size: None,
            offered_capabilities: None,
            desired_capabilities: None,
            properties: None,
        }
    }

    /// Returns `incomplete_unsettled`, or `false` if it is absent.
    pub fn incomplete_unsettled_or_default(&self) -> bool
        ensures { result ≡ value_or false self.now.incomplete_unsettled }
    {
        self.incomplete_unsettled.unwrap_or(false)
    }
}
