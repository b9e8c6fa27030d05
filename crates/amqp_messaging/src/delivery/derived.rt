//! tools/derive wrote this file from delivery.rt: it is not edited by hand.

ghost use Rattle.std.specs.Prelude.{◌≡◌, None, codes};
ghost use Rattle.serde_amqp.specs.Derive.{◌▸◌, by_parts, after_code};

use super::{
    Accepted, AmqpError, Modified, OrderedMap, Received, Rejected, Released, Symbol, Value,
};
use serde_amqp::derive::{
    Composite, Fault, Global, ListOf, Of, One, Record, RoundTripComposite, Serialize,
    SerializeCompounds, Serializer, Shape, ShapeTree, Source, built, composite_returns, fields,
    named, read_shaped,
};

type ReceivedShape = ListOf<One<Of<u32>, One<Of<u64>, ()>>>;

impl Record for Received {
    type Values = <ReceivedShape as Shape>::Value;

    ghost parts = { λ x. x.section_number ▸ x.section_offset ▸ tt };

    fn from_parts(values: <ReceivedShape as Shape>::Value) -> Received {
        built! { values => Received { section_number, section_offset } }
    }
}

impl Composite for Received {
    ghost descriptor_code = { 0x23 };

    ghost descriptor_name = { codes "amqp:received:list" };

    ghost body = { by_parts ⟦<ReceivedShape as Shape>⟧.laws ⟦<Received as Record>⟧.parts };

    fn descriptor() -> (u64, &'static str) {
        (0x23, "amqp:received:list")
    }

    #[inline(always)]
    fn read_body<S: Source>(alloc: Global, source: S) -> Result<(Received, S::Rest), Fault> {
        let fields = named! { "section-number", "section-offset" };
        read_shaped(alloc, source, ListOf(fields))
    }
}

impl Serialize for Received {
    ghost tree = { after_code 0x23 ⟦<ReceivedShape as ShapeTree>⟧.tree
        ⟦<Received as Record>⟧.parts };

    fn serialize<S: Serializer>(&self, serializer: &mut S) -> Result<S::Ok, S::Error> {
        serializer.serialize_described(
            &0x23u64,
            &ListOf(fields! {
                "section-number": &self.section_number, "section-offset": &self.section_offset
            }),
        )
    }
}

impl RoundTripComposite for Received {
    fn composite_law() {
        composite_returns::<Received, ReceivedShape>();
    }
}

impl Received {
    /// Returns a value with these fields.
    pub fn new(section_number: u32, section_offset: u64) -> Received
        ensures { ⟦<Received as Record>⟧.parts result ≡ section_number ▸ section_offset ▸ tt }
    {
        Received {
            section_number,
            section_offset,
        }
    }
}

type AcceptedShape = ListOf<()>;

impl Record for Accepted {
    type Values = <AcceptedShape as Shape>::Value;

    ghost parts = { λ _. tt };

    fn from_parts(values: <AcceptedShape as Shape>::Value) -> Accepted {
        built! { values => Accepted {} }
    }
}

impl Composite for Accepted {
    ghost descriptor_code = { 0x24 };

    ghost descriptor_name = { codes "amqp:accepted:list" };

    ghost body = { by_parts ⟦<AcceptedShape as Shape>⟧.laws ⟦<Accepted as Record>⟧.parts };

    fn descriptor() -> (u64, &'static str) {
        (0x24, "amqp:accepted:list")
    }

    #[inline(always)]
    fn read_body<S: Source>(alloc: Global, source: S) -> Result<(Accepted, S::Rest), Fault> {
        read_shaped(alloc, source, ListOf(()))
    }
}

impl Serialize for Accepted {
    ghost tree = { after_code 0x24 ⟦<AcceptedShape as ShapeTree>⟧.tree
        ⟦<Accepted as Record>⟧.parts };

    fn serialize<S: Serializer>(&self, serializer: &mut S) -> Result<S::Ok, S::Error> {
        serializer.serialize_described(&0x24u64, &ListOf(fields! {}))
    }
}

impl RoundTripComposite for Accepted {
    fn composite_law() {
        composite_returns::<Accepted, AcceptedShape>();
    }
}

type RejectedShape = ListOf<One<Option<AmqpError>, ()>>;

impl Record for Rejected {
    type Values = <RejectedShape as Shape>::Value;

    ghost parts = { λ x. x.error ▸ tt };

    fn from_parts(values: <RejectedShape as Shape>::Value) -> Rejected {
        built! { values => Rejected { error } }
    }
}

impl Composite for Rejected {
    ghost descriptor_code = { 0x25 };

    ghost descriptor_name = { codes "amqp:rejected:list" };

    ghost body = { by_parts ⟦<RejectedShape as Shape>⟧.laws ⟦<Rejected as Record>⟧.parts };

    fn descriptor() -> (u64, &'static str) {
        (0x25, "amqp:rejected:list")
    }

    #[inline(always)]
    fn read_body<S: Source>(alloc: Global, source: S) -> Result<(Rejected, S::Rest), Fault> {
        let fields = named! { "error"? };
        read_shaped(alloc, source, ListOf(fields))
    }
}

impl Serialize for Rejected {
    ghost tree = { after_code 0x25 ⟦<RejectedShape as ShapeTree>⟧.tree
        ⟦<Rejected as Record>⟧.parts };

    fn serialize<S: Serializer>(&self, serializer: &mut S) -> Result<S::Ok, S::Error> {
        serializer.serialize_described(&0x25u64, &ListOf(fields! { "error"?: &self.error }))
    }
}

impl RoundTripComposite for Rejected {
    fn composite_law() {
        composite_returns::<Rejected, RejectedShape>();
    }
}

type ReleasedShape = ListOf<()>;

impl Record for Released {
    type Values = <ReleasedShape as Shape>::Value;

    ghost parts = { λ _. tt };

    fn from_parts(values: <ReleasedShape as Shape>::Value) -> Released {
        built! { values => Released {} }
    }
}

impl Composite for Released {
    ghost descriptor_code = { 0x26 };

    ghost descriptor_name = { codes "amqp:released:list" };

    ghost body = { by_parts ⟦<ReleasedShape as Shape>⟧.laws ⟦<Released as Record>⟧.parts };

    fn descriptor() -> (u64, &'static str) {
        (0x26, "amqp:released:list")
    }

    #[inline(always)]
    fn read_body<S: Source>(alloc: Global, source: S) -> Result<(Released, S::Rest), Fault> {
        read_shaped(alloc, source, ListOf(()))
    }
}

impl Serialize for Released {
    ghost tree = { after_code 0x26 ⟦<ReleasedShape as ShapeTree>⟧.tree
        ⟦<Released as Record>⟧.parts };

    fn serialize<S: Serializer>(&self, serializer: &mut S) -> Result<S::Ok, S::Error> {
        serializer.serialize_described(&0x26u64, &ListOf(fields! {}))
    }
}

impl RoundTripComposite for Released {
    fn composite_law() {
        composite_returns::<Released, ReleasedShape>();
    }
}

type ModifiedShape = ListOf<One<Option<bool>, One<Option<bool>, Row>>>;

type Row = One<Option<OrderedMap<Symbol, Value>>, ()>;

impl Record for Modified {
    type Values = <ModifiedShape as Shape>::Value;

    ghost parts = { λ x. x.delivery_failed ▸ x.undeliverable_here ▸ x.message_annotations ▸ tt };

    fn from_parts(values: <ModifiedShape as Shape>::Value) -> Modified {
        built! { values => Modified { delivery_failed, undeliverable_here, message_annotations } }
    }
}

impl Composite for Modified {
    ghost descriptor_code = { 0x27 };

    ghost descriptor_name = { codes "amqp:modified:list" };

    ghost body = { by_parts ⟦<ModifiedShape as Shape>⟧.laws ⟦<Modified as Record>⟧.parts };

    fn descriptor() -> (u64, &'static str) {
        (0x27, "amqp:modified:list")
    }

    #[inline(always)]
    fn read_body<S: Source>(alloc: Global, source: S) -> Result<(Modified, S::Rest), Fault> {
        let fields = named! { "delivery-failed"?, "undeliverable-here"?, "message-annotations"? };
        read_shaped(alloc, source, ListOf(fields))
    }
}

impl Serialize for Modified {
    ghost tree = { after_code 0x27 ⟦<ModifiedShape as ShapeTree>⟧.tree
        ⟦<Modified as Record>⟧.parts };

    fn serialize<S: Serializer>(&self, serializer: &mut S) -> Result<S::Ok, S::Error> {
        serializer.serialize_described(
            &0x27u64,
            &ListOf(fields! {
                "delivery-failed"?: &self.delivery_failed,
                "undeliverable-here"?: &self.undeliverable_here,
                "message-annotations"?: &self.message_annotations
            }),
        )
    }
}

impl RoundTripComposite for Modified {
    fn composite_law() {
        composite_returns::<Modified, ModifiedShape>();
    }
}
