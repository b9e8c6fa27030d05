//! tools/derive wrote this file from endings.rt: it is not edited by hand.

ghost use Rattle.std.specs.Prelude.{◌≡◌, None, false, codes};
ghost use Rattle.serde_amqp.specs.Derive.{value_or, ◌▸◌, by_parts, after_code};

use super::{AmqpError, Close, Detach, End};
use serde_amqp::derive::{
    Composite, Fault, Global, ListOf, Of, One, Record, RoundTripComposite, Serialize,
    SerializeCompounds, Serializer, Shape, ShapeTree, Source, built, composite_returns, fields,
    named, read_shaped,
};

type DetachShape = ListOf<One<Of<u32>, One<Option<bool>, One<Option<AmqpError>, ()>>>>;

impl Record for Detach {
    type Values = <DetachShape as Shape>::Value;

    ghost parts = { λ x. x.handle ▸ x.closed ▸ x.error ▸ tt };

    fn from_parts(values: <DetachShape as Shape>::Value) -> Detach {
        built! { values => Detach { handle, closed, error } }
    }
}

impl Composite for Detach {
    ghost descriptor_code = { 0x16 };

    ghost descriptor_name = { codes "amqp:detach:list" };

    ghost body = { by_parts ⟦<DetachShape as Shape>⟧.laws ⟦<Detach as Record>⟧.parts };

    fn descriptor() -> (u64, &'static str) {
        (0x16, "amqp:detach:list")
    }

    #[inline(always)]
    fn read_body<S: Source>(alloc: Global, source: S) -> Result<(Detach, S::Rest), Fault> {
        let fields = named! { "handle", "closed"?, "error"? };
        read_shaped(alloc, source, ListOf(fields))
    }
}

impl Serialize for Detach {
    ghost tree = { after_code 0x16 ⟦<DetachShape as ShapeTree>⟧.tree ⟦<Detach as Record>⟧.parts };

    fn serialize<S: Serializer>(&self, serializer: &mut S) -> Result<S::Ok, S::Error> {
        serializer.serialize_described(
            &0x16u64,
            &ListOf(fields! {
                "handle": &self.handle, "closed"?: &self.closed, "error"?: &self.error
            }),
        )
    }
}

impl RoundTripComposite for Detach {
    fn composite_law() {
        composite_returns::<Detach, DetachShape>();
    }
}

impl Detach {
    /// Returns a value with these fields. The others are `None`.
    pub fn new(handle: u32) -> Detach
        ensures { ⟦<Detach as Record>⟧.parts result ≡ handle ▸ None ▸ None ▸ tt }
    {
        Detach {
            handle,
            closed: None,
            error: None,
        }
    }

    /// Returns `closed`, or `false` if it is absent.
    pub fn closed_or_default(&self) -> bool
        ensures { result ≡ value_or false self.now.closed }
    {
        self.closed.unwrap_or(false)
    }
}

type EndShape = ListOf<One<Option<AmqpError>, ()>>;

impl Record for End {
    type Values = <EndShape as Shape>::Value;

    ghost parts = { λ x. x.error ▸ tt };

    fn from_parts(values: <EndShape as Shape>::Value) -> End {
        built! { values => End { error } }
    }
}

impl Composite for End {
    ghost descriptor_code = { 0x17 };

    ghost descriptor_name = { codes "amqp:end:list" };

    ghost body = { by_parts ⟦<EndShape as Shape>⟧.laws ⟦<End as Record>⟧.parts };

    fn descriptor() -> (u64, &'static str) {
        (0x17, "amqp:end:list")
    }

    #[inline(always)]
    fn read_body<S: Source>(alloc: Global, source: S) -> Result<(End, S::Rest), Fault> {
        let fields = named! { "error"? };
        read_shaped(alloc, source, ListOf(fields))
    }
}

impl Serialize for End {
    ghost tree = { after_code 0x17 ⟦<EndShape as ShapeTree>⟧.tree ⟦<End as Record>⟧.parts };

    fn serialize<S: Serializer>(&self, serializer: &mut S) -> Result<S::Ok, S::Error> {
        serializer.serialize_described(&0x17u64, &ListOf(fields! { "error"?: &self.error }))
    }
}

impl RoundTripComposite for End {
    fn composite_law() {
        composite_returns::<End, EndShape>();
    }
}

type CloseShape = ListOf<One<Option<AmqpError>, ()>>;

impl Record for Close {
    type Values = <CloseShape as Shape>::Value;

    ghost parts = { λ x. x.error ▸ tt };

    fn from_parts(values: <CloseShape as Shape>::Value) -> Close {
        built! { values => Close { error } }
    }
}

impl Composite for Close {
    ghost descriptor_code = { 0x18 };

    ghost descriptor_name = { codes "amqp:close:list" };

    ghost body = { by_parts ⟦<CloseShape as Shape>⟧.laws ⟦<Close as Record>⟧.parts };

    fn descriptor() -> (u64, &'static str) {
        (0x18, "amqp:close:list")
    }

    #[inline(always)]
    fn read_body<S: Source>(alloc: Global, source: S) -> Result<(Close, S::Rest), Fault> {
        let fields = named! { "error"? };
        read_shaped(alloc, source, ListOf(fields))
    }
}

impl Serialize for Close {
    ghost tree = { after_code 0x18 ⟦<CloseShape as ShapeTree>⟧.tree ⟦<Close as Record>⟧.parts };

    fn serialize<S: Serializer>(&self, serializer: &mut S) -> Result<S::Ok, S::Error> {
        serializer.serialize_described(&0x18u64, &ListOf(fields! { "error"?: &self.error }))
    }
}

impl RoundTripComposite for Close {
    fn composite_law() {
        composite_returns::<Close, CloseShape>();
    }
}
