//! tools/derive wrote this file from sasl.rt: it is not edited by hand.

ghost use Rattle.std.specs.Prelude.{◌≡◌, None, codes};
ghost use Rattle.serde_amqp.specs.Derive.{◌▸◌, by_parts, after_code};

use super::{ByteBuf, Multiple, SaslChallenge, SaslInit, SaslMechanisms, SaslResponse, Symbol};
use serde_amqp::derive::{
    Composite, Fault, Global, ListOf, Of, One, Record, RoundTripComposite, Serialize,
    SerializeCompounds, Serializer, Shape, ShapeTree, Source, built, composite_returns, fields,
    named, read_shaped,
};

type SaslMechanismsShape = ListOf<One<Of<Multiple<Symbol>>, ()>>;

impl Record for SaslMechanisms {
    type Values = <SaslMechanismsShape as Shape>::Value;

    ghost parts = { λ x. x.sasl_server_mechanisms ▸ tt };

    fn from_parts(values: <SaslMechanismsShape as Shape>::Value) -> SaslMechanisms {
        built! { values => SaslMechanisms { sasl_server_mechanisms } }
    }
}

impl Composite for SaslMechanisms {
    ghost descriptor_code = { 0x40 };

    ghost descriptor_name = { codes "amqp:sasl-mechanisms:list" };

    ghost body = { by_parts ⟦<SaslMechanismsShape as Shape>⟧.laws
        ⟦<SaslMechanisms as Record>⟧.parts };

    fn descriptor() -> (u64, &'static str) {
        (0x40, "amqp:sasl-mechanisms:list")
    }

    #[inline(always)]
    fn read_body<S: Source>(alloc: Global, source: S) -> Result<(SaslMechanisms, S::Rest), Fault> {
        let fields = named! { "sasl-server-mechanisms" };
        read_shaped(alloc, source, ListOf(fields))
    }
}

impl Serialize for SaslMechanisms {
    ghost tree = { after_code 0x40 ⟦<SaslMechanismsShape as ShapeTree>⟧.tree
        ⟦<SaslMechanisms as Record>⟧.parts };

    fn serialize<S: Serializer>(&self, serializer: &mut S) -> Result<S::Ok, S::Error> {
        serializer.serialize_described(
            &0x40u64,
            &ListOf(fields! { "sasl-server-mechanisms": &self.sasl_server_mechanisms }),
        )
    }
}

impl RoundTripComposite for SaslMechanisms {
    fn composite_law() {
        composite_returns::<SaslMechanisms, SaslMechanismsShape>();
    }
}

impl SaslMechanisms {
    /// Returns a value with these fields.
    pub fn new(sasl_server_mechanisms: Multiple<Symbol>) -> SaslMechanisms
        ensures { ⟦<SaslMechanisms as Record>⟧.parts result ≡ sasl_server_mechanisms ▸ tt }
    {
        SaslMechanisms {
            sasl_server_mechanisms,
        }
    }
}

type SaslInitShape = ListOf<One<Of<Symbol>, One<Option<ByteBuf>, One<Option<String>, ()>>>>;

impl Record for SaslInit {
    type Values = <SaslInitShape as Shape>::Value;

    ghost parts = { λ x. x.mechanism ▸ x.initial_response ▸ x.hostname ▸ tt };

    fn from_parts(values: <SaslInitShape as Shape>::Value) -> SaslInit {
        built! { values => SaslInit { mechanism, initial_response, hostname } }
    }
}

impl Composite for SaslInit {
    ghost descriptor_code = { 0x41 };

    ghost descriptor_name = { codes "amqp:sasl-init:list" };

    ghost body = { by_parts ⟦<SaslInitShape as Shape>⟧.laws ⟦<SaslInit as Record>⟧.parts };

    fn descriptor() -> (u64, &'static str) {
        (0x41, "amqp:sasl-init:list")
    }

    #[inline(always)]
    fn read_body<S: Source>(alloc: Global, source: S) -> Result<(SaslInit, S::Rest), Fault> {
        let fields = named! { "mechanism", "initial-response"?, "hostname"? };
        read_shaped(alloc, source, ListOf(fields))
    }
}

impl Serialize for SaslInit {
    ghost tree = { after_code 0x41 ⟦<SaslInitShape as ShapeTree>⟧.tree
        ⟦<SaslInit as Record>⟧.parts };

    fn serialize<S: Serializer>(&self, serializer: &mut S) -> Result<S::Ok, S::Error> {
        serializer.serialize_described(
            &0x41u64,
            &ListOf(fields! {
                "mechanism": &self.mechanism, "initial-response"?: &self.initial_response,
                "hostname"?: &self.hostname
            }),
        )
    }
}

impl RoundTripComposite for SaslInit {
    fn composite_law() {
        composite_returns::<SaslInit, SaslInitShape>();
    }
}

impl SaslInit {
    /// Returns a value with these fields. The others are `None`.
    pub fn new(mechanism: Symbol) -> SaslInit
        ensures { ⟦<SaslInit as Record>⟧.parts result ≡ mechanism ▸ None ▸ None ▸ tt }
    {
        SaslInit {
            mechanism,
            initial_response: None,
            hostname: None,
        }
    }
}

type SaslChallengeShape = ListOf<One<Of<ByteBuf>, ()>>;

impl Record for SaslChallenge {
    type Values = <SaslChallengeShape as Shape>::Value;

    ghost parts = { λ x. x.challenge ▸ tt };

    fn from_parts(values: <SaslChallengeShape as Shape>::Value) -> SaslChallenge {
        built! { values => SaslChallenge { challenge } }
    }
}

impl Composite for SaslChallenge {
    ghost descriptor_code = { 0x42 };

    ghost descriptor_name = { codes "amqp:sasl-challenge:list" };

    ghost body = { by_parts ⟦<SaslChallengeShape as Shape>⟧.laws
        ⟦<SaslChallenge as Record>⟧.parts };

    fn descriptor() -> (u64, &'static str) {
        (0x42, "amqp:sasl-challenge:list")
    }

    #[inline(always)]
    fn read_body<S: Source>(alloc: Global, source: S) -> Result<(SaslChallenge, S::Rest), Fault> {
        let fields = named! { "challenge" };
        read_shaped(alloc, source, ListOf(fields))
    }
}

impl Serialize for SaslChallenge {
    ghost tree = { after_code 0x42 ⟦<SaslChallengeShape as ShapeTree>⟧.tree
        ⟦<SaslChallenge as Record>⟧.parts };

    fn serialize<S: Serializer>(&self, serializer: &mut S) -> Result<S::Ok, S::Error> {
        serializer.serialize_described(&0x42u64, &ListOf(fields! { "challenge": &self.challenge }))
    }
}

impl RoundTripComposite for SaslChallenge {
    fn composite_law() {
        composite_returns::<SaslChallenge, SaslChallengeShape>();
    }
}

impl SaslChallenge {
    /// Returns a value with these fields.
    pub fn new(challenge: ByteBuf) -> SaslChallenge
        ensures { ⟦<SaslChallenge as Record>⟧.parts result ≡ challenge ▸ tt }
    {
        SaslChallenge { challenge }
    }
}

type SaslResponseShape = ListOf<One<Of<ByteBuf>, ()>>;

impl Record for SaslResponse {
    type Values = <SaslResponseShape as Shape>::Value;

    ghost parts = { λ x. x.response ▸ tt };

    fn from_parts(values: <SaslResponseShape as Shape>::Value) -> SaslResponse {
        built! { values => SaslResponse { response } }
    }
}

impl Composite for SaslResponse {
    ghost descriptor_code = { 0x43 };

    ghost descriptor_name = { codes "amqp:sasl-response:list" };

    ghost body = { by_parts ⟦<SaslResponseShape as Shape>⟧.laws ⟦<SaslResponse as Record>⟧.parts };

    fn descriptor() -> (u64, &'static str) {
        (0x43, "amqp:sasl-response:list")
    }

    #[inline(always)]
    fn read_body<S: Source>(alloc: Global, source: S) -> Result<(SaslResponse, S::Rest), Fault> {
        let fields = named! { "response" };
        read_shaped(alloc, source, ListOf(fields))
    }
}

impl Serialize for SaslResponse {
    ghost tree = { after_code 0x43 ⟦<SaslResponseShape as ShapeTree>⟧.tree
        ⟦<SaslResponse as Record>⟧.parts };

    fn serialize<S: Serializer>(&self, serializer: &mut S) -> Result<S::Ok, S::Error> {
        serializer.serialize_described(&0x43u64, &ListOf(fields! { "response": &self.response }))
    }
}

impl RoundTripComposite for SaslResponse {
    fn composite_law() {
        composite_returns::<SaslResponse, SaslResponseShape>();
    }
}

impl SaslResponse {
    /// Returns a value with these fields.
    pub fn new(response: ByteBuf) -> SaslResponse
        ensures { ⟦<SaslResponse as Record>⟧.parts result ≡ response ▸ tt }
    {
        SaslResponse { response }
    }
}
