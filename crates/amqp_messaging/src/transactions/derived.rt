//! tools/derive wrote this file from transactions.rt: it is not edited by hand.

ghost use Rattle.std.specs.Prelude.{◌≡◌, None, codes};
ghost use Rattle.serde_amqp.specs.Derive.{◌▸◌, by_parts, after_code};

use super::{ByteBuf, Declare, Declared, Discharge, Value};
use serde_amqp::derive::{
    Composite, Fault, Global, ListOf, Of, One, Record, RoundTripComposite, Serialize,
    SerializeCompounds, Serializer, Shape, ShapeTree, Source, built, composite_returns, fields,
    named, read_shaped,
};

type DeclareShape = ListOf<One<Option<Value>, ()>>;

impl Record for Declare {
    type Values = <DeclareShape as Shape>::Value;

    ghost parts = { λ x. x.global_id ▸ tt };

    fn from_parts(values: <DeclareShape as Shape>::Value) -> Declare {
        built! { values => Declare { global_id } }
    }
}

impl Composite for Declare {
    ghost descriptor_code = { 0x31 };

    ghost descriptor_name = { codes "amqp:declare:list" };

    ghost body = { by_parts ⟦<DeclareShape as Shape>⟧.laws ⟦<Declare as Record>⟧.parts };

    fn descriptor() -> (u64, &'static str) {
        (0x31, "amqp:declare:list")
    }

    #[inline(always)]
    fn read_body<S: Source>(alloc: Global, source: S) -> Result<(Declare, S::Rest), Fault> {
        let fields = named! { "global-id"? };
        read_shaped(alloc, source, ListOf(fields))
    }
}

impl Serialize for Declare {
    ghost tree = { after_code 0x31 ⟦<DeclareShape as ShapeTree>⟧.tree ⟦<Declare as Record>⟧.parts };

    fn serialize<S: Serializer>(&self, serializer: &mut S) -> Result<S::Ok, S::Error> {
        serializer.serialize_described(&0x31u64, &ListOf(fields! { "global-id"?: &self.global_id }))
    }
}

impl RoundTripComposite for Declare {
    fn composite_law() {
        composite_returns::<Declare, DeclareShape>();
    }
}

type DischargeShape = ListOf<One<Of<ByteBuf>, One<Option<bool>, ()>>>;

impl Record for Discharge {
    type Values = <DischargeShape as Shape>::Value;

    ghost parts = { λ x. x.txn_id ▸ x.fail ▸ tt };

    fn from_parts(values: <DischargeShape as Shape>::Value) -> Discharge {
        built! { values => Discharge { txn_id, fail } }
    }
}

impl Composite for Discharge {
    ghost descriptor_code = { 0x32 };

    ghost descriptor_name = { codes "amqp:discharge:list" };

    ghost body = { by_parts ⟦<DischargeShape as Shape>⟧.laws ⟦<Discharge as Record>⟧.parts };

    fn descriptor() -> (u64, &'static str) {
        (0x32, "amqp:discharge:list")
    }

    #[inline(always)]
    fn read_body<S: Source>(alloc: Global, source: S) -> Result<(Discharge, S::Rest), Fault> {
        let fields = named! { "txn-id", "fail"? };
        read_shaped(alloc, source, ListOf(fields))
    }
}

impl Serialize for Discharge {
    ghost tree = { after_code 0x32 ⟦<DischargeShape as ShapeTree>⟧.tree
        ⟦<Discharge as Record>⟧.parts };

    fn serialize<S: Serializer>(&self, serializer: &mut S) -> Result<S::Ok, S::Error> {
        serializer.serialize_described(
            &0x32u64,
            &ListOf(fields! { "txn-id": &self.txn_id, "fail"?: &self.fail }),
        )
    }
}

impl RoundTripComposite for Discharge {
    fn composite_law() {
        composite_returns::<Discharge, DischargeShape>();
    }
}

impl Discharge {
    /// Returns a value with these fields. The others are `None`.
    pub fn new(txn_id: ByteBuf) -> Discharge
        ensures { ⟦<Discharge as Record>⟧.parts result ≡ txn_id ▸ None ▸ tt }
    {
        Discharge { txn_id, fail: None }
    }
}

type DeclaredShape = ListOf<One<Of<ByteBuf>, ()>>;

impl Record for Declared {
    type Values = <DeclaredShape as Shape>::Value;

    ghost parts = { λ x. x.txn_id ▸ tt };

    fn from_parts(values: <DeclaredShape as Shape>::Value) -> Declared {
        built! { values => Declared { txn_id } }
    }
}

impl Composite for Declared {
    ghost descriptor_code = { 0x33 };

    ghost descriptor_name = { codes "amqp:declared:list" };

    ghost body = { by_parts ⟦<DeclaredShape as Shape>⟧.laws ⟦<Declared as Record>⟧.parts };

    fn descriptor() -> (u64, &'static str) {
        (0x33, "amqp:declared:list")
    }

    #[inline(always)]
    fn read_body<S: Source>(alloc: Global, source: S) -> Result<(Declared, S::Rest), Fault> {
        let fields = named! { "txn-id" };
        read_shaped(alloc, source, ListOf(fields))
    }
}

impl Serialize for Declared {
    ghost tree = { after_code 0x33 ⟦<DeclaredShape as ShapeTree>⟧.tree
        ⟦<Declared as Record>⟧.parts };

    fn serialize<S: Serializer>(&self, serializer: &mut S) -> Result<S::Ok, S::Error> {
        serializer.serialize_described(&0x33u64, &ListOf(fields! { "txn-id": &self.txn_id }))
    }
}

impl RoundTripComposite for Declared {
    fn composite_law() {
        composite_returns::<Declared, DeclaredShape>();
    }
}

impl Declared {
    /// Returns a value with these fields.
    pub fn new(txn_id: ByteBuf) -> Declared
        ensures { ⟦<Declared as Record>⟧.parts result ≡ txn_id ▸ tt }
    {
        Declared { txn_id }
    }
}
