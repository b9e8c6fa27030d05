//! tools/derive wrote this file from bodies.rt: it is not edited by hand.

ghost use Rattle.std.specs.Prelude.{◌≡◌, codes};
ghost use Rattle.serde_amqp.specs.Derive.{◌▸◌, by_parts, after_code};

use super::{AmqpSequence, AmqpValue, ByteBuf, Data, Value};
use serde_amqp::derive::{
    Composite, Fault, Global, Of, PhantomData, Record, RoundTripComposite, Serialize,
    SerializeCompounds, Serializer, Shape, ShapeTree, Source, composite_returns, read_shaped,
};

type DataShape = Of<ByteBuf>;

impl Record for Data {
    type Values = ByteBuf;

    ghost parts = { λ x. x.0 };

    fn from_parts(values: ByteBuf) -> Data {
        Data(values)
    }
}

impl Composite for Data {
    ghost descriptor_code = { 0x75 };

    ghost descriptor_name = { codes "amqp:data:binary" };

    ghost body = { by_parts ⟦<DataShape as Shape>⟧.laws ⟦<Data as Record>⟧.parts };

    fn descriptor() -> (u64, &'static str) {
        (0x75, "amqp:data:binary")
    }

    #[inline(always)]
    fn read_body<S: Source>(alloc: Global, source: S) -> Result<(Data, S::Rest), Fault> {
        read_shaped(alloc, source, Of(PhantomData))
    }
}

impl Serialize for Data {
    ghost tree = { after_code 0x75 ⟦<DataShape as ShapeTree>⟧.tree ⟦<Data as Record>⟧.parts };

    fn serialize<S: Serializer>(&self, serializer: &mut S) -> Result<S::Ok, S::Error> {
        serializer.serialize_described(&0x75u64, &self.0)
    }
}

impl RoundTripComposite for Data {
    fn composite_law() {
        composite_returns::<Data, DataShape>();
    }
}

type AmqpSequenceShape = Of<Vec<Value>>;

impl Record for AmqpSequence {
    type Values = Vec<Value>;

    ghost parts = { λ x. x.0 };

    fn from_parts(values: Vec<Value>) -> AmqpSequence {
        AmqpSequence(values)
    }
}

impl Composite for AmqpSequence {
    ghost descriptor_code = { 0x76 };

    ghost descriptor_name = { codes "amqp:amqp-sequence:list" };

    ghost body = { by_parts ⟦<AmqpSequenceShape as Shape>⟧.laws ⟦<AmqpSequence as Record>⟧.parts };

    fn descriptor() -> (u64, &'static str) {
        (0x76, "amqp:amqp-sequence:list")
    }

    #[inline(always)]
    fn read_body<S: Source>(alloc: Global, source: S) -> Result<(AmqpSequence, S::Rest), Fault> {
        read_shaped(alloc, source, Of(PhantomData))
    }
}

impl Serialize for AmqpSequence {
    ghost tree = { after_code 0x76 ⟦<AmqpSequenceShape as ShapeTree>⟧.tree
        ⟦<AmqpSequence as Record>⟧.parts };

    fn serialize<S: Serializer>(&self, serializer: &mut S) -> Result<S::Ok, S::Error> {
        serializer.serialize_described(&0x76u64, &self.0)
    }
}

impl RoundTripComposite for AmqpSequence {
    fn composite_law() {
        composite_returns::<AmqpSequence, AmqpSequenceShape>();
    }
}

type AmqpValueShape = Of<Value>;

impl Record for AmqpValue {
    type Values = Value;

    ghost parts = { λ x. x.0 };

    fn from_parts(values: Value) -> AmqpValue {
        AmqpValue(values)
    }
}

impl Composite for AmqpValue {
    ghost descriptor_code = { 0x77 };

    ghost descriptor_name = { codes "amqp:amqp-value:*" };

    ghost body = { by_parts ⟦<AmqpValueShape as Shape>⟧.laws ⟦<AmqpValue as Record>⟧.parts };

    fn descriptor() -> (u64, &'static str) {
        (0x77, "amqp:amqp-value:*")
    }

    #[inline(always)]
    fn read_body<S: Source>(alloc: Global, source: S) -> Result<(AmqpValue, S::Rest), Fault> {
        read_shaped(alloc, source, Of(PhantomData))
    }
}

impl Serialize for AmqpValue {
    ghost tree = { after_code 0x77 ⟦<AmqpValueShape as ShapeTree>⟧.tree
        ⟦<AmqpValue as Record>⟧.parts };

    fn serialize<S: Serializer>(&self, serializer: &mut S) -> Result<S::Ok, S::Error> {
        serializer.serialize_described(&0x77u64, &self.0)
    }
}

impl RoundTripComposite for AmqpValue {
    fn composite_law() {
        composite_returns::<AmqpValue, AmqpValueShape>();
    }
}
