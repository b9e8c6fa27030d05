//! tools/derive wrote this file from error.rt: it is not edited by hand.

ghost use Rattle.std.specs.Prelude.{◌≡◌, None, codes};
ghost use Rattle.serde_amqp.specs.Derive.{◌▸◌, by_parts, after_code};

use super::{AmqpError, OrderedMap, Symbol, Value};
use serde_amqp::derive::{
    Composite, Fault, Global, ListOf, Of, One, Record, RoundTripComposite, Serialize,
    SerializeCompounds, Serializer, Shape, ShapeTree, Source, built, composite_returns, fields,
    named, read_shaped,
};

type AmqpErrorShape = ListOf<One<Of<Symbol>, One<Option<String>, Row>>>;

type Row = One<Option<OrderedMap<Symbol, Value>>, ()>;

impl Record for AmqpError {
    type Values = <AmqpErrorShape as Shape>::Value;

    ghost parts = { λ x. x.condition ▸ x.description ▸ x.info ▸ tt };

    fn from_parts(values: <AmqpErrorShape as Shape>::Value) -> AmqpError {
        built! { values => AmqpError { condition, description, info } }
    }
}

impl Composite for AmqpError {
    ghost descriptor_code = { 0x1d };

    ghost descriptor_name = { codes "amqp:error:list" };

    ghost body = { by_parts ⟦<AmqpErrorShape as Shape>⟧.laws ⟦<AmqpError as Record>⟧.parts };

    fn descriptor() -> (u64, &'static str) {
        (0x1d, "amqp:error:list")
    }

    #[inline(always)]
    fn read_body<S: Source>(alloc: Global, source: S) -> Result<(AmqpError, S::Rest), Fault> {
        let fields = named! { "condition", "description"?, "info"? };
        read_shaped(alloc, source, ListOf(fields))
    }
}

impl Serialize for AmqpError {
    ghost tree = { after_code 0x1d ⟦<AmqpErrorShape as ShapeTree>⟧.tree
        ⟦<AmqpError as Record>⟧.parts };

    fn serialize<S: Serializer>(&self, serializer: &mut S) -> Result<S::Ok, S::Error> {
        serializer.serialize_described(
            &0x1du64,
            &ListOf(fields! {
                "condition": &self.condition, "description"?: &self.description,
                "info"?: &self.info
            }),
        )
    }
}

impl RoundTripComposite for AmqpError {
    fn composite_law() {
        composite_returns::<AmqpError, AmqpErrorShape>();
    }
}

impl AmqpError {
    /// Returns a value with these fields. The others are `None`.
    pub fn new(condition: Symbol) -> AmqpError
        ensures { ⟦<AmqpError as Record>⟧.parts result ≡ condition ▸ None ▸ None ▸ tt }
    {
        AmqpError {
            condition,
            description: None,
            info: None,
        }
    }
}
