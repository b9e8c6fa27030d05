//! tools/derive wrote this file from performative.rt: it is not edited by hand.

ghost use Rattle.serde_amqp.specs.Derive.{by_parts, tree_by_parts, first, second, third, fourth};
ghost use Rattle.serde_amqp.specs.Derive.{fifth, sixth, seventh, eighth, ninth, rest9};

use super::{
    Attach, Begin, Close, Detach, Disposition, End, Flow, Open, Performative, Transfer, Unknown,
};
use serde_amqp::derive::{
    Either, Fault, Global, OneOfTypes, PhantomData, Readable, Record, RoundTripReadable, Serialize,
    Serializer, Shape, ShapeTree, Source, parts_return, place, read_shaped,
};

type PerformativeShape = OneOfTypes<Either<Open, Either<Begin, PerformativeTypes>>>;

type PerformativeTypes = Either<Attach, Either<Flow, Either<Transfer, PerformativeTypes2>>>;

type PerformativeTypes2 = Either<Disposition, Either<Detach, Either<End, Either<Close, Unknown>>>>;

impl Record for Performative {
    ghost use Rattle.amqp_types.specs.declared.performative.Performative.TheVariants as variant;

    type Values = <PerformativeShape as Shape>::Value;

    ghost parts = { λ x. elim x as (λ _. _) [
      | variant.Open v ↦ first v
      | variant.Begin v ↦ second v
      | variant.Attach v ↦ third v
      | variant.Flow v ↦ fourth v
      | variant.Transfer v ↦ fifth v
      | variant.Disposition v ↦ sixth v
      | variant.Detach v ↦ seventh v
      | variant.End v ↦ eighth v
      | variant.Close v ↦ ninth v
      | variant.Other v ↦ rest9 v
    ] };

    fn from_parts(values: <PerformativeShape as Shape>::Value) -> Performative {
        match values {
            place!(0, value) => Performative::Open(value),
            place!(1, value) => Performative::Begin(value),
            place!(2, value) => Performative::Attach(value),
            place!(3, value) => Performative::Flow(value),
            place!(4, value) => Performative::Transfer(value),
            place!(5, value) => Performative::Disposition(value),
            place!(6, value) => Performative::Detach(value),
            place!(7, value) => Performative::End(value),
            place!(8, value) => Performative::Close(value),
            place!(rest 9, value) => Performative::Other(value),
        }
    }
}

impl Readable for Performative {
    ghost laws = { by_parts ⟦<PerformativeShape as Shape>⟧.laws ⟦<Performative as Record>⟧.parts };

    #[inline(always)]
    fn read_value<S: Source>(alloc: Global, source: S) -> Result<(Performative, S::Rest), Fault> {
        read_shaped(alloc, source, OneOfTypes(PhantomData))
    }
}

impl Serialize for Performative {
    ghost tree = { tree_by_parts ⟦<PerformativeShape as ShapeTree>⟧.tree
        ⟦<Performative as Record>⟧.parts };

    fn serialize<S: Serializer>(&self, serializer: &mut S) -> Result<S::Ok, S::Error> {
        match self {
            Performative::Open(value) => value.serialize(serializer),
            Performative::Begin(value) => value.serialize(serializer),
            Performative::Attach(value) => value.serialize(serializer),
            Performative::Flow(value) => value.serialize(serializer),
            Performative::Transfer(value) => value.serialize(serializer),
            Performative::Disposition(value) => value.serialize(serializer),
            Performative::Detach(value) => value.serialize(serializer),
            Performative::End(value) => value.serialize(serializer),
            Performative::Close(value) => value.serialize(serializer),
            Performative::Other(value) => value.serialize(serializer),
        }
    }
}

impl RoundTripReadable for Performative {
    fn readable_law() {
        parts_return::<Performative, PerformativeShape>();
    }
}
