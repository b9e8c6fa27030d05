//! tools/derive wrote this file from sasl_frame.rt: it is not edited by hand.

ghost use Rattle.serde_amqp.specs.Derive.{by_parts, tree_by_parts, first, second, third, fourth};
ghost use Rattle.serde_amqp.specs.Derive.{fifth, rest5};

use super::{
    SaslChallenge, SaslFrame, SaslInit, SaslMechanisms, SaslOutcome, SaslResponse, Unknown,
};
use serde_amqp::derive::{
    Either, Fault, Global, OneOfTypes, PhantomData, Readable, Record, RoundTripReadable, Serialize,
    Serializer, Shape, ShapeTree, Source, parts_return, place, read_shaped,
};

type SaslFrameShape = OneOfTypes<Either<SaslMechanisms, Either<SaslInit, SaslFrameTypes>>>;

type SaslFrameTypes = Either<SaslChallenge, Either<SaslResponse, Either<SaslOutcome, Unknown>>>;

impl Record for SaslFrame {
    ghost use Rattle.amqp_types.specs.declared.sasl_frame.SaslFrame.TheVariants as variant;

    type Values = <SaslFrameShape as Shape>::Value;

    ghost parts = { λ x. elim x as (λ _. _) [
      | variant.SaslMechanisms v ↦ first v
      | variant.SaslInit v ↦ second v
      | variant.SaslChallenge v ↦ third v
      | variant.SaslResponse v ↦ fourth v
      | variant.SaslOutcome v ↦ fifth v
      | variant.Other v ↦ rest5 v
    ] };

    fn from_parts(values: <SaslFrameShape as Shape>::Value) -> SaslFrame {
        match values {
            place!(0, value) => SaslFrame::SaslMechanisms(value),
            place!(1, value) => SaslFrame::SaslInit(value),
            place!(2, value) => SaslFrame::SaslChallenge(value),
            place!(3, value) => SaslFrame::SaslResponse(value),
            place!(4, value) => SaslFrame::SaslOutcome(value),
            place!(rest 5, value) => SaslFrame::Other(value),
        }
    }
}

impl Readable for SaslFrame {
    ghost laws = { by_parts ⟦<SaslFrameShape as Shape>⟧.laws ⟦<SaslFrame as Record>⟧.parts };

    #[inline(always)]
    fn read_value<S: Source>(alloc: Global, source: S) -> Result<(SaslFrame, S::Rest), Fault> {
        read_shaped(alloc, source, OneOfTypes(PhantomData))
    }
}

impl Serialize for SaslFrame {
    ghost tree = { tree_by_parts ⟦<SaslFrameShape as ShapeTree>⟧.tree
        ⟦<SaslFrame as Record>⟧.parts };

    fn serialize<S: Serializer>(&self, serializer: &mut S) -> Result<S::Ok, S::Error> {
        match self {
            SaslFrame::SaslMechanisms(value) => value.serialize(serializer),
            SaslFrame::SaslInit(value) => value.serialize(serializer),
            SaslFrame::SaslChallenge(value) => value.serialize(serializer),
            SaslFrame::SaslResponse(value) => value.serialize(serializer),
            SaslFrame::SaslOutcome(value) => value.serialize(serializer),
            SaslFrame::Other(value) => value.serialize(serializer),
        }
    }
}

impl RoundTripReadable for SaslFrame {
    fn readable_law() {
        parts_return::<SaslFrame, SaslFrameShape>();
    }
}
