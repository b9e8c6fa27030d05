//! tools/derive wrote this file from section.rt: it is not edited by hand.

ghost use Rattle.serde_amqp.specs.Derive.{by_parts, tree_by_parts, first, second, third, fourth};
ghost use Rattle.serde_amqp.specs.Derive.{fifth, sixth, seventh, eighth, ninth, rest9};

use super::{
    AmqpSequence, AmqpValue, ApplicationProperties, Data, DeliveryAnnotations, Footer, Header,
    MessageAnnotations, Properties, Section, Unknown,
};
use serde_amqp::derive::{
    Either, Fault, Global, OneOfTypes, PhantomData, Readable, Record, RoundTripReadable, Serialize,
    Serializer, Shape, ShapeTree, Source, parts_return, place, read_shaped,
};

type SectionShape = OneOfTypes<Either<Header, Either<DeliveryAnnotations, SectionTypes>>>;

type SectionTypes = Either<MessageAnnotations, Either<Properties, SectionTypes2>>;

type SectionTypes2 = Either<ApplicationProperties, Either<Data, SectionTypes3>>;

type SectionTypes3 = Either<AmqpSequence, Either<AmqpValue, Either<Footer, Unknown>>>;

impl Record for Section {
    ghost use Rattle.amqp_messaging.specs.declared.section.Section.TheVariants as variant;

    type Values = <SectionShape as Shape>::Value;

    ghost parts = { λ x. elim x as (λ _. _) [
      | variant.Header v ↦ first v
      | variant.DeliveryAnnotations v ↦ second v
      | variant.MessageAnnotations v ↦ third v
      | variant.Properties v ↦ fourth v
      | variant.ApplicationProperties v ↦ fifth v
      | variant.Data v ↦ sixth v
      | variant.AmqpSequence v ↦ seventh v
      | variant.AmqpValue v ↦ eighth v
      | variant.Footer v ↦ ninth v
      | variant.Other v ↦ rest9 v
    ] };

    fn from_parts(values: <SectionShape as Shape>::Value) -> Section {
        match values {
            place!(0, value) => Section::Header(value),
            place!(1, value) => Section::DeliveryAnnotations(value),
            place!(2, value) => Section::MessageAnnotations(value),
            place!(3, value) => Section::Properties(value),
            place!(4, value) => Section::ApplicationProperties(value),
            place!(5, value) => Section::Data(value),
            place!(6, value) => Section::AmqpSequence(value),
            place!(7, value) => Section::AmqpValue(value),
            place!(8, value) => Section::Footer(value),
            place!(rest 9, value) => Section::Other(value),
        }
    }
}

impl Readable for Section {
    ghost laws = { by_parts ⟦<SectionShape as Shape>⟧.laws ⟦<Section as Record>⟧.parts };

    #[inline(always)]
    fn read_value<S: Source>(alloc: Global, source: S) -> Result<(Section, S::Rest), Fault> {
        read_shaped(alloc, source, OneOfTypes(PhantomData))
    }
}

impl Serialize for Section {
    ghost tree = { tree_by_parts ⟦<SectionShape as ShapeTree>⟧.tree ⟦<Section as Record>⟧.parts };

    fn serialize<S: Serializer>(&self, serializer: &mut S) -> Result<S::Ok, S::Error> {
        match self {
            Section::Header(value) => value.serialize(serializer),
            Section::DeliveryAnnotations(value) => value.serialize(serializer),
            Section::MessageAnnotations(value) => value.serialize(serializer),
            Section::Properties(value) => value.serialize(serializer),
            Section::ApplicationProperties(value) => value.serialize(serializer),
            Section::Data(value) => value.serialize(serializer),
            Section::AmqpSequence(value) => value.serialize(serializer),
            Section::AmqpValue(value) => value.serialize(serializer),
            Section::Footer(value) => value.serialize(serializer),
            Section::Other(value) => value.serialize(serializer),
        }
    }
}

impl RoundTripReadable for Section {
    fn readable_law() {
        parts_return::<Section, SectionShape>();
    }
}
