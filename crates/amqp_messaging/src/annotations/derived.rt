//! tools/derive wrote this file from annotations.rt: it is not edited by hand.

ghost use Rattle.std.specs.Prelude.{◌≡◌, codes};
ghost use Rattle.serde_amqp.specs.Derive.{◌▸◌, by_parts, after_code};

use super::{
    AnnotationKey, ApplicationProperties, DeliveryAnnotations, Footer, MessageAnnotations,
    OrderedMap, Value,
};
use serde_amqp::derive::{
    Composite, Fault, Global, Of, PhantomData, Record, RoundTripComposite, Serialize,
    SerializeCompounds, Serializer, Shape, ShapeTree, Source, composite_returns, read_shaped,
};

type DeliveryAnnotationsShape = Of<OrderedMap<AnnotationKey, Value>>;

impl Record for DeliveryAnnotations {
    type Values = OrderedMap<AnnotationKey, Value>;

    ghost parts = { λ x. x.0 };

    fn from_parts(values: OrderedMap<AnnotationKey, Value>) -> DeliveryAnnotations {
        DeliveryAnnotations(values)
    }
}

impl Composite for DeliveryAnnotations {
    ghost descriptor_code = { 0x71 };

    ghost descriptor_name = { codes "amqp:delivery-annotations:map" };

    ghost body = { by_parts ⟦<DeliveryAnnotationsShape as Shape>⟧.laws
        ⟦<DeliveryAnnotations as Record>⟧.parts };

    fn descriptor() -> (u64, &'static str) {
        (0x71, "amqp:delivery-annotations:map")
    }

    #[inline(always)]
    fn read_body<S: Source>(
        alloc: Global,
        source: S,
    ) -> Result<(DeliveryAnnotations, S::Rest), Fault> {
        read_shaped(alloc, source, Of(PhantomData))
    }
}

impl Serialize for DeliveryAnnotations {
    ghost tree = { after_code 0x71 ⟦<DeliveryAnnotationsShape as ShapeTree>⟧.tree
        ⟦<DeliveryAnnotations as Record>⟧.parts };

    fn serialize<S: Serializer>(&self, serializer: &mut S) -> Result<S::Ok, S::Error> {
        serializer.serialize_described(&0x71u64, &self.0)
    }
}

impl RoundTripComposite for DeliveryAnnotations {
    fn composite_law() {
        composite_returns::<DeliveryAnnotations, DeliveryAnnotationsShape>();
    }
}

type MessageAnnotationsShape = Of<OrderedMap<AnnotationKey, Value>>;

impl Record for MessageAnnotations {
    type Values = OrderedMap<AnnotationKey, Value>;

    ghost parts = { λ x. x.0 };

    fn from_parts(values: OrderedMap<AnnotationKey, Value>) -> MessageAnnotations {
        MessageAnnotations(values)
    }
}

impl Composite for MessageAnnotations {
    ghost descriptor_code = { 0x72 };

    ghost descriptor_name = { codes "amqp:message-annotations:map" };

    ghost body = { by_parts ⟦<MessageAnnotationsShape as Shape>⟧.laws
        ⟦<MessageAnnotations as Record>⟧.parts };

    fn descriptor() -> (u64, &'static str) {
        (0x72, "amqp:message-annotations:map")
    }

    #[inline(always)]
    fn read_body<S: Source>(
        alloc: Global,
        source: S,
    ) -> Result<(MessageAnnotations, S::Rest), Fault> {
        read_shaped(alloc, source, Of(PhantomData))
    }
}

impl Serialize for MessageAnnotations {
    ghost tree = { after_code 0x72 ⟦<MessageAnnotationsShape as ShapeTree>⟧.tree
        ⟦<MessageAnnotations as Record>⟧.parts };

    fn serialize<S: Serializer>(&self, serializer: &mut S) -> Result<S::Ok, S::Error> {
        serializer.serialize_described(&0x72u64, &self.0)
    }
}

impl RoundTripComposite for MessageAnnotations {
    fn composite_law() {
        composite_returns::<MessageAnnotations, MessageAnnotationsShape>();
    }
}

type ApplicationPropertiesShape = Of<OrderedMap<String, Value>>;

impl Record for ApplicationProperties {
    type Values = OrderedMap<String, Value>;

    ghost parts = { λ x. x.0 };

    fn from_parts(values: OrderedMap<String, Value>) -> ApplicationProperties {
        ApplicationProperties(values)
    }
}

impl Composite for ApplicationProperties {
    ghost descriptor_code = { 0x74 };

    ghost descriptor_name = { codes "amqp:application-properties:map" };

    ghost body = { by_parts ⟦<ApplicationPropertiesShape as Shape>⟧.laws
        ⟦<ApplicationProperties as Record>⟧.parts };

    fn descriptor() -> (u64, &'static str) {
        (0x74, "amqp:application-properties:map")
    }

    #[inline(always)]
    fn read_body<S: Source>(
        alloc: Global,
        source: S,
    ) -> Result<(ApplicationProperties, S::Rest), Fault> {
        read_shaped(alloc, source, Of(PhantomData))
    }
}

impl Serialize for ApplicationProperties {
    ghost tree = { after_code 0x74 ⟦<ApplicationPropertiesShape as ShapeTree>⟧.tree
        ⟦<ApplicationProperties as Record>⟧.parts };

    fn serialize<S: Serializer>(&self, serializer: &mut S) -> Result<S::Ok, S::Error> {
        serializer.serialize_described(&0x74u64, &self.0)
    }
}

impl RoundTripComposite for ApplicationProperties {
    fn composite_law() {
        composite_returns::<ApplicationProperties, ApplicationPropertiesShape>();
    }
}

type FooterShape = Of<OrderedMap<AnnotationKey, Value>>;

impl Record for Footer {
    type Values = OrderedMap<AnnotationKey, Value>;

    ghost parts = { λ x. x.0 };

    fn from_parts(values: OrderedMap<AnnotationKey, Value>) -> Footer {
        Footer(values)
    }
}

impl Composite for Footer {
    ghost descriptor_code = { 0x78 };

    ghost descriptor_name = { codes "amqp:footer:map" };

    ghost body = { by_parts ⟦<FooterShape as Shape>⟧.laws ⟦<Footer as Record>⟧.parts };

    fn descriptor() -> (u64, &'static str) {
        (0x78, "amqp:footer:map")
    }

    #[inline(always)]
    fn read_body<S: Source>(alloc: Global, source: S) -> Result<(Footer, S::Rest), Fault> {
        read_shaped(alloc, source, Of(PhantomData))
    }
}

impl Serialize for Footer {
    ghost tree = { after_code 0x78 ⟦<FooterShape as ShapeTree>⟧.tree ⟦<Footer as Record>⟧.parts };

    fn serialize<S: Serializer>(&self, serializer: &mut S) -> Result<S::Ok, S::Error> {
        serializer.serialize_described(&0x78u64, &self.0)
    }
}

impl RoundTripComposite for Footer {
    fn composite_law() {
        composite_returns::<Footer, FooterShape>();
    }
}
