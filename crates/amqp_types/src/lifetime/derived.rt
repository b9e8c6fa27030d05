//! tools/derive wrote this file from lifetime.rt: it is not edited by hand.

ghost use Rattle.std.specs.Prelude.{◌≡◌, codes};
ghost use Rattle.serde_amqp.specs.Derive.{◌▸◌, by_parts, tree_by_parts, after_code, first, second};
ghost use Rattle.serde_amqp.specs.Derive.{third, fourth};

use super::{
    DeleteOnClose, DeleteOnNoLinks, DeleteOnNoLinksOrMessages, DeleteOnNoMessages, LifetimePolicy,
};
use serde_amqp::derive::{
    Composite, Either, Fault, Global, ListOf, Never, OneOfTypes, PhantomData, Readable, Record,
    RoundTripComposite, RoundTripReadable, Serialize, SerializeCompounds, Serializer, Shape,
    ShapeTree, Source, built, composite_returns, fields, parts_return, place, read_shaped,
};

type DeleteOnCloseShape = ListOf<()>;

impl Record for DeleteOnClose {
    type Values = <DeleteOnCloseShape as Shape>::Value;

    ghost parts = { λ _. tt };

    fn from_parts(values: <DeleteOnCloseShape as Shape>::Value) -> DeleteOnClose {
        built! { values => DeleteOnClose {} }
    }
}

impl Composite for DeleteOnClose {
    ghost descriptor_code = { 0x2b };

    ghost descriptor_name = { codes "amqp:delete-on-close:list" };

    ghost body = { by_parts ⟦<DeleteOnCloseShape as Shape>⟧.laws
        ⟦<DeleteOnClose as Record>⟧.parts };

    fn descriptor() -> (u64, &'static str) {
        (0x2b, "amqp:delete-on-close:list")
    }

    #[inline(always)]
    fn read_body<S: Source>(alloc: Global, source: S) -> Result<(DeleteOnClose, S::Rest), Fault> {
        read_shaped(alloc, source, ListOf(()))
    }
}

impl Serialize for DeleteOnClose {
    ghost tree = { after_code 0x2b ⟦<DeleteOnCloseShape as ShapeTree>⟧.tree
        ⟦<DeleteOnClose as Record>⟧.parts };

    fn serialize<S: Serializer>(&self, serializer: &mut S) -> Result<S::Ok, S::Error> {
        serializer.serialize_described(&0x2bu64, &ListOf(fields! {}))
    }
}

impl RoundTripComposite for DeleteOnClose {
    fn composite_law() {
        composite_returns::<DeleteOnClose, DeleteOnCloseShape>();
    }
}

type DeleteOnNoLinksShape = ListOf<()>;

impl Record for DeleteOnNoLinks {
    type Values = <DeleteOnNoLinksShape as Shape>::Value;

    ghost parts = { λ _. tt };

    fn from_parts(values: <DeleteOnNoLinksShape as Shape>::Value) -> DeleteOnNoLinks {
        built! { values => DeleteOnNoLinks {} }
    }
}

impl Composite for DeleteOnNoLinks {
    ghost descriptor_code = { 0x2c };

    ghost descriptor_name = { codes "amqp:delete-on-no-links:list" };

    ghost body = { by_parts ⟦<DeleteOnNoLinksShape as Shape>⟧.laws
        ⟦<DeleteOnNoLinks as Record>⟧.parts };

    fn descriptor() -> (u64, &'static str) {
        (0x2c, "amqp:delete-on-no-links:list")
    }

    #[inline(always)]
    fn read_body<S: Source>(alloc: Global, source: S) -> Result<(DeleteOnNoLinks, S::Rest), Fault> {
        read_shaped(alloc, source, ListOf(()))
    }
}

impl Serialize for DeleteOnNoLinks {
    ghost tree = { after_code 0x2c ⟦<DeleteOnNoLinksShape as ShapeTree>⟧.tree
        ⟦<DeleteOnNoLinks as Record>⟧.parts };

    fn serialize<S: Serializer>(&self, serializer: &mut S) -> Result<S::Ok, S::Error> {
        serializer.serialize_described(&0x2cu64, &ListOf(fields! {}))
    }
}

impl RoundTripComposite for DeleteOnNoLinks {
    fn composite_law() {
        composite_returns::<DeleteOnNoLinks, DeleteOnNoLinksShape>();
    }
}

type DeleteOnNoMessagesShape = ListOf<()>;

impl Record for DeleteOnNoMessages {
    type Values = <DeleteOnNoMessagesShape as Shape>::Value;

    ghost parts = { λ _. tt };

    fn from_parts(values: <DeleteOnNoMessagesShape as Shape>::Value) -> DeleteOnNoMessages {
        built! { values => DeleteOnNoMessages {} }
    }
}

impl Composite for DeleteOnNoMessages {
    ghost descriptor_code = { 0x2d };

    ghost descriptor_name = { codes "amqp:delete-on-no-messages:list" };

    ghost body = { by_parts ⟦<DeleteOnNoMessagesShape as Shape>⟧.laws
        ⟦<DeleteOnNoMessages as Record>⟧.parts };

    fn descriptor() -> (u64, &'static str) {
        (0x2d, "amqp:delete-on-no-messages:list")
    }

    #[inline(always)]
    fn read_body<S: Source>(
        alloc: Global,
        source: S,
    ) -> Result<(DeleteOnNoMessages, S::Rest), Fault> {
        read_shaped(alloc, source, ListOf(()))
    }
}

impl Serialize for DeleteOnNoMessages {
    ghost tree = { after_code 0x2d ⟦<DeleteOnNoMessagesShape as ShapeTree>⟧.tree
        ⟦<DeleteOnNoMessages as Record>⟧.parts };

    fn serialize<S: Serializer>(&self, serializer: &mut S) -> Result<S::Ok, S::Error> {
        serializer.serialize_described(&0x2du64, &ListOf(fields! {}))
    }
}

impl RoundTripComposite for DeleteOnNoMessages {
    fn composite_law() {
        composite_returns::<DeleteOnNoMessages, DeleteOnNoMessagesShape>();
    }
}

type DeleteOnNoLinksOrMessagesShape = ListOf<()>;

impl Record for DeleteOnNoLinksOrMessages {
    type Values = <DeleteOnNoLinksOrMessagesShape as Shape>::Value;

    ghost parts = { λ _. tt };

    fn from_parts(
        values: <DeleteOnNoLinksOrMessagesShape as Shape>::Value,
    ) -> DeleteOnNoLinksOrMessages {
        built! { values => DeleteOnNoLinksOrMessages {} }
    }
}

impl Composite for DeleteOnNoLinksOrMessages {
    ghost descriptor_code = { 0x2e };

    ghost descriptor_name = { codes "amqp:delete-on-no-links-or-messages:list" };

    ghost body = { by_parts ⟦<DeleteOnNoLinksOrMessagesShape as Shape>⟧.laws
        ⟦<DeleteOnNoLinksOrMessages as Record>⟧.parts };

    fn descriptor() -> (u64, &'static str) {
        (0x2e, "amqp:delete-on-no-links-or-messages:list")
    }

    #[inline(always)]
    fn read_body<S: Source>(
        alloc: Global,
        source: S,
    ) -> Result<(DeleteOnNoLinksOrMessages, S::Rest), Fault> {
        read_shaped(alloc, source, ListOf(()))
    }
}

impl Serialize for DeleteOnNoLinksOrMessages {
    ghost tree = { after_code 0x2e ⟦<DeleteOnNoLinksOrMessagesShape as ShapeTree>⟧.tree
        ⟦<DeleteOnNoLinksOrMessages as Record>⟧.parts };

    fn serialize<S: Serializer>(&self, serializer: &mut S) -> Result<S::Ok, S::Error> {
        serializer.serialize_described(&0x2eu64, &ListOf(fields! {}))
    }
}

impl RoundTripComposite for DeleteOnNoLinksOrMessages {
    fn composite_law() {
        composite_returns::<DeleteOnNoLinksOrMessages, DeleteOnNoLinksOrMessagesShape>();
    }
}

type LifetimePolicyShape = OneOfTypes<Either<DeleteOnClose, LifetimePolicyTypes>>;

type LifetimePolicyTypes = Either<DeleteOnNoLinks, LifetimePolicyTypes2>;

type LifetimePolicyTypes2 = Either<DeleteOnNoMessages, Either<DeleteOnNoLinksOrMessages, Never>>;

impl Record for LifetimePolicy {
    ghost use Rattle.amqp_types.specs.declared.lifetime.LifetimePolicy.TheVariants as variant;

    type Values = <LifetimePolicyShape as Shape>::Value;

    ghost parts = { λ x. elim x as (λ _. _) [
      | variant.DeleteOnClose v ↦ first v
      | variant.DeleteOnNoLinks v ↦ second v
      | variant.DeleteOnNoMessages v ↦ third v
      | variant.DeleteOnNoLinksOrMessages v ↦ fourth v
    ] };

    fn from_parts(values: <LifetimePolicyShape as Shape>::Value) -> LifetimePolicy {
        match values {
            place!(0, value) => LifetimePolicy::DeleteOnClose(value),
            place!(1, value) => LifetimePolicy::DeleteOnNoLinks(value),
            place!(2, value) => LifetimePolicy::DeleteOnNoMessages(value),
            place!(3, value) => LifetimePolicy::DeleteOnNoLinksOrMessages(value),
            place!(rest 4, never) => match never {},
        }
    }
}

impl Readable for LifetimePolicy {
    ghost laws = { by_parts ⟦<LifetimePolicyShape as Shape>⟧.laws
        ⟦<LifetimePolicy as Record>⟧.parts };

    #[inline(always)]
    fn read_value<S: Source>(alloc: Global, source: S) -> Result<(LifetimePolicy, S::Rest), Fault> {
        read_shaped(alloc, source, OneOfTypes(PhantomData))
    }
}

impl Serialize for LifetimePolicy {
    ghost tree = { tree_by_parts ⟦<LifetimePolicyShape as ShapeTree>⟧.tree
        ⟦<LifetimePolicy as Record>⟧.parts };

    fn serialize<S: Serializer>(&self, serializer: &mut S) -> Result<S::Ok, S::Error> {
        match self {
            LifetimePolicy::DeleteOnClose(value) => value.serialize(serializer),
            LifetimePolicy::DeleteOnNoLinks(value) => value.serialize(serializer),
            LifetimePolicy::DeleteOnNoMessages(value) => value.serialize(serializer),
            LifetimePolicy::DeleteOnNoLinksOrMessages(value) => value.serialize(serializer),
        }
    }
}

impl RoundTripReadable for LifetimePolicy {
    fn readable_law() {
        parts_return::<LifetimePolicy, LifetimePolicyShape>();
    }
}
