//! tools/derive wrote this file from states.rt: it is not edited by hand.

ghost use Rattle.std.specs.Prelude.{◌≡◌, None, codes};
ghost use Rattle.serde_amqp.specs.Derive.{◌▸◌, by_parts, tree_by_parts, after_code, first, second};
ghost use Rattle.serde_amqp.specs.Derive.{third, fourth, fifth, sixth, seventh, rest5, rest7};

use super::{
    Accepted, ByteBuf, Declared, DeliveryState, Modified, Outcome, Received, Rejected, Released,
    TransactionalState, Unknown,
};
use serde_amqp::derive::{
    Composite, Either, Fault, Global, ListOf, Of, One, OneOfTypes, PhantomData, Readable, Record,
    RoundTripComposite, RoundTripReadable, Serialize, SerializeCompounds, Serializer, Shape,
    ShapeTree, Source, built, composite_returns, fields, named, parts_return, place, read_shaped,
};

type OutcomeShape = OneOfTypes<Either<Accepted, Either<Rejected, OutcomeTypes>>>;

type OutcomeTypes = Either<Released, Either<Modified, Either<Declared, Unknown>>>;

impl Record for Outcome {
    ghost use Rattle.amqp_messaging.specs.declared.states.Outcome.TheVariants as variant;

    type Values = <OutcomeShape as Shape>::Value;

    ghost parts = { λ x. elim x as (λ _. _) [
      | variant.Accepted v ↦ first v
      | variant.Rejected v ↦ second v
      | variant.Released v ↦ third v
      | variant.Modified v ↦ fourth v
      | variant.Declared v ↦ fifth v
      | variant.Other v ↦ rest5 v
    ] };

    fn from_parts(values: <OutcomeShape as Shape>::Value) -> Outcome {
        match values {
            place!(0, value) => Outcome::Accepted(value),
            place!(1, value) => Outcome::Rejected(value),
            place!(2, value) => Outcome::Released(value),
            place!(3, value) => Outcome::Modified(value),
            place!(4, value) => Outcome::Declared(value),
            place!(rest 5, value) => Outcome::Other(value),
        }
    }
}

impl Readable for Outcome {
    ghost laws = { by_parts ⟦<OutcomeShape as Shape>⟧.laws ⟦<Outcome as Record>⟧.parts };

    #[inline(always)]
    fn read_value<S: Source>(alloc: Global, source: S) -> Result<(Outcome, S::Rest), Fault> {
        read_shaped(alloc, source, OneOfTypes(PhantomData))
    }
}

impl Serialize for Outcome {
    ghost tree = { tree_by_parts ⟦<OutcomeShape as ShapeTree>⟧.tree ⟦<Outcome as Record>⟧.parts };

    fn serialize<S: Serializer>(&self, serializer: &mut S) -> Result<S::Ok, S::Error> {
        match self {
            Outcome::Accepted(value) => value.serialize(serializer),
            Outcome::Rejected(value) => value.serialize(serializer),
            Outcome::Released(value) => value.serialize(serializer),
            Outcome::Modified(value) => value.serialize(serializer),
            Outcome::Declared(value) => value.serialize(serializer),
            Outcome::Other(value) => value.serialize(serializer),
        }
    }
}

impl RoundTripReadable for Outcome {
    fn readable_law() {
        parts_return::<Outcome, OutcomeShape>();
    }
}

type TransactionalStateShape = ListOf<One<Of<ByteBuf>, One<Option<Outcome>, ()>>>;

impl Record for TransactionalState {
    type Values = <TransactionalStateShape as Shape>::Value;

    ghost parts = { λ x. x.txn_id ▸ x.outcome ▸ tt };

    fn from_parts(values: <TransactionalStateShape as Shape>::Value) -> TransactionalState {
        built! { values => TransactionalState { txn_id, outcome } }
    }
}

impl Composite for TransactionalState {
    ghost descriptor_code = { 0x34 };

    ghost descriptor_name = { codes "amqp:transactional-state:list" };

    ghost body = { by_parts ⟦<TransactionalStateShape as Shape>⟧.laws
        ⟦<TransactionalState as Record>⟧.parts };

    fn descriptor() -> (u64, &'static str) {
        (0x34, "amqp:transactional-state:list")
    }

    #[inline(always)]
    fn read_body<S: Source>(
        alloc: Global,
        source: S,
    ) -> Result<(TransactionalState, S::Rest), Fault> {
        let fields = named! { "txn-id", "outcome"? };
        read_shaped(alloc, source, ListOf(fields))
    }
}

impl Serialize for TransactionalState {
    ghost tree = { after_code 0x34 ⟦<TransactionalStateShape as ShapeTree>⟧.tree
        ⟦<TransactionalState as Record>⟧.parts };

    fn serialize<S: Serializer>(&self, serializer: &mut S) -> Result<S::Ok, S::Error> {
        serializer.serialize_described(
            &0x34u64,
            &ListOf(fields! { "txn-id": &self.txn_id, "outcome"?: &self.outcome }),
        )
    }
}

impl RoundTripComposite for TransactionalState {
    fn composite_law() {
        composite_returns::<TransactionalState, TransactionalStateShape>();
    }
}

impl TransactionalState {
    /// Returns a value with these fields. The others are `None`.
    pub fn new(txn_id: ByteBuf) -> TransactionalState
        ensures { ⟦<TransactionalState as Record>⟧.parts result ≡ txn_id ▸ None ▸ tt }
    {
        TransactionalState {
            txn_id,
            outcome: None,
        }
    }
}

type DeliveryStateShape = OneOfTypes<Either<Received, Either<Accepted, DeliveryStateTypes>>>;

type DeliveryStateTypes = Either<Rejected, Either<Released, DeliveryStateTypes2>>;

type DeliveryStateTypes2 = Either<Modified, Either<Declared, Either<TransactionalState, Unknown>>>;

impl Record for DeliveryState {
    ghost use Rattle.amqp_messaging.specs.declared.states.DeliveryState.TheVariants as variant;

    type Values = <DeliveryStateShape as Shape>::Value;

    ghost parts = { λ x. elim x as (λ _. _) [
      | variant.Received v ↦ first v
      | variant.Accepted v ↦ second v
      | variant.Rejected v ↦ third v
      | variant.Released v ↦ fourth v
      | variant.Modified v ↦ fifth v
      | variant.Declared v ↦ sixth v
      | variant.TransactionalState v ↦ seventh v
      | variant.Other v ↦ rest7 v
    ] };

    fn from_parts(values: <DeliveryStateShape as Shape>::Value) -> DeliveryState {
        match values {
            place!(0, value) => DeliveryState::Received(value),
            place!(1, value) => DeliveryState::Accepted(value),
            place!(2, value) => DeliveryState::Rejected(value),
            place!(3, value) => DeliveryState::Released(value),
            place!(4, value) => DeliveryState::Modified(value),
            place!(5, value) => DeliveryState::Declared(value),
            place!(6, value) => DeliveryState::TransactionalState(value),
            place!(rest 7, value) => DeliveryState::Other(value),
        }
    }
}

impl Readable for DeliveryState {
    ghost laws = { by_parts ⟦<DeliveryStateShape as Shape>⟧.laws
        ⟦<DeliveryState as Record>⟧.parts };

    #[inline(always)]
    fn read_value<S: Source>(alloc: Global, source: S) -> Result<(DeliveryState, S::Rest), Fault> {
        read_shaped(alloc, source, OneOfTypes(PhantomData))
    }
}

impl Serialize for DeliveryState {
    ghost tree = { tree_by_parts ⟦<DeliveryStateShape as ShapeTree>⟧.tree
        ⟦<DeliveryState as Record>⟧.parts };

    fn serialize<S: Serializer>(&self, serializer: &mut S) -> Result<S::Ok, S::Error> {
        match self {
            DeliveryState::Received(value) => value.serialize(serializer),
            DeliveryState::Accepted(value) => value.serialize(serializer),
            DeliveryState::Rejected(value) => value.serialize(serializer),
            DeliveryState::Released(value) => value.serialize(serializer),
            DeliveryState::Modified(value) => value.serialize(serializer),
            DeliveryState::Declared(value) => value.serialize(serializer),
            DeliveryState::TransactionalState(value) => value.serialize(serializer),
            DeliveryState::Other(value) => value.serialize(serializer),
        }
    }
}

impl RoundTripReadable for DeliveryState {
    fn readable_law() {
        parts_return::<DeliveryState, DeliveryStateShape>();
    }
}
