//! tools/derive wrote this file from coordinator.rt: it is not edited by hand.

ghost use Rattle.std.specs.Prelude.{◌≡◌, Some, None, List, ℕ, codes};
ghost use Rattle.serde_amqp.specs.Derive.{scalar, symbol, ◌▸◌, by_parts, by_text, tree_by_parts};
ghost use Rattle.serde_amqp.specs.Derive.{after_code, first, second};

use super::{AnyTarget, Coordinator, Multiple, Symbol, Target, TxnCapability};
use serde_amqp::derive::{
    Composite, Either, Fault, Global, ListOf, Name, Never, One, OneOfTypes, PhantomData, Readable,
    Record, RoundTripComposite, RoundTripReadable, Serialize, SerializeCompounds, Serializer,
    Shape, ShapeTree, Source, ValueKind, built, composite_returns, fields, named, parts_return,
    place, read_shaped, read_symbol,
};

type CoordinatorShape = ListOf<One<Option<Multiple<Symbol>>, ()>>;

impl Record for Coordinator {
    type Values = <CoordinatorShape as Shape>::Value;

    ghost parts = { λ x. x.capabilities ▸ tt };

    fn from_parts(values: <CoordinatorShape as Shape>::Value) -> Coordinator {
        built! { values => Coordinator { capabilities } }
    }
}

impl Composite for Coordinator {
    ghost descriptor_code = { 0x30 };

    ghost descriptor_name = { codes "amqp:coordinator:list" };

    ghost body = { by_parts ⟦<CoordinatorShape as Shape>⟧.laws ⟦<Coordinator as Record>⟧.parts };

    fn descriptor() -> (u64, &'static str) {
        (0x30, "amqp:coordinator:list")
    }

    #[inline(always)]
    fn read_body<S: Source>(alloc: Global, source: S) -> Result<(Coordinator, S::Rest), Fault> {
        let fields = named! { "capabilities"? };
        read_shaped(alloc, source, ListOf(fields))
    }
}

impl Serialize for Coordinator {
    ghost tree = { after_code 0x30 ⟦<CoordinatorShape as ShapeTree>⟧.tree
        ⟦<Coordinator as Record>⟧.parts };

    fn serialize<S: Serializer>(&self, serializer: &mut S) -> Result<S::Ok, S::Error> {
        serializer.serialize_described(
            &0x30u64,
            &ListOf(fields! { "capabilities"?: &self.capabilities }),
        )
    }
}

impl RoundTripComposite for Coordinator {
    fn composite_law() {
        composite_returns::<Coordinator, CoordinatorShape>();
    }
}

impl TxnCapability {
    /// Returns the text of the value.
    pub fn as_str(&self) -> &'static str
        ensures { scalar (symbol result.now) ≡ ⟦<TxnCapability as Readable>⟧.laws.image self.now }
    {
        match self {
            TxnCapability::LocalTransactions => "amqp:local-transactions",
            TxnCapability::DistributedTransactions => "amqp:distributed-transactions",
            TxnCapability::PromotableTransactions => "amqp:promotable-transactions",
            TxnCapability::MultiTxnsPerSsn => "amqp:multi-txns-per-ssn",
            TxnCapability::MultiSsnsPerTxn => "amqp:multi-ssns-per-txn",
        }
    }
}

impl Readable for TxnCapability {
    ghost use Rattle.amqp_types.specs.declared.coordinator.TxnCapability.TheVariants as variant;

    ghost laws = { by_text (λ x. elim x as (λ _. List ℕ) [
      | variant.LocalTransactions ↦ codes "amqp:local-transactions"
      | variant.DistributedTransactions ↦ codes "amqp:distributed-transactions"
      | variant.PromotableTransactions ↦ codes "amqp:promotable-transactions"
      | variant.MultiTxnsPerSsn ↦ codes "amqp:multi-txns-per-ssn"
      | variant.MultiSsnsPerTxn ↦ codes "amqp:multi-ssns-per-txn"
    ]) };

    fn read_value<S: Source>(alloc: Global, source: S) -> Result<(TxnCapability, S::Rest), Fault> {
        let (text, rest) = match read_symbol(alloc, source) {
            Ok(read) => read,
            Err(fault) => return Err(fault),
        };
        let text = text.as_inner().as_str();
        if text == "amqp:local-transactions" {
            return Ok((TxnCapability::LocalTransactions, rest));
        }
        if text == "amqp:distributed-transactions" {
            return Ok((TxnCapability::DistributedTransactions, rest));
        }
        if text == "amqp:promotable-transactions" {
            return Ok((TxnCapability::PromotableTransactions, rest));
        }
        if text == "amqp:multi-txns-per-ssn" {
            return Ok((TxnCapability::MultiTxnsPerSsn, rest));
        }
        if text == "amqp:multi-ssns-per-txn" {
            return Ok((TxnCapability::MultiSsnsPerTxn, rest));
        }
        Err(Fault::other(None, ValueKind::Symbol))
    }
}

impl Serialize for TxnCapability {
    ghost tree = { λ x. Some (⟦<TxnCapability as Readable>⟧.laws.image x) };

    fn serialize<S: Serializer>(&self, serializer: &mut S) -> Result<S::Ok, S::Error> {
        Name(self.as_str()).serialize(serializer)
    }
}

impl RoundTripReadable for TxnCapability {
    fn readable_law() {}
}

type AnyTargetShape = OneOfTypes<Either<Target, Either<Coordinator, Never>>>;

impl Record for AnyTarget {
    ghost use Rattle.amqp_types.specs.declared.coordinator.AnyTarget.TheVariants as variant;

    type Values = <AnyTargetShape as Shape>::Value;

    ghost parts = { λ x. elim x as (λ _. _) [
      | variant.Target v ↦ first v
      | variant.Coordinator v ↦ second v
    ] };

    fn from_parts(values: <AnyTargetShape as Shape>::Value) -> AnyTarget {
        match values {
            place!(0, value) => AnyTarget::Target(value),
            place!(1, value) => AnyTarget::Coordinator(value),
            place!(rest 2, never) => match never {},
        }
    }
}

impl Readable for AnyTarget {
    ghost laws = { by_parts ⟦<AnyTargetShape as Shape>⟧.laws ⟦<AnyTarget as Record>⟧.parts };

    #[inline(always)]
    fn read_value<S: Source>(alloc: Global, source: S) -> Result<(AnyTarget, S::Rest), Fault> {
        read_shaped(alloc, source, OneOfTypes(PhantomData))
    }
}

impl Serialize for AnyTarget {
    ghost tree = { tree_by_parts ⟦<AnyTargetShape as ShapeTree>⟧.tree
        ⟦<AnyTarget as Record>⟧.parts };

    fn serialize<S: Serializer>(&self, serializer: &mut S) -> Result<S::Ok, S::Error> {
        match self {
            AnyTarget::Target(value) => value.serialize(serializer),
            AnyTarget::Coordinator(value) => value.serialize(serializer),
        }
    }
}

impl RoundTripReadable for AnyTarget {
    fn readable_law() {
        parts_return::<AnyTarget, AnyTargetShape>();
    }
}
