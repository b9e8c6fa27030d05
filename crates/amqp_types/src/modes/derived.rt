//! tools/derive wrote this file from modes.rt: it is not edited by hand.

ghost use Rattle.std.specs.Prelude.{Some, Bool, ℕ, true, false};
ghost use Rattle.serde_amqp.specs.Derive.{scalar, bool, ubyte, by_image};

use super::{ReceiverSettleMode, Role, SenderSettleMode};
use serde_amqp::derive::{
    Fault, Global, Readable, RoundTripReadable, Serialize, Serializer, Source, ValueKind,
};

impl Readable for Role {
    ghost use Rattle.amqp_types.specs.declared.modes.Role.TheVariants as variant;

    ghost laws = { by_image (λ x. scalar (bool (elim x as (λ _. Bool) [
      | variant.Sender ↦ false
      | variant.Receiver ↦ true
    ]))) };

    fn read_value<S: Source>(alloc: Global, source: S) -> Result<(Role, S::Rest), Fault> {
        match source.scalar::<bool>(alloc) {
            Ok((false, rest)) => Ok((Role::Sender, rest)),
            Ok((true, rest)) => Ok((Role::Receiver, rest)),
            Err(fault) => Err(fault),
        }
    }
}

impl Serialize for Role {
    ghost tree = { λ x. Some (⟦<Role as Readable>⟧.laws.image x) };

    fn serialize<S: Serializer>(&self, serializer: &mut S) -> Result<S::Ok, S::Error> {
        match self {
            Role::Sender => false.serialize(serializer),
            Role::Receiver => true.serialize(serializer),
        }
    }
}

impl RoundTripReadable for Role {
    fn readable_law() {}
}

impl Readable for SenderSettleMode {
    ghost use Rattle.amqp_types.specs.declared.modes.SenderSettleMode.TheVariants as variant;

    ghost laws = { by_image (λ x. scalar (ubyte (elim x as (λ _. ℕ) [
      | variant.Unsettled ↦ 0
      | variant.Settled ↦ 1
      | variant.Mixed ↦ 2
    ]))) };

    fn read_value<S: Source>(
        alloc: Global,
        source: S,
    ) -> Result<(SenderSettleMode, S::Rest), Fault> {
        match source.scalar::<u8>(alloc) {
            Ok((0, rest)) => Ok((SenderSettleMode::Unsettled, rest)),
            Ok((1, rest)) => Ok((SenderSettleMode::Settled, rest)),
            Ok((2, rest)) => Ok((SenderSettleMode::Mixed, rest)),
            Ok(_) => Err(Fault::other(None, ValueKind::Ubyte)),
            Err(fault) => Err(fault),
        }
    }
}

impl Serialize for SenderSettleMode {
    ghost tree = { λ x. Some (⟦<SenderSettleMode as Readable>⟧.laws.image x) };

    fn serialize<S: Serializer>(&self, serializer: &mut S) -> Result<S::Ok, S::Error> {
        match self {
            SenderSettleMode::Unsettled => 0u8.serialize(serializer),
            SenderSettleMode::Settled => 1u8.serialize(serializer),
            SenderSettleMode::Mixed => 2u8.serialize(serializer),
        }
    }
}

impl RoundTripReadable for SenderSettleMode {
    fn readable_law() {}
}

impl Readable for ReceiverSettleMode {
    ghost use Rattle.amqp_types.specs.declared.modes.ReceiverSettleMode.TheVariants as variant;

    ghost laws = { by_image (λ x. scalar (ubyte (elim x as (λ _. ℕ) [
      | variant.First ↦ 0
      | variant.Second ↦ 1
    ]))) };

    fn read_value<S: Source>(
        alloc: Global,
        source: S,
    ) -> Result<(ReceiverSettleMode, S::Rest), Fault> {
        match source.scalar::<u8>(alloc) {
            Ok((0, rest)) => Ok((ReceiverSettleMode::First, rest)),
            Ok((1, rest)) => Ok((ReceiverSettleMode::Second, rest)),
            Ok(_) => Err(Fault::other(None, ValueKind::Ubyte)),
            Err(fault) => Err(fault),
        }
    }
}

impl Serialize for ReceiverSettleMode {
    ghost tree = { λ x. Some (⟦<ReceiverSettleMode as Readable>⟧.laws.image x) };

    fn serialize<S: Serializer>(&self, serializer: &mut S) -> Result<S::Ok, S::Error> {
        match self {
            ReceiverSettleMode::First => 0u8.serialize(serializer),
            ReceiverSettleMode::Second => 1u8.serialize(serializer),
        }
    }
}

impl RoundTripReadable for ReceiverSettleMode {
    fn readable_law() {}
}
