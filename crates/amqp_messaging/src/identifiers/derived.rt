//! tools/derive wrote this file from identifiers.rt: it is not edited by hand.

ghost use Rattle.std.specs.Prelude.{Some, string_bytes};
ghost use Rattle.serde_amqp.specs.Derive.{symbol_text, byte_buf_bytes, uuid_bytes, Scalar, scalar};
ghost use Rattle.serde_amqp.specs.Derive.{ulong, uuid, binary, string, symbol, by_scalar};

use super::{Address, AnnotationKey, MessageId};
use serde_amqp::derive::{
    Fault, Global, MapKey, Readable, RoundTripReadable, Serialize, Serializer, Source, Value,
};

impl Readable for MessageId {
    ghost use Rattle.amqp_messaging.specs.declared.identifiers.MessageId.TheVariants as variant;

    ghost laws = { by_scalar (λ x. elim x as (λ _. Scalar) [
      | variant.Ulong v ↦ ulong v
      | variant.Uuid v ↦ uuid (uuid_bytes v)
      | variant.Binary v ↦ binary (byte_buf_bytes v)
      | variant.String v ↦ string (string_bytes v)
    ]) };

    fn read_value<S: Source>(alloc: Global, source: S) -> Result<(MessageId, S::Rest), Fault> {
        let (value, rest) = match source.untyped(alloc) {
            Ok(read) => read,
            Err(fault) => return Err(fault),
        };
        match value {
            Value::Ulong(value) => Ok((MessageId::Ulong(value), rest)),
            Value::Uuid(value) => Ok((MessageId::Uuid(value), rest)),
            Value::Binary(value) => Ok((MessageId::Binary(value), rest)),
            Value::String(value) => Ok((MessageId::String(value), rest)),
            other => Err(Fault::unexpected(other)),
        }
    }
}

impl Serialize for MessageId {
    ghost tree = { λ x. Some (⟦<MessageId as Readable>⟧.laws.image x) };

    fn serialize<S: Serializer>(&self, serializer: &mut S) -> Result<S::Ok, S::Error> {
        match self {
            MessageId::Ulong(value) => value.serialize(serializer),
            MessageId::Uuid(value) => value.serialize(serializer),
            MessageId::Binary(value) => value.serialize(serializer),
            MessageId::String(value) => value.serialize(serializer),
        }
    }
}

impl RoundTripReadable for MessageId {
    fn readable_law() {}
}

impl Readable for Address {
    ghost use Rattle.amqp_messaging.specs.declared.identifiers.Address.TheVariants as variant;

    ghost laws = { by_scalar (λ x. elim x as (λ _. Scalar) [
      | variant.String v ↦ string (string_bytes v)
    ]) };

    fn read_value<S: Source>(alloc: Global, source: S) -> Result<(Address, S::Rest), Fault> {
        let (value, rest) = match source.untyped(alloc) {
            Ok(read) => read,
            Err(fault) => return Err(fault),
        };
        match value {
            Value::String(value) => Ok((Address::String(value), rest)),
            other => Err(Fault::unexpected(other)),
        }
    }
}

impl Serialize for Address {
    ghost tree = { λ x. Some (⟦<Address as Readable>⟧.laws.image x) };

    fn serialize<S: Serializer>(&self, serializer: &mut S) -> Result<S::Ok, S::Error> {
        match self {
            Address::String(value) => value.serialize(serializer),
        }
    }
}

impl RoundTripReadable for Address {
    fn readable_law() {}
}

impl Serialize for AnnotationKey {
    ghost use Rattle.amqp_messaging.specs.declared.identifiers.AnnotationKey.TheVariants as variant;

    ghost tree = { λ x. Some (scalar (elim x as (λ _. Scalar) [
      | variant.Symbol v ↦ symbol (symbol_text v)
      | variant.Ulong v ↦ ulong v
    ])) };

    fn serialize<S: Serializer>(&self, serializer: &mut S) -> Result<S::Ok, S::Error> {
        match self {
            AnnotationKey::Symbol(value) => value.serialize(serializer),
            AnnotationKey::Ulong(value) => value.serialize(serializer),
        }
    }
}

impl MapKey for AnnotationKey {
    fn image_is_injective() {}
}
