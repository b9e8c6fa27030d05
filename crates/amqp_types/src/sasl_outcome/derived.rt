//! tools/derive wrote this file from sasl_outcome.rt: it is not edited by hand.

ghost use Rattle.std.specs.Prelude.{◌≡◌, Some, None, ℕ, codes};
ghost use Rattle.serde_amqp.specs.Derive.{scalar, ubyte, ◌▸◌, by_parts, by_image, after_code};

use super::{ByteBuf, SaslCode, SaslOutcome};
use serde_amqp::derive::{
    Composite, Fault, Global, ListOf, Of, One, Readable, Record, RoundTripComposite,
    RoundTripReadable, Serialize, SerializeCompounds, Serializer, Shape, ShapeTree, Source,
    ValueKind, built, composite_returns, fields, named, read_shaped,
};

type SaslOutcomeShape = ListOf<One<Of<SaslCode>, One<Option<ByteBuf>, ()>>>;

impl Record for SaslOutcome {
    type Values = <SaslOutcomeShape as Shape>::Value;

    ghost parts = { λ x. x.code ▸ x.additional_data ▸ tt };

    fn from_parts(values: <SaslOutcomeShape as Shape>::Value) -> SaslOutcome {
        built! { values => SaslOutcome { code, additional_data } }
    }
}

impl Composite for SaslOutcome {
    ghost descriptor_code = { 0x44 };

    ghost descriptor_name = { codes "amqp:sasl-outcome:list" };

    ghost body = { by_parts ⟦<SaslOutcomeShape as Shape>⟧.laws ⟦<SaslOutcome as Record>⟧.parts };

    fn descriptor() -> (u64, &'static str) {
        (0x44, "amqp:sasl-outcome:list")
    }

    #[inline(always)]
    fn read_body<S: Source>(alloc: Global, source: S) -> Result<(SaslOutcome, S::Rest), Fault> {
        let fields = named! { "code", "additional-data"? };
        read_shaped(alloc, source, ListOf(fields))
    }
}

impl Serialize for SaslOutcome {
    ghost tree = { after_code 0x44 ⟦<SaslOutcomeShape as ShapeTree>⟧.tree
        ⟦<SaslOutcome as Record>⟧.parts };

    fn serialize<S: Serializer>(&self, serializer: &mut S) -> Result<S::Ok, S::Error> {
        serializer.serialize_described(
            &0x44u64,
            &ListOf(fields! { "code": &self.code, "additional-data"?: &self.additional_data }),
        )
    }
}

impl RoundTripComposite for SaslOutcome {
    fn composite_law() {
        composite_returns::<SaslOutcome, SaslOutcomeShape>();
    }
}

impl SaslOutcome {
    /// Returns a value with these fields. The others are `None`.
    pub fn new(code: SaslCode) -> SaslOutcome
        ensures { ⟦<SaslOutcome as Record>⟧.parts result ≡ code ▸ None ▸ tt }
    {
        SaslOutcome {
            code,
            additional_data: None,
        }
    }
}

impl Readable for SaslCode {
    ghost use Rattle.amqp_types.specs.declared.sasl_outcome.SaslCode.TheVariants as variant;

    ghost laws = { by_image (λ x. scalar (ubyte (elim x as (λ _. ℕ) [
      | variant.Ok ↦ 0
      | variant.Auth ↦ 1
      | variant.Sys ↦ 2
      | variant.SysPerm ↦ 3
      | variant.SysTemp ↦ 4
    ]))) };

    fn read_value<S: Source>(alloc: Global, source: S) -> Result<(SaslCode, S::Rest), Fault> {
        match source.scalar::<u8>(alloc) {
            Ok((0, rest)) => Ok((SaslCode::Ok, rest)),
            Ok((1, rest)) => Ok((SaslCode::Auth, rest)),
            Ok((2, rest)) => Ok((SaslCode::Sys, rest)),
            Ok((3, rest)) => Ok((SaslCode::SysPerm, rest)),
            Ok((4, rest)) => Ok((SaslCode::SysTemp, rest)),
            Ok(_) => Err(Fault::other(None, ValueKind::Ubyte)),
            Err(fault) => Err(fault),
        }
    }
}

impl Serialize for SaslCode {
    ghost tree = { λ x. Some (⟦<SaslCode as Readable>⟧.laws.image x) };

    fn serialize<S: Serializer>(&self, serializer: &mut S) -> Result<S::Ok, S::Error> {
        match self {
            SaslCode::Ok => 0u8.serialize(serializer),
            SaslCode::Auth => 1u8.serialize(serializer),
            SaslCode::Sys => 2u8.serialize(serializer),
            SaslCode::SysPerm => 3u8.serialize(serializer),
            SaslCode::SysTemp => 4u8.serialize(serializer),
        }
    }
}

impl RoundTripReadable for SaslCode {
    fn readable_law() {}
}
