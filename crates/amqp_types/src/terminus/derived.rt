//! tools/derive wrote this file from terminus.rt: it is not edited by hand.

ghost use Rattle.std.specs.Prelude.{◌≡◌, Some, List, ℕ, codes};
ghost use Rattle.serde_amqp.specs.Derive.{scalar, uint, symbol, by_image, by_text};

use super::{DistributionMode, TerminusDurability, TerminusExpiryPolicy};
use serde_amqp::derive::{
    Fault, Global, Name, Readable, RoundTripReadable, Serialize, Serializer, Source, ValueKind,
    read_symbol,
};

impl Readable for TerminusDurability {
    ghost use Rattle.amqp_types.specs.declared.terminus.TerminusDurability.TheVariants as variant;

    ghost laws = { by_image (λ x. scalar (uint (elim x as (λ _. ℕ) [
      | variant.None ↦ 0
      | variant.Configuration ↦ 1
      | variant.UnsettledState ↦ 2
    ]))) };

    fn read_value<S: Source>(
        alloc: Global,
        source: S,
    ) -> Result<(TerminusDurability, S::Rest), Fault> {
        match source.scalar::<u32>(alloc) {
            Ok((0, rest)) => Ok((TerminusDurability::None, rest)),
            Ok((1, rest)) => Ok((TerminusDurability::Configuration, rest)),
            Ok((2, rest)) => Ok((TerminusDurability::UnsettledState, rest)),
            Ok(_) => Err(Fault::other(None, ValueKind::Uint)),
            Err(fault) => Err(fault),
        }
    }
}

impl Serialize for TerminusDurability {
    ghost tree = { λ x. Some (⟦<TerminusDurability as Readable>⟧.laws.image x) };

    fn serialize<S: Serializer>(&self, serializer: &mut S) -> Result<S::Ok, S::Error> {
        match self {
            TerminusDurability::None => 0u32.serialize(serializer),
            TerminusDurability::Configuration => 1u32.serialize(serializer),
            TerminusDurability::UnsettledState => 2u32.serialize(serializer),
        }
    }
}

impl RoundTripReadable for TerminusDurability {
    fn readable_law() {}
}

impl TerminusExpiryPolicy {
    /// Returns the text of the value.
    pub fn as_str(&self) -> &'static str
        ensures { scalar (symbol result.now) ≡ ⟦<TerminusExpiryPolicy as Readable>⟧.laws.image
            self.now }
    {
        match self {
            TerminusExpiryPolicy::LinkDetach => "link-detach",
            TerminusExpiryPolicy::SessionEnd => "session-end",
            TerminusExpiryPolicy::ConnectionClose => "connection-close",
            TerminusExpiryPolicy::Never => "never",
        }
    }
}

impl Readable for TerminusExpiryPolicy {
    ghost use Rattle.amqp_types.specs.declared.terminus.TerminusExpiryPolicy.TheVariants as variant;

    ghost laws = { by_text (λ x. elim x as (λ _. List ℕ) [
      | variant.LinkDetach ↦ codes "link-detach"
      | variant.SessionEnd ↦ codes "session-end"
      | variant.ConnectionClose ↦ codes "connection-close"
      | variant.Never ↦ codes "never"
    ]) };

    fn read_value<S: Source>(
        alloc: Global,
        source: S,
    ) -> Result<(TerminusExpiryPolicy, S::Rest), Fault> {
        let (text, rest) = match read_symbol(alloc, source) {
            Ok(read) => read,
            Err(fault) => return Err(fault),
        };
        let text = text.as_inner().as_str();
        if text == "link-detach" {
            return Ok((TerminusExpiryPolicy::LinkDetach, rest));
        }
        if text == "session-end" {
            return Ok((TerminusExpiryPolicy::SessionEnd, rest));
        }
        if text == "connection-close" {
            return Ok((TerminusExpiryPolicy::ConnectionClose, rest));
        }
        if text == "never" {
            return Ok((TerminusExpiryPolicy::Never, rest));
        }
        Err(Fault::other(None, ValueKind::Symbol))
    }
}

impl Serialize for TerminusExpiryPolicy {
    ghost tree = { λ x. Some (⟦<TerminusExpiryPolicy as Readable>⟧.laws.image x) };

    fn serialize<S: Serializer>(&self, serializer: &mut S) -> Result<S::Ok, S::Error> {
        Name(self.as_str()).serialize(serializer)
    }
}

impl RoundTripReadable for TerminusExpiryPolicy {
    fn readable_law() {}
}

impl DistributionMode {
    /// Returns the text of the value.
    pub fn as_str(&self) -> &'static str
        ensures { scalar (symbol result.now) ≡ ⟦<DistributionMode as Readable>⟧.laws.image self.now }
    {
        match self {
            DistributionMode::Move => "move",
            DistributionMode::Copy => "copy",
        }
    }
}

impl Readable for DistributionMode {
    ghost use Rattle.amqp_types.specs.declared.terminus.DistributionMode.TheVariants as variant;

    ghost laws = { by_text (λ x. elim x as (λ _. List ℕ) [
      | variant.Move ↦ codes "move"
      | variant.Copy ↦ codes "copy"
    ]) };

    fn read_value<S: Source>(
        alloc: Global,
        source: S,
    ) -> Result<(DistributionMode, S::Rest), Fault> {
        let (text, rest) = match read_symbol(alloc, source) {
            Ok(read) => read,
            Err(fault) => return Err(fault),
        };
        let text = text.as_inner().as_str();
        if text == "move" {
            return Ok((DistributionMode::Move, rest));
        }
        if text == "copy" {
            return Ok((DistributionMode::Copy, rest));
        }
        Err(Fault::other(None, ValueKind::Symbol))
    }
}

impl Serialize for DistributionMode {
    ghost tree = { λ x. Some (⟦<DistributionMode as Readable>⟧.laws.image x) };

    fn serialize<S: Serializer>(&self, serializer: &mut S) -> Result<S::Ok, S::Error> {
        Name(self.as_str()).serialize(serializer)
    }
}

impl RoundTripReadable for DistributionMode {
    fn readable_law() {}
}
