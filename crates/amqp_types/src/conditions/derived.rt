//! tools/derive wrote this file from conditions.rt: it is not edited by hand.

ghost use Rattle.std.specs.Prelude.{◌≡◌, Some, List, ℕ, codes, IfSome, IfNone};
ghost use Rattle.serde_amqp.specs.Derive.{scalar, symbol, by_text};

use super::{AmqpCondition, ConnectionCondition};
use serde_amqp::derive::{
    Fault, Global, Name, Readable, RoundTripReadable, Serialize, Serializer, Source, ValueKind,
    read_symbol,
};

impl AmqpCondition {
    ghost use Rattle.amqp_types.specs.declared.conditions.AmqpCondition.{AmqpCondition};

    /// Returns the text of the value.
    pub fn as_str(&self) -> &'static str
        ensures { scalar (symbol result.now) ≡ ⟦<AmqpCondition as Readable>⟧.laws.image self.now }
    {
        match self {
            AmqpCondition::InternalError => "amqp:internal-error",
            AmqpCondition::NotFound => "amqp:not-found",
            AmqpCondition::UnauthorizedAccess => "amqp:unauthorized-access",
            AmqpCondition::DecodeError => "amqp:decode-error",
            AmqpCondition::ResourceLimitExceeded => "amqp:resource-limit-exceeded",
            AmqpCondition::NotAllowed => "amqp:not-allowed",
            AmqpCondition::InvalidField => "amqp:invalid-field",
            AmqpCondition::NotImplemented => "amqp:not-implemented",
            AmqpCondition::ResourceLocked => "amqp:resource-locked",
            AmqpCondition::PreconditionFailed => "amqp:precondition-failed",
            AmqpCondition::ResourceDeleted => "amqp:resource-deleted",
            AmqpCondition::IllegalState => "amqp:illegal-state",
            AmqpCondition::FrameSizeTooSmall => "amqp:frame-size-too-small",
        }
    }

    /// Returns the value with this text, if there is one.
    pub fn from_text(text: &str) -> Option<AmqpCondition>
        ensures some { IfSome result (λ x. scalar (symbol text.now) ≡
            ⟦<AmqpCondition as Readable>⟧.laws.image x) }
        ensures none { IfNone result ((x : AmqpCondition) → scalar (symbol text.now) ≡
            ⟦<AmqpCondition as Readable>⟧.laws.image x → ⊥) }
    {
        if text == "amqp:internal-error" {
            return Some(AmqpCondition::InternalError);
        }
        if text == "amqp:not-found" {
            return Some(AmqpCondition::NotFound);
        }
        if text == "amqp:unauthorized-access" {
            return Some(AmqpCondition::UnauthorizedAccess);
        }
        if text == "amqp:decode-error" {
            return Some(AmqpCondition::DecodeError);
        }
        if text == "amqp:resource-limit-exceeded" {
            return Some(AmqpCondition::ResourceLimitExceeded);
        }
        if text == "amqp:not-allowed" {
            return Some(AmqpCondition::NotAllowed);
        }
        if text == "amqp:invalid-field" {
            return Some(AmqpCondition::InvalidField);
        }
        if text == "amqp:not-implemented" {
            return Some(AmqpCondition::NotImplemented);
        }
        if text == "amqp:resource-locked" {
            return Some(AmqpCondition::ResourceLocked);
        }
        if text == "amqp:precondition-failed" {
            return Some(AmqpCondition::PreconditionFailed);
        }
        if text == "amqp:resource-deleted" {
            return Some(AmqpCondition::ResourceDeleted);
        }
        if text == "amqp:illegal-state" {
            return Some(AmqpCondition::IllegalState);
        }
        if text == "amqp:frame-size-too-small" {
            return Some(AmqpCondition::FrameSizeTooSmall);
        }
        None
    }
}

impl Readable for AmqpCondition {
    ghost use Rattle.amqp_types.specs.declared.conditions.AmqpCondition.TheVariants as variant;

    ghost laws = { by_text (λ x. elim x as (λ _. List ℕ) [
      | variant.InternalError ↦ codes "amqp:internal-error"
      | variant.NotFound ↦ codes "amqp:not-found"
      | variant.UnauthorizedAccess ↦ codes "amqp:unauthorized-access"
      | variant.DecodeError ↦ codes "amqp:decode-error"
      | variant.ResourceLimitExceeded ↦ codes "amqp:resource-limit-exceeded"
      | variant.NotAllowed ↦ codes "amqp:not-allowed"
      | variant.InvalidField ↦ codes "amqp:invalid-field"
      | variant.NotImplemented ↦ codes "amqp:not-implemented"
      | variant.ResourceLocked ↦ codes "amqp:resource-locked"
      | variant.PreconditionFailed ↦ codes "amqp:precondition-failed"
      | variant.ResourceDeleted ↦ codes "amqp:resource-deleted"
      | variant.IllegalState ↦ codes "amqp:illegal-state"
      | variant.FrameSizeTooSmall ↦ codes "amqp:frame-size-too-small"
    ]) };

    fn read_value<S: Source>(alloc: Global, source: S) -> Result<(AmqpCondition, S::Rest), Fault> {
        let (text, rest) = match read_symbol(alloc, source) {
            Ok(read) => read,
            Err(fault) => return Err(fault),
        };
        let text = text.as_inner().as_str();
        match AmqpCondition::from_text(text) {
            Some(value) => Ok((value, rest)),
            None => Err(Fault::other(None, ValueKind::Symbol)),
        }
    }
}

impl Serialize for AmqpCondition {
    ghost tree = { λ x. Some (⟦<AmqpCondition as Readable>⟧.laws.image x) };

    fn serialize<S: Serializer>(&self, serializer: &mut S) -> Result<S::Ok, S::Error> {
        Name(self.as_str()).serialize(serializer)
    }
}

impl RoundTripReadable for AmqpCondition {
    fn readable_law() {}
}

impl ConnectionCondition {
    /// Returns the text of the value.
    pub fn as_str(&self) -> &'static str
        ensures { scalar (symbol result.now) ≡ ⟦<ConnectionCondition as Readable>⟧.laws.image
            self.now }
    {
        match self {
            ConnectionCondition::ConnectionForced => "amqp:connection:forced",
            ConnectionCondition::FramingError => "amqp:connection:framing-error",
            ConnectionCondition::Redirect => "amqp:connection:redirect",
        }
    }
}

impl Readable for ConnectionCondition {
    ghost use Rattle.amqp_types.specs.declared.conditions.ConnectionCondition.TheVariants as variant;

    ghost laws = { by_text (λ x. elim x as (λ _. List ℕ) [
      | variant.ConnectionForced ↦ codes "amqp:connection:forced"
      | variant.FramingError ↦ codes "amqp:connection:framing-error"
      | variant.Redirect ↦ codes "amqp:connection:redirect"
    ]) };

    fn read_value<S: Source>(
        alloc: Global,
        source: S,
    ) -> Result<(ConnectionCondition, S::Rest), Fault> {
        let (text, rest) = match read_symbol(alloc, source) {
            Ok(read) => read,
            Err(fault) => return Err(fault),
        };
        let text = text.as_inner().as_str();
        if text == "amqp:connection:forced" {
            return Ok((ConnectionCondition::ConnectionForced, rest));
        }
        if text == "amqp:connection:framing-error" {
            return Ok((ConnectionCondition::FramingError, rest));
        }
        if text == "amqp:connection:redirect" {
            return Ok((ConnectionCondition::Redirect, rest));
        }
        Err(Fault::other(None, ValueKind::Symbol))
    }
}

impl Serialize for ConnectionCondition {
    ghost tree = { λ x. Some (⟦<ConnectionCondition as Readable>⟧.laws.image x) };

    fn serialize<S: Serializer>(&self, serializer: &mut S) -> Result<S::Ok, S::Error> {
        Name(self.as_str()).serialize(serializer)
    }
}

impl RoundTripReadable for ConnectionCondition {
    fn readable_law() {}
}
