//! tools/derive wrote this file from endpoint_conditions.rt: it is not edited by hand.

ghost use Rattle.std.specs.Prelude.{◌≡◌, Some, List, ℕ, codes};
ghost use Rattle.serde_amqp.specs.Derive.{scalar, symbol, by_text};

use super::{LinkCondition, SessionCondition, TransactionCondition};
use serde_amqp::derive::{
    Fault, Global, Name, Readable, RoundTripReadable, Serialize, Serializer, Source, ValueKind,
    read_symbol,
};

impl SessionCondition {
    /// Returns the text of the value.
    pub fn as_str(&self) -> &'static str
        ensures { scalar (symbol result.now) ≡ ⟦<SessionCondition as Readable>⟧.laws.image self.now }
    {
        match self {
            SessionCondition::WindowViolation => "amqp:session:window-violation",
            SessionCondition::ErrantLink => "amqp:session:errant-link",
            SessionCondition::HandleInUse => "amqp:session:handle-in-use",
            SessionCondition::UnattachedHandle => "amqp:session:unattached-handle",
        }
    }
}

impl Readable for SessionCondition {
    ghost use Rattle.amqp_types.specs.declared.endpoint_conditions.SessionCondition.TheVariants as variant;

    ghost laws = { by_text (λ x. elim x as (λ _. List ℕ) [
      | variant.WindowViolation ↦ codes "amqp:session:window-violation"
      | variant.ErrantLink ↦ codes "amqp:session:errant-link"
      | variant.HandleInUse ↦ codes "amqp:session:handle-in-use"
      | variant.UnattachedHandle ↦ codes "amqp:session:unattached-handle"
    ]) };

    fn read_value<S: Source>(
        alloc: Global,
        source: S,
    ) -> Result<(SessionCondition, S::Rest), Fault> {
        let (text, rest) = match read_symbol(alloc, source) {
            Ok(read) => read,
            Err(fault) => return Err(fault),
        };
        let text = text.as_inner().as_str();
        if text == "amqp:session:window-violation" {
            return Ok((SessionCondition::WindowViolation, rest));
        }
        if text == "amqp:session:errant-link" {
            return Ok((SessionCondition::ErrantLink, rest));
        }
        if text == "amqp:session:handle-in-use" {
            return Ok((SessionCondition::HandleInUse, rest));
        }
        if text == "amqp:session:unattached-handle" {
            return Ok((SessionCondition::UnattachedHandle, rest));
        }
        Err(Fault::other(None, ValueKind::Symbol))
    }
}

impl Serialize for SessionCondition {
    ghost tree = { λ x. Some (⟦<SessionCondition as Readable>⟧.laws.image x) };

    fn serialize<S: Serializer>(&self, serializer: &mut S) -> Result<S::Ok, S::Error> {
        Name(self.as_str()).serialize(serializer)
    }
}

impl RoundTripReadable for SessionCondition {
    fn readable_law() {}
}

impl LinkCondition {
    /// Returns the text of the value.
    pub fn as_str(&self) -> &'static str
        ensures { scalar (symbol result.now) ≡ ⟦<LinkCondition as Readable>⟧.laws.image self.now }
    {
        match self {
            LinkCondition::DetachForced => "amqp:link:detach-forced",
            LinkCondition::TransferLimitExceeded => "amqp:link:transfer-limit-exceeded",
            LinkCondition::MessageSizeExceeded => "amqp:link:message-size-exceeded",
            LinkCondition::Redirect => "amqp:link:redirect",
            LinkCondition::Stolen => "amqp:link:stolen",
        }
    }
}

impl Readable for LinkCondition {
    ghost use Rattle.amqp_types.specs.declared.endpoint_conditions.LinkCondition.TheVariants as variant;

    ghost laws = { by_text (λ x. elim x as (λ _. List ℕ) [
      | variant.DetachForced ↦ codes "amqp:link:detach-forced"
      | variant.TransferLimitExceeded ↦ codes "amqp:link:transfer-limit-exceeded"
      | variant.MessageSizeExceeded ↦ codes "amqp:link:message-size-exceeded"
      | variant.Redirect ↦ codes "amqp:link:redirect"
      | variant.Stolen ↦ codes "amqp:link:stolen"
    ]) };

    fn read_value<S: Source>(alloc: Global, source: S) -> Result<(LinkCondition, S::Rest), Fault> {
        let (text, rest) = match read_symbol(alloc, source) {
            Ok(read) => read,
            Err(fault) => return Err(fault),
        };
        let text = text.as_inner().as_str();
        if text == "amqp:link:detach-forced" {
            return Ok((LinkCondition::DetachForced, rest));
        }
        if text == "amqp:link:transfer-limit-exceeded" {
            return Ok((LinkCondition::TransferLimitExceeded, rest));
        }
        if text == "amqp:link:message-size-exceeded" {
            return Ok((LinkCondition::MessageSizeExceeded, rest));
        }
        if text == "amqp:link:redirect" {
            return Ok((LinkCondition::Redirect, rest));
        }
        if text == "amqp:link:stolen" {
            return Ok((LinkCondition::Stolen, rest));
        }
        Err(Fault::other(None, ValueKind::Symbol))
    }
}

impl Serialize for LinkCondition {
    ghost tree = { λ x. Some (⟦<LinkCondition as Readable>⟧.laws.image x) };

    fn serialize<S: Serializer>(&self, serializer: &mut S) -> Result<S::Ok, S::Error> {
        Name(self.as_str()).serialize(serializer)
    }
}

impl RoundTripReadable for LinkCondition {
    fn readable_law() {}
}

impl TransactionCondition {
    /// Returns the text of the value.
    pub fn as_str(&self) -> &'static str
        ensures { scalar (symbol result.now) ≡ ⟦<TransactionCondition as Readable>⟧.laws.image
            self.now }
    {
        match self {
            TransactionCondition::UnknownId => "amqp:transaction:unknown-id",
            TransactionCondition::TransactionRollback => "amqp:transaction:rollback",
            TransactionCondition::TransactionTimeout => "amqp:transaction:timeout",
        }
    }
}

impl Readable for TransactionCondition {
    ghost use Rattle.amqp_types.specs.declared.endpoint_conditions.TransactionCondition.TheVariants as variant;

    ghost laws = { by_text (λ x. elim x as (λ _. List ℕ) [
      | variant.UnknownId ↦ codes "amqp:transaction:unknown-id"
      | variant.TransactionRollback ↦ codes "amqp:transaction:rollback"
      | variant.TransactionTimeout ↦ codes "amqp:transaction:timeout"
    ]) };

    fn read_value<S: Source>(
        alloc: Global,
        source: S,
    ) -> Result<(TransactionCondition, S::Rest), Fault> {
        let (text, rest) = match read_symbol(alloc, source) {
            Ok(read) => read,
            Err(fault) => return Err(fault),
        };
        let text = text.as_inner().as_str();
        if text == "amqp:transaction:unknown-id" {
            return Ok((TransactionCondition::UnknownId, rest));
        }
        if text == "amqp:transaction:rollback" {
            return Ok((TransactionCondition::TransactionRollback, rest));
        }
        if text == "amqp:transaction:timeout" {
            return Ok((TransactionCondition::TransactionTimeout, rest));
        }
        Err(Fault::other(None, ValueKind::Symbol))
    }
}

impl Serialize for TransactionCondition {
    ghost tree = { λ x. Some (⟦<TransactionCondition as Readable>⟧.laws.image x) };

    fn serialize<S: Serializer>(&self, serializer: &mut S) -> Result<S::Ok, S::Error> {
        Name(self.as_str()).serialize(serializer)
    }
}

impl RoundTripReadable for TransactionCondition {
    fn readable_law() {}
}
