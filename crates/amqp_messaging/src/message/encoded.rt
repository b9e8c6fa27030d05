//! The encoded sections of a message.

ghost use Rattle.std.specs.Prelude.{◌≡◌, ◌++◌, [], None, Some, IfOk, IfErr, IfSome, IfNone};
ghost use Rattle.amqp_messaging.specs.Sections.{place, may_repeat, AreSections, Follows, IsSection};
ghost use Rattle.amqp_messaging.specs.Sections.{Misplaced, RefusesFirst, RefusesSection};
ghost use Rattle.amqp_messaging.specs.Sections.{RefusesSections};

use crate::message::error::MessageError;
use crate::message::kind::{SectionKind, kind_of};
use serde_amqp::lazy::frame_len;

impl SectionKind {
    // Returns the place of the kind in a message. The three kinds of a body have one.
    fn place(self) -> u8
        ensures { result ≡ place self }
    {
        match self {
            SectionKind::Header => 0,
            SectionKind::DeliveryAnnotations => 1,
            SectionKind::MessageAnnotations => 2,
            SectionKind::Properties => 3,
            SectionKind::ApplicationProperties => 4,
            SectionKind::Data | SectionKind::AmqpSequence | SectionKind::AmqpValue => 5,
            SectionKind::Footer => 6,
        }
    }

    // Returns whether a body can have several sections of this kind.
    fn may_repeat(self) -> bool
        ensures { result ≡ may_repeat self }
    {
        matches!(self, SectionKind::Data | SectionKind::AmqpSequence)
    }

    // Returns an error if a section of this kind cannot follow one of the last kind.
    fn follows(self, last: SectionKind) -> Result<(), MessageError>
        ensures ok { IfOk result (λ _. Follows (Some last) self) }
        ensures refused { IfErr result (λ e. Misplaced e last self) }
    {
        if self == last {
            if self.may_repeat() {
                return Ok(());
            }
            return Err(MessageError::Repeated);
        }
        let (place, other) = (self.place(), last.place());
        if place > other {
            Ok(())
        } else if place < other {
            Err(MessageError::OutOfOrder)
        } else {
            Err(MessageError::MixedBody)
        }
    }
}

/// An encoded section.
#[derive(Debug, Clone, Copy, PartialEq, Eq)]
pub struct EncodedSection<'a> {
    /// Its kind.
    pub kind: SectionKind,
    /// Its bytes, with the descriptor.
    pub bytes: &'a [u8],
}

/// The encoded sections of a message, one after another.
#[derive(Debug, Drop)]
pub struct EncodedSections<'a> {
    rest: &'a [u8],
    last: Option<SectionKind>,
}

/// Returns the encoded sections of a message, whose contents are not examined.
///
/// # Memory
/// Allocates nothing.
///
/// # Example
/// `005370450053774000` gives the header `00537045`, the value `00537740`, and `Malformed`.
pub fn sections(bytes: &[u8]) -> EncodedSections<'_>
    ensures { (result.rest.now ≡ bytes.now) × (result.last ≡ None) }
{
    EncodedSections {
        rest: bytes,
        last: None,
    }
}

impl<'a> EncodedSections<'a> {
    /// Returns the next section, or `None` at the end of the bytes.
    ///
    /// # Errors
    /// Returns `Malformed` if the bytes do not begin with an encoded value, `UnknownSection` if it
    /// is no section, and `OutOfOrder`, `Repeated` or `MixedBody` if it cannot follow the section
    /// before it. The section then remains.
    ///
    /// # Memory
    /// Allocates nothing.
    pub fn next_section(&mut self) -> Result<Option<EncodedSection<'a>>, MessageError>
        ensures some { IfOk result (λ found. IfSome found (λ section.
            IsSection section.kind section.bytes.now × Follows self.old.last section.kind
            × (self.old.rest.now ≡ section.bytes.now ++ self.new.rest.now)
            × (self.new.last ≡ Some section.kind))) }
        ensures none { IfOk result (λ found. IfNone found (self.old.rest.now ≡ [])) }
        ensures refused { IfErr result (RefusesSection self.old.last self.old.rest.now) }
        ensures kept { IfErr result (λ _. (self.new.rest.now ≡ self.old.rest.now)
            × (self.new.last ≡ self.old.last)) }
    {
        if self.rest.is_empty() {
            return Ok(None);
        }
        let (section, rest) = split_next(self.last, self.rest)?;
        self.last = Some(section.kind);
        self.rest = rest;
        Ok(Some(section))
    }
}

// Splits off the section at the start of the bytes, which follows one of the last kind.
fn split_next(
    last: Option<SectionKind>,
    bytes: &[u8],
) -> Result<(EncodedSection<'_>, &[u8]), MessageError>
    ensures ok { IfOk result (λ r. IsSection r.0.kind r.0.bytes.now × Follows last r.0.kind
        × (bytes.now ≡ r.0.bytes.now ++ r.1.now)) }
    ensures refused { IfErr result (RefusesSection last bytes.now) }
{
    let (section, rest) = split_section(bytes)?;
    if let Some(last) = last {
        section.kind.follows(last)?;
    }
    Ok((section, rest))
}

/// Returns an error if a section is malformed, unknown, or cannot follow the one before it.
#[tactic(auto, using(crate::proofs::SectionLemmas::add_section, crate::proofs::SectionLemmas::add_refused, crate::proofs::SectionLemmas::rest_is_shorter))]
pub(crate) fn check_order(bytes: &[u8]) -> Result<(), MessageError>
    ensures ok { IfOk result (λ _. AreSections None bytes.now) }
    ensures refused { IfErr result (RefusesSections None bytes.now) }
{
    let mut rest = bytes;
    let mut last = None;
    while !rest.is_empty() {
        match split_next(last, rest) {
            Ok((section, after)) => {
                last = Some(section.kind);
                rest = after;
            }
            Err(error) => return Err(error),
        }
    }
    Ok(())
}

/// Splits off the section at the start of the bytes.
pub(crate) fn split_section(bytes: &[u8]) -> Result<(EncodedSection<'_>, &[u8]), MessageError>
    ensures ok { IfOk result (λ r.
        IsSection r.0.kind r.0.bytes.now × (bytes.now ≡ r.0.bytes.now ++ r.1.now)) }
    ensures refused { IfErr result (RefusesFirst bytes.now) }
{
    let Some(len) = frame_len(bytes) else {
        return Err(MessageError::Malformed);
    };
    let (section, rest) = bytes.split_at(len);
    let Some(kind) = kind_of(section) else {
        return Err(MessageError::UnknownSection);
    };
    let section = EncodedSection {
        kind,
        bytes: section,
    };
    Ok((section, rest))
}
