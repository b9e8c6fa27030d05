//! Reads the parts of a message.

ghost use Rattle.std.specs.Prelude.{IfOk, IfErr};
ghost use Rattle.amqp_data.specs.Items.{transparent_items};
ghost use Rattle.amqp_messaging.specs.Messages.{IsUnread, ReadsAll, ReadsBody, ReadsPart};

use crate::bodies::{AmqpSequence, AmqpValue, Data};
use crate::message::content::Body;
use crate::message::error::MessageError;
use crate::message::kind::SectionKind;
use crate::message::parts::take_part;
use serde_amqp::derive::{Deserialize, Fault};
use serde_amqp::extensions::TransparentVec;
use serde_amqp::{Limits, SliceError, from_slice_limited_located};
use std::alloc::Global;

/// Reads a part, if there is one.
pub(crate) fn read_part<T: Deserialize>(
    alloc: Global,
    part: &[u8],
    limits: Option<Limits>,
) -> Result<Option<T>, MessageError>
    ensures ok { IfOk result (ReadsPart limits T.reads part.now) }
    ensures refused { IfErr result IsUnread }
{
    if part.is_empty() {
        return Ok(None);
    }
    match from_slice_limited_located::<T>(alloc, part, limits) {
        Ok(read) => Ok(Some(read)),
        Err(error) => Err(MessageError::Section(error)),
    }
}

/// Reads a body of this kind.
pub(crate) fn read_body(
    alloc: Global,
    kind: SectionKind,
    bytes: &[u8],
    limits: Option<Limits>,
) -> Result<Body, MessageError>
    ensures ok { IfOk result (ReadsBody limits ⟦<Data as Deserialize>⟧.reads
        ⟦<AmqpSequence as Deserialize>⟧.reads ⟦<AmqpValue as Deserialize>⟧.reads bytes.now) }
    ensures refused { IfErr result IsUnread }
{
    match kind {
        SectionKind::AmqpValue => {
            match from_slice_limited_located::<AmqpValue>(alloc, bytes, limits) {
                Ok(read) => Ok(Body::Value(read)),
                Err(error) => Err(MessageError::Section(error)),
            }
        }
        SectionKind::AmqpSequence => match read_all::<AmqpSequence>(alloc, kind, bytes, limits) {
            Ok(read) => Ok(Body::Sequence(read)),
            Err(error) => Err(MessageError::Section(error)),
        },
        _ => match read_all::<Data>(alloc, kind, bytes, limits) {
            Ok(read) => Ok(Body::Data(read)),
            Err(error) => Err(MessageError::Section(error)),
        },
    }
}

// Reads the sections of this kind, which are all of the bytes.
#[tactic(auto, using(crate::proofs::MessageLemmas::all_read))]
fn read_all<T: Deserialize>(
    alloc: Global,
    kind: SectionKind,
    bytes: &[u8],
    limits: Option<Limits>,
) -> Result<TransparentVec<T>, SliceError>
    ensures { IfOk result (λ v. ReadsAll limits T.reads bytes.now (transparent_items v)) }
{
    let mut sections = Vec::new(alloc);
    let mut rest = bytes;
    while !rest.is_empty() {
        let (section, after) = take_part(kind, rest);
        if section.is_empty() {
            return Err(SliceError::Value(Fault::invalid()));
        }
        let read = from_slice_limited_located::<T>(alloc, section, limits)?;
        if sections.push(read).is_err() {
            return Err(SliceError::Value(Fault::memory()));
        }
        rest = after;
    }
    Ok(TransparentVec::new(sections))
}
