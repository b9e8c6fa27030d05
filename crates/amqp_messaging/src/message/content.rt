//! The body of a message.

ghost use Rattle.std.specs.Prelude.{Option};
ghost use Rattle.amqp_ser.specs.Tree.{Tree};
ghost use Rattle.amqp_messaging.specs.declared.message.content.Body.TheVariants as body;

use crate::bodies::{AmqpSequence, AmqpValue, Data};
use serde_amqp::derive::{Serialize, Serializer};
use serde_amqp::extensions::TransparentVec;

/// The body of a message, one of three kinds (AMQP 1.0 part 3, section 3.2).
///
/// # Encoding
/// That of each section, one after another. A body without sections has no bytes, and is no body of
/// the standard.
#[derive(Debug, Clone, PartialEq, Drop)]
pub enum Body {
    /// One or more sections of bytes.
    Data(TransparentVec<Data>),
    /// One or more sections of lists.
    Sequence(TransparentVec<AmqpSequence>),
    /// One value.
    Value(AmqpValue),
}

impl Serialize for Body {
    ghost tree = { λ x. elim x as (λ _. Option Tree) [
      | body.Data v ↦ ⟦<TransparentVec<Data> as Serialize>⟧.tree v
      | body.Sequence v ↦ ⟦<TransparentVec<AmqpSequence> as Serialize>⟧.tree v
      | body.Value v ↦ ⟦<AmqpValue as Serialize>⟧.tree v
    ] };

    fn serialize<S: Serializer>(&self, serializer: &mut S) -> Result<S::Ok, S::Error> {
        match self {
            Body::Data(sections) => sections.serialize(serializer),
            Body::Sequence(sections) => sections.serialize(serializer),
            Body::Value(section) => section.serialize(serializer),
        }
    }
}
