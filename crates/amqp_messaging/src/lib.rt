//! Messages of AMQP 1.0: the sections and the types of their fields (part 3, section 3.2), and
//! [`Unknown`], a described value of another type; the states and outcomes of deliveries (section
//! 3.4), the errors in them (part 2, section 2.8.14), and transactions (part 4).
//!
//! `tools/types` writes the types from a table that lists them as the standard does, and
//! `tools/derive` their impls; [`message`] and how [`AnnotationKey`] is read are written by hand.
//! [amqp_types](../../amqp_types/README.md) re-exports all types.
#![tactic(auto)]

mod annotation_keys;
mod annotations;
mod bodies;
mod delivery;
mod error;
mod header;
mod identifiers;
pub mod message;
mod properties;
mod section;
mod states;
mod transactions;
mod unknown;

pub use annotations::{ApplicationProperties, DeliveryAnnotations, Footer, MessageAnnotations};
pub use bodies::{AmqpSequence, AmqpValue, Data};
pub use delivery::{Accepted, Modified, Received, Rejected, Released};
pub use error::AmqpError;
pub use header::Header;
pub use identifiers::{Address, AnnotationKey, MessageId};
pub use message::{Body, LazyMessage, Message, MessageError};
pub use properties::Properties;
pub use section::Section;
pub use states::{DeliveryState, Outcome, TransactionalState};
pub use transactions::{Declare, Declared, Discharge};
pub use unknown::Unknown;
