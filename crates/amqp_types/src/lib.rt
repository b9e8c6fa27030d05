//! AMQP 1.0's own types: performatives, sources, targets, delivery states, transactions, the
//! sections of a message and the frames of SASL (AMQP 1.0 parts 2 to 5).
//!
//! Each type is written and read, after the code of its descriptor or after its name.
//! `tools/types_table.txt` lists them as the standard does, with their fields; `tools/types` writes
//! the types, and `tools/derive` their impls. This crate has the ends of links, the performatives,
//! SASL and the kinds of errors, and re-exports messages, states of deliveries and frames.
#![tactic(auto)]

mod conditions;
mod connection;
mod coordinator;
mod endings;
mod endpoint_conditions;
mod flow;
mod lifetime;
mod link;
mod modes;
mod performative;
mod sasl;
mod sasl_frame;
mod sasl_outcome;
mod session;
mod source;
mod target;
mod terminus;
mod transfer;

pub use amqp_messaging::{
    Accepted, Address, AmqpError, AmqpSequence, AmqpValue, AnnotationKey, ApplicationProperties,
    Body, Data, Declare, Declared, DeliveryAnnotations, DeliveryState, Discharge, Footer, Header,
    LazyMessage, Message, MessageAnnotations, MessageError, MessageId, Modified, Outcome,
    Properties, Received, Rejected, Released, Section, TransactionalState, Unknown, message,
};
pub use amqp_transport::{
    AMQP, Frame, FrameError, FrameHeader, Protocol, ProtocolHeader, SASL, frame_of, frame_to_vec,
    read_frame,
};
pub use conditions::{AmqpCondition, ConnectionCondition};
pub use connection::Open;
pub use coordinator::{AnyTarget, Coordinator, TxnCapability};
pub use endings::{Close, Detach, End};
pub use endpoint_conditions::{LinkCondition, SessionCondition, TransactionCondition};
pub use flow::Flow;
pub use lifetime::{
    DeleteOnClose, DeleteOnNoLinks, DeleteOnNoLinksOrMessages, DeleteOnNoMessages, LifetimePolicy,
};
pub use link::Attach;
pub use modes::{ReceiverSettleMode, Role, SenderSettleMode};
pub use performative::Performative;
pub use sasl::{SaslChallenge, SaslInit, SaslMechanisms, SaslResponse};
pub use sasl_frame::SaslFrame;
pub use sasl_outcome::{SaslCode, SaslOutcome};
pub use session::Begin;
pub use source::Source;
pub use target::Target;
pub use terminus::{DistributionMode, TerminusDurability, TerminusExpiryPolicy};
pub use transfer::{Disposition, Transfer};
