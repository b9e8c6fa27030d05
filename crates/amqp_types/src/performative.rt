//! The performative of a frame, one of several types.

mod derived;

use crate::connection::Open;
use crate::endings::{Close, Detach, End};
use crate::flow::Flow;
use crate::link::Attach;
use crate::session::Begin;
use crate::transfer::{Disposition, Transfer};
use amqp_messaging::Unknown;

/// What a frame of AMQP says (AMQP 1.0 part 2, section 2.7).
// amqp: encoding = "described", others
#[derive(Debug, Clone, PartialEq, Drop)]
pub enum Performative {
    /// Opens a connection, and states the limits and capabilities of the sender.
    Open(Open),
    /// Begins a session on a channel.
    Begin(Begin),
    /// Attaches a link to a session.
    Attach(Attach),
    /// Updates the windows of a session, and the credit of a link.
    Flow(Flow),
    /// Carries a message, or a part of it, as its payload.
    Transfer(Transfer),
    /// Tells the state of a range of deliveries.
    Disposition(Disposition),
    /// Detaches a link.
    Detach(Detach),
    /// Ends a session.
    End(End),
    /// Closes a connection.
    Close(Close),
    /// A described value of another type, which is kept.
    Other(Unknown),
}
