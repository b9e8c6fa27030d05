//! A frame of SASL, one of several types.

mod derived;

use crate::sasl::{SaslChallenge, SaslInit, SaslMechanisms, SaslResponse};
use crate::sasl_outcome::SaslOutcome;
use amqp_messaging::Unknown;

/// What a frame of SASL says (AMQP 1.0 part 5, section 5.3.3).
// amqp: encoding = "described", others
#[derive(Debug, Clone, PartialEq, Drop)]
pub enum SaslFrame {
    /// The mechanisms of the server.
    SaslMechanisms(SaslMechanisms),
    /// Chooses a mechanism.
    SaslInit(SaslInit),
    /// A challenge of the mechanism.
    SaslChallenge(SaslChallenge),
    /// A response to a challenge.
    SaslResponse(SaslResponse),
    /// Ends SASL.
    SaslOutcome(SaslOutcome),
    /// A described value of another type, which is kept.
    Other(Unknown),
}
