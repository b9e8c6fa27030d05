//! Where the messages of a link come from.

mod derived;

use crate::terminus::{DistributionMode, TerminusDurability, TerminusExpiryPolicy};
use amqp_messaging::{Address, Outcome};
use serde_amqp::Value;
use serde_amqp::primitives::{Multiple, OrderedMap, Symbol};

/// Where the messages of a link come from (AMQP 1.0 part 3, section 3.5.3).
///
/// # Encoding
/// A list of the fields, described by the code 0x28.
// amqp: encoding = "list", code = 0x28, name = "amqp:source:list", rename_all = "kebab-case"
#[derive(Debug, Clone, Default, PartialEq, Drop)]
pub struct Source {
    /// The node.
    pub address: Option<Address>,
    /// Which state of the terminus survives a failure.
    pub durable: Option<TerminusDurability>,
    /// When the timeout of the terminus begins.
    pub expiry_policy: Option<TerminusExpiryPolicy>,
    /// How long the terminus is kept then, in seconds.
    // amqp: default = 0
    pub timeout: Option<u32>,
    /// Whether the peer must create a node.
    // amqp: default = false
    pub dynamic: Option<bool>,
    /// The properties of the created node.
    pub dynamic_node_properties: Option<OrderedMap<Symbol, Value>>,
    /// Whether the link moves or copies messages.
    pub distribution_mode: Option<DistributionMode>,
    /// Which messages the link transfers.
    pub filter: Option<OrderedMap<Symbol, Value>>,
    /// The outcome of deliveries that are settled without one.
    pub default_outcome: Option<Outcome>,
    /// The outcomes that the link supports.
    pub outcomes: Option<Multiple<Symbol>>,
    /// The extensions that the source supports or wants.
    pub capabilities: Option<Multiple<Symbol>>,
}

impl Source {
    ghost use Rattle.std.specs.Prelude.{◌≡◌};
    ghost use Rattle.serde_amqp.specs.Derive.{value_or};
    ghost use Rattle.amqp_types.specs.declared.terminus.TerminusDurability.TheVariants as terminus_durability;
    ghost use Rattle.amqp_types.specs.declared.terminus.TerminusExpiryPolicy.TheVariants as terminus_expiry_policy;

    /// Returns `durable`, or `TerminusDurability::None` if it is absent.
    pub fn durable_or_default(&self) -> TerminusDurability
        ensures { result ≡ value_or terminus_durability.None self.now.durable }
    {
        self.durable.unwrap_or(TerminusDurability::None)
    }

    /// Returns `expiry_policy`, or `TerminusExpiryPolicy::SessionEnd` if it is absent.
    pub fn expiry_policy_or_default(&self) -> TerminusExpiryPolicy
        ensures { result ≡ value_or terminus_expiry_policy.SessionEnd self.now.expiry_policy }
    {
        self.expiry_policy
            .unwrap_or(TerminusExpiryPolicy::SessionEnd)
    }
}
