//! When a node that was created for a link is deleted.

mod derived;

/// When its link is closed (AMQP 1.0 part 3, section 3.5.10).
///
/// # Encoding
/// A list of the fields, described by the code 0x2b.
// amqp: encoding = "list", code = 0x2b, name = "amqp:delete-on-close:list"
#[derive(Debug, Clone, Default, PartialEq, Drop)]
pub struct DeleteOnClose;

/// When it has no links (AMQP 1.0 part 3, section 3.5.11).
///
/// # Encoding
/// A list of the fields, described by the code 0x2c.
// amqp: encoding = "list", code = 0x2c, name = "amqp:delete-on-no-links:list"
#[derive(Debug, Clone, Default, PartialEq, Drop)]
pub struct DeleteOnNoLinks;

/// When it has no messages (AMQP 1.0 part 3, section 3.5.12).
///
/// # Encoding
/// A list of the fields, described by the code 0x2d.
// amqp: encoding = "list", code = 0x2d, name = "amqp:delete-on-no-messages:list"
#[derive(Debug, Clone, Default, PartialEq, Drop)]
pub struct DeleteOnNoMessages;

/// When it has neither (AMQP 1.0 part 3, section 3.5.13).
///
/// # Encoding
/// A list of the fields, described by the code 0x2e.
// amqp: encoding = "list", code = 0x2e, name = "amqp:delete-on-no-links-or-messages:list"
#[derive(Debug, Clone, Default, PartialEq, Drop)]
pub struct DeleteOnNoLinksOrMessages;

/// When a created node is deleted: the node property `lifetime-policy` (AMQP 1.0 part 3, section
/// 3.5.9).
// amqp: encoding = "described"
#[derive(Debug, Clone, PartialEq, Drop)]
pub enum LifetimePolicy {
    /// When its link is closed.
    DeleteOnClose(DeleteOnClose),
    /// When it has no links.
    DeleteOnNoLinks(DeleteOnNoLinks),
    /// When it has no messages.
    DeleteOnNoMessages(DeleteOnNoMessages),
    /// When it has neither.
    DeleteOnNoLinksOrMessages(DeleteOnNoLinksOrMessages),
}
