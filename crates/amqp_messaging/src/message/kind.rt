//! The kinds of sections.

ghost use Rattle.std.specs.Prelude.{◌≡◌, ◌∷◌, true, false, IfSome, IfNone, length};
ghost use Rattle.amqp_messaging.specs.Sections.{section_code, section_name, selects};

/// A kind of section, in the order of a message (AMQP 1.0 part 3, section 3.2). A message has one
/// body: sections of one of the three kinds `Data`, `AmqpSequence` and `AmqpValue`.
#[derive(Debug, Clone, Copy, PartialEq, Eq)]
pub enum SectionKind {
    Header,
    DeliveryAnnotations,
    MessageAnnotations,
    Properties,
    ApplicationProperties,
    Data,
    AmqpSequence,
    AmqpValue,
    Footer,
}

impl SectionKind {
    /// Returns the code of the descriptor.
    ///
    /// # Example
    /// That of `Header` is `0x70`.
    pub fn code(self) -> u8
        ensures { result ≡ section_code self }
    {
        match self {
            SectionKind::Header => 0x70,
            SectionKind::DeliveryAnnotations => 0x71,
            SectionKind::MessageAnnotations => 0x72,
            SectionKind::Properties => 0x73,
            SectionKind::ApplicationProperties => 0x74,
            SectionKind::Data => 0x75,
            SectionKind::AmqpSequence => 0x76,
            SectionKind::AmqpValue => 0x77,
            SectionKind::Footer => 0x78,
        }
    }

    /// Returns the symbol that is a descriptor too.
    ///
    /// # Example
    /// That of `Header` is `amqp:header:list`.
    pub fn name(self) -> &'static str
        ensures { result.now ≡ section_name self }
    {
        match self {
            SectionKind::Header => "amqp:header:list",
            SectionKind::DeliveryAnnotations => "amqp:delivery-annotations:map",
            SectionKind::MessageAnnotations => "amqp:message-annotations:map",
            SectionKind::Properties => "amqp:properties:list",
            SectionKind::ApplicationProperties => "amqp:application-properties:map",
            SectionKind::Data => "amqp:data:binary",
            SectionKind::AmqpSequence => "amqp:amqp-sequence:list",
            SectionKind::AmqpValue => "amqp:amqp-value:*",
            SectionKind::Footer => "amqp:footer:map",
        }
    }

    // Returns the encoded name, with a length of one byte.
    fn short_name(self) -> &'static [u8]
        ensures { result.now ≡ 0 ∷ 0xa3 ∷ length (section_name self) ∷ section_name self }
    {
        match self {
            SectionKind::Header => b"\0\xa3\x10amqp:header:list",
            SectionKind::DeliveryAnnotations => b"\0\xa3\x1damqp:delivery-annotations:map",
            SectionKind::MessageAnnotations => b"\0\xa3\x1camqp:message-annotations:map",
            SectionKind::Properties => b"\0\xa3\x14amqp:properties:list",
            SectionKind::ApplicationProperties => b"\0\xa3\x1famqp:application-properties:map",
            SectionKind::Data => b"\0\xa3\x10amqp:data:binary",
            SectionKind::AmqpSequence => b"\0\xa3\x17amqp:amqp-sequence:list",
            SectionKind::AmqpValue => b"\0\xa3\x11amqp:amqp-value:*",
            SectionKind::Footer => b"\0\xa3\x0famqp:footer:map",
        }
    }

    // Returns the encoded name, with a length of four bytes.
    fn long_name(self) -> &'static [u8]
        ensures { result.now ≡ 0 ∷ 0xb3 ∷ 0 ∷ 0 ∷ 0 ∷ length (section_name self)
            ∷ section_name self }
    {
        match self {
            SectionKind::Header => b"\0\xb3\0\0\0\x10amqp:header:list",
            SectionKind::DeliveryAnnotations => b"\0\xb3\0\0\0\x1damqp:delivery-annotations:map",
            SectionKind::MessageAnnotations => b"\0\xb3\0\0\0\x1camqp:message-annotations:map",
            SectionKind::Properties => b"\0\xb3\0\0\0\x14amqp:properties:list",
            SectionKind::ApplicationProperties =>
                b"\0\xb3\0\0\0\x1famqp:application-properties:map",
            SectionKind::Data => b"\0\xb3\0\0\0\x10amqp:data:binary",
            SectionKind::AmqpSequence => b"\0\xb3\0\0\0\x17amqp:amqp-sequence:list",
            SectionKind::AmqpValue => b"\0\xb3\0\0\0\x11amqp:amqp-value:*",
            SectionKind::Footer => b"\0\xb3\0\0\0\x0famqp:footer:map",
        }
    }
}

// Returns whether the bytes begin with the descriptor of a section of this kind.
#[tactic(auto, unfolding(crate::specs::Sections::selects))]
pub(crate) fn selects(kind: SectionKind, bytes: &[u8]) -> bool
    ensures { result ≡ selects kind bytes.now }
{
    let code = kind.code();
    bytes.starts_with(&[0x00, 0x53, code])
        || bytes.starts_with(&[0x00, 0x80, 0, 0, 0, 0, 0, 0, 0, code])
        || bytes.starts_with(kind.short_name())
        || bytes.starts_with(kind.long_name())
}

// Returns the kind of the section that the bytes begin with, by its descriptor.
pub(crate) fn kind_of(bytes: &[u8]) -> Option<SectionKind>
    ensures some { IfSome result (λ k. selects k bytes.now ≡ true) }
    ensures none { IfNone result ((k : SectionKind) → selects k bytes.now ≡ false) }
{
    if selects(SectionKind::Header, bytes) {
        return Some(SectionKind::Header);
    }
    if selects(SectionKind::DeliveryAnnotations, bytes) {
        return Some(SectionKind::DeliveryAnnotations);
    }
    if selects(SectionKind::MessageAnnotations, bytes) {
        return Some(SectionKind::MessageAnnotations);
    }
    if selects(SectionKind::Properties, bytes) {
        return Some(SectionKind::Properties);
    }
    if selects(SectionKind::ApplicationProperties, bytes) {
        return Some(SectionKind::ApplicationProperties);
    }
    if selects(SectionKind::Data, bytes) {
        return Some(SectionKind::Data);
    }
    if selects(SectionKind::AmqpSequence, bytes) {
        return Some(SectionKind::AmqpSequence);
    }
    if selects(SectionKind::AmqpValue, bytes) {
        return Some(SectionKind::AmqpValue);
    }
    if selects(SectionKind::Footer, bytes) {
        return Some(SectionKind::Footer);
    }
    None
}
