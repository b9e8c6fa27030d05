//! Protocol headers.

ghost use Rattle.std.specs.Prelude.{◌≡◌, ◌≢◌, ℕ, List, IfSome, IfNone};
ghost use Rattle.amqp_transport.specs.Frames.{protocol_bytes};
ghost use Rattle.amqp_transport.specs.declared.protocol.Protocol.{Protocol};

/// The protocol that a protocol header announces.
#[derive(Debug, Clone, Copy, PartialEq, Eq)]
pub enum Protocol {
    /// AMQP, the id 0.
    Amqp,
    /// TLS, the id 2.
    Tls,
    /// SASL, the id 3.
    Sasl,
}

/// A protocol header, which precedes the frames (AMQP 1.0 part 2, section 2.2, and part 5, sections
/// 5.2.1 and 5.3.2).
///
/// # Encoding
/// `AMQP` in ASCII, the id of the protocol, and the version: major, minor and revision.
///
/// # Example
/// The header of AMQP 1.0.0 is `414d515000010000`, that of SASL `414d515003010000`.
#[derive(Debug, Clone, Copy, PartialEq, Eq)]
pub struct ProtocolHeader {
    /// The protocol.
    pub protocol: Protocol,
    /// The major, minor and revision number of its version. That of the standard is 1.0.0.
    pub version: [u8; 3],
}

impl ProtocolHeader {
    /// Returns the header of version 1.0.0 of a protocol.
    ///
    /// # Example
    /// With `Protocol::Sasl`, the header `414d515003010000`.
    pub fn new(protocol: Protocol) -> ProtocolHeader {
        ProtocolHeader {
            protocol,
            version: [1, 0, 0],
        }
    }

    /// Reads a protocol header, or returns `None` if the bytes are none.
    ///
    /// # Example
    /// `414d515000010000` is the header of AMQP 1.0.0. `414d515001010000` is none.
    pub fn from_bytes(bytes: [u8; 8]) -> Option<ProtocolHeader>
        ensures some { IfSome result (λ h. bytes ≡ protocol_bytes h.protocol h.version) }
        ensures none { IfNone result ((p : Protocol) (version : List ℕ) →
            bytes ≢ protocol_bytes p version) }
    {
        let [b'A', b'M', b'Q', b'P', id, major, minor, revision] = bytes else {
            return None;
        };
        let protocol = match id {
            0 => Protocol::Amqp,
            2 => Protocol::Tls,
            3 => Protocol::Sasl,
            _ => return None,
        };
        Some(ProtocolHeader {
            protocol,
            version: [major, minor, revision],
        })
    }

    /// Returns the bytes of the header.
    ///
    /// # Example
    /// The header of AMQP 1.0.0 gives `414d515000010000`.
    pub fn to_bytes(&self) -> [u8; 8]
        ensures { result ≡ protocol_bytes self.now.protocol self.now.version }
    {
        let id = match self.protocol {
            Protocol::Amqp => 0,
            Protocol::Tls => 2,
            Protocol::Sasl => 3,
        };
        let [major, minor, revision] = self.version;
        [b'A', b'M', b'Q', b'P', id, major, minor, revision]
    }
}
