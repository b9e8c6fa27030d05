//! Universally unique identifiers (AMQP 1.0 part 1, section 1.6.18).

ghost use Rattle.std.specs.Prelude.{◌≡◌, ◌+◌, ◌*◌, ◌<◌, ◌≤◌, ◌++◌, take, drop, length, map, Some};
ghost use Rattle.std.specs.Prelude.{IfErr, IfOk};
ghost use Rattle.std.specs.Prelude.{IsAscii};
ghost use Rattle.std.specs.Char.{to_ascii_lowercase};
ghost use Rattle.amqp_data.specs.Fixed.{uuid_bytes, GivesFixed};
ghost use Rattle.amqp_data.specs.Hexadecimal.{hex};
ghost use Rattle.amqp_data.specs.Displayed.{displayed_uuid, uuid_group};

use crate::Error;
use crate::hexadecimal::put_digits;
use std::fmt;
use std::fmt::{Formatter, Write};
use std::str::from_utf8_unchecked;

/// A universally unique identifier of any version, as its 16 bytes.
///
/// # Encoding
/// `98` and the bytes.
///
/// # Example
/// The bytes 00, 11, 22 up to FF are encoded as `9800112233445566778899aabbccddeeff`.
#[derive(Debug, PartialEq, Eq, PartialOrd, Ord, Hash, Clone, Copy)]
pub struct Uuid([u8; 16]);

impl Uuid {
    /// Returns a reference to the 16 bytes.
    ///
    /// # Example
    /// For the uuid encoded as `9800112233445566778899aabbccddeeff`, returns the bytes 00, 11 up to
    /// FF.
    pub fn as_inner(&self) -> &[u8; 16]
        ensures { result.now ≡ uuid_bytes self.now }
    {
        &self.0
    }

    /// Consumes the uuid and returns the 16 bytes.
    ///
    /// # Example
    /// For the uuid displayed as `00010203-0405-0607-0809-0a0b0c0d0e0f`, returns the bytes 00 to
    /// 0F.
    pub fn into_inner(self) -> [u8; 16]
        ensures { result ≡ uuid_bytes self }
    {
        self.0
    }
}

impl Uuid {
    /// Creates a uuid from its text: groups of 8, 4, 4, 4 and 12 hexadecimal digits in lower or
    /// upper case, separated by hyphens, as `Display` writes it.
    ///
    /// # Errors
    /// Returns `Error::InvalidValue` for any other text.
    ///
    /// # Example
    /// `00112233-4455-6677-8899-AABBCCDDEEFF` gives the uuid that is encoded as
    /// `9800112233445566778899aabbccddeeff`.
    pub fn parse_str(text: &str) -> Result<Uuid, Error>
        ensures ok { IfOk result (λ uuid. map to_ascii_lowercase text.now
            ≡ map to_ascii_lowercase (displayed_uuid (uuid_bytes uuid))) }
        ensures invalid { IfErr result (λ e. e ≡ Error.InvalidValue) }
    {
        let text = text.as_bytes();
        if text.len() != 36 {
            return Err(Error::InvalidValue);
        }
        let bytes = bytes_of_text(text);
        if text.eq_ignore_ascii_case(&uuid_text(&bytes)) {
            Ok(Uuid(bytes))
        } else {
            Err(Error::InvalidValue)
        }
    }
}

impl From<[u8; 16]> for Uuid {
    ghost from_gives = { λ bytes uuid. uuid_bytes uuid ≡ bytes };

    fn from(bytes: [u8; 16]) -> Uuid {
        Uuid(bytes)
    }
}

/// Creates a uuid from a slice of 16 bytes.
///
/// # Errors
/// Returns `Error::InvalidValue` if the slice does not have 16 bytes.
///
/// # Example
/// The bytes 00 to 0F give the uuid displayed as `00010203-0405-0607-0809-0a0b0c0d0e0f`. The bytes
/// 00 to 0E give `InvalidValue`.
impl TryFrom<&[u8]> for Uuid {
    type Error = Error;

    ghost try_from_gives = { λ bytes result. GivesFixed 16 uuid_bytes bytes.now result };

    fn try_from(bytes: &[u8]) -> Result<Uuid, Error> {
        match <[u8; 16]>::try_from(bytes) {
            Ok(bytes) => Ok(Uuid(bytes)),
            Err(_) => Err(Error::InvalidValue),
        }
    }
}

/// Writes groups of 8, 4, 4, 4 and 12 lower-case hexadecimal digits, separated by hyphens.
///
/// # Example
/// `00112233-4455-6677-8899-aabbccddeeff`.
impl fmt::Display for Uuid {
    ghost output = { λ uuid. Some (displayed_uuid (uuid_bytes uuid)) };

    fn fmt<W: Write>(&self, f: &mut Formatter<W>) -> fmt::Result {
        let text = uuid_text(&self.0);
        f.write_str(unsafe { from_utf8_unchecked(&text) })
    }
}

// Returns the text of the uuid with these bytes.
fn uuid_text(bytes: &[u8; 16]) -> [u8; 36]
    ensures text { result ≡ displayed_uuid bytes.now }
    ensures ascii { IsAscii result }
{
    let mut text = [0; 36];
    put_part(bytes, 0, 4, &mut text, 0);
    put_group(bytes, 4, 2, &mut text, 8);
    put_group(bytes, 6, 2, &mut text, 13);
    put_group(bytes, 8, 2, &mut text, 18);
    put_group(bytes, 10, 6, &mut text, 23);
    text
}

// Puts a hyphen and the digits of `count` bytes, from the offset `from`, into `text`, from the
// offset `at` on.
#[inline(always)]
fn put_group(bytes: &[u8; 16], from: usize, count: usize, text: &mut [u8; 36], at: usize)
    requires bytes { from + count ≤ 16 }
    requires text { at + 1 + 2 * count ≤ 36 }
    ensures text { take (at + 1 + 2 * count) text.new
        ≡ take at text.old ++ uuid_group bytes.now from count }
    ensures ascii { IsAscii (uuid_group bytes.now from count) }
{
    text[at] = b'-';
    put_part(bytes, from, count, text, at + 1);
}

// The same without a hyphen.
#[inline(always)]
fn put_part(bytes: &[u8; 16], from: usize, count: usize, text: &mut [u8; 36], at: usize)
    requires bytes { from + count ≤ 16 }
    requires text { at + 2 * count ≤ 36 }
    ensures text { take (at + 2 * count) text.new
        ≡ take at text.old ++ hex (take count (drop from bytes.now)) }
    ensures ascii { IsAscii (hex (take count (drop from bytes.now))) }
{
    put_digits(&bytes[from..from + count], text, at);
}

// Returns the bytes whose digits are at the places that `uuid_text` has for them. Another character
// than a digit is taken as 0.
fn bytes_of_text(text: &[u8]) -> [u8; 16]
    requires { length text.now ≡ 36 }
{
    let mut bytes = [0; 16];
    for i in 0..16 {
        let hyphens = match i {
            0..=3 => 0,
            4..=5 => 1,
            6..=7 => 2,
            8..=9 => 3,
            _ => 4,
        };
        let at = 2 * i + hyphens;
        bytes[i] = digit_value(text[at]) * 16 + digit_value(text[at + 1]);
    }
    bytes
}

// Returns the value of a hexadecimal digit, or 0 for another character.
fn digit_value(digit: u8) -> u8
    ensures { result < 16 }
{
    match digit {
        b'0'..=b'9' => digit - b'0',
        b'a'..=b'f' => digit - b'a' + 10,
        b'A'..=b'F' => digit - b'A' + 10,
        _ => 0,
    }
}
