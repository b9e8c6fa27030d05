//! Decimal floating-point numbers, stored as bytes without arithmetic (AMQP 1.0 part 1, sections
//! 1.6.13 to 1.6.15).

ghost use Rattle.std.specs.Prelude.{◌≡◌};
ghost use Rattle.amqp_data.specs.Fixed.{dec32_bytes, dec64_bytes, dec128_bytes, GivesFixed};

use crate::Error;

/// A decimal32, as the 4 bytes of its IEEE 754 representation.
///
/// # Encoding
/// `74` and the bytes.
///
/// # Example
/// The bytes 01, 02, 03, 04 are encoded as `7401020304`.
#[derive(Debug, PartialEq, Eq, PartialOrd, Ord, Hash, Clone, Copy)]
pub struct Dec32([u8; 4]);

impl Dec32 {
    /// Returns a reference to the 4 bytes.
    ///
    /// # Example
    /// For the decimal encoded as `7401020304`, returns the bytes 01, 02, 03, 04.
    pub fn as_inner(&self) -> &[u8; 4]
        ensures { result.now ≡ dec32_bytes self.now }
    {
        &self.0
    }

    /// Consumes the decimal and returns the 4 bytes.
    ///
    /// # Example
    /// For the decimal encoded as `7404030201`, returns the bytes 04, 03, 02, 01.
    pub fn into_inner(self) -> [u8; 4]
        ensures { result ≡ dec32_bytes self }
    {
        self.0
    }
}

impl From<[u8; 4]> for Dec32 {
    ghost from_gives = { λ bytes decimal. dec32_bytes decimal ≡ bytes };

    fn from(bytes: [u8; 4]) -> Dec32 {
        Dec32(bytes)
    }
}

/// Creates a decimal from a slice of 4 bytes.
///
/// # Errors
/// Returns `Error::InvalidValue` if the slice does not have 4 bytes.
///
/// # Example
/// The bytes 01 to 04 give the decimal encoded as `7401020304`. The bytes 01 to 03 give
/// `InvalidValue`.
impl TryFrom<&[u8]> for Dec32 {
    type Error = Error;

    ghost try_from_gives = { λ bytes result. GivesFixed 4 dec32_bytes bytes.now result };

    fn try_from(bytes: &[u8]) -> Result<Dec32, Error> {
        match <[u8; 4]>::try_from(bytes) {
            Ok(bytes) => Ok(Dec32(bytes)),
            Err(_) => Err(Error::InvalidValue),
        }
    }
}

/// A decimal64, as the 8 bytes of its IEEE 754 representation.
///
/// # Encoding
/// `84` and the bytes.
///
/// # Example
/// The bytes 01 to 08 are encoded as `840102030405060708`.
#[derive(Debug, PartialEq, Eq, PartialOrd, Ord, Hash, Clone, Copy)]
pub struct Dec64([u8; 8]);

impl Dec64 {
    /// Returns a reference to the 8 bytes.
    ///
    /// # Example
    /// For the decimal encoded as `840102030405060708`, returns the bytes 01 to 08.
    pub fn as_inner(&self) -> &[u8; 8]
        ensures { result.now ≡ dec64_bytes self.now }
    {
        &self.0
    }

    /// Consumes the decimal and returns the 8 bytes.
    ///
    /// # Example
    /// For the decimal encoded as `840807060504030201`, returns the bytes 08 down to 01.
    pub fn into_inner(self) -> [u8; 8]
        ensures { result ≡ dec64_bytes self }
    {
        self.0
    }
}

impl From<[u8; 8]> for Dec64 {
    ghost from_gives = { λ bytes decimal. dec64_bytes decimal ≡ bytes };

    fn from(bytes: [u8; 8]) -> Dec64 {
        Dec64(bytes)
    }
}

/// Creates a decimal from a slice of 8 bytes.
///
/// # Errors
/// Returns `Error::InvalidValue` if the slice does not have 8 bytes.
///
/// # Example
/// The bytes 01 to 08 give the decimal encoded as `840102030405060708`. The bytes 01 to 07 give
/// `InvalidValue`.
impl TryFrom<&[u8]> for Dec64 {
    type Error = Error;

    ghost try_from_gives = { λ bytes result. GivesFixed 8 dec64_bytes bytes.now result };

    fn try_from(bytes: &[u8]) -> Result<Dec64, Error> {
        match <[u8; 8]>::try_from(bytes) {
            Ok(bytes) => Ok(Dec64(bytes)),
            Err(_) => Err(Error::InvalidValue),
        }
    }
}

/// A decimal128, as the 16 bytes of its IEEE 754 representation.
///
/// # Encoding
/// `94` and the bytes.
///
/// # Example
/// The bytes 00 to 0F are encoded as `94000102030405060708090a0b0c0d0e0f`.
#[derive(Debug, PartialEq, Eq, PartialOrd, Ord, Hash, Clone, Copy)]
pub struct Dec128([u8; 16]);

impl Dec128 {
    /// Returns a reference to the 16 bytes.
    ///
    /// # Example
    /// For the decimal encoded as `94000102030405060708090a0b0c0d0e0f`, returns the bytes 00 to 0F.
    pub fn as_inner(&self) -> &[u8; 16]
        ensures { result.now ≡ dec128_bytes self.now }
    {
        &self.0
    }

    /// Consumes the decimal and returns the 16 bytes.
    ///
    /// # Example
    /// For the decimal encoded as `940f0e0d0c0b0a09080706050403020100`, returns the bytes 0F down
    /// to 00.
    pub fn into_inner(self) -> [u8; 16]
        ensures { result ≡ dec128_bytes self }
    {
        self.0
    }
}

impl From<[u8; 16]> for Dec128 {
    ghost from_gives = { λ bytes decimal. dec128_bytes decimal ≡ bytes };

    fn from(bytes: [u8; 16]) -> Dec128 {
        Dec128(bytes)
    }
}

/// Creates a decimal from a slice of 16 bytes.
///
/// # Errors
/// Returns `Error::InvalidValue` if the slice does not have 16 bytes.
///
/// # Example
/// The bytes 00 to 0F give the decimal encoded as `94000102030405060708090a0b0c0d0e0f`. The bytes
/// 00 to 0E give `InvalidValue`.
impl TryFrom<&[u8]> for Dec128 {
    type Error = Error;

    ghost try_from_gives = { λ bytes result. GivesFixed 16 dec128_bytes bytes.now result };

    fn try_from(bytes: &[u8]) -> Result<Dec128, Error> {
        match <[u8; 16]>::try_from(bytes) {
            Ok(bytes) => Ok(Dec128(bytes)),
            Err(_) => Err(Error::InvalidValue),
        }
    }
}
