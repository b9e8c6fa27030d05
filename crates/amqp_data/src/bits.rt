//! Binary floating-point numbers, stored as bits without arithmetic (AMQP 1.0 part 1, sections
//! 1.6.11 and 1.6.12).

ghost use Rattle.std.specs.Prelude.{◌≡◌, from_bits, to_bits};
ghost use Rattle.std.specs.Float.Ieee.{binary32, binary64};
ghost use Rattle.amqp_data.specs.Fixed.{f32_bits, f64_bits};

use std::num::{
    f32_from_bits_with_nan, f32_to_bits_with_nan, f64_from_bits_with_nan, f64_to_bits_with_nan,
};

/// The bits of a float, compared as an unsigned number.
///
/// # Encoding
/// `72` and four bytes, big-endian.
///
/// # Example
/// The bits 3FC00000, which are 1.5, are written `723fc00000`.
#[derive(Debug, PartialEq, Eq, PartialOrd, Ord, Hash, Clone, Copy)]
pub struct F32Bits(u32);

impl F32Bits {
    /// Returns a reference to the bits.
    ///
    /// # Example
    /// For the float 1.5, encoded as `723fc00000`, returns `0x3fc00000`.
    pub fn as_inner(&self) -> &u32
        ensures { result.now ≡ f32_bits self.now }
    {
        &self.0
    }

    /// Consumes the float and returns the bits.
    ///
    /// # Example
    /// For the float -0.0, encoded as `7280000000`, returns `0x80000000`.
    pub fn into_inner(self) -> u32
        ensures { result ≡ f32_bits self }
    {
        self.0
    }
}

impl F32Bits {
    /// Returns the number. The bits of a NaN give a NaN, of no particular sign or payload.
    ///
    /// # Example
    /// For the float encoded as `723fc00000`, returns 1.5.
    pub fn to_f32(self) -> f32
        ensures { result ≡ from_bits binary32 (f32_bits self) }
    {
        f32_from_bits_with_nan(self.0)
    }
}

/// Returns the bits of the number. Each NaN gives the bits 7FC00000.
///
/// # Example
/// 1.5 gives the float encoded as `723fc00000`.
impl From<f32> for F32Bits {
    ghost from_gives = { λ number float. f32_bits float ≡ to_bits binary32 number };

    fn from(number: f32) -> F32Bits {
        F32Bits(f32_to_bits_with_nan(number))
    }
}

impl From<u32> for F32Bits {
    ghost from_gives = { λ bits float. f32_bits float ≡ bits };

    fn from(bits: u32) -> F32Bits {
        F32Bits(bits)
    }
}

/// The bits of a double, compared as an unsigned number.
///
/// # Encoding
/// `82` and eight bytes, big-endian.
///
/// # Example
/// The bits 3FF8000000000000, which are 1.5, are written `823ff8000000000000`.
#[derive(Debug, PartialEq, Eq, PartialOrd, Ord, Hash, Clone, Copy)]
pub struct F64Bits(u64);

impl F64Bits {
    /// Returns a reference to the bits.
    ///
    /// # Example
    /// For the double 1.5, encoded as `823ff8000000000000`, returns `0x3ff8000000000000`.
    pub fn as_inner(&self) -> &u64
        ensures { result.now ≡ f64_bits self.now }
    {
        &self.0
    }

    /// Consumes the double and returns the bits.
    ///
    /// # Example
    /// For the double -0.0, encoded as `828000000000000000`, returns `0x8000000000000000`.
    pub fn into_inner(self) -> u64
        ensures { result ≡ f64_bits self }
    {
        self.0
    }
}

impl F64Bits {
    /// Returns the number. The bits of a NaN give a NaN, of no particular sign or payload.
    ///
    /// # Example
    /// For the double encoded as `823ff8000000000000`, returns 1.5.
    pub fn to_f64(self) -> f64
        ensures { result ≡ from_bits binary64 (f64_bits self) }
    {
        f64_from_bits_with_nan(self.0)
    }
}

/// Returns the bits of the number. Each NaN gives the bits 7FF8000000000000.
///
/// # Example
/// 1.5 gives the double encoded as `823ff8000000000000`.
impl From<f64> for F64Bits {
    ghost from_gives = { λ number double. f64_bits double ≡ to_bits binary64 number };

    fn from(number: f64) -> F64Bits {
        F64Bits(f64_to_bits_with_nan(number))
    }
}

impl From<u64> for F64Bits {
    ghost from_gives = { λ bits double. f64_bits double ≡ bits };

    fn from(bits: u64) -> F64Bits {
        F64Bits(bits)
    }
}
