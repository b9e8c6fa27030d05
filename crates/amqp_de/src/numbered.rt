//! Types of which numbers give values, such as the defaults of fields.

ghost use Rattle.std.specs.Prelude.{◌≡◌, ℕ, ◌%◌, ◌==◌, not};

/// A type that has a value for each number.
///
/// # Example
/// For `u16` and 20, it is 20. For `bool`, it is false for 0, and true for any other number.
pub trait Numbered: Sized {
    /// The value of a number.
    ghost numbered: { ℕ → Self };

    /// Returns the value of the number.
    fn from_number(number: u64) -> Self
        ensures { result ≡ numbered number };
}

impl Numbered for bool {
    ghost numbered = { λ n. not (n == 0) };

    fn from_number(number: u64) -> bool {
        number != 0
    }
}

impl Numbered for u8 {
    ghost numbered = { λ n. n % 256 };

    fn from_number(number: u64) -> u8 {
        (number % 256) as u8
    }
}

impl Numbered for u16 {
    ghost numbered = { λ n. n % 65536 };

    fn from_number(number: u64) -> u16 {
        (number % 65536) as u16
    }
}

impl Numbered for u32 {
    ghost numbered = { λ n. n % 4294967296 };

    fn from_number(number: u64) -> u32 {
        (number % 4294967296) as u32
    }
}

impl Numbered for u64 {
    ghost numbered = { λ n. n };

    fn from_number(number: u64) -> u64 {
        number
    }
}
