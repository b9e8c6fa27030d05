//! Lower-case hexadecimal for display.

ghost use Rattle.std.specs.Prelude.{◌≡◌, ◌+◌, ◌*◌, ◌<◌, ◌≤◌, ◌++◌, length, take, IsAscii};
ghost use Rattle.std.specs.Fmt.{WritesOnOk};
ghost use Rattle.amqp_data.specs.Hexadecimal.{hex, hex_digit};

use std::fmt;
use std::fmt::{Formatter, Write};
use std::str::from_utf8_unchecked;

static DIGITS: [u8; 16] = *b"0123456789abcdef";

/// Writes two hexadecimal digits for each byte, at most 16 by one call of the writer. A writer that
/// takes the text of a call whole or not at all has all but the last 15 of those that fit.
///
/// # Errors
/// Returns the formatter's error if its writer fails. Some of the digits may have been written.
///
/// # Memory
/// What the formatter's writer allocates.
///
/// # Example
/// The bytes 160 and 15 are written as `a00f`.
pub fn write_hexadecimal<W: Write>(bytes: &[u8], f: &mut Formatter<W>) -> fmt::Result
    ensures { WritesOnOk W.write_str_gives f.old result (hex bytes.now) f.new }
{
    let mut from = 0;
    while from < bytes.len() {
        let to = bytes.len().min(from + 8);
        write_block(&bytes[from..to], f)?;
        from = to;
    }
    Ok(())
}

// Writes the digits of at most 8 bytes by one call.
fn write_block<W: Write>(bytes: &[u8], f: &mut Formatter<W>) -> fmt::Result
    requires { length bytes.now ≤ 8 }
    ensures { WritesOnOk W.write_str_gives f.old result (hex bytes.now) f.new }
{
    let mut digits = [0; 16];
    put_block(bytes, &mut digits);
    f.write_str(unsafe { from_utf8_unchecked(&digits[..2 * bytes.len()]) })
}

// Puts two digits for each of at most 8 bytes at the start of `digits`.
#[inline(always)]
fn put_block(bytes: &[u8], digits: &mut [u8; 16])
    requires { length bytes.now ≤ 8 }
    ensures text { take (2 * length bytes.now) digits.new ≡ hex bytes.now }
    ensures ascii { IsAscii (hex bytes.now) }
{
    if bytes.len() < 8 {
        put_digits(bytes, digits, 0);
    } else {
        put_whole(bytes, digits);
    }
}

// Puts the digits of 8 bytes. The digits are computed, and not read from a table, so that LLVM
// computes those of several bytes at once.
#[inline(always)]
fn put_whole(bytes: &[u8], digits: &mut [u8; 16])
    requires { length bytes.now ≡ 8 }
    ensures text { take (2 * length bytes.now) digits.new ≡ hex bytes.now }
    ensures ascii { IsAscii (hex bytes.now) }
{
    for index in 0..8 {
        digits[2 * index] = hexadecimal_digit(bytes[index] / 16);
        digits[2 * index + 1] = hexadecimal_digit(bytes[index] % 16);
    }
}

// Puts two digits for each byte into `text`, from the offset `at` on.
#[inline(always)]
pub(crate) fn put_digits(bytes: &[u8], text: &mut [u8], at: usize)
    requires { at + 2 * length bytes.now ≤ length text.old }
    ensures text { take (at + 2 * length bytes.now) text.new ≡ take at text.old ++ hex bytes.now }
    ensures ascii { IsAscii (hex bytes.now) }
{
    for index in 0..bytes.len() {
        let byte = bytes[index];
        text[at + 2 * index] = DIGITS[(byte / 16) as usize];
        text[at + 2 * index + 1] = DIGITS[(byte % 16) as usize];
    }
}

/// Returns the hexadecimal digit of a number below 16.
///
/// # Memory
/// Allocates nothing.
///
/// # Example
/// The digit of 10 is `a`.
pub fn hexadecimal_digit(value: u8) -> u8
    requires { value < 16 }
    ensures { result ≡ hex_digit value }
{
    if value < 10 {
        b'0' + value
    } else {
        b'a' + (value - 10)
    }
}
