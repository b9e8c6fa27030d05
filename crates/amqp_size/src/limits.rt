//! The limits of lengths and counts. A size field has at most 32 bits and counts the bytes after
//! it, including the count.
//!
//! `OpenCompound::add_part` checks a list, a map or an array element by element;
//! `SizeSerializer::text` checks a text or a binary in one step.

ghost use Rattle.std.specs.Prelude.{◌≡◌, ◌≤◌, ◌<◌, ◌+◌, true, false, MatchResult};
ghost use Rattle.amqp_ser.specs.Limits.{fits};

use crate::size_error::SizeError;
use amqp_data::Error;

/// The longest text, binary, list body, map body and array content, in bytes: 2^32 - 5.
pub const MAX_LEN: usize = 4294967291;

/// The most elements of an array: 2^32 - 1.
pub const MAX_COUNT: usize = 4294967295;

/// Returns `n` unchanged.
///
/// # Errors
/// Returns `TooLong` if `n` exceeds `MAX_LEN`.
pub(crate) fn within_limit(n: usize) -> Result<usize, Error>
    ensures { MatchResult result (λ same. (fits n ≡ true) × (same ≡ n))
        (λ e. (fits n ≡ false) × (e ≡ Error.TooLong)) }
{
    if n > MAX_LEN {
        return Err(Error::TooLong);
    }
    Ok(n)
}

/// Returns `total + size`.
///
/// # Errors
/// Returns `TooLong` if the sum exceeds `limit`.
#[inline(always)]
pub(crate) fn add_within(total: usize, size: usize, limit: usize) -> Result<usize, SizeError>
    requires { total ≤ limit }
    ensures { MatchResult result (λ sum. (sum ≡ total + size) × (sum ≤ limit))
        (λ e. (e ≡ SizeError.TooLong) × (limit < total + size)) }
{
    if size > limit - total {
        return Err(SizeError::TooLong);
    }
    Ok(total + size)
}
