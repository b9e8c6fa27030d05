//! The sizes of descriptors and of described values.

ghost use Rattle.std.specs.Prelude.{◌≡◌, ◌+◌, ◌⊎◌, Some, MatchResult, is_some, true, false};
ghost use Rattle.amqp_ser.specs.Tree.{Tree};
ghost use Rattle.amqp_ser.specs.Limits.{is_length};
ghost use Rattle.amqp_ser.specs.Composites.{descriptor_of};
ghost use Rattle.amqp_ser.specs.Encoding.{constructor};
ghost use Rattle.amqp_size.specs.Position.{takes_described};

use crate::limits::add_within;
use crate::position::BasePosition;
use crate::size_error::SizeError;
use amqp_data::EncodingCodes;

/// Accepts a ulong or a symbol as a descriptor, and returns its length.
///
/// # Errors
/// Returns `InvalidValue` if the constructor is that of another type.
pub(crate) fn descriptor_len(code: u8, ordinary: usize) -> Result<usize, SizeError>
    ensures { (t : Tree) → constructor t ≡ Some code → MatchResult result
        (λ n. (is_some (descriptor_of (Some t)) ≡ true) × (n ≡ ordinary))
        (λ e. (is_some (descriptor_of (Some t)) ≡ false) × (e ≡ SizeError.InvalidValue)) }
{
    if code == EncodingCodes::Ulong as u8 || code == EncodingCodes::Sym32 as u8 {
        Ok(ordinary)
    } else {
        Err(SizeError::InvalidValue)
    }
}

/// Returns the length of a described value, its descriptors included.
///
/// # Errors
/// Returns `InvalidValue` if `base` does not accept a described value, and `TooLong` if the length
/// exceeds `usize::MAX`.
pub(crate) fn described_len(
    prefix_len: usize,
    base: BasePosition,
    ordinary: usize,
) -> Result<usize, SizeError>
    ensures { MatchResult result
        (λ n. (takes_described base ≡ true)
        × ((is_length (prefix_len + ordinary) ≡ true) × (n ≡ prefix_len + ordinary)))
        (λ e. ((e ≡ SizeError.TooLong) × (is_length (prefix_len + ordinary) ≡ false))
        ⊎ ((e ≡ SizeError.InvalidValue) × (takes_described base ≡ false))) }
{
    if !base.takes_described() {
        return Err(SizeError::InvalidValue);
    }
    add_within(prefix_len, ordinary, usize::MAX)
}
