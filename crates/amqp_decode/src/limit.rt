//! The limit on array elements without bytes.

ghost use Rattle.std.specs.Prelude.{◌≡◌, IfErr};
ghost use Rattle.amqp_decode.specs.WithoutBytes.{Spends, own_items};

use crate::payload::has_no_payload;
use amqp_data::{EncodingCodes, Error};

/// Takes the `count` elements of an array with this constructor from the limit, if they have no
/// bytes and there is one.
///
/// # Errors
/// Returns `TooLong` if they are more than the limit.
#[inline(always)]
pub fn spend_items(limit: &mut Option<u32>, code: EncodingCodes, count: u32) -> Result<(), Error>
    ensures limit { Spends result limit.old limit.new (own_items code count) }
    ensures kind { IfErr result (λ e. e ≡ Error.TooLong) }
{
    if has_no_payload(code) {
        spend(limit, count)
    } else {
        Ok(())
    }
}

// Takes `count` elements from the limit, if there is one.
#[inline(always)]
fn spend(limit: &mut Option<u32>, count: u32) -> Result<(), Error>
    ensures limit { Spends result limit.old limit.new count }
    ensures kind { IfErr result (λ e. e ≡ Error.TooLong) }
{
    if let Some(most) = *limit {
        if count > most {
            return Err(Error::TooLong);
        }
        *limit = Some(most - count);
    }
    Ok(())
}
