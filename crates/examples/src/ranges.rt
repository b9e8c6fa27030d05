//! An untyped value that is encoded and decoded again. Its caller needs no premise on the ranges of
//! its contents, because a result of `to_lazy_value` states them. No proof is written by hand.

ghost use Rattle.std.specs.Prelude.{◌≡◌, ◌≤◌, MatchResult, true};
ghost use Rattle.serde_amqp.specs.Depth.{depth_of};
ghost use Rattle.serde_amqp.specs.Sound.{IsSound};
ghost use Rattle.serde_amqp.specs.TreeOf.{tree_of};
ghost use Rattle.serde_amqp.specs.Writable.{writable};

use serde_amqp::lazy::to_lazy_value;
use serde_amqp::{Error, Value, laws, to_value};
use std::alloc::Global;

/// Encodes a value as a lazy value, and decodes it.
///
/// A sound value that is writable and at most 256 levels deep returns unchanged. The only error for
/// it is `OutOfMemory`.
///
/// # Example
/// The list of the string `a` is encoded as `c00401a10161`, and returns.
pub fn encode_and_decode(alloc: Global, value: &Value) -> Result<Value, Error>
    ensures { IsSound value.now → writable (tree_of value.now) ≡ true →
        depth_of (tree_of value.now) ≤ 256 →
        MatchResult result (λ w. tree_of w ≡ tree_of value.now) (λ e. e ≡ Error.OutOfMemory) }
{
    laws::sound_values_return_from_lazy_values();
    match to_lazy_value(alloc, value) {
        Ok(encoded) => match to_value(alloc, &encoded) {
            Ok(decoded) => Ok(decoded),
            Err(error) => Err(error),
        },
        Err(error) => Err(error),
    }
}
