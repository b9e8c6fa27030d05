//! Lazy values: the bytes of any value that can be encoded.

ghost use Rattle.std.specs.Prelude.{◌≡◌};
ghost use Rattle.amqp_ser.specs.Tree.{scalar, null};
ghost use Rattle.amqp_de.specs.Reads.{ReadsLazy};

use crate::deserialize::Deserialize;
use crate::fault::Fault;
use crate::source::Source;
use amqp_frame::LazyValue;
use amqp_wire::to_lazy_value;
use std::alloc::Global;

/// Reads any value as the bytes of its encoding.
///
/// No lazy value is restorable, because the value inside it may have been encoded in another form.
/// The image is a placeholder.
///
/// # Errors
/// Of an untyped value returns the error of `to_lazy_value`.
impl Deserialize for LazyValue {
    ghost reads = { ReadsLazy };

    ghost image = { λ _. scalar null };

    ghost restorable = { λ _. ⊥ };

    fn read<S: Source>(alloc: Global, source: S) -> Result<(LazyValue, S::Rest), Fault> {
        let (value, rest) = match source.untyped(alloc) {
            Ok(read) => read,
            Err(fault) => return Err(fault),
        };
        match to_lazy_value(alloc, &value) {
            Ok(lazy) => Ok((lazy, rest)),
            Err(error) => Err(Fault::from(error)),
        }
    }
}
