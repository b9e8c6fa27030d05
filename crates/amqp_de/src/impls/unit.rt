//! The unit type, which is read from null.

ghost use Rattle.std.specs.Prelude.{◌≡◌};
ghost use Rattle.amqp_ser.specs.Tree.{scalar, null};

use crate::deserialize::Deserialize;
use crate::fault::Fault;
use crate::source::Source;
use std::alloc::Global;

impl Deserialize for () {
    ghost reads = { λ t _. t ≡ scalar null };

    ghost image = { λ _. scalar null };

    #[inline(always)]
    fn read<S: Source>(_alloc: Global, source: S) -> Result<((), S::Rest), Fault> {
        match source.null() {
            Ok(rest) => Ok(((), rest)),
            Err(fault) => Err(fault),
        }
    }
}
