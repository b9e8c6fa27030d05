//! Transparent vectors, which are read from all elements of a list, in order.

ghost use Rattle.std.specs.Prelude.{map};
ghost use Rattle.std.specs.List.{AllZip, AllByRecursion};
ghost use Rattle.amqp_data.specs.Items.{transparent_items};
ghost use Rattle.amqp_ser.specs.Tree.{list, trees_of};
ghost use Rattle.amqp_de.specs.Reads.{OnList};

use crate::deserialize::Deserialize;
use crate::fault::Fault;
use crate::source::Source;
use amqp_data::TransparentVec;
use std::alloc::Global;

impl<T: Deserialize> Deserialize for TransparentVec<T> {
    ghost reads = { λ t v. OnList (λ ts. AllZip T.reads ts (transparent_items v)) t };

    ghost image = { λ v. list (trees_of (map T.image (transparent_items v))) };

    ghost restorable = { λ v. AllByRecursion T.restorable (transparent_items v) };

    ghost same = { λ v w. AllZip T.same (transparent_items v) (transparent_items w) };

    #[inline(always)]
    fn read<S: Source>(alloc: Global, source: S) -> Result<(TransparentVec<T>, S::Rest), Fault> {
        match Vec::<T>::read(alloc, source) {
            Ok((values, rest)) => Ok((TransparentVec::new(values), rest)),
            Err(fault) => Err(fault),
        }
    }
}
