//! Optional values, boxes and untyped values.

ghost use Rattle.std.specs.Prelude.{◌≡◌};
ghost use Rattle.amqp_ser.specs.Tree.{scalar, null};
ghost use Rattle.amqp_value.specs.Sound.{IsSound};
ghost use Rattle.amqp_value.specs.TreeOf.{tree_of};
ghost use Rattle.amqp_de.specs.Reads.{ReadsOption, image_option};
ghost use Rattle.amqp_de.specs.Reads.{RestorableOption, SameOption};

use crate::deserialize::Deserialize;
use crate::fault::Fault;
use crate::source::Source;
use amqp_data::ordered_keys_differ;
use amqp_value::Value;
use std::alloc::Global;

impl<T: Deserialize> Deserialize for Option<T> {
    ghost reads = { ReadsOption T.reads };

    ghost image = { image_option T.image };

    ghost restorable = { RestorableOption T.image T.restorable };

    ghost same = { SameOption T.same };

    #[inline(always)]
    fn read<S: Source>(alloc: Global, source: S) -> Result<(Option<T>, S::Rest), Fault> {
        if source.is_null() {
            return match source.null() {
                Ok(rest) => Ok((None, rest)),
                Err(fault) => Err(fault),
            };
        }
        match T::read(alloc, source) {
            Ok((value, rest)) => Ok((Some(value), rest)),
            Err(fault) => Err(fault),
        }
    }
}

impl<T: Deserialize> Deserialize for Box<T> {
    ghost reads = { λ t b. T.reads t b.value };

    ghost image = { λ b. T.image b.value };

    ghost restorable = { λ b. T.restorable b.value };

    ghost same = { λ a b. T.same a.value b.value };

    fn read<S: Source>(alloc: Global, source: S) -> Result<(Box<T>, S::Rest), Fault> {
        match T::read(alloc, source) {
            Ok((value, rest)) => match Box::new(alloc, value) {
                Ok(boxed) => Ok((boxed, rest)),
                Err(_) => Err(Fault::memory()),
            },
            Err(fault) => Err(fault),
        }
    }
}

impl Deserialize for Value {
    ghost reads = { λ t v. tree_of v ≡ t };

    ghost image = { tree_of };

    ghost restorable = { IsSound };

    ghost same = { λ v w. tree_of v ≡ tree_of w };

    fn read<S: Source>(alloc: Global, source: S) -> Result<(Value, S::Rest), Fault> {
        source.untyped(alloc)
    }

    fn have_distinct_trees<V>(alloc: Global, entries: &[(Value, V)]) -> bool {
        ordered_keys_differ(alloc, entries)
    }
}
