//! Fields that allow several values, which are read from one value or from an array.

ghost use Rattle.std.specs.Prelude.{◌≡◌};
ghost use Rattle.amqp_value.specs.TreeOf.{tree_of};
ghost use Rattle.amqp_de.specs.Multiple.{is_array_tree, multiple_image};
ghost use Rattle.amqp_de.specs.Multiple.{ReadsMultiple, RestorableMultiple, SameMultiple};
ghost use Rattle.amqp_de.specs.Results.{Takes, Brings, TakesAll, BringsAll};

use crate::deserialize::Deserialize;
use crate::fault::Fault;
use crate::held::read_value;
use crate::source::Source;
use crate::source_kind::SourceKind;
use amqp_data::{Array, Multiple};
use amqp_value::Value;
use std::alloc::Global;

impl<T: Deserialize> Deserialize for Multiple<T> {
    ghost reads = { ReadsMultiple T.reads };

    ghost image = { multiple_image T.image };

    ghost restorable = { RestorableMultiple T.image T.restorable };

    ghost same = { SameMultiple T.same };

    fn read<S: Source>(alloc: Global, source: S) -> Result<(Multiple<T>, S::Rest), Fault> {
        match source.source_kind() {
            SourceKind::Array => match Array::<T>::read(alloc, source) {
                Ok((values, rest)) => Ok((Multiple::Many(values), rest)),
                Err(fault) => Err(fault),
            },
            _ => match read_untyped::<T, S>(alloc, source) {
                Ok(read) => Ok(read),
                Err(fault) => Err(fault),
            },
        }
    }
}

// Reads one value, or an array of values, from the untyped value.
fn read_untyped<T: Deserialize, S: Source>(
    alloc: Global,
    source: S,
) -> Result<(Multiple<T>, S::Rest), Fault>
    ensures read { Takes (ReadsMultiple T.reads) (S.value source) (S.is_whole source)
        (S.left source) result }
    ensures law { Brings (multiple_image T.image) (RestorableMultiple T.image T.restorable)
        (SameMultiple T.same) (S.value source) (S.is_whole source) result }
{
    let (value, rest) = match source.untyped(alloc) {
        Ok(read) => read,
        Err(fault) => return Err(fault),
    };
    match read_multiple::<T>(alloc, value) {
        Ok(values) => Ok((values, rest)),
        Err(fault) => Err(fault),
    }
}

// Reads one value, or an array of values.
fn read_multiple<T: Deserialize>(alloc: Global, value: Value) -> Result<Multiple<T>, Fault>
    ensures read { TakesAll (ReadsMultiple T.reads) (tree_of value) (Unit {0}) result }
    ensures law { BringsAll (multiple_image T.image) (RestorableMultiple T.image T.restorable)
        (SameMultiple T.same) (tree_of value) (Unit {0}) result }
{
    if is_array(&value) {
        return match read_value::<Array<T>>(alloc, value) {
            Ok(values) => Ok(Multiple::Many(values)),
            Err(fault) => Err(fault),
        };
    }
    match read_value::<T>(alloc, value) {
        Ok(value) => Ok(Multiple::One(value)),
        Err(fault) => Err(fault),
    }
}

// Returns whether the value is an array.
fn is_array(value: &Value) -> bool
    ensures { result ≡ is_array_tree (tree_of value.now) }
{
    matches!(value, Value::Array(_))
}
