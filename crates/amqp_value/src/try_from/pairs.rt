//! Conversion of the entries of a map and insertion into a map of another type.

ghost use Rattle.amqp_value.specs.Converts.{PairGives, PairsGive};

use super::ConvertFault;
use crate::{Inserts, Value};

/// Converts a key and then its value.
#[inline(always)]
fn convert_pair<K, V>(key: Value, value: Value) -> Result<(K, V), ConvertFault>
where
    K: TryFrom<Value, Error = Value> + Drop,
    V: TryFrom<Value, Error = Value> + Drop,
    ensures { PairGives K.try_from_gives V.try_from_gives (key, value) result }
{
    match K::try_from(key) {
        Ok(key) => match V::try_from(value) {
            Ok(value) => Ok((key, value)),
            Err(unfit_value) => Err(ConvertFault::Unfit(unfit_value)),
        },
        Err(unfit_key) => Err(ConvertFault::Unfit(unfit_key)),
    }
}

/// Converts the entries and inserts them in order into a map with the allocator of `pairs`.
#[tactic(auto, using(crate::proofs::Zips::zip_push))]
pub(super) fn convert_pairs<K, V, M>(pairs: Vec<(Value, Value)>) -> Result<M, ConvertFault>
where
    K: TryFrom<Value, Error = Value> + Drop,
    V: TryFrom<Value, Error = Value> + Drop,
    M: Inserts<K, V>,
    ensures { PairsGive K.try_from_gives V.try_from_gives M.holds pairs.items result }
{
    let mut map = M::empty(*pairs.allocator(), pairs.len());
    for (key, value) in pairs {
        let (key, value) = convert_pair(key, value)?;
        if !map.put(key, value) {
            return Err(ConvertFault::Memory);
        }
    }
    Ok(map)
}
