//! The functions of the filter.
//!
//! Shows newcomers a conversion by `TryFrom` and a comparison in the order of `Value`, each with a
//! contract that states the result.

ghost use Rattle.std.specs.Prelude.{◌≡◌, ℤ};
ghost use Rattle.std.specs.Map.{lookup};
ghost use Rattle.serde_amqp.specs.Pairs.{entries_of};
ghost use Rattle.examples.specs.Kept.{is_kept};

use serde_amqp::Value;
use serde_amqp::primitives::{OrderedMap, Symbol};
use serde_amqp::value::ConvertFault;

/// Converts the untyped value of the properties of a message into a map.
///
/// # Errors
/// Returns `ConvertFault::Unfit` with the value if it is not a map, or with the first key that is
/// not a symbol or value that is not a long. Returns `ConvertFault::Memory` if an allocation fails.
pub fn properties_of(value: Value) -> Result<OrderedMap<Symbol, i64>, ConvertFault>
    ensures { ⟦<OrderedMap<Symbol, i64> as TryFrom<Value>>⟧.try_from_gives value result }
{
    OrderedMap::try_from(value)
}

/// Returns `true` if the property called `name` is present and at least `wanted`.
///
/// The order is that of `Value`.
///
/// # Example
/// If `x-priority` is 5, the result is `true` for the longs 4 and 5, and `false` for the long 6.
pub fn has_at_least(properties: &OrderedMap<Symbol, i64>, name: &Symbol, wanted: &Value) -> bool
    ensures { result ≡ is_kept wanted.now
        (lookup (⟦<Symbol as PartialEq>⟧.eq name.now) (entries_of properties.now)) }
{
    match properties.get(name) {
        Some(number) => Value::from(*number).cmp(wanted).is_ge(),
        None => false,
    }
}
