//! Conversions of a `List` to a vector and of an `Array` to an array.

ghost use Rattle.std.specs.Prelude.{◌≡◌, [], ◌∷◌, ◌++◌, MatchResult};
ghost use Rattle.amqp_value.specs.Converts.{ArrayGives, ItemsGive, ListGives};

use super::ConvertFault;
use crate::Value;
use amqp_data::Array;

/// Converts the items of a `List` in order.
///
/// # Errors
/// Returns `Unfit` with a value that is not a `List`, or with the first item that cannot be
/// converted. Returns `Memory` if an allocation fails, which can happen only if the first item can
/// be converted.
///
/// # Memory
/// Allocates once from the list's own allocator, or not at all if there are no items.
///
/// # Example
/// To a `Vec<u8>`, the list of the ubytes 1 and 2 gives 1 and 2. The list of the ubyte 1 and null
/// gives `Unfit(Null)`.
impl<T: TryFrom<Value, Error = Value> + Drop> TryFrom<Value> for Vec<T> {
    type Error = ConvertFault;

    ghost try_from_gives = { ListGives T.try_from_gives };

    fn try_from(value: Value) -> Result<Vec<T>, ConvertFault> {
        match value {
            Value::List(items) => convert_items(items),
            other => Err(ConvertFault::Unfit(other)),
        }
    }
}

/// Converts the elements of an `Array` in order.
///
/// # Errors
/// Returns `Unfit` with a value that is not an `Array`, or with the first element that cannot be
/// converted. Returns `Memory` if an allocation fails, which can happen only if the first element
/// can be converted.
///
/// # Memory
/// Allocates once from the array's own allocator, or not at all if there are no elements.
///
/// # Example
/// To an `Array<u8>`, the array of the ubytes 1 and 2 gives 1 and 2. The list of them gives `Unfit`
/// with that list.
impl<T: TryFrom<Value, Error = Value> + Drop> TryFrom<Value> for Array<T> {
    type Error = ConvertFault;

    ghost try_from_gives = { ArrayGives T.try_from_gives };

    fn try_from(value: Value) -> Result<Array<T>, ConvertFault> {
        match value {
            Value::Array(array) => Ok(Array::from(convert_items(array.into_inner())?)),
            other => Err(ConvertFault::Unfit(other)),
        }
    }
}

#[tactic(auto, using(crate::proofs::Zips::zip_push))]
fn convert_items<T: TryFrom<Value, Error = Value> + Drop>(
    items: Vec<Value>,
) -> Result<Vec<T>, ConvertFault>
    ensures { ItemsGive T.try_from_gives (λ made. made.items) items.items result }
{
    let count = items.len();
    let mut converted = Vec::new(*items.allocator());
    for item in items {
        match T::try_from(item) {
            Ok(part) => put(&mut converted, part, count)?,
            Err(unfit) => return Err(ConvertFault::Unfit(unfit)),
        }
    }
    Ok(converted)
}

// Appends an element. The first call reserves capacity for all of them.
fn put<T: Drop>(parts: &mut Vec<T>, part: T, count: usize) -> Result<(), ConvertFault>
    ensures { MatchResult result
        (λ _. parts.new.items ≡ parts.old.items ++ (part ∷ []))
        (λ fault. fault ≡ ConvertFault.Memory) }
{
    if parts.is_empty() {
        parts.reserve_exact(count)?;
    }
    parts.push(part)?;
    Ok(())
}
