//! Reading from an untyped value.

ghost use Rattle.std.specs.Prelude.{◌≡◌, length};
ghost use Rattle.amqp_value.specs.TreeOf.{tree_of};
ghost use Rattle.amqp_de.specs.Results.{IsMemory, TakesAll, BringsAll};

use crate::deserialize::Deserialize;
use crate::fault::Fault;
use crate::held_parts::{Held, HeldElements, HeldEntries};
use crate::keys::find;
use crate::scalar::{Scalar, content_of};
use crate::source::Source;
use crate::source_kind::{SourceKind, source_kind_of};
use amqp_data::Descriptor;
use amqp_value::{Value, ValueKind};
use std::alloc::Global;
use std::collections::VecDeque;

// Drops a value of another type.
#[inline(never)]
fn unexpected_kind(wanted: ValueKind, value: Value) -> Fault
    ensures { ¬ (IsMemory result) }
{
    let found = value.kind();
    drop(value);
    Fault::other(Some(wanted), found)
}

// The functions that build errors are not inlined. Each is called through one that is inlined, so
// that the memory of its result is initialized only if there is an error.

#[inline(always)]
fn other_type<K: Scalar>(found: ValueKind) -> Fault
    ensures { ¬ (IsMemory result) }
{
    Fault::other(K::kind(), found)
}

#[inline(always)]
fn other_element<K: Scalar>(found: ValueKind, count_read: usize) -> Fault
    ensures { ¬ (IsMemory result) }
{
    Fault::other(K::kind(), found).after(Some(count_read))
}

#[inline(always)]
fn other_value(wanted: ValueKind, value: Value) -> Fault
    ensures { ¬ (IsMemory result) }
{
    unexpected_kind(wanted, value)
}

impl Source for Held {
    ghost use Rattle.amqp_de.specs.HeldTrees.{held_tree, held_items, held_pairs};

    type Rest = ();

    type Elements = HeldElements;

    type Entries = HeldEntries;

    type Pending = Value;

    ghost value = { held_tree };

    ghost left = { λ _ _. Unit {0} };

    ghost is_whole = { λ _. Unit {0} };

    ghost holds = { λ es ts. ts ≡ held_items es };

    ghost waits = { λ es _ ts. ts ≡ held_items es };

    ghost items = { held_items };

    ghost are_whole = { λ _. Unit {0} };

    ghost number = { λ es. length (held_items es) };

    ghost holds_pairs = { λ es ps. ps ≡ held_pairs es };

    ghost waits_pair = { λ es _ ps. ps ≡ held_pairs es };

    ghost waits_value = { λ es v _ t ps. (t ≡ tree_of v) × (ps ≡ held_pairs es) };

    ghost pairs = { held_pairs };

    ghost promised = { tree_of };

    ghost pairs_whole = { λ _. Unit {0} };

    ghost pair_number = { λ es. length (held_pairs es) };

    ghost apart = { λ _. Unit {0} };

    ghost needs = { λ _. Unit {0} };

    ghost only = { λ _ _. Unit {0} };

    #[inline(always)]
    fn knows_maps(_entries: &HeldEntries) -> bool {
        true
    }

    #[inline(always)]
    fn is_null(&self) -> bool {
        matches!(&self.value, Value::Null)
    }

    #[inline(always)]
    fn source_kind(&self) -> SourceKind {
        source_kind_of(&self.value)
    }

    #[inline(always)]
    fn null(self) -> Result<(), Fault> {
        match self.value {
            Value::Null => Ok(()),
            other => Err(other_value(ValueKind::Null, other)),
        }
    }

    #[inline(always)]
    fn scalar<K: Scalar>(self, _alloc: Global) -> Result<(K, ()), Fault> {
        match content_of::<K>(self.value) {
            Ok(content) => Ok((content, ())),
            Err(found) => Err(other_type::<K>(found)),
        }
    }

    #[inline(always)]
    fn untyped(self, _alloc: Global) -> Result<(Value, ()), Fault> {
        let Held { value } = self;
        Ok((value, ()))
    }

    #[inline(always)]
    fn list(self) -> Result<(HeldElements, ()), Fault> {
        match self.value {
            Value::List(values) => Ok((HeldElements::of(values), ())),
            other => Err(other_value(ValueKind::List, other)),
        }
    }

    #[inline(always)]
    fn array(self) -> Result<(HeldElements, ()), Fault> {
        match self.value {
            Value::Array(array) => Ok((HeldElements::of(array.into_inner()), ())),
            other => Err(other_value(ValueKind::Array, other)),
        }
    }

    #[inline(always)]
    fn map(self) -> Result<(HeldEntries, ()), Fault> {
        match self.value {
            Value::Map(map) => {
                let pairs = VecDeque::from_vec(map.into_inner());
                let count = pairs.len();
                Ok((HeldEntries { pairs, count }, ()))
            }
            other => Err(other_value(ValueKind::Map, other)),
        }
    }

    #[inline(always)]
    fn described(self, _alloc: Global) -> Result<(Descriptor, Held), Fault> {
        match self.value {
            Value::Described(described) => {
                let described = Box::into_inner(described);
                Ok((
                    described.descriptor,
                    Held {
                        value: described.value,
                    },
                ))
            }
            other => Err(other_value(ValueKind::Described, other)),
        }
    }

    #[inline(always)]
    fn next(elements: &mut HeldElements) -> Option<Held> {
        match elements.values.next() {
            Some(value) => Some(Held { value }),
            None => {
                elements.count = elements.count.saturating_add(1);
                None
            }
        }
    }

    #[inline(always)]
    fn resume(_elements: &mut HeldElements, _rest: ()) {}

    #[inline(always)]
    fn close(_elements: HeldElements) -> Result<(), Fault> {
        Ok(())
    }

    #[inline(always)]
    fn placed(fault: Fault, name: &'static str, count_read: Option<usize>) -> Fault {
        fault.in_field(name, count_read)
    }

    #[inline(always)]
    fn missing(name: &'static str, count_read: Option<usize>) -> Fault {
        Fault::missing(name, count_read)
    }

    #[inline(always)]
    fn count_read(elements: &HeldElements) -> Option<usize> {
        Some(elements.count.saturating_sub(elements.values.len()))
    }

    #[inline(always)]
    fn room(elements: &HeldElements) -> usize {
        elements.values.len()
    }

    // Inlined, so that the compiler knows that the elements are contiguous, as `of` leaves them.
    #[inline(always)]
    fn scalars<K: Scalar>(alloc: Global, elements: HeldElements) -> Result<Vec<K>, Fault> {
        let HeldElements { values, count } = elements;
        let mut values = values;
        let Ok(mut items) = Vec::with_capacity(alloc, values.len()) else {
            return Err(Fault::memory());
        };
        'elements: loop {
            let value = match values.next() {
                Some(value) => value,
                None => return Ok(items),
            };
            match content_of::<K>(value) {
                Ok(content) => items.push_reserved(content),
                Err(found) => {
                    let count_read = count.saturating_sub(values.len());
                    return Err(other_element::<K>(found, count_read));
                }
            }
        }
    }

    #[inline(always)]
    fn next_key(entries: &mut HeldEntries) -> Option<(Held, Value)> {
        match entries.pairs.pop_front() {
            Some((key, value)) => Some((Held { value: key }, value)),
            None => None,
        }
    }

    #[inline(always)]
    fn value_after(_entries: &mut HeldEntries, pending: Value, _rest: ()) -> Result<Held, Fault> {
        Ok(Held { value: pending })
    }

    #[inline(always)]
    fn resume_entries(_entries: &mut HeldEntries, _rest: ()) {}

    fn take_named(entries: &mut HeldEntries, name: &str) -> Option<Held> {
        match find(&entries.pairs, name) {
            Some(at) => match entries.pairs.remove(at) {
                Some((_, value)) => Some(Held { value }),
                None => None,
            },
            None => None,
        }
    }

    #[inline(always)]
    fn close_entries(_entries: HeldEntries) -> Result<(), Fault> {
        Ok(())
    }

    #[inline(always)]
    fn entries_read(entries: &HeldEntries) -> Option<usize> {
        Some(entries.count.saturating_sub(entries.pairs.len()))
    }

    #[inline(always)]
    fn entry_room(entries: &HeldEntries) -> usize {
        entries.pairs.len()
    }
}

/// Reads a `T` from the value.
pub(crate) fn read_value<T: Deserialize>(alloc: Global, value: Value) -> Result<T, Fault>
    ensures read { TakesAll T.reads (tree_of value) (Unit {0}) result }
    ensures law { BringsAll T.image T.restorable T.same (tree_of value) (Unit {0}) result }
{
    match T::deserialize(alloc, Held { value }) {
        Ok(read) => Ok(read),
        Err(fault) => Err(fault),
    }
}
