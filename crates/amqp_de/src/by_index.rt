//! The shape of one of the variants of an enum, which an index selects.

ghost use Rattle.std.specs.Prelude.{◌≡◌, List, [], ◌∷◌, Some, map, MatchResult};
ghost use Rattle.amqp_ser.specs.Tree.{Tree, scalar, uint};
ghost use Rattle.amqp_value.specs.TreeOf.{tree_of};
ghost use Rattle.amqp_de.specs.Enums.{OnEnum, OnListed, OnKeyed, ReadsAtIndex, ReturnsVariant};
ghost use Rattle.amqp_de.specs.Enums.{enum_image, index_of_tree, trees_of_pair, value_of};
ghost use Rattle.amqp_de.specs.Results.{IsMemory, TakesAll, BringsAll};

use crate::fault::{Fault, FaultKind};
use crate::held_parts::Held;
use crate::shape::Shape;
use crate::source::Source;
use crate::variants::Variants;
use amqp_value::{Value, ValueKind};
use std::alloc::Global;

/// One of some variants, which is read from its index, from a list of the index and the value, or
/// from a map from the index to the value.
///
/// # Example
/// `ByIndex(variants! { unit, newtype })` reads the first variant from the uint 0, `43`, and the
/// second one from the map from the uint 1 to its value.
#[derive(Drop)]
pub struct ByIndex<V>(pub V);

impl<V: Variants> Shape for ByIndex<V> {
    type Value = V::Value;

    ghost names = { λ _. [] };

    ghost fits = { λ _. Unit {0} };

    ghost laws = { λ _. record {
      reads = λ t x. OnEnum V.reads t x;
      image = λ x. enum_image (V.position x) (V.content x);
      restorable = V.restorable;
      same = V.same;
    } };

    fn read_parts<S: Source>(self, alloc: Global, source: S) -> Result<(V::Value, S::Rest), Fault> {
        let ByIndex(variants) = self;
        let (value, rest) = match source.untyped(alloc) {
            Ok(read) => read,
            Err(fault) => return Err(fault),
        };
        match read_enum::<V>(alloc, variants, value) {
            Ok(variant) => Ok((variant, rest)),
            Err(fault) => Err(fault),
        }
    }
}

// Reads a variant from its index, a list or a map.
#[tactic(auto, using(crate::proofs::Lists::list_of_trees, crate::proofs::Lists::entries_in_pairs, crate::proofs::Lists::same_pairs), unfolding(crate::specs::Enums::OnEnum))]
fn read_enum<V: Variants>(alloc: Global, variants: V, value: Value) -> Result<V::Value, Fault>
    ensures read { TakesAll (OnEnum V.reads) (tree_of value) (Unit {0}) result }
    ensures law { BringsAll (λ x. enum_image (V.position x) (V.content x))
        V.restorable V.same (tree_of value) (Unit {0}) result }
{
    match value {
        Value::Uint(index) => match variants.read_index(index) {
            Ok(variant) => Ok(variant),
            Err(fault) => Err(fault),
        },
        Value::List(values) => match read_index_and_value::<V>(alloc, variants, values) {
            Ok(variant) => Ok(variant),
            Err(fault) => Err(fault),
        },
        Value::Map(map) => match read_keyed::<V>(alloc, variants, map.into_inner()) {
            Ok(variant) => Ok(variant),
            Err(fault) => Err(fault),
        },
        other => Err(not_an_enum(other)),
    }
}

// Drops a value that is no index, list or map.
fn not_an_enum(value: Value) -> Fault
    ensures { ¬ (IsMemory result) }
{
    let found = value.kind();
    drop(value);
    Fault::other(None, found)
}

// Reads the variant with this index, the first of its list or map, and value, the last of this
// number of values that were taken.
fn read_at<V: Variants>(
    alloc: Global,
    variants: V,
    index: Value,
    value: Option<Value>,
    count_read: usize,
) -> Result<V::Value, Fault>
    ensures read { ReturnsVariant (ReadsAtIndex V.reads (index_of_tree (tree_of index))
        (value_of tree_of value)) result }
    ensures law { (x : V.Value) → V.restorable x →
        tree_of index ≡ scalar (uint (V.position x)) → value_of tree_of value ≡ V.content x →
        MatchResult result (λ y. V.same y x) IsMemory }
{
    match index {
        Value::Uint(index) => match value {
            Some(value) => match variants.read_value(alloc, index, Held { value }) {
                Ok(read) => Ok(read.0),
                Err(fault) => Err(fault.after(Some(count_read))),
            },
            None => match variants.read_index(index) {
                Ok(variant) => Ok(variant),
                Err(fault) => Err(fault.after(Some(1))),
            },
        },
        other => Err(not_an_enum(other).after(Some(1))),
    }
}

// Reads a variant from its index and its value. Further elements are ignored.
fn read_index_and_value<V: Variants>(
    alloc: Global,
    variants: V,
    values: Vec<Value>,
) -> Result<V::Value, Fault>
    ensures { ReturnsVariant (OnListed V.reads (map tree_of values.items)) result }
{
    let mut values = values.into_iter();
    match values.next() {
        Some(index) => match values.next() {
            Some(value) => match read_at::<V>(alloc, variants, index, Some(value), 2) {
                Ok(variant) => Ok(variant),
                Err(fault) => Err(fault),
            },
            None => match read_at::<V>(alloc, variants, index, None, 1) {
                Ok(variant) => Ok(variant),
                Err(fault) => Err(fault),
            },
        },
        None => Err(no_value()),
    }
}

// Reads a variant from one pair of its index and its value.
fn read_keyed<V: Variants>(
    alloc: Global,
    variants: V,
    pairs: Vec<(Value, Value)>,
) -> Result<V::Value, Fault>
    ensures read { ReturnsVariant (OnKeyed V.reads (map trees_of_pair pairs.items)) result }
    ensures law { (x : V.Value) (t : Tree) → V.restorable x →
        V.content x ≡ Some t →
        map trees_of_pair pairs.items ≡ (scalar (uint (V.position x)), t) ∷ [] →
        MatchResult result (λ y. V.same y x) IsMemory }
{
    let mut pairs = pairs.into_iter();
    match pairs.next() {
        Some((index, value)) => match pairs.next() {
            Some(_) => Err(Fault::other(None, ValueKind::Map)),
            None => match read_at::<V>(alloc, variants, index, Some(value), 1) {
                Ok(variant) => Ok(variant),
                Err(fault) => Err(fault),
            },
        },
        None => Err(no_value()),
    }
}

// Returns the error for an enum without a value.
fn no_value() -> Fault
    ensures { ¬ (IsMemory result) }
{
    Fault::new(FaultKind::Message("Expecting a Value")).after(Some(1))
}
