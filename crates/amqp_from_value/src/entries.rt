//! The number of entries of the maps in an untyped value, counted up to a limit.

ghost use Rattle.std.specs.Prelude.{◌≡◌, ◌+◌, ◌≤◌, ◌<◌, IfSome, IfNone, length, get_or};
ghost use Rattle.std.specs.Bool.{OnTrue, OnFalse};
ghost use Rattle.amqp_value.specs.TreeOf.{tree_of, all_of, pairs_trees};
ghost use Rattle.amqp_value.specs.declared.value.Value.{Value};
ghost use Rattle.amqp_from_value.specs.Entries.{entry_count, entry_count_each, entry_count_pairs};

use amqp_value::Value;

/// Returns whether all maps in a value together have at most so many entries. It counts no further.
///
/// # Example
/// For at most one: true for the map encoded as `c103024040`, false for `c1070240c103024040`, which
/// has a map in a map.
pub(crate) fn has_entries_within(value: &Value, limit: Option<usize>) -> bool
    ensures few { OnTrue result (IfSome limit (λ n. entry_count (tree_of value.now) ≤ n)) }
    ensures many { OnFalse result (¬ IfSome limit (λ n. entry_count (tree_of value.now) ≤ n)) }
{
    match limit {
        Some(limit) => left_by(value, limit).is_some(),
        None => true,
    }
}

// Returns how many entries are left of this number after those in the value, or `None` if there are
// more in it.
#[cycle(entries)]
fn left_by(value: &Value, left: usize) -> Option<usize>
    ensures some { IfSome result (λ rest. entry_count (tree_of value.now) + rest ≡ left) }
    ensures none { IfNone result (left < entry_count (tree_of value.now)) }
{
    match value {
        Value::Described(described) => left_by(&described.value, left),
        Value::List(items) => left_by_items(items, left),
        Value::Array(elements) => left_by_items(elements.as_inner(), left),
        Value::Map(entries) => left_by_entries(entries.as_slice(), left),
        _ => Some(left),
    }
}

// The same for items.
#[cycle(entries)]
fn left_by_items(items: &[Value], left: usize) -> Option<usize>
    ensures some { IfSome result (λ rest. entry_count_each (all_of items.now) + rest ≡ left) }
    ensures none { IfNone result (left < entry_count_each (all_of items.now)) }
{
    let mut rest = left;
    for item in items {
        rest = left_by(item, rest)?;
    }
    Some(rest)
}

// The same for the entries of a map, and for the maps in their keys and values.
#[cycle(entries)]
fn left_by_entries(entries: &[(Value, Value)], left: usize) -> Option<usize>
    ensures some { IfSome result (λ rest.
        entry_count_pairs (pairs_trees entries.now) + rest ≡ left) }
    ensures none { IfNone result (left < entry_count_pairs (pairs_trees entries.now)) }
{
    let mut rest = left;
    let mut at = 0;
    while at < entries.len() {
        let entry = &entries[at];
        rest = rest.checked_sub(1)?;
        rest = left_by(&entry.0, rest)?;
        rest = left_by_value(entries, at, rest)?;
        at += 1;
    }
    Some(rest)
}

// The same for the value of the entry at this index. In a function of its own, the proof that the
// recursion ends is short.
#[cycle(entries)]
fn left_by_value(entries: &[(Value, Value)], at: usize, left: usize) -> Option<usize>
    requires { at < length entries.now }
    ensures some { (e : Value × Value) → e ≡ get_or entries.now at e →
        IfSome result (λ rest. entry_count (tree_of e.1) + rest ≡ left) }
    ensures none { (e : Value × Value) → e ≡ get_or entries.now at e →
        IfNone result (left < entry_count (tree_of e.1)) }
{
    left_by(&entries[at].1, left)
}
