//! Laws of order, equality and hash.

ghost use Rattle.std.specs.Prelude.{◌≡◌, ◌<◌, ◌^◌, ◌&&◌, ℕ, [], ◌∷◌, Box, String, string_bytes};
ghost use Rattle.std.specs.Prelude.{true, false};
ghost use Rattle.std.specs.Cmp.Lexicographic.{pointwise};
ghost use Rattle.std.specs.Global.{Global};
ghost use Rattle.std.specs.Ordering.{is_eq, nat_cmp};
ghost use Rattle.std.specs.declared.cmp.Ordering.TheVariants.{Less};
ghost use Rattle.amqp_data.specs.Fixed.{f32_bits, f64_bits};
ghost use Rattle.amqp_data.specs.Items.{byte_buf_bytes};
ghost use Rattle.amqp_data.specs.Pairs.{entries_of};
ghost use Rattle.amqp_data.specs.Text.{symbol_text};
ghost use Rattle.amqp_value.specs.Order.{cmp_tree, rank};
ghost use Rattle.amqp_value.specs.TreeOf.{tree_of};
ghost use Rattle.amqp_value.specs.declared.value.Value.TheVariants as kind;

use crate::Value;
use amqp_data::{ByteBuf, Described, F32Bits, F64Bits, OrderedMap, Symbol};
use std::hash::Hash;

/// Two values compare as their trees do: by kind first, and then by content.
///
/// # Memory
/// None.
pub fn order_is_of_contents()
    ensures contents { (a b : Value) → ⟦<Value as Ord>⟧.cmp a b ≡ cmp_tree (tree_of a) (tree_of b) }
    ensures kinds { (a b : Value) → rank (tree_of a) < rank (tree_of b) →
        ⟦<Value as Ord>⟧.cmp a b ≡ Less }
{}

/// Two values are equal if and only if `cmp` returns `Equal`.
///
/// # Memory
/// None.
pub fn order_agrees_with_equality()
    ensures { (a b : Value) → ⟦<Value as PartialEq>⟧.eq a b ≡ is_eq (⟦<Value as Ord>⟧.cmp a b) }
{}

/// Equal values have the same hash input.
///
/// # Memory
/// None.
pub fn equal_values_hash_alike()
    ensures { (a b : Value) → ⟦<Value as PartialEq>⟧.eq a b ≡ true
        → ⟦<Value as Hash>⟧.hash_input a ≡ ⟦<Value as Hash>⟧.hash_input b }
{}

/// Two keys of these kinds with the same hash input have the same content.
///
/// # Memory
/// None.
pub fn hashes_tell_keys_apart()
    ensures strings { (a b : String Global) → ⟦<Value as Hash>⟧.hash_input (kind.String a)
        ≡ ⟦<Value as Hash>⟧.hash_input (kind.String b) → string_bytes a ≡ string_bytes b }
    ensures symbols { (a b : Symbol) → ⟦<Value as Hash>⟧.hash_input (kind.Symbol a)
        ≡ ⟦<Value as Hash>⟧.hash_input (kind.Symbol b) → symbol_text a ≡ symbol_text b }
    ensures binaries { (a b : ByteBuf) → ⟦<Value as Hash>⟧.hash_input (kind.Binary a)
        ≡ ⟦<Value as Hash>⟧.hash_input (kind.Binary b) → byte_buf_bytes a ≡ byte_buf_bytes b }
    ensures uints { (m n : ℕ) → m < 2 ^ 32 → n < 2 ^ 32 → ⟦<Value as Hash>⟧.hash_input (kind.Uint m)
        ≡ ⟦<Value as Hash>⟧.hash_input (kind.Uint n) → m ≡ n }
    ensures ulongs { (m n : ℕ) → m < 2 ^ 64 → n < 2 ^ 64
        → ⟦<Value as Hash>⟧.hash_input (kind.Ulong m)
        ≡ ⟦<Value as Hash>⟧.hash_input (kind.Ulong n) → m ≡ n }
    ensures kinds { (a : String Global) (b : Symbol) →
        ¬ (⟦<Value as Hash>⟧.hash_input (kind.String a)
        ≡ ⟦<Value as Hash>⟧.hash_input (kind.Symbol b)) }
{}

/// Maps are compared entry by entry, in order. If two maps have the same two entries in opposite
/// orders, and the keys differ, the maps are not equal.
///
/// # Memory
/// None.
pub fn maps_go_by_pairs_in_order()
    ensures pairs { (m n : OrderedMap Value Value)
        → ⟦<Value as PartialEq>⟧.eq (kind.Map m) (kind.Map n)
        ≡ pointwise (λ p q. ⟦<Value as PartialEq>⟧.eq p.0 q.0 && ⟦<Value as PartialEq>⟧.eq p.1 q.1)
        (entries_of m) (entries_of n) }
    ensures another_order { (m n : OrderedMap Value Value) (k l v w : Value)
        → entries_of m ≡ (k, v) ∷ (l, w) ∷ [] → entries_of n ≡ (l, w) ∷ (k, v) ∷ []
        → ⟦<Value as PartialEq>⟧.eq k l ≡ false
        → ⟦<Value as PartialEq>⟧.eq (kind.Map m) (kind.Map n) ≡ false }
{}

/// Floating-point numbers compare as the unsigned integers of their bits.
///
/// # Memory
/// None.
pub fn bits_compare_as_unsigned_numbers()
    ensures floats { (a b : F32Bits) →
        ⟦<Value as Ord>⟧.cmp (kind.Float a) (kind.Float b) ≡ nat_cmp (f32_bits a) (f32_bits b) }
    ensures doubles { (a b : F64Bits) →
        ⟦<Value as Ord>⟧.cmp (kind.Double a) (kind.Double b) ≡ nat_cmp (f64_bits a) (f64_bits b) }
{}

/// Any described value is less than null.
///
/// # Memory
/// None.
pub fn described_values_come_before_null()
    ensures { (d : Box (Described Value) Global) →
        ⟦<Value as Ord>⟧.cmp (kind.Described d) kind.Null ≡ Less }
{}
