//! Laws of trees, equality, order, conversions and images. The body of each function is empty; its
//! contract is the law.

ghost use Rattle.std.specs.Prelude.{◌≡◌, [], ℕ, ℤ, Bool, Box, List, Some, String, Vec, true};
ghost use Rattle.std.specs.Global.{Global};
ghost use Rattle.std.specs.Map.{keys_of};
ghost use Rattle.amqp_data.specs.Items.{array_items};
ghost use Rattle.amqp_data.specs.Pairs.{entries_of, insert_pair, AreDistinct};
ghost use Rattle.amqp_ser.specs.Tree.{Scalar, Tree, scalar};
ghost use Rattle.amqp_ser.specs.Same.{same_tree};
ghost use Rattle.amqp_ser.specs.Encoding.{encoding, constructor};
ghost use Rattle.amqp_ser.specs.Writable.{within_limits, uniform_arrays, placed, writable};
ghost use Rattle.amqp_value.specs.Image.{image};
ghost use Rattle.amqp_value.specs.Plain.{IsPlain};
ghost use Rattle.amqp_value.specs.AsMap.{read_as_map};
ghost use Rattle.amqp_value.specs.Sound.{AreSound, AreSoundEntries, HaveSoundParts, IsSound};
ghost use Rattle.amqp_value.specs.TreeOf.{tree_of};

mod conversions;
mod order;

use crate::Value;
use amqp_data::{
    Array, ByteBuf, Dec32, Dec64, Dec128, Described, F32Bits, F64Bits, OrderedMap, Symbol,
    Timestamp, Uuid,
};
use amqp_ser::Serialize;
pub use conversions::{
    elements_convert, elements_have_one_format_code, entries_convert, scalars_come_back,
};
pub use order::{
    bits_compare_as_unsigned_numbers, described_values_come_before_null, equal_values_hash_alike,
    hashes_tell_keys_apart, maps_go_by_pairs_in_order, order_agrees_with_equality,
    order_is_of_contents,
};

/// The tree of a scalar value is the tree of its content.
///
/// # Memory
/// None.
pub fn trees_of_scalar_values()
    ensures null { ⟦<Value as Serialize>⟧.tree Value.Null ≡ ⟦<() as Serialize>⟧.tree tt }
    ensures bool { (b : Bool) →
        ⟦<Value as Serialize>⟧.tree (Value.Bool b) ≡ ⟦<bool as Serialize>⟧.tree b }
    ensures ubyte { (n : ℕ) →
        ⟦<Value as Serialize>⟧.tree (Value.Ubyte n) ≡ ⟦<u8 as Serialize>⟧.tree n }
    ensures ushort { (n : ℕ) →
        ⟦<Value as Serialize>⟧.tree (Value.Ushort n) ≡ ⟦<u16 as Serialize>⟧.tree n }
    ensures uint { (n : ℕ) →
        ⟦<Value as Serialize>⟧.tree (Value.Uint n) ≡ ⟦<u32 as Serialize>⟧.tree n }
    ensures ulong { (n : ℕ) →
        ⟦<Value as Serialize>⟧.tree (Value.Ulong n) ≡ ⟦<u64 as Serialize>⟧.tree n }
    ensures byte { (z : ℤ) →
        ⟦<Value as Serialize>⟧.tree (Value.Byte z) ≡ ⟦<i8 as Serialize>⟧.tree z }
    ensures short { (z : ℤ) →
        ⟦<Value as Serialize>⟧.tree (Value.Short z) ≡ ⟦<i16 as Serialize>⟧.tree z }
    ensures int { (z : ℤ) →
        ⟦<Value as Serialize>⟧.tree (Value.Int z) ≡ ⟦<i32 as Serialize>⟧.tree z }
    ensures long { (z : ℤ) →
        ⟦<Value as Serialize>⟧.tree (Value.Long z) ≡ ⟦<i64 as Serialize>⟧.tree z }
    ensures float { (x : F32Bits) →
        ⟦<Value as Serialize>⟧.tree (Value.Float x) ≡ ⟦<F32Bits as Serialize>⟧.tree x }
    ensures double { (x : F64Bits) →
        ⟦<Value as Serialize>⟧.tree (Value.Double x) ≡ ⟦<F64Bits as Serialize>⟧.tree x }
    ensures decimal32 { (x : Dec32) →
        ⟦<Value as Serialize>⟧.tree (Value.Decimal32 x) ≡ ⟦<Dec32 as Serialize>⟧.tree x }
    ensures decimal64 { (x : Dec64) →
        ⟦<Value as Serialize>⟧.tree (Value.Decimal64 x) ≡ ⟦<Dec64 as Serialize>⟧.tree x }
    ensures decimal128 { (x : Dec128) →
        ⟦<Value as Serialize>⟧.tree (Value.Decimal128 x) ≡ ⟦<Dec128 as Serialize>⟧.tree x }
    ensures char { (c : ℕ) →
        ⟦<Value as Serialize>⟧.tree (Value.Char c) ≡ ⟦<char as Serialize>⟧.tree c }
    ensures timestamp { (x : Timestamp) →
        ⟦<Value as Serialize>⟧.tree (Value.Timestamp x) ≡ ⟦<Timestamp as Serialize>⟧.tree x }
    ensures uuid { (x : Uuid) →
        ⟦<Value as Serialize>⟧.tree (Value.Uuid x) ≡ ⟦<Uuid as Serialize>⟧.tree x }
    ensures binary { (b : ByteBuf) →
        ⟦<Value as Serialize>⟧.tree (Value.Binary b) ≡ ⟦<ByteBuf as Serialize>⟧.tree b }
    ensures string { (s : String Global) →
        ⟦<Value as Serialize>⟧.tree (Value.String s) ≡ ⟦<String as Serialize>⟧.tree s }
    ensures symbol { (s : Symbol) →
        ⟦<Value as Serialize>⟧.tree (Value.Symbol s) ≡ ⟦<Symbol as Serialize>⟧.tree s }
{}

/// The tree of a described value, list, map or array is the tree of its content.
///
/// # Memory
/// None.
pub fn trees_of_compound_values()
    ensures described { (b : Box (Described Value) Global) →
        ⟦<Value as Serialize>⟧.tree (Value.Described b) ≡ ⟦<Described<Value> as Serialize>⟧.tree
        b.value }
    ensures list { (v : Vec Value Global) →
        ⟦<Value as Serialize>⟧.tree (Value.List v) ≡ ⟦<Vec<Value> as Serialize>⟧.tree v }
    ensures map { (m : OrderedMap Value Value) →
        ⟦<Value as Serialize>⟧.tree (Value.Map m)
        ≡ ⟦<OrderedMap<Value, Value> as Serialize>⟧.tree m }
    ensures array { (a : Array Value) →
        ⟦<Value as Serialize>⟧.tree (Value.Array a) ≡ ⟦<Array<Value> as Serialize>⟧.tree a }
{}

/// Two values are equal if and only if their trees are the same, wherever they are allocated.
///
/// # Memory
/// None.
pub fn equality_is_of_contents()
    ensures { (a b : Value) → ⟦<Value as PartialEq>⟧.eq a b ≡ same_tree (tree_of a) (tree_of b) }
{}

/// Two trees are the same, as `same_tree` computes it, if and only if they are equal.
///
/// # Memory
/// None.
pub fn sameness_is_equality()
    ensures equal { (t u : Tree) → same_tree t u ≡ true → t ≡ u }
    ensures same { (t : Tree) → same_tree t t ≡ true }
{}

/// The image of a plain tree is the tree itself with each variant replaced by its map.
///
/// # Memory
/// None.
pub fn image_of_a_plain_tree()
    ensures { (t : Tree) → IsPlain t → image t ≡ read_as_map t }
{}

/// A variant is encoded as its map. Replacing each variant in a tree by its map changes neither the
/// encoding nor the constructor nor any of the conditions on writable trees.
///
/// # Memory
/// None.
pub fn variants_are_written_as_maps()
    ensures bytes { (t : Tree) → encoding (read_as_map t) ≡ encoding t }
    ensures constructor { (t : Tree) → constructor (read_as_map t) ≡ constructor t }
    ensures limits { (t : Tree) → within_limits (read_as_map t) ≡ within_limits t }
    ensures constructors { (t : Tree) → uniform_arrays (read_as_map t) ≡ uniform_arrays t }
    ensures places { (t : Tree) → placed (read_as_map t) ≡ placed t }
{}

/// The image of a plain tree has the same encoding and constructor as the tree, and meets the same
/// conditions on writable trees.
///
/// # Memory
/// None.
pub fn image_is_written_as_the_same_bytes()
    ensures writable { (t : Tree) → IsPlain t → writable (image t) ≡ writable t }
    ensures bytes { (t : Tree) → IsPlain t → encoding (image t) ≡ encoding t }
    ensures constructor { (t : Tree) → IsPlain t → constructor (image t) ≡ constructor t }
    ensures limits { (t : Tree) → IsPlain t → within_limits (image t) ≡ within_limits t }
    ensures constructors { (t : Tree) → IsPlain t → uniform_arrays (image t) ≡ uniform_arrays t }
    ensures places { (t : Tree) → IsPlain t → placed (image t) ≡ placed t }
{}

/// The tree of a sound value, which has distinct keys in each map at every depth, is its own image.
/// A value is sound if and only if its tree is plain.
///
/// # Memory
/// None.
pub fn sound_values_are_their_own_images()
    ensures image { (v : Value) → IsSound v → image (tree_of v) ≡ tree_of v }
    ensures plain { (v : Value) → IsSound v → IsPlain (tree_of v) }
    ensures sound { (v : Value) → IsPlain (tree_of v) → IsSound v }
{}

/// A value whose tree is the image of a tree is sound.
///
/// # Memory
/// None.
pub fn images_are_sound()
    ensures { (t : Tree) (v : Value) → tree_of v ≡ image t → IsSound v }
{}

/// A scalar is sound. A described value, a list or an array is sound if the values in it are sound.
/// A map is sound if its entries are.
///
/// # Memory
/// None.
pub fn sound_parts_make_a_sound_value()
    ensures scalar { (v : Value) (s : Scalar) → tree_of v ≡ scalar s → IsSound v }
    ensures described { (b : Box (Described Value) Global) → IsSound b.value.value →
        IsSound (Value.Described b) }
    ensures list { (v : Vec Value Global) → AreSound v.items → IsSound (Value.List v) }
    ensures map { (m : OrderedMap Value Value) → AreSoundEntries (entries_of m) →
        IsSound (Value.Map m) }
    ensures array { (a : Array Value) → AreSound (array_items a) → IsSound (Value.Array a) }
{}

/// The empty list of entries is sound. Sound entries stay sound if an entry with a sound key and
/// value is inserted. Entries with sound keys and values are sound if the keys are distinct.
///
/// # Memory
/// None.
pub fn sound_entries_stay_sound()
    ensures none { AreSoundEntries [] }
    ensures insert { (es : List (Value × Value)) (k v : Value) → AreSoundEntries es → IsSound k →
        IsSound v → AreSoundEntries (insert_pair ⟦<Value as PartialEq>⟧.eq es k v) }
    ensures distinct { (es : List (Value × Value)) →
        AreDistinct ⟦<Value as PartialEq>⟧.eq (keys_of es) → HaveSoundParts es →
        AreSoundEntries es }
{}
