//! The tree of each serializable type, one law per type.
//!
//! The `Serialize` implementation of a type declares its tree. These laws state the trees
//! independently of the implementations. A compound has a tree if and only if all its parts have
//! one.

ghost use Rattle.std.specs.Prelude.{◌≡◌, ◌∷◌, [], ℕ, ℤ, List, Bool, true, false, Some, None, Box};
ghost use Rattle.std.specs.Prelude.{String, Vec, map, option_map, string_bytes};
ghost use Rattle.std.specs.Global.{Global};
ghost use Rattle.amqp_data.specs.Fixed.{dec32_bytes, dec64_bytes, dec128_bytes};
ghost use Rattle.amqp_data.specs.Fixed.{f32_bits, f64_bits, milliseconds_of, uuid_bytes};
ghost use Rattle.amqp_data.specs.Items.{array_items, byte_buf_bytes, transparent_items};
ghost use Rattle.amqp_data.specs.Pairs.{entries_of};
ghost use Rattle.amqp_data.specs.Text.{symbol_ref_text, symbol_text};
ghost use Rattle.amqp_data.specs.declared.descriptor.Descriptor.TheVariants.{Code, Name};
ghost use Rattle.amqp_ser.specs.Compounds.{all_trees, parts_of, tree_of_parts};
ghost use Rattle.amqp_ser.specs.Named as fields;
ghost use Rattle.amqp_ser.specs.Named.{string_key, symbol_key, up_to_last, values_of};
ghost use Rattle.amqp_ser.specs.Tree as tree;
ghost use Rattle.amqp_ser.specs.Tree.{scalar};
ghost use Rattle.amqp_ser.specs.declared.kind.CompoundKind.TheVariants.{Map};

use crate::{Field, Fields, ListOf, MapOf, OptionalField, Serialize, SymbolMapOf, VariantOf};
use amqp_data::{
    Array, ByteBuf, Dec32, Dec64, Dec128, Described, F32Bits, F64Bits, OrderedMap, Symbol,
    SymbolRef, Timestamp, TransparentVec, Uuid,
};
use amqp_frame::LazyValue;
use std::collections::BTreeMap;

/// `()` is null, and booleans, integers and characters are their scalars.
pub fn trees_of_numbers()
    ensures unit { ⟦<() as Serialize>⟧.tree tt ≡ Some (scalar tree.null) }
    ensures bool { (b : Bool) → ⟦<bool as Serialize>⟧.tree b ≡ Some (scalar (tree.bool b)) }
    ensures u8 { (n : ℕ) → ⟦<u8 as Serialize>⟧.tree n ≡ Some (scalar (tree.ubyte n)) }
    ensures u16 { (n : ℕ) → ⟦<u16 as Serialize>⟧.tree n ≡ Some (scalar (tree.ushort n)) }
    ensures u32 { (n : ℕ) → ⟦<u32 as Serialize>⟧.tree n ≡ Some (scalar (tree.uint n)) }
    ensures u64 { (n : ℕ) → ⟦<u64 as Serialize>⟧.tree n ≡ Some (scalar (tree.ulong n)) }
    ensures i8 { (z : ℤ) → ⟦<i8 as Serialize>⟧.tree z ≡ Some (scalar (tree.byte z)) }
    ensures i16 { (z : ℤ) → ⟦<i16 as Serialize>⟧.tree z ≡ Some (scalar (tree.short z)) }
    ensures i32 { (z : ℤ) → ⟦<i32 as Serialize>⟧.tree z ≡ Some (scalar (tree.int z)) }
    ensures i64 { (z : ℤ) → ⟦<i64 as Serialize>⟧.tree z ≡ Some (scalar (tree.long z)) }
    ensures char { (c : ℕ) → ⟦<char as Serialize>⟧.tree c ≡ Some (scalar (tree.char c)) }
{}

/// Floats, doubles, decimals, timestamps and uuids are their scalars.
pub fn trees_of_fixed_width()
    ensures f32 { (x : F32Bits) →
        ⟦<F32Bits as Serialize>⟧.tree x ≡ Some (scalar (tree.float (f32_bits x))) }
    ensures f64 { (x : F64Bits) →
        ⟦<F64Bits as Serialize>⟧.tree x ≡ Some (scalar (tree.double (f64_bits x))) }
    ensures dec32 { (x : Dec32) →
        ⟦<Dec32 as Serialize>⟧.tree x ≡ Some (scalar (tree.decimal32 (dec32_bytes x))) }
    ensures dec64 { (x : Dec64) →
        ⟦<Dec64 as Serialize>⟧.tree x ≡ Some (scalar (tree.decimal64 (dec64_bytes x))) }
    ensures dec128 { (x : Dec128) →
        ⟦<Dec128 as Serialize>⟧.tree x ≡ Some (scalar (tree.decimal128 (dec128_bytes x))) }
    ensures timestamp { (x : Timestamp) →
        ⟦<Timestamp as Serialize>⟧.tree x ≡ Some (scalar (tree.timestamp (milliseconds_of x))) }
    ensures uuid { (x : Uuid) →
        ⟦<Uuid as Serialize>⟧.tree x ≡ Some (scalar (tree.uuid (uuid_bytes x))) }
{}

/// `&str` and `String` are strings, `ByteBuf` is a binary, and `Symbol` and `SymbolRef` are
/// symbols.
pub fn trees_of_texts(text: &str)
    ensures str { ⟦<&'static str as Serialize>⟧.tree text.entry
        ≡ Some (scalar (tree.string text.now)) }
    ensures string { (s : String Global) →
        ⟦<String as Serialize>⟧.tree s ≡ Some (scalar (tree.string (string_bytes s))) }
    ensures binary { (b : ByteBuf) →
        ⟦<ByteBuf as Serialize>⟧.tree b ≡ Some (scalar (tree.binary (byte_buf_bytes b))) }
    ensures symbol { (s : Symbol) →
        ⟦<Symbol as Serialize>⟧.tree s ≡ Some (scalar (tree.symbol (symbol_text s))) }
    ensures symbol_ref { (s : SymbolRef) →
        ⟦<SymbolRef<'static> as Serialize>⟧.tree s
        ≡ Some (scalar (tree.symbol (symbol_ref_text s))) }
{}

/// A reference, a box and `Some` have the tree of the inner value, and `None` is null.
pub fn trees_of_holders<T: Serialize>(value: &T)
    ensures reference { ⟦<&'static T as Serialize>⟧.tree value.entry ≡ T.tree value.now }
    ensures boxed { (b : Box T Global) → ⟦<Box<T> as Serialize>⟧.tree b ≡ T.tree b.value }
    ensures some { (x : T) → ⟦<Option<T> as Serialize>⟧.tree (Some x) ≡ T.tree x }
    ensures none { ⟦<Option<T> as Serialize>⟧.tree None ≡ Some (scalar tree.null) }
{}

/// `Vec` and arrays of fixed length are lists, `Array` is an array, and `TransparentVec` is
/// transparent, each with its elements in order.
pub fn trees_of_sequences<T: Serialize, const N: usize>(array: &[T; N])
    ensures vec { (v : Vec T Global) →
        ⟦<Vec<T> as Serialize>⟧.tree v ≡ option_map tree.list (all_trees (map T.tree v.items)) }
    ensures fixed_length { ⟦<[T; N] as Serialize>⟧.tree array.now ≡ option_map tree.list
        (all_trees (map T.tree array.now)) }
    ensures array { (a : Array T) →
        ⟦<Array<T> as Serialize>⟧.tree a ≡ option_map tree.array
        (all_trees (map T.tree (array_items a))) }
    ensures transparent { (v : TransparentVec T) →
        ⟦<TransparentVec<T> as Serialize>⟧.tree v ≡ option_map tree.transparent
        (all_trees (map T.tree (transparent_items v))) }
{}

/// Tuples are lists of their elements.
pub fn trees_of_tuples<A: Serialize, B: Serialize, C: Serialize, D: Serialize>()
    ensures one { (a : A) →
        ⟦<(A,) as Serialize>⟧.tree (record { 0 = a }) ≡ option_map tree.list
        (all_trees (A.tree a ∷ [])) }
    ensures two { (a : A) (b : B) →
        ⟦<(A, B) as Serialize>⟧.tree (a, b) ≡ option_map tree.list
        (all_trees (A.tree a ∷ B.tree b ∷ [])) }
    ensures three { (a : A) (b : B) (c : C) →
        ⟦<(A, B, C) as Serialize>⟧.tree (a, b, c) ≡ option_map tree.list
        (all_trees (A.tree a ∷ B.tree b ∷ C.tree c ∷ [])) }
    ensures four { (a : A) (b : B) (c : C) (d : D) →
        ⟦<(A, B, C, D) as Serialize>⟧.tree (a, b, c, d) ≡ option_map tree.list
        (all_trees (A.tree a ∷ B.tree b ∷ C.tree c ∷ D.tree d ∷ [])) }
{}

/// `BTreeMap` and `OrderedMap` are maps, with the entries in the order of the Rust map.
pub fn trees_of_maps<K: Serialize + Ord, V: Serialize>(sorted: &BTreeMap<K, V>)
    ensures sorted { ⟦<BTreeMap<K, V> as Serialize>⟧.tree sorted.now ≡ tree_of_parts Map
        (parts_of K.tree V.tree sorted.now.entries) }
    ensures ordered { (m : OrderedMap K V) →
        ⟦<OrderedMap<K, V> as Serialize>⟧.tree m ≡ tree_of_parts Map
        (parts_of K.tree V.tree (entries_of m)) }
{}

/// A described value is its descriptor, a name or a code, with the tree of its value.
pub fn trees_of_described_values<T: Serialize>(value: &Described<T>)
    ensures name { (s : Symbol) → value.now.descriptor ≡ Name s →
        ⟦<Described<T> as Serialize>⟧.tree value.now ≡ option_map
        (tree.described (tree.name (symbol_text s))) (T.tree value.now.value) }
    ensures code { (n : ℕ) → value.now.descriptor ≡ Code n →
        ⟦<Described<T> as Serialize>⟧.tree value.now ≡ option_map (tree.described (tree.code n))
        (T.tree value.now.value) }
{}

/// A lazy value is the lazy tree of its bytes.
pub fn trees_of_lazy_values()
    ensures lazy { (bytes : List ℕ) →
        ⟦<LazyValue as Serialize>⟧.tree bytes ≡ Some (tree.lazy bytes) }
{}

/// Fields are listed in order. A required field is present. An optional field is present if it is
/// `Some`; otherwise it is absent, and its tree is null.
pub fn meanings_of_fields<V: Serialize, R: Fields>()
    ensures none { ⟦<() as Fields>⟧.field_trees tt ≡ [] }
    ensures field { (f : Field V R) →
        ⟦<Field<'static, V, R> as Fields>⟧.field_trees f
        ≡ (f.name.now, (true, V.tree f.value)) ∷ R.field_trees f.rest }
    ensures there { (f : OptionalField V R) (x : V) → f.value.now ≡ Some x →
        ⟦<OptionalField<'static, V, R> as Fields>⟧.field_trees f
        ≡ (f.name.now, (true, V.tree x)) ∷ R.field_trees f.rest }
    ensures absent { (f : OptionalField V R) → f.value.now ≡ None →
        ⟦<OptionalField<'static, V, R> as Fields>⟧.field_trees f
        ≡ (f.name.now, (false, Some (scalar tree.null))) ∷ R.field_trees f.rest }
{}

/// Fields are a list up to the last present one, the variant of that list, or a map from the names
/// of the present fields, with strings or symbols as keys.
pub fn trees_of_fields<F: Fields>()
    ensures list { (l : ListOf F) → ⟦<ListOf<F> as Serialize>⟧.tree l
        ≡ option_map tree.list (all_trees (up_to_last (values_of (F.field_trees l.0)))) }
    ensures variant { (v : VariantOf F) → ⟦<VariantOf<F> as Serialize>⟧.tree v
        ≡ option_map (λ ts. tree.variant v.0 (tree.list ts))
        (all_trees (up_to_last (values_of (F.field_trees v.1)))) }
    ensures strings { (m : MapOf F) → ⟦<MapOf<F> as Serialize>⟧.tree m
        ≡ tree_of_parts Map (fields.named_parts string_key (F.field_trees m.0)) }
    ensures symbols { (m : SymbolMapOf F) → ⟦<SymbolMapOf<F> as Serialize>⟧.tree m
        ≡ tree_of_parts Map (fields.named_parts symbol_key (F.field_trees m.0)) }
{}
