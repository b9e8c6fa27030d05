//! The serializer trait: its laws, its required methods, and the methods that values call.

ghost use Rattle.std.specs.Prelude.{◌≡◌, ◌++◌, ◌∷◌, [], List, Option, Some, None, Result, Ok, Err};
ghost use Rattle.std.specs.Prelude.{MatchResult, IfErr, IsErr, MatchOption, true};
ghost use Rattle.amqp_ser.specs.Tree.{Tree, scalar, null, string, binary};
ghost use Rattle.amqp_ser.specs.Fixed.{fixed_scalar};
ghost use Rattle.amqp_ser.specs.Ends.{EndsPart};
ghost use Rattle.amqp_ser.specs.Compounds.{tree_of_parts, complete, paired};
ghost use Rattle.amqp_ser.specs.Composites.{as_described, descriptor_of};
ghost use Rattle.amqp_ser.specs.Marked.{with_marker};

use crate::fixed::Fixed;
use crate::kind::CompoundKind;
use crate::marker::Marker;
use crate::whole::Whole;

/// A serializer: turns a data tree into a result, such as its length, its bytes or an untyped
/// value.
///
/// An implementation defines the fourteen required methods. The methods that values call have the
/// names of serde, are built on the required methods, and are the same for every serializer.
///
/// # Data model
/// The kinds of trees, the methods that serialize them, and their format codes (AMQP 1.0 part 1).
/// "As `NAME`": inside `serialize_newtype_struct` with that name. `serialize_some` serializes the
/// value itself.
///
/// | Kind | Methods | Codes | Section |
/// |---|---|---|---|
/// | null | `serialize_none`, `serialize_unit`, `serialize_unit_struct` | `40` | 1.6.1 |
/// | boolean | `serialize_bool` | `41`, `42`, `56` | 1.6.2 |
/// | ubyte | `serialize_u8` | `50` | 1.6.3 |
/// | ushort | `serialize_u16` | `60` | 1.6.4 |
/// | uint | `serialize_u32`, `serialize_unit_variant` | `43`, `52`, `70` | 1.6.5 |
/// | ulong | `serialize_u64` | `44`, `53`, `80` | 1.6.6 |
/// | byte | `serialize_i8` | `51` | 1.6.7 |
/// | short | `serialize_i16` | `61` | 1.6.8 |
/// | int | `serialize_i32` | `54`, `71` | 1.6.9 |
/// | long | `serialize_i64` | `55`, `81` | 1.6.10 |
/// | float | `serialize_f32` | `72` | 1.6.11 |
/// | double | `serialize_f64` | `82` | 1.6.12 |
/// | decimal32 | `serialize_bytes` as `DECIMAL32` | `74` | 1.6.13 |
/// | decimal64 | `serialize_bytes` as `DECIMAL64` | `84` | 1.6.14 |
/// | decimal128 | `serialize_bytes` as `DECIMAL128` | `94` | 1.6.15 |
/// | char | `serialize_char` | `73` | 1.6.16 |
/// | timestamp | `serialize_i64` as `TIMESTAMP` | `83` | 1.6.17 |
/// | uuid | `serialize_bytes` as `UUID` | `98` | 1.6.18 |
/// | binary | `serialize_bytes` | `a0`, `b0` | 1.6.19 |
/// | string | `serialize_str` | `a1`, `b1` | 1.6.20 |
/// | symbol | `serialize_str` as `SYMBOL` | `a3`, `b3` | 1.6.21 |
/// | list | `serialize_seq`, `serialize_tuple` | `45`, `c0`, `d0` | 1.6.22 |
/// | | `serialize_tuple_struct`, `serialize_struct` | | |
/// | map | `serialize_map`, `serialize_struct` named `DESCRIBED_MAP` | `c1`, `d1` | 1.6.23 |
/// | array | `serialize_seq` as `ARRAY` | `e0`, `f0` | 1.6.24 |
/// | described value | `serialize_described`, a struct with a descriptor | `00` | 1.2 |
/// | variant (a map of one pair) | `serialize_newtype_variant` | `c1`, `d1` | 1.6.23 |
/// | | `serialize_tuple_variant`, `serialize_struct_variant` | | |
/// | lazy value (one encoded value) | `serialize_bytes` as `LAZY_VALUE` | its own | 1.2 |
/// | transparent vector (no header) | `serialize_seq` as `TRANSPARENT_VEC` | none | |
///
/// # Errors
/// `permits` determines the errors of a serializer. If there is no tree, the result is always an
/// error. The serializers of this repository return `InvalidValue` if there is no tree and no other
/// error occurs first, and `OutOfMemory` if an allocation for the result fails. Those that measure
/// or write also return `TooLong` if a limit is exceeded, and `InvalidValue` if the tree cannot be
/// written, such as an array with elements of two types.
///
/// # Implementer notes
/// `permits before tree result after` states which results are permitted for a tree, or for none,
/// and the state of the serializer afterwards. After each call, also a failed one, the serializer
/// must be ready for another value. `has start kind now open parts` states that the compound
/// `open`, which was opened in the state `start`, may have accepted these parts. `awaits` states
/// the same of a serializer that is ready for the next part. Three laws relate `has` and `awaits`
/// to the parts. A compound is opened without parts, and each accepted part is appended. If a part
/// fails, the compound is unchanged and the error is permitted for every continuation. When the
/// compound ends, the result is permitted for the tree that the kind makes of the parts.
///
/// # Example
/// For the list of the strings `a` and `bc` the result is the length 10, the bytes
/// `c00802a10161a1026263`, or an untyped list of two strings.
pub trait Serializer {
    ghost use Rattle.amqp_ser.specs.declared.kind.CompoundKind.{CompoundKind};

    /// The output of a successful serialization.
    type Ok: Drop;
    /// The error of a failed serialization.
    type Error: Drop;
    /// A compound that is being serialized.
    type Open: Drop;

    /// The permitted results for a tree, or for none, and the state of the serializer after each.
    ghost permits: { Self → Option Tree → Result Self.Ok Self.Error → Self → Type 0 };

    /// A compound that was opened in the first state may have accepted these parts.
    ghost has: { Self → CompoundKind → Self → Self.Open → List (Option Tree) → Type 0 };

    /// Like `has`, for a serializer that is ready for the next part.
    ghost awaits: { Self → CompoundKind → Self → Self.Open → List (Option Tree) → Type 0 };

    /// A single compound that was opened in the first state is ready for the descriptor of its one
    /// value.
    ghost awaits_descriptor: { Self → Self → Self.Open → Type 0 };

    /// The error of a misuse, such as a value without a key.
    ghost is_misuse_error: { Self.Error → Type 0 };

    /// If there is no tree, the result is an error.
    ghost refuses_none: { (before : Self) (answer : Self.Ok) (after : Self) →
        permits before None (Ok answer) after → ⊥ };

    /// Serializes null or a scalar of fixed width.
    ///
    /// # Encoding
    /// The encoding of its type (AMQP 1.0 part 1, sections 1.6.1 to 1.6.12 and 1.6.16).
    ///
    /// # Errors
    /// Returns the serializer's error, such as `InvalidValue` if the pending marker does not accept
    /// this type or if the elements of the enclosing array have another type.
    ///
    /// # Example
    /// `Fixed::Bool(true)` is `41`, `Fixed::Null` is `40`.
    fn serialize_fixed(&mut self, fixed: Fixed) -> Result<Self::Ok, Self::Error>
        ensures { permits self.old (Some (scalar (fixed_scalar fixed))) result self.new };

    /// Serializes null.
    ///
    /// # Encoding
    /// `40` (AMQP 1.0 part 1, section 1.6.1).
    ///
    /// # Errors
    /// Returns the serializer's error, such as `InvalidValue` if the pending marker does not accept
    /// this type or if the elements of the enclosing array have another type.
    ///
    /// # Example
    /// Null is `40`.
    fn serialize_null(&mut self) -> Result<Self::Ok, Self::Error>
        ensures { permits self.old (Some (scalar null)) result self.new };

    /// Serializes a string.
    ///
    /// # Encoding
    /// `a1` and a length of one byte up to 254 bytes, otherwise `b1` and a length of four bytes; in
    /// an array always `b1` (AMQP 1.0 part 1, section 1.6.20).
    ///
    /// # Errors
    /// Returns the serializer's error, such as `TooLong` for more than 4,294,967,291 bytes,
    /// `InvalidValue` if the pending marker does not accept this type, or `OutOfMemory`.
    ///
    /// # Example
    /// `a` is `a10161`; as an element of an array its payload is `0000000161`.
    fn serialize_str(&mut self, v: &str) -> Result<Self::Ok, Self::Error>
        ensures { permits self.old (Some (scalar (string v.now))) result self.new };

    /// Serializes a binary.
    ///
    /// # Encoding
    /// `a0` and a length of one byte up to 254 bytes, otherwise `b0` and a length of four bytes; in
    /// an array always `b0` (AMQP 1.0 part 1, section 1.6.19).
    ///
    /// # Errors
    /// Returns the serializer's error, such as `TooLong` for more than 4,294,967,291 bytes,
    /// `InvalidValue` if the pending marker does not accept this type, or `OutOfMemory`.
    ///
    /// # Example
    /// The bytes 01, 02 are `a0020102`.
    fn serialize_bytes(&mut self, v: &[u8]) -> Result<Self::Ok, Self::Error>
        ensures { permits self.old (Some (scalar (binary v.now))) result self.new };

    /// Sets the marker that is applied to the next tree.
    ///
    /// # Example
    /// `Marker::Symbol` before the string `amqp`: `a304616d7170`.
    fn set_marker(&mut self, marker: Marker)
        ensures { (t : Option Tree) (r : Result Self.Ok Self.Error) (after : Self) →
            permits self.new t r after → permits self.old (with_marker marker t) r after };

    /// Opens a compound without parts. A single compound need not be ended: the answer of its one
    /// part, after `begin_part`, is that of the compound.
    ///
    /// # Example
    /// `CompoundKind::List`, ended without elements, is `45`.
    fn begin_compound(&mut self, kind: CompoundKind) -> Self::Open
        ensures { has self.old kind self.new result [] };

    /// Returns a placeholder for a compound that has been moved out. It was never opened.
    fn placeholder(&self) -> Self::Open;

    /// Prepares the serializer for the next part of a compound. The first part of a single compound
    /// has the position of the compound itself, so that any method may follow.
    ///
    /// # Example
    /// Before the next element of a list, the string `a`: `end_part` then appends `a10161`.
    fn begin_part(&mut self, compound: &mut Self::Open)
        ensures ready { (start : Self) (kind : CompoundKind) (ps : List (Option Tree)) →
            has start kind self.old compound.old ps → awaits start kind self.new compound.new ps }
        ensures single { (start : Self) → has start CompoundKind.Single self.old compound.old [] →
            (t : Option Tree) (r : Result Self.Ok Self.Error) (after : Self) →
            permits self.new t r after → permits start t r after };

    /// Accepts the result of serializing a part: appends the part, or leaves the compound
    /// unchanged. A part that failed is never accepted.
    ///
    /// # Errors
    /// Returns the error of the part, or the serializer's error for the part after the preceding
    /// ones.
    ///
    /// # Example
    /// The result for `true` appends `41`; an error appends nothing.
    fn end_part(
        &mut self,
        compound: &mut Self::Open,
        part: Result<Self::Ok, Self::Error>,
    ) -> Result<(), Self::Error>
        ensures step { EndsPart permits has awaits
            self.old compound.old part result self.new compound.new }
        ensures refused { IfErr part (λ _. IsErr result) };

    /// Removes the last part: a key whose value failed.
    ///
    /// # Example
    /// Removes the key 1, a ubyte, `5001`. If the map has no other parts, it is `c10100`.
    fn undo_part(&mut self, compound: &mut Self::Open)
        ensures back { (start : Self) (ps : List (Option Tree)) (p : Option Tree) →
            has start CompoundKind.Map self.old compound.old (ps ++ (p ∷ [])) → paired ps ≡ true →
            has start CompoundKind.Map self.new compound.new ps }
        ensures refusals { (start : Self) (ps : List (Option Tree)) (p t : Option Tree)
            (e : Self.Error) →
            has start CompoundKind.Map self.old compound.old (ps ++ (p ∷ [])) → paired ps ≡ true →
            permits start t (Err e) self.old → permits start t (Err e) self.new };

    /// Returns the misuse error, for parts that make no tree. The compound is unchanged.
    ///
    /// # Example
    /// A value without a key in an empty map returns `InvalidValue`. If the map ends then, it is
    /// `c10100`.
    fn misuse_error(&mut self, compound: &mut Self::Open) -> Self::Error
        ensures kept { (start : Self) (kind : CompoundKind) (ps : List (Option Tree)) →
            has start kind self.old compound.old ps →
            has start kind self.new compound.new ps × permits start None (Err result) self.new }
        ensures invalid { is_misuse_error result };

    /// Prepares the serializer for a descriptor, before the one value of a single compound.
    ///
    /// # Example
    /// Before the ulong 1 as the descriptor of `true`: together they are `00530141`.
    fn begin_descriptor(&mut self, compound: &mut Self::Open)
        ensures { (start : Self) → has start CompoundKind.Single self.old compound.old [] →
            awaits_descriptor start self.new compound.new };

    /// Accepts the result of serializing a descriptor: it then describes the value that follows, or
    /// the compound is unchanged. A descriptor that failed is never accepted, nor one that is
    /// neither a ulong nor a symbol.
    ///
    /// # Errors
    /// Returns the error of the descriptor, or the serializer's error for it. Always returns an
    /// error if the descriptor is neither a ulong nor a symbol.
    ///
    /// # Example
    /// The ulong 1 is `005301` before the value, the symbol `a:b` is `00a303613a62`. The ubyte 1 is
    /// rejected.
    fn end_descriptor(
        &mut self,
        compound: &mut Self::Open,
        part: Result<Self::Ok, Self::Error>,
    ) -> Result<(), Self::Error>
        ensures step { (start before : Self) (d : Option Tree) →
            awaits_descriptor start before compound.old → permits before d part self.old →
            MatchResult result
            (λ _. (mid : Self)
            × (has mid CompoundKind.Single self.new compound.new []
            × ((t : Option Tree) (r : Result Self.Ok Self.Error) (after : Self) →
            permits mid t r after → permits start (as_described (descriptor_of d) t) r after)))
            (λ e. has start CompoundKind.Single self.new compound.new [] × ((t : Option Tree) →
            permits start (as_described (descriptor_of d) t) (Err e) self.new)) }
        ensures refused { IfErr part (λ _. IsErr result) }
        ensures other_kinds { (start before : Self) (d : Option Tree) →
            awaits_descriptor start before compound.old → permits before d part self.old →
            descriptor_of d ≡ None → IsErr result };

    /// Ends the compound.
    ///
    /// # Errors
    /// Returns the serializer's error for the tree of the parts. Always returns an error if a part
    /// of a complete compound has no tree.
    ///
    /// # Example
    /// The list of the strings `a` and `bc` is `c00802a10161a1026263`.
    fn end(&mut self, compound: Self::Open) -> Result<Self::Ok, Self::Error>
        ensures { (start : Self) (kind : CompoundKind) (ps : List (Option Tree)) →
            has start kind self.old compound ps →
            complete kind ps ≡ true → permits start (tree_of_parts kind ps) result self.new };

    /// Serializes a value without its parts being serialized one by one. Returns `None` if this
    /// serializer does not support that for the value at this position: the caller then serializes
    /// the parts.
    ///
    /// # Implementer notes
    /// The provided method returns `None`. After `None` the serializer permits only what it
    /// permitted before. If every part of a value were tried again after the value, the cost would
    /// be quadratic in the depth: after a `None` from the value, return `None` for its parts.
    ///
    /// # Example
    /// A serializer that measures may return 3 for the string `a`, `a10161`, or `None`.
    #[inline(always)]
    fn try_whole<W: Whole>(&mut self, whole: &W) -> Option<Self::Ok>
        ensures { MatchOption result
            ((t : Option Tree) (r : Result Self.Ok Self.Error) (after : Self) →
            permits self.new t r after → permits self.old t r after)
            (λ ok. permits self.old (Some (W.whole_tree whole.now)) (Ok ok) self.new) }
    {
        let _whole = whole;
        None
    }
}
