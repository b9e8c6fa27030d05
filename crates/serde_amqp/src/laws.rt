//! Laws of the definitions. A caller's proof uses a law by calling its function.

ghost use Rattle.std.specs.Prelude.{◌≡◌, ◌≤◌, ℕ, List, Some, Err, true};
ghost use Rattle.amqp_data.specs.declared.error.Error.{Error};
ghost use Rattle.amqp_data.specs.declared.error.Error.TheVariants.{OutOfMemory};
ghost use Rattle.amqp_decode.specs.Depth.{IsOrdinary, depth_of};
ghost use Rattle.amqp_ser.specs.Encoding.{encoding};
ghost use Rattle.amqp_ser.specs.Ranged.{IsRanged};
ghost use Rattle.amqp_ser.specs.Tree.{Tree, lazy};
ghost use Rattle.amqp_ser.specs.Writable.{writable};
ghost use Rattle.amqp_to_value.specs.ImageOf.{Represents, refuses};
ghost use Rattle.amqp_value.specs.Image.{image};
ghost use Rattle.amqp_value.specs.Plain.{IsPlain};
ghost use Rattle.amqp_value.specs.Sound.{IsSound};
ghost use Rattle.amqp_value.specs.TreeOf.{tree_of};
ghost use Rattle.amqp_wire.specs.LazyOf.{IsLazyOf};
ghost use Rattle.serde_amqp.specs.Lines.{lines_of, AreLines};

use amqp_value::Value;

/// Every text is its lines, each followed by 0A; the last 0A may be absent.
pub fn text_is_its_lines()
    ensures { (s : List ℕ) → AreLines s (lines_of s) }
{}

/// A value that represents a lazy value, whose bytes are the encoding of a tree, has the image of
/// that tree as its tree.
///
/// The tree must be writable, at most 256 levels deep, and without lazy and transparent parts, and
/// its contents must be in the ranges of their types. The only error for such a lazy value is
/// `OutOfMemory`.
pub fn lazy_values_have_the_image_of_what_they_hold()
    ensures image { (t : Tree) (v : Value) → IsRanged t → writable t ≡ true → IsOrdinary t →
        depth_of t ≤ 256 → Represents v (Some (lazy (encoding t))) → tree_of v ≡ image t }
    ensures read { (t : Tree) (e : Error) → IsRanged t → writable t ≡ true → IsOrdinary t →
        depth_of t ≤ 256 → refuses e (Some (lazy (encoding t))) → e ≡ OutOfMemory }
{}

/// A sound value, which is writable and at most 256 levels deep, returns from its lazy value: a
/// value that represents the lazy value has the tree of the sound value.
///
/// The only error is `OutOfMemory`, both for the lazy value of the sound value, and for the value
/// that represents it.
pub fn sound_values_return_from_lazy_values()
    ensures value { (v w : Value) → IsSound v → IsRanged (tree_of v) → writable (tree_of v) ≡ true →
        depth_of (tree_of v) ≤ 256 → Represents w (Some (lazy (encoding (tree_of v)))) →
        tree_of w ≡ tree_of v }
    ensures written { (v : Value) (e : Error) → writable (tree_of v) ≡ true →
        IsLazyOf (Some (tree_of v)) (Err e) → e ≡ OutOfMemory }
    ensures read { (v : Value) (e : Error) → IsSound v → IsRanged (tree_of v) →
        writable (tree_of v) ≡ true → depth_of (tree_of v) ≤ 256 →
        refuses e (Some (lazy (encoding (tree_of v)))) → e ≡ OutOfMemory }
{}

/// Plain and writable trees, whose contents are in the ranges of their types, have the same
/// encoding if and only if they have the same image.
pub fn same_bytes_exactly_where_one_image()
    ensures bytes { (t u : Tree) → IsPlain t → IsPlain u → image t ≡ image u →
        encoding t ≡ encoding u }
    ensures image { (t u : Tree) → IsRanged t → IsRanged u → writable t ≡ true → writable u ≡ true →
        IsPlain t → IsPlain u → encoding t ≡ encoding u → image t ≡ image u }
{}
