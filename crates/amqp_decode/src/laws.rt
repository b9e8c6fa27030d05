//! Laws of the definitions. A caller obtains a law by calling its function.

ghost use Rattle.std.specs.Prelude.{◌≡◌, ◌≤◌, ℕ, List, true};
ghost use Rattle.amqp_frame.specs.EncodedValue.{IsEncodedValue};
ghost use Rattle.amqp_ser.specs.Encoding.{encoding};
ghost use Rattle.amqp_ser.specs.Ranged.{IsRanged};
ghost use Rattle.amqp_ser.specs.Tree.{Tree};
ghost use Rattle.amqp_ser.specs.Writable.{writable};
ghost use Rattle.amqp_value.specs.Image.{image};
ghost use Rattle.amqp_value.specs.Plain.{IsPlain};
ghost use Rattle.amqp_decode.specs.Depth.{IsOrdinary, depth_of};
ghost use Rattle.amqp_decode.specs.Encodes.{Encodes};

/// Bytes encode at most one tree, whatever the depth limits.
pub fn one_tree()
    ensures { (d e : ℕ) (bytes : List ℕ) (t u : Tree) →
        Encodes d bytes t → Encodes e bytes u → t ≡ u }
{}

/// Bytes that encode a tree are one encoded value.
pub fn encoding_is_one_encoded_value()
    ensures { (d : ℕ) (bytes : List ℕ) (t : Tree) → Encodes d bytes t → IsEncodedValue bytes }
{}

/// A tree that bytes encode is its own image, because no map in it has the same key twice.
pub fn encoded_trees_are_their_own_images()
    ensures { (d : ℕ) (bytes : List ℕ) (t : Tree) → Encodes d bytes t → image t ≡ t }
{}

/// The encoding of a tree is an encoding of its image, if the tree is writable, its contents are in
/// the ranges of their types, no part of it is lazy or transparent, and its depth is within the
/// limit.
pub fn own_bytes()
    ensures { (t : Tree) (d : ℕ) → IsRanged t → writable t ≡ true →
        IsOrdinary t → depth_of t ≤ d → Encodes d (encoding t) (image t) }
{}

/// Two trees with the same encoding have the same image, if both are writable, their contents are
/// in the ranges of their types, and no part of them is lazy or transparent.
pub fn same_bytes_same_image()
    ensures { (t u : Tree) → IsRanged t → IsRanged u → writable t ≡ true → writable u ≡ true →
        IsOrdinary t → IsOrdinary u → encoding t ≡ encoding u → image t ≡ image u }
{}

/// Plain trees with the same image have the same encoding.
pub fn same_image_same_bytes()
    ensures { (t u : Tree) → IsPlain t → IsPlain u → image t ≡ image u → encoding t ≡ encoding u }
{}
