//! Laws of the value that represents a tree, and of trees with lazy values.
//!
//! The body of each function is empty; its contract is the law. A proof calls the function to use
//! the law.

ghost use Rattle.std.specs.Prelude.{◌≡◌, List, ℕ, Some, false, true};
ghost use Rattle.amqp_decode.specs.Encodes.{Encodes};
ghost use Rattle.amqp_ser.specs.Encoding.{encoding};
ghost use Rattle.amqp_ser.specs.Tree.{Scalar, Tree, lazy, scalar};
ghost use Rattle.amqp_ser.specs.Writable.{writable};
ghost use Rattle.amqp_value.specs.AsMap.{read_as_map};
ghost use Rattle.amqp_value.specs.Plain.{IsPlain};
ghost use Rattle.amqp_value.specs.Sound.{IsSound};
ghost use Rattle.amqp_value.specs.TreeOf.{tree_of};
ghost use Rattle.amqp_value.specs.Image.{image};
ghost use Rattle.amqp_to_value.specs.HasLazy.{has_lazy};
ghost use Rattle.amqp_to_value.specs.ImageOf.{Represents};
ghost use Rattle.amqp_to_value.specs.Opened.{Opened};

use amqp_value::Value;

/// A tree that contains nothing lazy is read as itself, and as no other tree.
///
/// # Memory
/// None.
pub fn trees_without_lazy_parts_are_read_as_themselves()
    ensures itself { (t : Tree) → has_lazy t ≡ false → Opened t t }
    ensures alone { (t u : Tree) → has_lazy t ≡ false → Opened t u → u ≡ t }
{}

/// A value represents a tree that contains nothing lazy if and only if the value's tree is the
/// image of that tree.
///
/// # Memory
/// None.
pub fn images_represent_trees_without_lazy_parts()
    ensures image { (t : Tree) (v : Value) → has_lazy t ≡ false → Represents v (Some t) →
        tree_of v ≡ image t }
    ensures represents { (t : Tree) (v : Value) → has_lazy t ≡ false → tree_of v ≡ image t →
        Represents v (Some t) }
{}

/// All values that represent a tree have the same tree.
///
/// # Memory
/// None.
pub fn one_value_stands_for_a_tree()
    ensures { (t : Tree) (v w : Value) → Represents v (Some t) → Represents w (Some t) →
        tree_of v ≡ tree_of w }
{}

/// A value represents a lazy value if and only if the bytes encode it, at most 256 deep.
///
/// # Memory
/// None.
pub fn lazy_values_represent_what_they_encode()
    ensures encoded { (bytes : List ℕ) (v : Value) → Represents v (Some (lazy bytes)) →
        Encodes 256 bytes (tree_of v) }
    ensures represents { (bytes : List ℕ) (v : Value) → Encodes 256 bytes (tree_of v) →
        Represents v (Some (lazy bytes)) }
{}

/// The tree of a value that represents a plain tree is that tree with each variant replaced by its
/// map.
///
/// # Memory
/// None.
pub fn plain_trees_come_back()
    ensures { (t : Tree) (v : Value) → IsPlain t → Represents v (Some t) →
        tree_of v ≡ read_as_map t }
{}

/// A value that represents a plain tree has the same encoding as the tree, and is writable if and
/// only if the tree is.
///
/// # Memory
/// None.
pub fn plain_trees_keep_their_bytes()
    ensures writable { (t : Tree) (v : Value) → IsPlain t → Represents v (Some t) →
        writable (tree_of v) ≡ writable t }
    ensures bytes { (t : Tree) (v : Value) → IsPlain t → Represents v (Some t) →
        encoding (tree_of v) ≡ encoding t }
{}

/// A value that represents the tree of a sound value has that tree and is equal to the sound value.
///
/// # Memory
/// None.
pub fn sound_values_come_back_equal()
    ensures tree { (a b : Value) → IsSound a → Represents b (Some (tree_of a)) →
        tree_of b ≡ tree_of a }
    ensures equal { (a b : Value) → IsSound a → Represents b (Some (tree_of a)) →
        ⟦<Value as PartialEq>⟧.eq b a ≡ true }
{}

/// A value that represents a scalar is equal to every value with the tree of that scalar, such as
/// the one that `From` returns.
///
/// # Memory
/// None.
pub fn scalars_keep_their_content()
    ensures { (s : Scalar) (a b : Value) → tree_of a ≡ scalar s → Represents b (Some (scalar s))
        → ⟦<Value as PartialEq>⟧.eq b a ≡ true }
{}
