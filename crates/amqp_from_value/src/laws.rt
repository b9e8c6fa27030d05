//! Laws of the images of lists, described values, variants and maps that contain nothing lazy, and
//! of the bytes of a value.
//!
//! A caller obtains a law by calling its function.

ghost use Rattle.std.specs.Prelude.{◌≡◌, ℕ, Bool, true, List, [], ◌∷◌, Option, Some, if◌then◌else◌};
ghost use Rattle.amqp_ser.specs.Composites.{as_described};
ghost use Rattle.amqp_ser.specs.Compounds.{tree_of_parts};
ghost use Rattle.amqp_ser.specs.Encoding.{encoding};
ghost use Rattle.amqp_ser.specs.Marked.{with_marker};
ghost use Rattle.amqp_ser.specs.Named.{string_key};
ghost use Rattle.amqp_ser.specs.Tree.{Descriptor, Tree, Trees, array, list, described, trees_of};
ghost use Rattle.amqp_ser.specs.declared.kind.CompoundKind.TheVariants as kind;
ghost use Rattle.amqp_ser.specs.declared.marker.Marker.TheVariants as marker;
ghost use Rattle.amqp_decode.specs.Encodes.{Encodes};
ghost use Rattle.amqp_value.specs.Image.{variant_map};
ghost use Rattle.amqp_de.specs.Present.{distinct_names, short_list, short_map, up_to_last};
ghost use Rattle.amqp_from_value.specs.HasImage.{HasImage, HaveImages, FieldsHaveImages};
ghost use Rattle.amqp_from_value.specs.FromReader.{CanBeDecoded};

use crate::RoundTrip;

/// The image of a list is the list of its elements' images.
pub fn lists_return()
    ensures { (ps : List (Option Tree)) (us : Trees) → HaveImages ps us →
        HasImage (tree_of_parts kind.List ps) (list us) }
{}

/// The image of an array is the array of its elements' images.
pub fn arrays_return()
    ensures { (ps : List (Option Tree)) (us : Trees) → HaveImages ps us →
        HasImage (with_marker marker.Array (tree_of_parts kind.List ps)) (array us) }
{}

/// The image of a transparent vector is the list of its elements' images.
pub fn transparent_vectors_return()
    ensures { (ps : List (Option Tree)) (us : Trees) → HaveImages ps us →
        HasImage (with_marker marker.Transparent (tree_of_parts kind.List ps)) (list us) }
{}

/// The image of a described value is the image of the value, after the same descriptor.
pub fn described_return()
    ensures { (d : Descriptor) (p : Option Tree) (u : Tree) → HasImage p u →
        HasImage (as_described (Some d) p) (described d u) }
{}

/// The image of a variant is the map from its index to the image of its content, which is one value
/// or a list of fields.
pub fn variants_return()
    ensures value { (index : ℕ) (p : Option Tree) (u : Tree) → HasImage p u →
        HasImage (tree_of_parts (kind.NewtypeVariant index) (p ∷ [])) (variant_map index u) }
    ensures fields { (index : ℕ) (ps : List (Option Tree)) (us : Trees) → HaveImages ps us →
        HasImage (tree_of_parts (kind.Variant index) ps) (variant_map index (list us)) }
{}

/// The image of a list that is serialized without the absent fields at its end is the list of the
/// images of the other fields.
pub fn short_lists_return()
    ensures complete { (ps : List (Option Tree)) (fs : List (Bool × Tree)) →
        HaveImages ps (trees_of (up_to_last fs)) →
        HasImage (tree_of_parts kind.List ps) (short_list fs) }
    ensures field { (b : Bool) (p : Option Tree) (ps : List (Option Tree)) (t : Tree)
        (ts : List Tree) → HasImage p t → HaveImages ps (trees_of ts) →
        HaveImages (if b then p ∷ ps else []) (trees_of (if b then t ∷ ts else [])) }
{}

/// The image of a map from distinct names to fields is the map from the names to the images of the
/// present fields.
pub fn named_maps_return()
    ensures complete { (ps : List (Option Tree)) (ns : List (List ℕ)) (fs : List (Bool × Tree)) →
        distinct_names ns ≡ true → FieldsHaveImages ps ns fs →
        HasImage (tree_of_parts kind.Map ps) (short_map ns fs) }
    ensures none { FieldsHaveImages [] [] [] }
    ensures must { (n : List ℕ) (p : Option Tree) (ps : List (Option Tree)) (t : Tree)
        (ns : List (List ℕ)) (fs : List (Bool × Tree)) → HasImage p t → FieldsHaveImages ps ns fs →
        FieldsHaveImages (string_key n ∷ p ∷ ps) (n ∷ ns) ((true, t) ∷ fs) }
    ensures may { (b : Bool) (n : List ℕ) (p : Option Tree) (ps : List (Option Tree)) (t : Tree)
        (ns : List (List ℕ)) (fs : List (Bool × Tree)) → HasImage p t → FieldsHaveImages ps ns fs →
        FieldsHaveImages (if b then string_key n ∷ p ∷ ps else ps) (n ∷ ns) ((b, t) ∷ fs) }
{}

/// The bytes of a restorable value encode the image that is declared for it, if its tree is
/// writable, in range, at most 256 deep, and without lazy and transparent parts.
pub fn bytes_have_the_image<T: RoundTrip>()
    ensures { (x : T) (t : Tree) → T.restorable x → T.tree x ≡ Some t → CanBeDecoded t →
        Encodes 256 (encoding t) (T.image x) }
{
    T::law();
    amqp_decode::laws::own_bytes();
}
