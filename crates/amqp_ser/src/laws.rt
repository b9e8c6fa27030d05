//! Laws of the definitions.
//!
//! A law is a function without effect: its `ensures` clause states the law. A proof uses a law by
//! calling the function.

pub mod trees_of_carried_types;

ghost use Rattle.std.specs.Prelude.{◌≡◌, ◌∷◌, [], ◌<◌, ◌^◌, ℕ, Some, true, false, List, length};
ghost use Rattle.std.specs.Prelude.{map};
ghost use Rattle.std.specs.List.{AllByRecursion, concat};
ghost use Rattle.amqp_frame.specs.Cut.{IsCut};
ghost use Rattle.amqp_frame.specs.EncodedValue.{IsEncodedValue};
ghost use Rattle.amqp_ser.specs.Encoding.{constructor, encoding, payload};
ghost use Rattle.amqp_ser.specs.Forms.{IsForm, has_one_form};
ghost use Rattle.amqp_ser.specs.Ranged.{IsRanged};
ghost use Rattle.amqp_ser.specs.Scalars.{scalar_code, scalar_payload};
ghost use Rattle.amqp_ser.specs.Tree.{Scalar, Tree, scalar, transparent, trees_of, is_transparent};
ghost use Rattle.amqp_ser.specs.Writable.{writable};

/// The encoding of a writable tree in range is shorter than 2^64 bytes.
pub fn written_lengths_fit()
    ensures { (t : Tree) → IsRanged t → writable t ≡ true → length (encoding t) < 2 ^ 64 }
{}

/// The encoding of a tree that can be an element of an array is its constructor and payload in an
/// array, or is shorter than these.
pub fn forms_are_those_of_arrays_or_shorter()
    ensures { (t : Tree) (c : ℕ) → constructor t ≡ Some c → IsForm c (payload t) (encoding t) }
{}

/// The encoding of a scalar with only one form is its constructor and payload in an array.
pub fn one_form_is_that_of_arrays()
    ensures { (s : Scalar) → has_one_form s ≡ true →
        encoding (scalar s) ≡ scalar_code s ∷ scalar_payload s }
{}

/// The encoding of a writable tree in range that is not transparent is one encoded value.
pub fn one_encoded_value()
    ensures { (t : Tree) → IsRanged t → writable t ≡ true →
        is_transparent t ≡ false → IsEncodedValue (encoding t) }
{}

/// The concatenated encodings of writable trees in range, none of them transparent, are split into
/// the encodings of the trees.
pub fn written_values_are_cut_back()
    ensures { (ts : List Tree) → AllByRecursion (λ t.
        IsRanged t × (writable t ≡ true) × (is_transparent t ≡ false)) ts →
        IsCut (concat (map encoding ts)) (map encoding ts) [] }
{}

/// The encoding of a writable transparent tree in range is split into the encodings of its elements
/// if none of them is transparent.
pub fn transparent_elements_are_cut_back()
    ensures { (ts : List Tree) → IsRanged (transparent (trees_of ts)) →
        writable (transparent (trees_of ts)) ≡ true →
        AllByRecursion (λ t. is_transparent t ≡ false) ts →
        IsCut (encoding (transparent (trees_of ts))) (map encoding ts) [] }
{}

/// The encoding of a writable tree in range is a sequence of encoded values without remaining
/// bytes.
pub fn encoded_values_alone()
    ensures { (t : Tree) → IsRanged t → writable t ≡ true →
        (values : List (List ℕ)) × IsCut (encoding t) values [] }
{}
