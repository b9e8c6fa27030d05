//! Laws of the definitions. A caller's proof uses a law by calling its function.

ghost use Rattle.std.specs.Prelude.{◌≡◌, ◌<◌, ◌↔◌, ℕ, IsTrue, List, [], ◌++◌, length};
ghost use Rattle.std.specs.List.{AllByRecursion, concat};
ghost use Rattle.amqp_frame.specs.Cut.{IsCut};
ghost use Rattle.amqp_frame.specs.EncodedValue.{IsEncodedValue, IsIncomplete, IsMalformed};
ghost use Rattle.amqp_frame.specs.EncodedValue.{HasEncodedValue, HasMalformed, ExactlyOne};
ghost use Rattle.amqp_frame.specs.Whole.{is_encoded_value};

/// At most one prefix of a byte string is an encoded value, so no encoded value is a proper prefix
/// of another.
pub fn one_value_at_a_place()
    ensures { (a b x y : List ℕ) → IsEncodedValue a → IsEncodedValue b → a ++ x ≡ b ++ y → (a ≡ b)
        × (x ≡ y) }
{}

/// At most one prefix of a byte string is malformed.
pub fn one_malformed()
    ensures { (a b x y : List ℕ) → IsMalformed a → IsMalformed b →
        a ++ x ≡ b ++ y → (a ≡ b) × (x ≡ y) }
{}

/// Exactly one of three cases holds for each byte string: a prefix is an encoded value, a prefix is
/// malformed, or the string is incomplete.
pub fn one_case()
    ensures { (s : List ℕ) → ExactlyOne (HasEncodedValue s) (HasMalformed s) (IsIncomplete s) }
{}

/// An encoded value has at least one byte.
pub fn some_byte()
    ensures { (encoded : List ℕ) → IsEncodedValue encoded → 0 < length encoded }
{}

/// The test `is_encoded_value` is true if and only if the bytes are one encoded value.
pub fn one_test()
    ensures { (bytes : List ℕ) → IsTrue (is_encoded_value bytes) ↔ IsEncodedValue bytes }
{}

/// Every byte string can be split into encoded values and a rest that does not begin with one.
pub fn some_cut()
    ensures { (s : List ℕ) → (encoded_values : List (List ℕ)) × (rest : List ℕ)
        × IsCut s encoded_values rest }
{}

/// This split is unique.
pub fn one_cut()
    ensures { (s rest last : List ℕ) (encoded_values others : List (List ℕ)) →
        IsCut s encoded_values rest → IsCut s others last → (encoded_values ≡ others)
        × (rest ≡ last) }
{}

/// A concatenation of encoded values is split into these values, with an empty rest.
pub fn cut_back()
    ensures { (encoded_values : List (List ℕ)) → AllByRecursion IsEncodedValue encoded_values →
        IsCut (concat encoded_values) encoded_values [] }
{}
