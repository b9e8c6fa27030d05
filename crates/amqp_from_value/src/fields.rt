//! Round trips of fields: each field of a restorable value has a tree whose image is declared.

ghost use Rattle.std.specs.Prelude.{List, [], ◌∷◌, Option, Bool, true, is_some};
ghost use Rattle.amqp_ser.specs.Carried as ser;
ghost use Rattle.amqp_ser.specs.Tree.{Tree};
ghost use Rattle.amqp_de.specs.Defaults.{RestorableDefaulted};
ghost use Rattle.amqp_de.specs.Parts.{images_of_fields, RestorableFields};
ghost use Rattle.amqp_de.specs.Reads.{Always, RestorableOption, image_option};
ghost use Rattle.amqp_from_value.specs.FieldTrees.{FieldTreesHaveImages};
ghost use Rattle.amqp_from_value.specs.HasImage.{HasImage};

use crate::round_trips::RoundTrip;
use amqp_de::{Defaulted, FieldValues, Four, Of, One};

/// A kind of field whose type round-trips.
///
/// The members but `tree` are those of `FieldKind` of the same type, stated again, as those of
/// [`RoundTripFields`] are.
///
/// # Implementer notes
/// `law` is required and does nothing. Its contract is the law.
pub trait RoundTripField {
    /// The type of the value.
    type Value;

    /// Whether a value is present.
    ghost present: { Self.Value → Bool };

    /// The tree of a value.
    ghost tree: { Self.Value → Option Tree };

    /// The image of a value.
    ghost image: { Self.Value → Tree };

    /// Whether a value round-trips through its image.
    ghost restorable: { Self.Value → Type 0 };

    /// States that a restorable value has a tree whose image is declared.
    fn law()
        ensures { (x : Self.Value) → restorable x → HasImage (tree x) (image x) };
}

impl<V: RoundTrip> RoundTripField for Of<V> {
    type Value = V;

    ghost present = { λ _. true };

    ghost tree = { V.tree };

    ghost image = { V.image };

    ghost restorable = { V.restorable };

    fn law() {
        V::law();
    }
}

impl<V: RoundTrip> RoundTripField for Option<V> {
    type Value = Option<V>;

    ghost present = { is_some };

    ghost tree = { ser.optional V.tree };

    ghost image = { image_option V.image };

    ghost restorable = { RestorableOption V.image V.restorable };

    fn law() {
        <Option<V> as RoundTrip>::law();
    }
}

impl<V: RoundTrip, const D: u64> RoundTripField for Defaulted<V, D> {
    type Value = V;

    ghost present = { λ _. true };

    ghost tree = { V.tree };

    ghost image = { V.image };

    ghost restorable = { RestorableDefaulted V.image V.restorable };

    fn law() {
        V::law();
    }
}

/// Fields whose types round-trip.
///
/// The members but `trees` are those of `FieldSeeds` of the same fields, stated again. As a
/// subtrait, each field would bring both traits of all fields after it into a check, whose time
/// would grow with the cube of the number of fields.
///
/// # Implementer notes
/// `law` is required and does nothing. Its contract is the law.
pub trait RoundTripFields {
    /// The values of the fields.
    type Values;

    /// Whether each field is present, and its tree, in order.
    ghost trees: { Self.Values → List (Bool × Option Tree) };

    /// Whether each field is present, and its image, in order.
    ghost images: { Self.Values → List (Bool × Tree) };

    /// Whether every field round-trips through its image.
    ghost restorable: { Self.Values → Type 0 };

    /// States that each field of restorable fields has a tree whose image is the declared image.
    fn law()
        ensures { (x : Self.Values) → restorable x → FieldTreesHaveImages (trees x) (images x) };
}

#[tactic(auto, unfolding(crate::specs::FieldTrees::FieldTreesHaveImages))]
impl RoundTripFields for () {
    type Values = ();

    ghost trees = { λ _. [] };

    ghost images = { λ _. [] };

    ghost restorable = { Always };

    fn law() {}
}

#[tactic(auto, unfolding(crate::specs::FieldTrees::FieldTreesHaveImages))]
impl<F: RoundTripField, R: RoundTripFields> RoundTripFields for One<F, R> {
    type Values = FieldValues<F::Value, R::Values>;

    ghost trees = { λ x. (F.present x.value, F.tree x.value) ∷ R.trees x.rest };

    ghost images = { images_of_fields F.present F.image R.images };

    ghost restorable = { RestorableFields F.restorable R.restorable };

    fn law() {
        F::law();
        R::law();
    }
}

#[tactic(auto, unfolding(crate::specs::FieldTrees::FieldTreesHaveImages))]
impl<
    A: RoundTripField,
    B: RoundTripField,
    C: RoundTripField,
    D: RoundTripField,
    R: RoundTripFields,
> RoundTripFields for Four<A, B, C, D, R> {
    type Values = FieldValues<
        A::Value,
        FieldValues<B::Value, FieldValues<C::Value, FieldValues<D::Value, R::Values>>>,
    >;

    ghost trees = { λ x. (A.present x.value, A.tree x.value)
        ∷ (B.present x.rest.value, B.tree x.rest.value)
        ∷ (C.present x.rest.rest.value, C.tree x.rest.rest.value)
        ∷ (D.present x.rest.rest.rest.value, D.tree x.rest.rest.rest.value)
        ∷ R.trees x.rest.rest.rest.rest };

    ghost images = { images_of_fields A.present A.image (images_of_fields B.present B.image
        (images_of_fields C.present C.image (images_of_fields D.present D.image R.images))) };

    ghost restorable = { RestorableFields A.restorable (RestorableFields B.restorable
        (RestorableFields C.restorable (RestorableFields D.restorable R.restorable))) };

    fn law() {
        A::law();
        B::law();
        C::law();
        D::law();
        R::law();
    }
}
