//! Round trips of shapes: restorable parts have a tree whose image is declared.

ghost use Rattle.std.specs.Prelude.{◌≡◌, ℕ, List, Option, Some, true};
ghost use Rattle.amqp_ser.specs.Composites.{as_described};
ghost use Rattle.amqp_ser.specs.Tree.{Tree, code as numbered, name as titled, described};
ghost use Rattle.amqp_ser.specs.Tree.{list, trees_of};
ghost use Rattle.amqp_ser.specs.Words.{list_of, short_list_of, short_map_of};
ghost use Rattle.amqp_de.specs.Laws.{first_name, other_names};
ghost use Rattle.amqp_de.specs.Present.{all_images, short_list, short_map, distinct_names};
ghost use Rattle.amqp_from_value.specs.FieldTrees.{all_field_trees, with_names};
ghost use Rattle.amqp_from_value.specs.HasImage.{HasImage};

use crate::alternatives::RoundTripAlternatives;
use crate::fields::RoundTripFields;
use crate::laws::described_return;
use crate::round_trips::RoundTrip;
use amqp_de::{AfterCode, AfterName, AnyOf, FullListOf, ListOf, MapOf, Of, OneOfTypes};

/// A shape whose parts round-trip.
///
/// The members but `tree` are those of `Shape` of the same type, stated again. As a subtrait, each
/// field would bring both traits of all fields after it into a check.
///
/// # Implementer notes
/// `law` is required and does nothing. Its contract is the law.
pub trait ShapeTree {
    /// The parts.
    type Value;

    /// The tree of the parts, with these names.
    ghost tree: { List (List ℕ) → Self.Value → Option Tree };

    /// The image of the parts, with these names.
    ghost image: { List (List ℕ) → Self.Value → Tree };

    /// Whether parts with these names can be read.
    ghost fits: { List (List ℕ) → Type 0 };

    /// Whether the parts round-trip through their image.
    ghost restorable: { Self.Value → Type 0 };

    /// States that restorable parts have a tree whose image is declared.
    fn law()
        ensures { (ns : List (List ℕ)) (x : Self.Value) → fits ns → restorable x →
            HasImage (tree ns x) (image ns x) };
}

impl<T: RoundTrip> ShapeTree for Of<T> {
    type Value = T;

    ghost tree = { λ _. T.tree };

    ghost image = { λ _. T.image };

    ghost fits = { λ _. Unit {0} };

    ghost restorable = { T.restorable };

    fn law() {
        T::law();
    }
}

#[tactic(auto, using(crate::proofs::FieldTreeLemmas::short_fields))]
impl<F: RoundTripFields> ShapeTree for ListOf<F> {
    type Value = F::Values;

    ghost tree = { λ _ x. short_list_of (F.trees x) };

    ghost image = { λ _ x. short_list (F.images x) };

    ghost fits = { λ _. Unit {0} };

    ghost restorable = { F.restorable };

    fn law() {
        F::law();
    }
}

#[tactic(auto, using(crate::proofs::FieldTreeLemmas::all_fields))]
impl<F: RoundTripFields> ShapeTree for FullListOf<F> {
    type Value = F::Values;

    ghost tree = { λ _ x. list_of (all_field_trees (F.trees x)) };

    ghost image = { λ _ x. list (trees_of (all_images (F.images x))) };

    ghost fits = { λ _. Unit {0} };

    ghost restorable = { F.restorable };

    fn law() {
        F::law();
    }
}

#[tactic(auto, using(crate::proofs::FieldTreeLemmas::named_fields))]
impl<F: RoundTripFields> ShapeTree for MapOf<F> {
    type Value = F::Values;

    ghost tree = { λ ns x. short_map_of (with_names ns (F.trees x)) };

    ghost image = { λ ns x. short_map ns (F.images x) };

    ghost fits = { λ ns. distinct_names ns ≡ true };

    ghost restorable = { F.restorable };

    fn law() {
        F::law();
    }
}

impl<X: ShapeTree> ShapeTree for AnyOf<X> {
    type Value = X::Value;

    ghost tree = { X.tree };

    ghost image = { X.image };

    ghost fits = { X.fits };

    ghost restorable = { X.restorable };

    fn law() {
        X::law();
    }
}

impl<B: RoundTripAlternatives> ShapeTree for OneOfTypes<B> {
    type Value = B;

    ghost tree = { λ _. B.trees };

    ghost image = { λ _ x. described (numbered (B.code_of x)) (B.image x) };

    ghost fits = { λ _. Unit {0} };

    ghost restorable = { B.restorable };

    fn law() {
        B::law();
    }
}

impl<X: ShapeTree, const C: u64> ShapeTree for AfterCode<X, C> {
    type Value = X::Value;

    ghost tree = { λ ns x. as_described (Some (numbered C)) (X.tree ns x) };

    ghost image = { λ ns x. described (numbered C) (X.image ns x) };

    ghost fits = { X.fits };

    ghost restorable = { X.restorable };

    fn law() {
        X::law();
        described_return();
    }
}

impl<X: ShapeTree> ShapeTree for AfterName<X> {
    type Value = X::Value;

    ghost tree = { λ ns x.
        as_described (Some (titled (first_name ns))) (X.tree (other_names ns) x) };

    ghost image = { λ ns x. described (titled (first_name ns)) (X.image (other_names ns) x) };

    ghost fits = { λ ns. X.fits (other_names ns) };

    ghost restorable = { X.restorable };

    fn law() {
        X::law();
        described_return();
    }
}
