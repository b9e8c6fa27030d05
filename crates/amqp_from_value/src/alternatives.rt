//! Round trips of composites, and of values that are one of several composites.

ghost use Rattle.std.specs.Prelude.{ℕ, Option, None};
ghost use Rattle.amqp_ser.specs.Tree.{Tree, code, described, scalar, null};
ghost use Rattle.amqp_de.specs.Branches.{either};
ghost use Rattle.amqp_de.specs.Composites.{RestorableAlternative};
ghost use Rattle.amqp_from_value.specs.HasImage.{HasImage};

use crate::round_trips::RoundTripReadable;
use amqp_de::{Composite, Either, Never};
use amqp_ser::Serialize;

/// A composite that can be read from the untyped value that it is converted to. Each implements
/// `RoundTrip`.
///
/// # Implementer notes
/// `composite_law` is required and does nothing. Its contract is the law. The body calls the
/// function that states it for the shape of the type, such as
/// [`composite_returns`](crate::composite_returns).
pub trait RoundTripComposite: Serialize + Composite {
    /// States that a restorable value has a tree, which contains nothing lazy, and that the tree's
    /// image is the image declared for the value, after the code.
    fn composite_law()
        ensures { (x : Self) → Self.body.restorable x →
            HasImage (Self.tree x) (described (code Self.descriptor_code) (Self.body.image x)) };
}

/// A composite round-trips, after its code or its name.
impl<T: RoundTripComposite> RoundTripReadable for T {
    fn readable_law() {
        T::composite_law();
    }
}

/// One of several such composites.
///
/// The members but `trees` are those of `Alternatives` of the same type, stated again. As a
/// subtrait, each composite would bring both traits of all composites after it into a check.
///
/// # Implementer notes
/// `law` is required and does nothing. Its contract is the law.
pub trait RoundTripAlternatives: Sized {
    /// The tree of the composite.
    ghost trees: { Self → Option Tree };

    /// The code of a value.
    ghost code_of: { Self → ℕ };

    /// The tree after the descriptor of the untyped value that represents a value.
    ghost image: { Self → Tree };

    /// Whether a value round-trips through its image.
    ghost restorable: { Self → Type 0 };

    /// States the law of each composite.
    fn law()
        ensures { (x : Self) → restorable x →
            HasImage (trees x) (described (code (code_of x)) (image x)) };
}

impl RoundTripAlternatives for Never {
    ghost trees = { λ _. None };

    ghost code_of = { λ _. 0 };

    ghost image = { λ _. scalar null };

    ghost restorable = { λ _. ⊥ };

    fn law() {}
}

#[tactic(auto, using(crate::proofs::AlternativeLemmas::either_has_image))]
impl<T: RoundTripComposite, R: RoundTripAlternatives> RoundTripAlternatives for Either<T, R> {
    ghost trees = { either T.tree R.trees };

    ghost code_of = { either (λ _. T.descriptor_code) R.code_of };

    ghost image = { either T.body.image R.image };

    ghost restorable = { RestorableAlternative T.descriptor_code R.code_of T.body.restorable
        R.restorable };

    fn law() {
        T::composite_law();
        R::law();
    }
}
