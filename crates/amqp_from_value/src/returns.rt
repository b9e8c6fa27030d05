//! Laws of types that are written and read by the parts of a shape. The function of a type's law
//! calls the one that states it.

ghost use Rattle.std.specs.Prelude.{[], ◌∷◌, Some};
ghost use Rattle.amqp_ser.specs.Composites.{as_described};
ghost use Rattle.amqp_ser.specs.Tree.{code, described};
ghost use Rattle.amqp_from_value.specs.HasImage.{HasImage};

use crate::laws::described_return;
use crate::shapes::ShapeTree;
use amqp_de::{Composite, Named, Record};

/// The image of the parts of a shape is declared for their tree.
///
/// # Example
/// The `law` of a type that is read from the list `PointShape` calls
/// `parts_return::<Point, PointShape>()`.
pub fn parts_return<T: Record, X: ShapeTree<Value = T::Values>>()
    requires { X.fits [] }
    ensures { (x : T) → X.restorable (T.parts x) →
        HasImage (X.tree [] (T.parts x)) (X.image [] (T.parts x)) }
{
    X::law();
}

/// The same for a map, whose fields have names.
///
/// # Example
/// The `law` of a type that is read from the map `PlaceShape` calls
/// `Place::names_are_distinct()` and `named_parts_return::<Place, PlaceShape>()`.
pub fn named_parts_return<T: Record + Named, X: ShapeTree<Value = T::Values>>()
    requires { X.fits T.names }
    ensures { (x : T) → X.restorable (T.parts x) →
        HasImage (X.tree T.names (T.parts x)) (X.image T.names (T.parts x)) }
{
    X::law();
}

/// The image of the parts of a shape is declared for their tree, both after the code of a
/// composite.
///
/// # Example
/// The `composite_law` of a type that is read from the list `HeaderShape` calls
/// `composite_returns::<Header, HeaderShape>()`.
pub fn composite_returns<T: Record + Composite, X: ShapeTree<Value = T::Values>>()
    requires { X.fits [] }
    ensures { (x : T) → X.restorable (T.parts x) →
        HasImage (as_described (Some (code T.descriptor_code)) (X.tree [] (T.parts x)))
        (described (code T.descriptor_code) (X.image [] (T.parts x))) }
{
    X::law();
    described_return();
}

/// The same for a map, whose fields have names.
///
/// # Example
/// The `composite_law` of a type that is read from the map `PlaceShape` calls
/// `Place::names_are_distinct()` and `named_composite_returns::<Place, PlaceShape>()`.
pub fn named_composite_returns<T: Record + Named + Composite, X: ShapeTree<Value = T::Values>>()
    requires { X.fits T.names }
    ensures { (x : T) → X.restorable (T.parts x) →
        HasImage (as_described (Some (code T.descriptor_code)) (X.tree T.names (T.parts x)))
        (described (code T.descriptor_code) (X.image T.names (T.parts x))) }
{
    X::law();
    described_return();
}

/// The image of the parts of a shape is declared for their tree, both after a name.
///
/// # Example
/// The `law` of a type that is read from the list `ShopShape` after the name `shop:shop` calls
/// `after_name_returns::<Shop, ShopShape>("shop:shop")`.
pub fn after_name_returns<T: Record, X: ShapeTree<Value = T::Values>>(name: &'static str)
    requires { X.fits (name.now ∷ []) }
    ensures { (x : T) → X.restorable (T.parts x) →
        HasImage (X.tree (name.now ∷ []) (T.parts x)) (X.image (name.now ∷ []) (T.parts x)) }
{
    X::law();
}

/// The same for a map, whose fields have names.
///
/// # Example
/// The `law` of a type that is read from the map `ShopShape` after the name `shop:shop` calls
/// `Shop::names_are_distinct()` and `named_after_name_returns::<Shop, ShopShape>("shop:shop")`.
pub fn named_after_name_returns<T: Record + Named, X: ShapeTree<Value = T::Values>>(
    name: &'static str,
)
    requires { X.fits (name.now ∷ T.names) }
    ensures { (x : T) → X.restorable (T.parts x) →
        HasImage (X.tree (name.now ∷ T.names) (T.parts x))
        (X.image (name.now ∷ T.names) (T.parts x)) }
{
    X::law();
}
