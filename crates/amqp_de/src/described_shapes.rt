//! Shapes after a descriptor that is a code alone, or a name alone.

ghost use Rattle.std.specs.Prelude.{◌∷◌};
ghost use Rattle.amqp_ser.specs.Tree.{code as numbered, name as titled, described};
ghost use Rattle.amqp_de.specs.Fields.{OnDescribed};
ghost use Rattle.amqp_de.specs.Laws.{first_name, other_names};

use crate::fault::Fault;
use crate::seed::{After, Seed};
use crate::shape::Shape;
use crate::source::Source;
use std::alloc::Global;

// A shape as the seed of its parts.
#[derive(Drop)]
struct Parts<X>(X);

impl<X: Shape> Seed for Parts<X> {
    type Value = X::Value;

    ghost reads = { λ s. (X.laws (X.names s.0)).reads };

    ghost image = { λ s. (X.laws (X.names s.0)).image };

    ghost short = { λ s. (X.laws (X.names s.0)).image };

    ghost restorable = { λ s. (X.laws (X.names s.0)).restorable };

    ghost same = { λ s. (X.laws (X.names s.0)).same };

    ghost fits = { λ s. X.fits (X.names s.0) };

    #[inline(always)]
    fn read<S: Source>(self, alloc: Global, source: S) -> Result<(X::Value, S::Rest), Fault> {
        self.0.read_parts(alloc, source)
    }
}

/// A shape after the code `C`, for a type that has no name.
///
/// # Example
/// `AfterCode::<_, 0x80>(ListOf(named! { "x" }))` reads a list of one field, described by the code
/// 0x80.
#[derive(Drop)]
pub struct AfterCode<X, const C: u64>(pub X);

impl<X: Shape, const C: u64> Shape for AfterCode<X, C> {
    type Value = X::Value;

    ghost names = { λ s. X.names s.0 };

    ghost fits = { X.fits };

    ghost laws = { λ ns. record {
      reads = λ t x. OnDescribed (numbered C) (λ u. (X.laws ns).reads u x) t;
      image = λ x. described (numbered C) ((X.laws ns).image x);
      restorable = (X.laws ns).restorable;
      same = (X.laws ns).same;
    } };

    #[inline(always)]
    fn read_parts<S: Source>(self, alloc: Global, source: S) -> Result<(X::Value, S::Rest), Fault> {
        After(C, Parts(self.0)).read(alloc, source)
    }
}

/// A shape after a name, which is the first of its names, for a type that has no code.
///
/// # Example
/// `AfterName("shop:shop", ListOf(named! { "x" }))` reads a list of one field, described by the
/// symbol `shop:shop`.
#[derive(Drop)]
pub struct AfterName<X>(pub &'static str, pub X);

impl<X: Shape> Shape for AfterName<X> {
    type Value = X::Value;

    ghost names = { λ s. s.0.now ∷ X.names s.1 };

    ghost fits = { λ ns. X.fits (other_names ns) };

    ghost laws = { λ ns. record {
      reads = λ t x.
          OnDescribed (titled (first_name ns)) (λ u. (X.laws (other_names ns)).reads u x) t;
      image = λ x. described (titled (first_name ns)) ((X.laws (other_names ns)).image x);
      restorable = (X.laws (other_names ns)).restorable;
      same = (X.laws (other_names ns)).same;
    } };

    #[inline(always)]
    fn read_parts<S: Source>(self, alloc: Global, source: S) -> Result<(X::Value, S::Rest), Fault> {
        let AfterName(name, shape) = self;
        After(name, Parts(shape)).read(alloc, source)
    }
}
