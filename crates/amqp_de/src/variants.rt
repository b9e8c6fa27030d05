//! The variants of an enum, in order.

ghost use Rattle.std.specs.Prelude.{◌≡◌, ℕ, [], Option, Some, None, IfOk, MatchResult};
ghost use Rattle.amqp_ser.specs.Tree.{Tree};
ghost use Rattle.amqp_de.specs.Branches.{SameEither};
ghost use Rattle.amqp_de.specs.Enums.{IsUnitVariant, IsDataVariant, IsNoVariant};
ghost use Rattle.amqp_de.specs.Enums.{index_of, data_of, RestorableEither, TakesAt, BringsAt};
ghost use Rattle.amqp_de.specs.Reads.{Always};
ghost use Rattle.amqp_de.specs.Results.{IsMemory, Takes};

use crate::branches::{Either, Never};
use crate::fault::{Fault, FaultKind};
use crate::shape::Nameless;
use crate::source::Source;
use amqp_value::ValueKind;
use std::alloc::Global;

/// The variants to read, in order. The macro `variants!` of serde_amqp builds them.
///
/// # Implementer notes
/// Required methods: `read_index` and `read_value`. They return a variant that `reads` relates to
/// the index and the value (`read`), and from the `position` and the `content` of a restorable one
/// the same (`law`). [`UnitVariant`] tests for 0, and passes the index less 1 to `rest`.
pub trait Variants: Sized + Drop {
    /// The type of one of the variants.
    type Value: Drop;

    /// Which index and value are read as which variant.
    ghost reads: { ℕ → Option Tree → Self.Value → Type 0 };

    /// The index of a variant.
    ghost position: { Self.Value → ℕ };

    /// The image of the value of a variant, if it has one.
    ghost content: { Self.Value → Option Tree };

    /// Whether a variant round-trips through its image.
    ghost restorable: { Self.Value → Type 0 };

    /// Whether two variants have the same contents.
    ghost same: { Self.Value → Self.Value → Type 0 };

    /// Returns the variant with this index, which has no value.
    fn read_index(self, index: u32) -> Result<Self::Value, Fault>
        ensures read { TakesAt reads index None result }
        ensures law { BringsAt position content restorable same index None result };

    /// Reads the variant with this index from its value.
    fn read_value<S: Source>(
        self,
        alloc: Global,
        index: u32,
        source: S,
    ) -> Result<(Self::Value, S::Rest), Fault>
        ensures read { Takes (λ t x. reads index (Some t) x) (S.value source)
            (S.is_whole source) (S.left source) result }
        ensures law { (x : Self.Value) → restorable x → index ≡ position x →
            Some (S.value source) ≡ content x →
            MatchResult result (λ y. same y.0 x) (λ e. S.is_whole source → IsMemory e) };
}

/// No more variants.
impl Variants for () {
    type Value = Never;

    ghost reads = { IsNoVariant };

    ghost position = { λ _. 0 };

    ghost content = { λ _. None };

    ghost restorable = { λ _. ⊥ };

    ghost same = { λ _ _. ⊥ };

    fn read_index(self, _index: u32) -> Result<Never, Fault> {
        Err(Fault::other(None, ValueKind::Uint))
    }

    fn read_value<S: Source>(
        self,
        _alloc: Global,
        _index: u32,
        _source: S,
    ) -> Result<(Never, S::Rest), Fault> {
        // The place is that of the index. What `read_at` adds is the place of the value, which is
        // no way to it: so there is no path.
        Err(
            Fault::other(None, ValueKind::Uint)
                .after(Some(1))
                .after(None),
        )
    }
}

/// A variant without a value, and the variants after it. A value after the index is ignored.
#[derive(Drop)]
pub struct UnitVariant<R> {
    /// The variants after it; `()` if there are none.
    pub rest: R,
}

impl<R: Variants> Variants for UnitVariant<R> {
    type Value = Either<(), R::Value>;

    ghost reads = { IsUnitVariant R.reads };

    ghost position = { index_of R.position };

    ghost content = { data_of (λ _. None) R.content };

    ghost restorable = { RestorableEither Always R.restorable };

    ghost same = { SameEither (λ x y. x ≡ y) R.same };

    fn read_index(self, index: u32) -> Result<Either<(), R::Value>, Fault> {
        if index == 0 {
            return Ok(Either::This(()));
        }
        match self.rest.read_index(index - 1) {
            Ok(other) => Ok(Either::Other(other)),
            Err(fault) => Err(fault),
        }
    }

    fn read_value<S: Source>(
        self,
        alloc: Global,
        index: u32,
        source: S,
    ) -> Result<(Either<(), R::Value>, S::Rest), Fault> {
        if index == 0 {
            return match source.untyped(alloc) {
                Ok((ignored, rest)) => {
                    drop(ignored);
                    Ok((Either::This(()), rest))
                }
                Err(fault) => Err(fault),
            };
        }
        match self.rest.read_value(alloc, index - 1, source) {
            Ok((other, rest)) => Ok((Either::Other(other), rest)),
            Err(fault) => Err(fault),
        }
    }
}

/// A variant with a value, and the variants after it.
#[derive(Drop)]
pub struct DataVariant<X, R> {
    /// The shape of the value.
    pub shape: X,
    /// The error message if the value is missing.
    pub missing: &'static str,
    /// The variants after it; `()` if there are none.
    pub rest: R,
}

impl<X: Nameless, R: Variants> Variants for DataVariant<X, R> {
    type Value = Either<X::Value, R::Value>;

    ghost reads = { IsDataVariant (X.laws []).reads R.reads };

    ghost position = { index_of R.position };

    ghost content = { data_of (λ x. Some ((X.laws []).image x)) R.content };

    ghost restorable = { RestorableEither (X.laws []).restorable R.restorable };

    ghost same = { SameEither (X.laws []).same R.same };

    fn read_index(self, index: u32) -> Result<Either<X::Value, R::Value>, Fault> {
        if index == 0 {
            return Err(Fault::new(FaultKind::Message(self.missing)).in_value(ValueKind::Uint));
        }
        match self.rest.read_index(index - 1) {
            Ok(other) => Ok(Either::Other(other)),
            Err(fault) => Err(fault),
        }
    }

    fn read_value<S: Source>(
        self,
        alloc: Global,
        index: u32,
        source: S,
    ) -> Result<(Either<X::Value, R::Value>, S::Rest), Fault> {
        let DataVariant {
            shape,
            missing: _,
            rest: others,
        } = self;
        if index == 0 {
            drop(others);
            return match shape.read_nameless(alloc, source) {
                Ok((this, rest)) => Ok((Either::This(this), rest)),
                Err(fault) => Err(fault),
            };
        }
        drop(shape);
        match others.read_value(alloc, index - 1, source) {
            Ok((other, rest)) => Ok((Either::Other(other), rest)),
            Err(fault) => Err(fault),
        }
    }
}
