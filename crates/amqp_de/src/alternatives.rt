//! Enums whose variants are composites: the descriptor selects the variant.

ghost use Rattle.std.specs.Prelude.{ℕ, List, []};
ghost use Rattle.amqp_ser.specs.Carried.{descriptor_content};
ghost use Rattle.amqp_ser.specs.Tree.{Tree, Descriptor as AnyDescriptor};
ghost use Rattle.amqp_ser.specs.Tree.{code as numbered, described, scalar, null};
ghost use Rattle.amqp_de.specs.Branches.{OnBranches, either, SameEither};
ghost use Rattle.amqp_de.specs.Composites.{IsCodeOrName};
ghost use Rattle.amqp_de.specs.Composites.{IsAlternative, RestorableAlternative};
ghost use Rattle.amqp_de.specs.Results.{Takes, BringsBranch};

use crate::branches::{Branches, Either, Never, OneOf};
use crate::composite::{Composite, is_descriptor_of};
use crate::fault::Fault;
use crate::seed::Seed;
use crate::shape::Shape;
use crate::source::Source;
use amqp_data::Descriptor;
use std::alloc::Global;
use std::marker::PhantomData;

/// One of several composites, which the descriptor selects: [`Either`] of each and the others, and
/// after the last [`Never`], or a type that is read after any other descriptor.
pub trait Alternatives: Sized + Drop {
    /// Which descriptor and which tree after it are read as which value.
    ghost reads: { AnyDescriptor → Tree → Self → Type 0 };

    /// The code of a value.
    ghost code_of: { Self → ℕ };

    /// The tree after the descriptor of the untyped value that represents a value.
    ghost image: { Self → Tree };

    /// Whether a value round-trips through its image.
    ghost restorable: { Self → Type 0 };

    /// Whether two values have the same contents.
    ghost same: { Self → Self → Type 0 };

    /// Reads what follows the descriptor, and returns what is left.
    ///
    /// # Errors
    /// Returns [`Fault::invalid`] if no composite has the descriptor; otherwise the error of
    /// `read_body`.
    fn read_after<S: Source>(
        alloc: Global,
        descriptor: &Descriptor,
        source: S,
    ) -> Result<(Self, S::Rest), Fault>
        ensures read { Takes (reads (descriptor_content descriptor.now))
            (S.value source) (S.is_whole source) (S.left source) result }
        ensures law { BringsBranch (λ x. numbered (code_of x)) image restorable same
            (descriptor_content descriptor.now) (S.value source) (S.is_whole source) result };
}

impl Alternatives for Never {
    ghost reads = { λ _ _ _. ⊥ };

    ghost code_of = { λ _. 0 };

    ghost image = { λ _. scalar null };

    ghost restorable = { λ _. ⊥ };

    ghost same = { λ _ _. ⊥ };

    fn read_after<S: Source>(
        _alloc: Global,
        _descriptor: &Descriptor,
        _source: S,
    ) -> Result<(Never, S::Rest), Fault> {
        Err(Fault::other_descriptor())
    }
}

impl<T: Composite, R: Alternatives> Alternatives for Either<T, R> {
    ghost reads = { IsAlternative (IsCodeOrName T.descriptor_code T.descriptor_name)
        T.body.reads R.reads };

    ghost code_of = { either (λ _. T.descriptor_code) R.code_of };

    ghost image = { either T.body.image R.image };

    ghost restorable = { RestorableAlternative T.descriptor_code R.code_of
        T.body.restorable R.restorable };

    ghost same = { SameEither T.body.same R.same };

    fn read_after<S: Source>(
        alloc: Global,
        descriptor: &Descriptor,
        source: S,
    ) -> Result<(Either<T, R>, S::Rest), Fault> {
        if is_descriptor_of::<T>(descriptor) {
            return match T::read_body(alloc, source) {
                Ok((this, rest)) => Ok((Either::This(this), rest)),
                Err(fault) => Err(fault),
            };
        }
        match R::read_after(alloc, descriptor, source) {
            Ok((other, rest)) => Ok((Either::Other(other), rest)),
            Err(fault) => Err(fault),
        }
    }
}

/// The shape of one of several composites, which the descriptor selects.
///
/// # Example
/// For `Either<Accepted, Either<Rejected, Never>>` with the codes 0x24 and 0x25, the list described
/// by 0x25 is `Either::Other(Either::This(..))`. A list described by 0x26 is invalid.
#[derive(Drop)]
pub struct OneOfTypes<A>(pub PhantomData<A>);

impl<A: Alternatives> Shape for OneOfTypes<A> {
    type Value = A;

    ghost names = { λ _. [] };

    ghost fits = { λ _. Unit {0} };

    ghost laws = { λ _. record {
      reads = λ t x. OnBranches A.reads t x;
      image = λ x. described (numbered (A.code_of x)) (A.image x);
      restorable = A.restorable;
      same = A.same;
    } };

    fn read_parts<S: Source>(self, alloc: Global, source: S) -> Result<(A, S::Rest), Fault> {
        match OneOf(self).read(alloc, source) {
            Ok(read) => Ok(read),
            Err(fault) => Err(fault),
        }
    }
}

impl<A: Alternatives> Branches for OneOfTypes<A> {
    type Value = A;

    ghost reads = { λ _. A.reads };

    ghost label = { λ _ x. numbered (A.code_of x) };

    ghost image = { λ _. A.image };

    ghost restorable = { λ _. A.restorable };

    ghost same = { λ _. A.same };

    ghost fits = { λ _. Unit {0} };

    fn read_after<S: Source>(
        self,
        alloc: Global,
        descriptor: &Descriptor,
        source: S,
    ) -> Result<(A, S::Rest), Fault> {
        match A::read_after(alloc, descriptor, source) {
            Ok(read) => Ok(read),
            Err(fault) => Err(fault),
        }
    }
}
