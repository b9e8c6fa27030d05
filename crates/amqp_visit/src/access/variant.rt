//! The accessors of a variant of an enum: its index and its value.

ghost use Rattle.std.specs.Prelude.{◌≡◌, Ok, IfErr, IsSomeAnd, None, codes, map};
ghost use Rattle.amqp_data.specs.declared.error.Error.TheVariants.{InvalidValue};
ghost use Rattle.amqp_de.specs.Fields.{ReadsPresent};
ghost use Rattle.amqp_value.specs.TreeOf.{tree_of};
ghost use Rattle.amqp_visit.specs.Accepted.{IsList};
ghost use Rattle.amqp_visit.specs.Events.{ByList, Visits};
ghost use Rattle.amqp_visit.specs.Results.{Answers, IsMessage};

use crate::access::SeqAccess;
use crate::deserializer::Deserializer;
use crate::visitor::Visitor;
use amqp_data::Error;
use amqp_de::{Deserialize, Of, Seed};
use amqp_value::Value;
use std::alloc::Global;
use std::marker::PhantomData;

/// An accessor of a variant whose index has not been read.
#[derive(Drop)]
pub struct EnumAccess {
    pub(crate) index: Deserializer,
    pub(crate) content: Option<Deserializer>,
}

/// An accessor of the value of a variant, or of a variant in a list: the index, and then the value.
/// Further elements are ignored.
#[derive(Drop)]
pub struct VariantAccess {
    pub(crate) item: Option<Deserializer>,
    pub(crate) others: SeqAccess,
}

impl EnumAccess {
    ghost use Rattle.amqp_visit.specs.Access.{Picks, RestoresPicked};
    ghost use Rattle.amqp_visit.specs.Trees.{enum_content, enum_index, tree_if, value_tree};

    /// Returns an accessor of the variant with this index and value.
    pub fn new(index: Deserializer, content: Option<Deserializer>) -> EnumAccess
        ensures index { enum_index result ≡ value_tree index }
        ensures content { enum_content result ≡ tree_if content }
    {
        EnumAccess { index, content }
    }

    /// Reads the index with a seed, and returns it with the accessor of the value.
    ///
    /// # Errors
    /// Returns the seed's error, which is out of memory or means that the index cannot be read.
    pub fn variant_seed<S: Seed>(
        self,
        alloc: Global,
        seed: S,
    ) -> Result<(S::Value, VariantAccess), Error>
        requires { S.fits seed }
        ensures read { Picks (S.reads seed) (enum_index self) (enum_content self) result }
        ensures law { RestoresPicked (S.image seed) (S.restorable seed) (S.same seed)
            (enum_index self) result }
    {
        let EnumAccess { index, content } = self;
        let others = SeqAccess::new(alloc, Vec::new(alloc));
        match index.read_seed(alloc, seed) {
            Ok(index) => Ok((
                index,
                VariantAccess {
                    item: content,
                    others,
                },
            )),
            Err(error) => Err(error),
        }
    }

    /// Reads the index, like `variant_seed`.
    ///
    /// # Example
    /// For the index 1, as a `u32`, returns 1 and the accessor of the value.
    pub fn variant<T: Deserialize>(self, alloc: Global) -> Result<(T, VariantAccess), Error>
        ensures read { Picks T.reads (enum_index self) (enum_content self) result }
        ensures law { RestoresPicked T.image T.restorable T.same (enum_index self) result }
    {
        self.variant_seed(alloc, Of(PhantomData::<T>))
    }
}

impl VariantAccess {
    ghost use Rattle.amqp_visit.specs.Access.{PicksNext, RestoresHeld, RestoresPickedNext};
    ghost use Rattle.amqp_visit.specs.Trees.{seq_left, variant_content, variant_left};

    /// Returns an accessor of the variant in these elements.
    pub fn new(alloc: Global, values: Vec<Value>) -> VariantAccess
        ensures { variant_left result ≡ map tree_of values.items }
    {
        VariantAccess::over(SeqAccess::new(alloc, values))
    }

    // Returns an accessor of the variant in what is left of the elements.
    fn over(elements: SeqAccess) -> VariantAccess
        ensures { variant_left result ≡ seq_left elements }
    {
        let mut others = elements;
        match others.next_item() {
            Some(item) => VariantAccess {
                item: Some(item),
                others,
            },
            None => VariantAccess { item: None, others },
        }
    }

    /// Reads the index with a seed, and returns it with the accessor of the value.
    ///
    /// # Errors
    /// Returns the message `Expecting a Value` if there is no element; otherwise the seed's error,
    /// which is out of memory or means that the index cannot be read.
    pub fn variant_seed<S: Seed>(
        self,
        alloc: Global,
        seed: S,
    ) -> Result<(S::Value, VariantAccess), Error>
        requires { S.fits seed }
        ensures read { PicksNext (S.reads seed) (variant_left self) result }
        ensures law { RestoresPickedNext (S.image seed) (S.restorable seed) (S.same seed)
            (variant_left self) result }
        ensures missing { variant_content self ≡ None →
            IfErr result (λ e. IsMessage (codes "Expecting a Value") e) }
    {
        let VariantAccess { item, others } = self;
        match item {
            Some(item) => match item.read_seed(alloc, seed) {
                Ok(index) => Ok((index, VariantAccess::over(others))),
                Err(error) => Err(error),
            },
            None => Err(Error::Message("Expecting a Value")),
        }
    }

    /// Reads a variant without a value. A value after the index is ignored.
    pub fn unit_variant(self) -> Result<(), Error>
        ensures { result ≡ Ok tt }
    {
        Ok(())
    }

    /// Reads the value of a variant with a seed.
    ///
    /// # Errors
    /// Returns the message `Expecting a value` if there is no value; otherwise the seed's error. An
    /// error other than out of memory is returned only if no value is read.
    pub fn newtype_variant_seed<S: Seed>(self, alloc: Global, seed: S) -> Result<S::Value, Error>
        requires { S.fits seed }
        ensures read { Answers (ReadsPresent (S.reads seed) (variant_content self)) result }
        ensures law { RestoresHeld (S.image seed) (S.restorable seed) (S.same seed)
            (variant_content self) result }
        ensures missing { variant_content self ≡ None →
            IfErr result (λ e. IsMessage (codes "Expecting a value") e) }
    {
        let VariantAccess { item, .. } = self;
        match item {
            Some(item) => match item.read_seed(alloc, seed) {
                Ok(value) => Ok(value),
                Err(error) => Err(error),
            },
            None => Err(Error::Message("Expecting a value")),
        }
    }

    /// Reads the value of a variant, like `newtype_variant_seed`.
    ///
    /// # Example
    /// For the ulong 13, as a `u64`, returns 13.
    pub fn newtype_variant<T: Deserialize>(self, alloc: Global) -> Result<T, Error>
        ensures read { Answers (ReadsPresent T.reads (variant_content self)) result }
        ensures law { RestoresHeld T.image T.restorable T.same (variant_content self) result }
        ensures missing { variant_content self ≡ None →
            IfErr result (λ e. IsMessage (codes "Expecting a value") e) }
    {
        self.newtype_variant_seed(alloc, Of(PhantomData::<T>))
    }

    /// Deserializes a tuple variant: reports the list of its fields to the visitor.
    ///
    /// # Errors
    /// Returns the message `Expecting Value::List` if there is no value, and `InvalidValue` if the
    /// value is not a list; otherwise the visitor's error.
    pub fn tuple_variant<V: Visitor>(self, visitor: V) -> Result<V::Value, Error>
        ensures visits { Visits (ReadsPresent (ByList (V.gives visitor)))
            (ReadsPresent (ByList (V.represents visitor))) V.same (variant_content self) result }
        ensures invalid { IsSomeAnd (variant_content self) (λ t. ¬ IsList t) →
            IfErr result (λ e. e ≡ InvalidValue) }
        ensures missing { variant_content self ≡ None →
            IfErr result (λ e. IsMessage (codes "Expecting Value::List") e) }
    {
        let VariantAccess { item, .. } = self;
        match item {
            Some(item) => item.deserialize_seq(visitor),
            None => Err(Error::Message("Expecting Value::List")),
        }
    }

    /// Deserializes a struct variant, like `tuple_variant`.
    ///
    /// # Errors
    /// Returns the errors of `tuple_variant`.
    pub fn struct_variant<V: Visitor>(self, visitor: V) -> Result<V::Value, Error>
        ensures visits { Visits (ReadsPresent (ByList (V.gives visitor)))
            (ReadsPresent (ByList (V.represents visitor))) V.same (variant_content self) result }
        ensures invalid { IsSomeAnd (variant_content self) (λ t. ¬ IsList t) →
            IfErr result (λ e. e ≡ InvalidValue) }
        ensures missing { variant_content self ≡ None →
            IfErr result (λ e. IsMessage (codes "Expecting Value::List") e) }
    {
        self.tuple_variant(visitor)
    }
}
