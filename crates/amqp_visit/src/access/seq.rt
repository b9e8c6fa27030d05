//! The accessor of the elements of a list or an array.

ghost use Rattle.std.specs.Prelude.{◌≡◌, map};
ghost use Rattle.amqp_value.specs.TreeOf.{tree_of};

use crate::deserializer::Deserializer;
use amqp_data::Error;
use amqp_de::{Deserialize, Of, Seed};
use amqp_value::Value;
use std::alloc::Global;
use std::marker::PhantomData;
use std::vec::IntoIter;

/// An accessor of the elements of a list or an array.
#[derive(Drop)]
pub struct SeqAccess {
    pub(crate) alloc: Global,
    pub(crate) values: IntoIter<Value>,
}

impl SeqAccess {
    ghost use Rattle.amqp_visit.specs.Access.{ReadsNext, RestoresNext};
    ghost use Rattle.amqp_visit.specs.Trees.{TakesNext, seq_left};

    /// Returns an accessor of these elements.
    pub fn new(alloc: Global, values: Vec<Value>) -> SeqAccess
        ensures { seq_left result ≡ map tree_of values.items }
    {
        SeqAccess {
            alloc,
            values: values.into_iter(),
        }
    }

    /// Takes the next element; returns `None` after the last.
    pub fn next_item(&mut self) -> Option<Deserializer>
        ensures { TakesNext (seq_left self.old) (seq_left self.new) result }
    {
        match self.values.next() {
            Some(value) => Some(Deserializer {
                alloc: self.alloc,
                value,
            }),
            None => None,
        }
    }

    /// Reads the next element with a seed; returns `None` after the last.
    ///
    /// An element that cannot be read is consumed.
    ///
    /// # Errors
    /// Returns the seed's error, which is out of memory or means that the element cannot be read.
    pub fn next_element_seed<S: Seed>(
        &mut self,
        alloc: Global,
        seed: S,
    ) -> Result<Option<S::Value>, Error>
        requires { S.fits seed }
        ensures read { ReadsNext (S.reads seed) (seq_left self.old) (seq_left self.new) result }
        ensures law { RestoresNext (S.image seed) (S.restorable seed) (S.same seed)
            (seq_left self.old) result }
    {
        match self.next_item() {
            Some(item) => match item.read_seed(alloc, seed) {
                Ok(value) => Ok(Some(value)),
                Err(error) => Err(error),
            },
            None => Ok(None),
        }
    }

    /// Reads the next element, like `next_element_seed`.
    ///
    /// # Example
    /// For the string `a` and the ubyte 2, as `u8`, returns `InvalidValue`, then `Some(2)`, then
    /// `None`.
    pub fn next_element<T: Deserialize>(&mut self, alloc: Global) -> Result<Option<T>, Error>
        ensures read { ReadsNext T.reads (seq_left self.old) (seq_left self.new) result }
        ensures law { RestoresNext T.image T.restorable T.same (seq_left self.old) result }
    {
        self.next_element_seed(alloc, Of(PhantomData::<T>))
    }
}
