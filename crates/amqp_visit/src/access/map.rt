//! The accessor of the keys and values of a map.

ghost use Rattle.std.specs.Prelude.{◌≡◌, ◌↔◌, IfErr, IsSome, IsTrue, None, map};
ghost use Rattle.amqp_data.specs.Pairs.{entries_of};
ghost use Rattle.amqp_data.specs.declared.error.Error.TheVariants.{InvalidValue};
ghost use Rattle.amqp_value.specs.TreeOf.{tree_of};

use crate::deserializer::Deserializer;
use amqp_data::{Error, OrderedMap};
use amqp_de::{Deserialize, Of, Seed};
use amqp_value::Value;
use std::alloc::Global;
use std::collections::VecDeque;
use std::marker::PhantomData;

/// An accessor of the keys and values of a map. The value must be read before the next key.
#[derive(Drop)]
pub struct MapAccess {
    alloc: Global,
    pub(crate) pairs: VecDeque<(Value, Value)>,
    pub(crate) pending: Option<Deserializer>,
}

impl MapAccess {
    ghost use Rattle.amqp_visit.specs.Access.{ReadsKey, ReadsValue, ReadsEntry};
    ghost use Rattle.amqp_visit.specs.Access.{RestoresEntry, RestoresHeld, RestoresKey};
    ghost use Rattle.amqp_visit.specs.Trees.{TakesPair, map_left, pending_value};

    /// Returns an accessor of these entries, with no pending value.
    pub fn new(alloc: Global, pairs: OrderedMap<Value, Value>) -> MapAccess
        ensures left { map_left result ≡ map (λ p. (tree_of p.0, tree_of p.1)) (entries_of pairs) }
        ensures pending_value { pending_value result ≡ None }
    {
        MapAccess {
            alloc,
            pairs: VecDeque::from_vec(pairs.into_inner()),
            pending: None,
        }
    }

    /// Returns `true` if and only if a value is pending.
    ///
    /// # Example
    /// `true` after `next_key` has returned a key, until `next_value` is called.
    pub fn has_pending_value(&self) -> bool
        ensures { IsTrue result ↔ IsSome (pending_value self.now) }
    {
        self.pending.is_some()
    }

    // Takes the next key and value; returns `None` after the last. The pending value is unchanged.
    pub(crate) fn next_pair(&mut self) -> Option<(Deserializer, Deserializer)>
        ensures taken { TakesPair (map_left self.old) (map_left self.new) result }
        ensures kept { pending_value self.new ≡ pending_value self.old }
    {
        let alloc = self.alloc;
        match self.pairs.pop_front() {
            Some((key, value)) => Some((
                Deserializer { alloc, value: key },
                Deserializer { alloc, value },
            )),
            None => None,
        }
    }

    /// Reads the next key with a seed; returns `None` after the last.
    ///
    /// The value of the key is then pending. If the key cannot be read, the pair is consumed and no
    /// value is pending.
    ///
    /// # Errors
    /// Returns `InvalidValue`, and changes nothing, if a value is pending. Otherwise returns the
    /// seed's error, which is out of memory or means that the key cannot be read.
    pub fn next_key_seed<K: Seed>(
        &mut self,
        alloc: Global,
        seed: K,
    ) -> Result<Option<K::Value>, Error>
        requires { K.fits seed }
        ensures read { ReadsKey (K.reads seed) (pending_value self.old) (map_left self.old)
            (pending_value self.new) (map_left self.new) result }
        ensures law { RestoresKey (K.image seed) (K.restorable seed) (K.same seed)
            (pending_value self.old) (map_left self.old) result }
        ensures invalid { IsSome (pending_value self.old) →
            IfErr result (λ e. e ≡ InvalidValue) }
    {
        if self.has_pending_value() {
            return Err(Error::InvalidValue);
        }
        match self.next_pair() {
            Some((key, value)) => match key.read_seed(alloc, seed) {
                Ok(key) => {
                    self.pending = Some(value);
                    Ok(Some(key))
                }
                Err(error) => Err(error),
            },
            None => Ok(None),
        }
    }

    /// Reads the pending value with a seed. Afterwards no value is pending, even if it cannot be
    /// read.
    ///
    /// # Errors
    /// Returns `InvalidValue` if no value is pending. Otherwise returns the seed's error, which is
    /// out of memory or means that the value cannot be read.
    pub fn next_value_seed<V: Seed>(&mut self, alloc: Global, seed: V) -> Result<V::Value, Error>
        requires { V.fits seed }
        ensures read { ReadsValue (V.reads seed) (pending_value self.old) (map_left self.old)
            (pending_value self.new) (map_left self.new) result }
        ensures law { RestoresHeld (V.image seed) (V.restorable seed) (V.same seed)
            (pending_value self.old) result }
        ensures invalid { pending_value self.old ≡ None →
            IfErr result (λ e. e ≡ InvalidValue) }
    {
        match self.pending.take() {
            Some(value) => match value.read_seed(alloc, seed) {
                Ok(value) => Ok(value),
                Err(error) => Err(error),
            },
            None => Err(Error::InvalidValue),
        }
    }

    /// Reads the next key and its value with seeds; returns `None` after the last.
    ///
    /// If the key or the value cannot be read, the pair is consumed.
    ///
    /// # Errors
    /// Returns `InvalidValue`, and changes nothing, if a value is pending. Otherwise returns the
    /// error of a seed, which is out of memory or means that the pair cannot be read.
    pub fn next_entry_seed<K: Seed, V: Seed>(
        &mut self,
        alloc: Global,
        key_seed: K,
        value_seed: V,
    ) -> Result<Option<(K::Value, V::Value)>, Error>
        requires key { K.fits key_seed }
        requires value { V.fits value_seed }
        ensures read { ReadsEntry (K.reads key_seed) (V.reads value_seed)
            (pending_value self.old) (map_left self.old)
            (pending_value self.new) (map_left self.new) result }
        ensures law { RestoresEntry (K.image key_seed) (K.restorable key_seed) (K.same key_seed)
            (V.image value_seed) (V.restorable value_seed) (V.same value_seed)
            (pending_value self.old) (map_left self.old) result }
        ensures invalid { IsSome (pending_value self.old) →
            IfErr result (λ e. e ≡ InvalidValue) }
    {
        if self.has_pending_value() {
            return Err(Error::InvalidValue);
        }
        match self.next_pair() {
            Some((key, value)) => match key.read_seed(alloc, key_seed) {
                Ok(key) => match value.read_seed(alloc, value_seed) {
                    Ok(value) => Ok(Some((key, value))),
                    Err(error) => Err(error),
                },
                Err(error) => Err(error),
            },
            None => Ok(None),
        }
    }

    /// Reads the next key, like `next_key_seed`.
    ///
    /// # Example
    /// For the pair of the uint 1 and the ubyte 2, as a `u32`, returns `Some(1)`. A second call,
    /// before the value is read, is invalid.
    pub fn next_key<K: Deserialize>(&mut self, alloc: Global) -> Result<Option<K>, Error>
        ensures read { ReadsKey K.reads (pending_value self.old) (map_left self.old)
            (pending_value self.new) (map_left self.new) result }
        ensures law { RestoresKey K.image K.restorable K.same
            (pending_value self.old) (map_left self.old) result }
        ensures invalid { IsSome (pending_value self.old) →
            IfErr result (λ e. e ≡ InvalidValue) }
    {
        self.next_key_seed(alloc, Of(PhantomData::<K>))
    }

    /// Reads the pending value, like `next_value_seed`.
    ///
    /// # Example
    /// For the pair of the uint 1 and the ubyte 2, after the key 1 has been read, returns 2 as a
    /// `u8`. Before that, the call is invalid.
    pub fn next_value<V: Deserialize>(&mut self, alloc: Global) -> Result<V, Error>
        ensures read { ReadsValue V.reads (pending_value self.old) (map_left self.old)
            (pending_value self.new) (map_left self.new) result }
        ensures law { RestoresHeld V.image V.restorable V.same (pending_value self.old) result }
        ensures invalid { pending_value self.old ≡ None →
            IfErr result (λ e. e ≡ InvalidValue) }
    {
        self.next_value_seed(alloc, Of(PhantomData::<V>))
    }

    /// Reads the next key and its value, like `next_entry_seed`.
    ///
    /// # Example
    /// For the pair of the uint 3 and the ubyte 4, as `u32` and `u8`, returns `Some((3, 4))`, then
    /// `None`.
    pub fn next_entry<K: Deserialize, V: Deserialize>(
        &mut self,
        alloc: Global,
    ) -> Result<Option<(K, V)>, Error>
        ensures read { ReadsEntry K.reads V.reads (pending_value self.old) (map_left self.old)
            (pending_value self.new) (map_left self.new) result }
        ensures law { RestoresEntry K.image K.restorable K.same V.image V.restorable V.same
            (pending_value self.old) (map_left self.old) result }
        ensures invalid { IsSome (pending_value self.old) →
            IfErr result (λ e. e ≡ InvalidValue) }
    {
        self.next_entry_seed(alloc, Of(PhantomData::<K>), Of(PhantomData::<V>))
    }
}
