//! Maps that are being serialized, with a key whose value may be pending.

ghost use Rattle.std.specs.Prelude.{◌≡◌, [], List, Option, Err, MatchResult, IfErr, IsErr, not};
ghost use Rattle.std.specs.Prelude.{true, false};
ghost use mir.Syntax.{named};
ghost use Rattle.std.specs.Borrow.{Lends, sem};
ghost use Rattle.amqp_ser.specs.Tree.{Tree};
ghost use Rattle.amqp_ser.specs.Compounds.{tree_of_parts, paired};
ghost use Rattle.amqp_ser.specs.OpenCompounds.{map_reference, map_with_serializer, MapHas, has_key};
ghost use Rattle.amqp_ser.specs.OpenCompounds.{SerializesMapPart, SerializesPair, RefusesInTurn};

use super::part::{serialize_map_entry, serialize_part};
use crate::kind::CompoundKind;
use crate::serialize::Serialize;
use crate::serializer::Serializer;

/// A map that is being serialized: its keys and values, in alternation.
///
/// # Encoding
/// A map (AMQP 1.0 part 1, section 1.6.23).
///
/// # Example
/// The key 1, a ubyte, and the value `true`: `c10402500141`.
pub struct SerializeMap<'a, S: Serializer> {
    serializer: &'a mut S,
    compound: S::Open,
    pending: bool,
}

impl<S: Serializer> Drop for SerializeMap<'_, S> {
    #[inline(always)]
    fn drop(self)
        ensures { self.exit.0.now ≡ (map_reference self.entry).now }
    {
        let SerializeMap {
            serializer: _,
            compound: _,
            pending: _,
        } = self;
    }
}

impl<'a, S: Serializer> SerializeMap<'a, S> {
    ghost use Rattle.amqp_ser.specs.contracts.compound.map.SerializeMap.{the_row};

    /// Begins a map in a serializer, as `serialize_map` does.
    ///
    /// # Encoding
    /// A map (AMQP 1.0 part 1, section 1.6.23).
    ///
    /// # Example
    /// Without entries, the map is `c10100`.
    #[inline(always)]
    pub fn new(serializer: &'a mut S) -> SerializeMap<'a, S>
        ensures opened { MapHas S.has serializer.old result [] }
        ensures no_key { has_key result ≡ false }
        ensures same_reference { (map_reference result).ghost_name
            ≡ serializer.entry.ghost_name }
    {
        let compound = serializer.begin_compound(CompoundKind::Map);
        SerializeMap {
            serializer,
            compound,
            pending: false,
        }
    }

    /// Returns the serializer of the map. The map continues with the state that the caller leaves
    /// in it; the rest of the map is unchanged.
    #[inline(always)]
    pub fn as_mut(&mut self) -> &mut S
        ensures* writes_back { sem 𝓛
            (Lends
            (the_row (record { mir = named 1; lft = [] }) S.row S.Ok.row S.Error.row S.Open.row)
            S.row self.entry result
            (map_with_serializer self.old)) }
        ensures now { result.now ≡ (map_reference self.old).now }
    {
        &mut *self.serializer
    }

    /// Serializes a key. Its value must follow.
    ///
    /// # Errors
    /// Returns the serializer's error for the key, or a misuse error if the value of another key is
    /// pending. The map is then unchanged.
    ///
    /// # Example
    /// The ubyte 1 appends `5001`.
    #[inline(always)]
    pub fn serialize_key<T: Serialize>(&mut self, key: &T) -> Result<(), S::Error>
        ensures same { (map_reference self.new).ghost_name
            ≡ (map_reference self.old).ghost_name }
        ensures pending { MatchResult result
            (λ _. (has_key self.old ≡ false) × (has_key self.new ≡ true))
            (λ _. has_key self.new ≡ has_key self.old) }
        ensures step { has_key self.old ≡ false →
            SerializesMapPart S.permits S.has (T.tree key.now) self.old result self.new }
        ensures misuse_error { has_key self.old ≡ true →
            RefusesInTurn S.permits S.has self.old result self.new }
        ensures invalid { has_key self.old ≡ true → IfErr result S.is_misuse_error }
    {
        if self.pending {
            return Err(self.serializer.misuse_error(&mut self.compound));
        }
        serialize_part(&mut *self.serializer, &mut self.compound, key)?;
        self.pending = true;
        Ok(())
    }

    /// Serializes the pending value.
    ///
    /// # Errors
    /// Returns the serializer's error for the value, or a misuse error if there is no key. The map
    /// is then unchanged: if there is a key, its value is still pending.
    ///
    /// # Example
    /// After the key, `true` appends `41`.
    #[inline(always)]
    pub fn serialize_value<T: Serialize>(&mut self, value: &T) -> Result<(), S::Error>
        ensures same { (map_reference self.new).ghost_name
            ≡ (map_reference self.old).ghost_name }
        ensures pending { MatchResult result
            (λ _. (has_key self.old ≡ true) × (has_key self.new ≡ false))
            (λ _. has_key self.new ≡ has_key self.old) }
        ensures step { has_key self.old ≡ true →
            SerializesMapPart S.permits S.has (T.tree value.now) self.old result self.new }
        ensures misuse_error { has_key self.old ≡ false →
            RefusesInTurn S.permits S.has self.old result self.new }
        ensures invalid { has_key self.old ≡ false → IfErr result S.is_misuse_error }
    {
        if !self.pending {
            return Err(self.serializer.misuse_error(&mut self.compound));
        }
        serialize_part(&mut *self.serializer, &mut self.compound, value)?;
        self.pending = false;
        Ok(())
    }

    /// Serializes a key and its value.
    ///
    /// # Errors
    /// Returns the serializer's error for the key or the value, or a misuse error if the value of
    /// another key is pending. The map is then unchanged.
    ///
    /// # Example
    /// The ubyte 1 and `true` append `500141`.
    #[inline(always)]
    pub fn serialize_entry<K: Serialize, V: Serialize>(
        &mut self,
        key: &K,
        value: &V,
    ) -> Result<(), S::Error>
        ensures same { (map_reference self.new).ghost_name
            ≡ (map_reference self.old).ghost_name }
        ensures pending { has_key self.new ≡ has_key self.old }
        ensures step { has_key self.old ≡ false →
            SerializesPair S.permits S.has (K.tree key.now) (V.tree value.now) self.old result self.new }
        ensures misuse_error { has_key self.old ≡ true →
            IsErr result × RefusesInTurn S.permits S.has self.old result self.new }
        ensures invalid { has_key self.old ≡ true → IfErr result S.is_misuse_error }
    {
        if self.pending {
            return Err(self.serializer.misuse_error(&mut self.compound));
        }
        serialize_map_entry(&mut *self.serializer, &mut self.compound, key, value)
    }

    /// Ends the map and returns the serializer's result for the tree of its entries.
    ///
    /// # Errors
    /// Returns the serializer's error for that tree, or a misuse error if a value is pending.
    ///
    /// # Example
    /// Without entries: `c10100`. With the ubyte 1 and `true`: `c10402500141`.
    #[inline(always)]
    pub fn end(self) -> Result<S::Ok, S::Error>
        ensures ended { (start : S) (ps : List (Option Tree)) →
            MapHas S.has start self.entry ps → not (has_key self.entry) ≡ paired ps →
            S.permits start (tree_of_parts CompoundKind.Map ps) result self.exit.0.now }
        ensures invalid { has_key self.entry ≡ true → IsErr result
            × IfErr result S.is_misuse_error }
    {
        let SerializeMap {
            serializer,
            mut compound,
            pending,
        } = self;
        if pending {
            return Err(serializer.misuse_error(&mut compound));
        }
        serializer.end(compound)
    }
}
