//! The calls that serialize sequences, tuples, structs, maps, variants and described values.

ghost use Rattle.std.specs.Prelude.{◌≡◌, [], List, Option, None, Result, Ok, Err, IfOk, IfErr};
ghost use Rattle.std.specs.Prelude.{IsOk, IsErr, not, true, false};
ghost use Rattle.amqp_ser.specs.Composites.{as_described, descriptor_of};
ghost use Rattle.amqp_ser.specs.Marked.{is_descriptor_name, is_value_name, with_marker, marker_of};
ghost use Rattle.amqp_ser.specs.OpenCompounds.{list_reference, ListHas, map_reference, MapHas};
ghost use Rattle.amqp_ser.specs.OpenCompounds.{has_key, variant_reference, VariantHas};
ghost use Rattle.amqp_ser.specs.OpenCompounds.{struct_variant_reference, StructVariantHas};
ghost use Rattle.amqp_ser.specs.OpenStructs.{struct_reference, form_of, has_descriptor, has_field};
ghost use Rattle.amqp_ser.specs.OpenStructs.{StructHas, tuple_struct_reference, is_single};
ghost use Rattle.amqp_ser.specs.OpenStructs.{lacks_descriptor, is_open, TupleStructHas};
ghost use Rattle.amqp_ser.specs.Structs.{struct_encoding, is_basic_name, is_tagged, named_variant};

use crate::compound::described::serialize_described;
use crate::compound::part::serialize_part;
use crate::compound::{
    SerializeMap, SerializeSeq, SerializeStruct, SerializeStructVariant, SerializeTuple,
    SerializeTupleStruct, SerializeTupleVariant,
};
use crate::kind::CompoundKind;
use crate::marker::marker_named;
use crate::names::{is_basic_name, is_descriptor_name, is_tagged, is_value_name};
use crate::serialize::Serialize;
use crate::serializer::Serializer;
use crate::struct_encoding::struct_encoding;

/// Serializes values that contain others: sequences, tuples, structs, maps, variants, newtypes and
/// described values.
///
/// Every serializer has these methods.
pub trait SerializeCompounds: Serializer {
    /// Serializes the value of a `Some` as the value itself.
    ///
    /// # Errors
    /// Returns the serializer's error for the value. Always returns an error if the value has no
    /// tree.
    ///
    /// # Example
    /// `Some(true)` is `41`.
    #[inline(always)]
    final fn serialize_some<T: Serialize>(&mut self, v: &T) -> Result<Self::Ok, Self::Error>
    where
        Self: Sized,
        ensures { Self.permits self.old (T.tree v.now) result self.new }
    {
        v.serialize(self)
    }

    /// Serializes a newtype struct: applies the marker that its name denotes to the tree of its
    /// value.
    ///
    /// # Errors
    /// Returns the serializer's error for the marked tree. Always returns an error if there is no
    /// marked tree, such as when the marker does not accept the kind of the value.
    ///
    /// # Example
    /// The string `amqp` is `a304616d7170` under the name `SYMBOL`, and `a104616d7170` under a name
    /// that is not a marker.
    #[inline(always)]
    final fn serialize_newtype_struct<T: Serialize>(
        &mut self,
        name: &'static str,
        v: &T,
    ) -> Result<Self::Ok, Self::Error>
    where
        Self: Sized,
        ensures { Self.permits self.old (with_marker (marker_of name.now)
            (T.tree v.now)) result self.new }
    {
        let marker = marker_named(name);
        self.set_marker(marker);
        v.serialize(self)
    }

    /// Begins to serialize a sequence as a list. The length is a hint: it is not checked, and no
    /// memory is reserved for it.
    ///
    /// # Encoding
    /// A list (AMQP 1.0 part 1, section 1.6.22).
    ///
    /// # Errors
    /// Never returns an error.
    ///
    /// # Example
    /// The strings `a` and `bc` are `c00802a10161a1026263`.
    #[inline(always)]
    final fn serialize_seq(
        &mut self,
        _len: Option<usize>,
    ) -> Result<SerializeSeq<'_, Self>, Self::Error>
    where
        Self: Sized,
        ensures opened { IfOk result (λ seq. ListHas Self.has self.old seq []) }
        ensures same_reference { IfOk result
            (λ seq. (list_reference seq).ghost_name ≡ self.entry.ghost_name) }
        ensures succeeds { IsOk result }
    {
        Ok(SerializeSeq::new(self))
    }

    /// Begins to serialize a tuple as a list of its elements.
    ///
    /// # Encoding
    /// A list (AMQP 1.0 part 1, section 1.6.22).
    ///
    /// # Errors
    /// Never returns an error.
    ///
    /// # Example
    /// The ubyte 1 and `true` are `c00402500141`.
    #[inline(always)]
    final fn serialize_tuple(
        &mut self,
        _len: usize,
    ) -> Result<SerializeTuple<'_, Self>, Self::Error>
    where
        Self: Sized,
        ensures opened { IfOk result (λ tuple. ListHas Self.has self.old tuple []) }
        ensures same_reference { IfOk result
            (λ tuple. (list_reference tuple).ghost_name ≡ self.entry.ghost_name) }
        ensures succeeds { IsOk result }
    {
        Ok(SerializeSeq::new(self))
    }

    /// Begins to serialize a tuple struct as a list of its fields. The name determines whether the
    /// first field is the descriptor.
    ///
    /// # Encoding
    /// A list (AMQP 1.0 part 1, section 1.6.22); under the names `DESCRIBED_LIST` and
    /// `DESCRIBED_BASIC` a described value (section 1.2).
    ///
    /// # Errors
    /// Never returns an error.
    ///
    /// # Example
    /// The ubyte 1 and `true` are `c00402500141`. Under the name `DESCRIBED_LIST` the ulong 1 and
    /// `true` are `005301c0020141`.
    #[tactic(auto, unfolding(crate::specs::Structs::HasDescribed))]
    #[inline(always)]
    final fn serialize_tuple_struct(
        &mut self,
        name: &'static str,
        _len: usize,
    ) -> Result<SerializeTupleStruct<'_, Self>, Self::Error>
    where
        Self: Sized,
        ensures opened { is_tagged name.now ≡ false →
            IfOk result
            (λ fields. TupleStructHas Self.permits Self.has self.old None CompoundKind.List fields []) }
        ensures single { is_tagged name.now ≡ true →
            IfOk result
            (λ fields. TupleStructHas Self.permits Self.has self.old None CompoundKind.Single fields []) }
        ensures form { IfOk result (λ fields. is_single fields ≡ is_basic_name name.now) }
        ensures awaits { IfOk result (λ fields. (lacks_descriptor fields ≡ is_tagged name.now)
            × (is_open fields ≡ not (is_tagged name.now))) }
        ensures same_reference { IfOk result
            (λ fields. (tuple_struct_reference fields).ghost_name ≡ self.entry.ghost_name) }
        ensures succeeds { IsOk result }
    {
        let single = is_basic_name(name);
        if is_tagged(name) {
            let compound = self.begin_compound(CompoundKind::Single);
            return Ok(SerializeTupleStruct::new(self, compound, single, true));
        }
        let compound = self.begin_compound(CompoundKind::List);
        Ok(SerializeTupleStruct::new(self, compound, single, false))
    }

    /// Begins to serialize a struct. The name determines the form: a list of the fields, a map from
    /// their names, or the one field itself.
    ///
    /// # Encoding
    /// A list (AMQP 1.0 part 1, section 1.6.22); under the name `DESCRIBED_MAP` a map (section
    /// 1.6.23), and under `DESCRIBED_BASIC` the one value. A first field with the key `DESCRIPTOR`
    /// is the descriptor before it (section 1.2).
    ///
    /// # Errors
    /// Never returns an error.
    ///
    /// # Example
    /// The fields `x`, the ubyte 1, and `y`, `true`, are `c00402500141`. Under the name
    /// `DESCRIBED_MAP` the one field `x` is `c10602a101785001`.
    #[tactic(auto, unfolding(crate::specs::Structs::HasDescribed))]
    #[inline(always)]
    final fn serialize_struct(
        &mut self,
        name: &'static str,
        _len: usize,
    ) -> Result<SerializeStruct<'_, Self>, Self::Error>
    where
        Self: Sized,
        ensures opened { IfOk result
            (λ fields. StructHas Self.permits Self.has self.old None CompoundKind.Single fields []) }
        ensures form { IfOk result (λ fields. form_of fields ≡ struct_encoding name.now) }
        ensures empty { IfOk result (λ fields. (has_descriptor fields ≡ false)
            × (has_field fields ≡ false)) }
        ensures same_reference { IfOk result
            (λ fields. (struct_reference fields).ghost_name ≡ self.entry.ghost_name) }
        ensures succeeds { IsOk result }
    {
        Ok(SerializeStruct::new(self, struct_encoding(name)))
    }

    /// Serializes a described value: a descriptor, which is a ulong or a symbol, and a value.
    ///
    /// # Encoding
    /// `00`, the descriptor and the value (AMQP 1.0 part 1, section 1.2).
    ///
    /// # Errors
    /// Returns the serializer's error for the described value. Always returns an error if the
    /// descriptor is neither a ulong nor a symbol, or if the value has no tree.
    ///
    /// # Example
    /// The code 1 and `true` are `00530141`.
    #[inline(always)]
    final fn serialize_described<D: Serialize, T: Serialize>(
        &mut self,
        descriptor: &D,
        value: &T,
    ) -> Result<Self::Ok, Self::Error>
    where
        Self: Sized,
        ensures { Self.permits self.old
            (as_described (descriptor_of (D.tree descriptor.now)) (T.tree value.now)) result
            self.new }
    {
        serialize_described(self, descriptor, value)
    }

    /// Begins to serialize a map.
    ///
    /// # Encoding
    /// A map (AMQP 1.0 part 1, section 1.6.23).
    ///
    /// # Errors
    /// Never returns an error.
    ///
    /// # Example
    /// The map from the ubyte 1 to `true` is `c10402500141`.
    #[inline(always)]
    final fn serialize_map(
        &mut self,
        _len: Option<usize>,
    ) -> Result<SerializeMap<'_, Self>, Self::Error>
    where
        Self: Sized,
        ensures opened { IfOk result (λ map. MapHas Self.has self.old map []) }
        ensures no_key { IfOk result (λ map. has_key map ≡ false) }
        ensures same_reference { IfOk result
            (λ map. (map_reference map).ghost_name ≡ self.entry.ghost_name) }
        ensures succeeds { IsOk result }
    {
        Ok(SerializeMap::new(self))
    }

    /// Serializes a newtype variant. In an enum named `VALUE` it is the value itself, and in an
    /// enum named `DESCRIPTOR` it is a misuse. Other names of enums and the names of variants are
    /// not written.
    ///
    /// # Encoding
    /// The map of one pair, from the index as a uint to the value (AMQP 1.0 part 1, section
    /// 1.6.23); in an enum named `VALUE` only the value.
    ///
    /// # Errors
    /// Returns the serializer's error for the variant. Always returns an error if the value has no
    /// tree. Returns a misuse error (`InvalidValue` in this repository) if the enum is named
    /// `DESCRIPTOR`.
    ///
    /// # Example
    /// The variant 1 of the ulong 13 is `c105025201530d`, and in an enum named `VALUE` it is
    /// `530d`.
    #[inline(always)]
    final fn serialize_newtype_variant<T: Serialize>(
        &mut self,
        name: &'static str,
        index: u32,
        _variant: &'static str,
        v: &T,
    ) -> Result<Self::Ok, Self::Error>
    where
        Self: Sized,
        ensures answered { Self.permits self.old (named_variant name.now index (T.tree v.now))
            result self.new }
        ensures invalid { is_value_name name.now ≡ false → is_descriptor_name name.now ≡ true →
            IsErr result × IfErr result Self.is_misuse_error }
    {
        if is_value_name(name) {
            return v.serialize(self);
        }
        let mut compound = self.begin_compound(CompoundKind::NewtypeVariant(index));
        if is_descriptor_name(name) {
            return Err(self.misuse_error(&mut compound));
        }
        serialize_part(self, &mut compound, v)?;
        self.end(compound)
    }

    /// Begins to serialize a tuple variant.
    ///
    /// # Encoding
    /// The map of one pair, from the index as a uint to the list of the fields (AMQP 1.0 part 1,
    /// section 1.6.23).
    ///
    /// # Errors
    /// Never returns an error.
    ///
    /// # Example
    /// The variant 1 of `true` and the ubyte 1 is `c109025201c00402415001`.
    #[inline(always)]
    final fn serialize_tuple_variant(
        &mut self,
        _name: &'static str,
        index: u32,
        _variant: &'static str,
        _len: usize,
    ) -> Result<SerializeTupleVariant<'_, Self>, Self::Error>
    where
        Self: Sized,
        ensures opened { IfOk result (λ variant. VariantHas Self.has self.old index variant []) }
        ensures same_reference { IfOk result
            (λ variant. (variant_reference variant).ghost_name ≡ self.entry.ghost_name) }
        ensures succeeds { IsOk result }
    {
        Ok(SerializeTupleVariant::new(self, index))
    }

    /// Begins to serialize a struct variant.
    ///
    /// # Encoding
    /// The map of one pair, from the index as a uint to the list of the fields (AMQP 1.0 part 1,
    /// section 1.6.23). The names of the fields are not written.
    ///
    /// # Errors
    /// Never returns an error.
    ///
    /// # Example
    /// The variant 1 of the fields `a`, `true`, and `b`, the ubyte 1, is `c109025201c00402415001`.
    #[inline(always)]
    final fn serialize_struct_variant(
        &mut self,
        _name: &'static str,
        index: u32,
        _variant: &'static str,
        _len: usize,
    ) -> Result<SerializeStructVariant<'_, Self>, Self::Error>
    where
        Self: Sized,
        ensures opened { IfOk result
            (λ variant. StructVariantHas Self.has self.old index variant []) }
        ensures same_reference { IfOk result
            (λ variant. (struct_variant_reference variant).ghost_name ≡ self.entry.ghost_name) }
        ensures succeeds { IsOk result }
    {
        Ok(SerializeStructVariant::new(self, index))
    }
}

impl<S: Serializer> SerializeCompounds for S {}
