//! Tuple structs: lists of their fields. The first field may be a descriptor.

ghost use Rattle.std.specs.Prelude.{◌≡◌, [], IfOk, IfErr, None, ◌||◌, not, true, false};
ghost use mir.Syntax.{named};
ghost use Rattle.std.specs.Borrow.{Lends, sem};
ghost use Rattle.amqp_ser.specs.StructSteps.{TupleFieldStep};
ghost use Rattle.amqp_ser.specs.OpenStructs.{tuple_struct_reference, tuple_struct_with_serializer};
ghost use Rattle.amqp_ser.specs.OpenStructs.{is_single, lacks_descriptor, is_open};
ghost use Rattle.amqp_ser.specs.OpenStructs.{TupleStructFieldStep, TupleStructHas, EndsTupleStruct};

use super::body::{end_fields, open_body};
use super::described::{serialize_descriptor, serialize_single};
use super::part::serialize_part;
use crate::kind::CompoundKind;
use crate::serialize::Serialize;
use crate::serializer::Serializer;
use crate::struct_encoding::StructEncoding;

/// Serializes a field, or the descriptor, of a tuple struct: of one whose body is a single field,
/// that lacks its descriptor, or that has a field or is a list that has been open from the start.
#[tactic(auto, unfolding(crate::specs::Structs::HasDescribed))]
#[inline(always)]
pub(crate) fn serialize_tuple_field<S: Serializer, T: Serialize>(
    serializer: &mut S,
    compound: &mut S::Open,
    single: bool,
    wants_descriptor: bool,
    opened: bool,
    value: &T,
) -> Result<(), S::Error>
    ensures { TupleFieldStep S.permits S.has S.is_misuse_error single wants_descriptor opened
        (T.tree value.now) serializer.old compound.old result serializer.new compound.new }
{
    if wants_descriptor {
        return serialize_descriptor(serializer, compound, value);
    }
    if opened {
        if single {
            return Err(serializer.misuse_error(compound));
        }
        return serialize_part(serializer, compound, value);
    }
    if single {
        serialize_single(serializer, compound, value)
    } else {
        open_body(serializer, compound, false, "", value)
    }
}

/// A tuple struct that is being serialized: a list of its fields, or the one field itself. The name
/// of the struct determines whether the first field is the descriptor.
///
/// # Encoding
/// `00`, the descriptor and the body (AMQP 1.0 part 1, section 1.2), or only a list (section
/// 1.6.22).
///
/// # Example
/// The ubyte 1 and `true`: `c00402500141`. The ulong 1 and `true` under the name `DESCRIBED_BASIC`:
/// `00530141`.
pub struct SerializeTupleStruct<'a, S: Serializer> {
    serializer: &'a mut S,
    compound: S::Open,
    /// Whether the body is a single field.
    single: bool,
    /// Whether the descriptor is still to be serialized.
    wants_descriptor: bool,
    /// Whether a field has been serialized, or the list has been open from the start.
    opened: bool,
}

impl<S: Serializer> Drop for SerializeTupleStruct<'_, S> {
    #[inline(always)]
    fn drop(self)
        ensures { self.exit.0.now ≡ (tuple_struct_reference self.entry).now }
    {
        let SerializeTupleStruct {
            serializer: _,
            compound: _,
            single: _,
            wants_descriptor: _,
            opened: _,
        } = self;
    }
}

impl<'a, S: Serializer> SerializeTupleStruct<'a, S> {
    ghost use Rattle.amqp_ser.specs.contracts.compound.tuple_struct.SerializeTupleStruct.{the_row};

    #[inline(always)]
    pub(crate) fn new(
        serializer: &'a mut S,
        compound: S::Open,
        single: bool,
        wants_descriptor: bool,
    ) -> SerializeTupleStruct<'a, S>
        ensures same_reference { result.serializer.ghost_name ≡ serializer.entry.ghost_name }
        ensures now { result.serializer.now ≡ serializer.old }
        ensures compound { result.compound ≡ compound }
        ensures single { result.single ≡ single }
        ensures wants_descriptor { result.wants_descriptor ≡ wants_descriptor }
        ensures opened { result.opened ≡ not wants_descriptor }
    {
        SerializeTupleStruct {
            serializer,
            compound,
            single,
            wants_descriptor,
            opened: !wants_descriptor,
        }
    }

    /// Begins a descriptor and one field.
    ///
    /// # Encoding
    /// `00`, the descriptor and the field (AMQP 1.0 part 1, section 1.2).
    ///
    /// # Example
    /// The ulong 1 and `true` are `00530141`.
    #[tactic(auto, unfolding(crate::specs::Structs::HasDescribed))]
    #[inline(always)]
    pub fn basic(serializer: &'a mut S) -> SerializeTupleStruct<'a, S>
        ensures opened { TupleStructHas S.permits S.has serializer.old None CompoundKind.Single result [] }
        ensures form { is_single result ≡ true }
        ensures awaits { (lacks_descriptor result ≡ true) × (is_open result ≡ false) }
        ensures same_reference { (tuple_struct_reference result).ghost_name
            ≡ serializer.entry.ghost_name }
    {
        let compound = serializer.begin_compound(CompoundKind::Single);
        SerializeTupleStruct::new(serializer, compound, true, true)
    }

    /// Begins a descriptor and a list of the other fields. The length is a hint and is not used.
    ///
    /// # Encoding
    /// `00`, the descriptor and a list (AMQP 1.0 part 1, section 1.2).
    ///
    /// # Example
    /// The ulong 1 and `true` are `005301c0020141`.
    #[tactic(auto, unfolding(crate::specs::Structs::HasDescribed))]
    #[inline(always)]
    pub fn list(serializer: &'a mut S, _len: usize) -> SerializeTupleStruct<'a, S>
        ensures opened { TupleStructHas S.permits S.has serializer.old None CompoundKind.Single result [] }
        ensures form { is_single result ≡ false }
        ensures awaits { (lacks_descriptor result ≡ true) × (is_open result ≡ false) }
        ensures same_reference { (tuple_struct_reference result).ghost_name
            ≡ serializer.entry.ghost_name }
    {
        let compound = serializer.begin_compound(CompoundKind::Single);
        SerializeTupleStruct::new(serializer, compound, false, true)
    }

    /// Begins a list of the fields. The length is a hint and is not used.
    ///
    /// # Encoding
    /// A list (AMQP 1.0 part 1, section 1.6.22).
    ///
    /// # Example
    /// The ubyte 1 and `true` are `c00402500141`.
    #[tactic(auto, unfolding(crate::specs::Structs::HasDescribed))]
    #[inline(always)]
    pub fn list_fields(serializer: &'a mut S, _len: usize) -> SerializeTupleStruct<'a, S>
        ensures opened { TupleStructHas S.permits S.has serializer.old None CompoundKind.List result [] }
        ensures form { is_single result ≡ false }
        ensures awaits { (lacks_descriptor result ≡ false) × (is_open result ≡ true) }
        ensures same_reference { (tuple_struct_reference result).ghost_name
            ≡ serializer.entry.ghost_name }
    {
        let compound = serializer.begin_compound(CompoundKind::List);
        SerializeTupleStruct::new(serializer, compound, false, false)
    }

    /// Returns the serializer of the struct. The struct continues with the state that the caller
    /// leaves in it; the rest of the struct is unchanged.
    pub fn as_mut(&mut self) -> &mut S
        ensures* writes_back { sem 𝓛
            (Lends
            (the_row (record { mir = named 1; lft = [] }) S.row S.Ok.row S.Error.row S.Open.row)
            S.row self.entry result
            (tuple_struct_with_serializer self.old)) }
        ensures now { result.now ≡ (tuple_struct_reference self.old).now }
    {
        &mut *self.serializer
    }

    /// Serializes one more field, or the descriptor if it is still to be serialized.
    ///
    /// # Errors
    /// Returns the serializer's error for the field or the descriptor. Always returns an error if
    /// the descriptor is neither a ulong nor a symbol. Returns a misuse error for a second field of
    /// a single value. The struct is then unchanged and keeps accepting fields.
    ///
    /// # Example
    /// The ubyte 1 appends `5001`. Under the name `DESCRIBED_LIST` a first ulong 1 puts `005301`
    /// before the fields.
    #[tactic(auto, unfolding(crate::specs::Structs::HasDescribed))]
    #[inline(always)]
    pub fn serialize_field<T: Serialize>(&mut self, value: &T) -> Result<(), S::Error>
        ensures ok { IfOk result
            (λ _. (lacks_descriptor self.new ≡ false)
            × (is_open self.new ≡ (not (lacks_descriptor self.old) || is_open self.old))) }
        ensures step { TupleStructFieldStep S.permits S.has S.is_misuse_error (T.tree value.now)
            self.old result self.new }
        ensures kept { IfErr result
            (λ _. (lacks_descriptor self.new ≡ lacks_descriptor self.old)
            × (is_open self.new ≡ is_open self.old)) }
        ensures single { is_single self.new ≡ is_single self.old }
        ensures same { (tuple_struct_reference self.new).ghost_name
            ≡ (tuple_struct_reference self.old).ghost_name }
    {
        serialize_tuple_field(
            &mut *self.serializer,
            &mut self.compound,
            self.single,
            self.wants_descriptor,
            self.opened,
            value,
        )?;
        if self.wants_descriptor {
            self.wants_descriptor = false;
        } else {
            self.opened = true;
        }
        Ok(())
    }

    /// Ends the struct and returns the serializer's result for the tree of its fields.
    ///
    /// # Errors
    /// Returns the serializer's error for that tree, or a misuse error if the form is a single
    /// value and no field was serialized.
    ///
    /// # Example
    /// The ubyte 1 and `true`: `c00402500141`. Under the name `DESCRIBED_LIST`, the ulong 1 and
    /// `true`: `005301c0020141`.
    #[inline(always)]
    pub fn end(self) -> Result<S::Ok, S::Error>
        ensures { EndsTupleStruct S.permits S.has S.is_misuse_error self.entry result
            self.exit.0.now }
    {
        let SerializeTupleStruct {
            serializer,
            compound,
            single,
            wants_descriptor: _,
            opened,
        } = self;
        let form = if single {
            StructEncoding::Single
        } else {
            StructEncoding::List
        };
        end_fields(serializer, compound, form, opened)
    }
}
