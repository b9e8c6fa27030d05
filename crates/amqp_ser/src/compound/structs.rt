//! Structs: an optional descriptor and a body of fields.

ghost use Rattle.std.specs.Prelude.{◌≡◌, ◌||◌, [], IfOk, IfErr, None, not, false};
ghost use mir.Syntax.{named};
ghost use Rattle.std.specs.Borrow.{Lends, sem};
ghost use Rattle.amqp_ser.specs.Marked.{is_descriptor_name};
ghost use Rattle.amqp_ser.specs.OpenStructs.{struct_reference, struct_with_serializer, form_of};
ghost use Rattle.amqp_ser.specs.OpenStructs.{has_descriptor, has_field, StructFieldStep, StructHas};
ghost use Rattle.amqp_ser.specs.OpenStructs.{EndsStruct};

use super::any_field::serialize_any_field;
use super::body::end_fields;
use super::list_field::serialize_list_field;
use crate::kind::CompoundKind;
use crate::names::is_descriptor_name;
use crate::serialize::Serialize;
use crate::serializer::Serializer;
use crate::struct_encoding::StructEncoding;

/// A struct that is being serialized. The name of the struct determines its body: a list of the
/// fields, a map from their names, or the one field itself. A first field with the key `DESCRIPTOR`
/// is the descriptor.
///
/// # Encoding
/// `00`, the descriptor and the body (AMQP 1.0 part 1, section 1.2), or only the body (sections
/// 1.6.22 and 1.6.23).
///
/// # Example
/// The descriptor 1 and the field `x`, `true`: `005301c0020141`; under the name `DESCRIBED_MAP`
/// `005301c10502a1017841`.
pub struct SerializeStruct<'a, S: Serializer> {
    serializer: &'a mut S,
    compound: S::Open,
    form: StructEncoding,
    /// Whether the descriptor has been serialized.
    described: bool,
    /// Whether a field has been serialized.
    opened: bool,
}

impl<S: Serializer> Drop for SerializeStruct<'_, S> {
    #[inline(always)]
    fn drop(self)
        ensures { self.exit.0.now ≡ (struct_reference self.entry).now }
    {
        let SerializeStruct {
            serializer: _,
            compound: _,
            form: _,
            described: _,
            opened: _,
        } = self;
    }
}

impl<'a, S: Serializer> SerializeStruct<'a, S> {
    ghost use Rattle.amqp_ser.specs.contracts.compound.structs.SerializeStruct.{the_row};

    // A struct of any form begins as a single compound, because a descriptor may precede its
    // fields. The list or the map is opened with the first field.
    #[tactic(auto, unfolding(crate::specs::Structs::HasDescribed))]
    #[inline(always)]
    pub(crate) fn new(serializer: &'a mut S, form: StructEncoding) -> SerializeStruct<'a, S>
        ensures opened { StructHas S.permits S.has serializer.old None CompoundKind.Single result [] }
        ensures form { form_of result ≡ form }
        ensures empty { (has_descriptor result ≡ false) × (has_field result ≡ false) }
        ensures same_reference { (struct_reference result).ghost_name
            ≡ serializer.entry.ghost_name }
    {
        let compound = serializer.begin_compound(CompoundKind::Single);
        SerializeStruct {
            serializer,
            compound,
            form,
            described: false,
            opened: false,
        }
    }

    /// Begins a struct whose fields are a list. The length is a hint and is not used.
    ///
    /// # Encoding
    /// A list (AMQP 1.0 part 1, section 1.6.22), after the descriptor if there is one.
    ///
    /// # Example
    /// The one field `x`, the ubyte 1, is `c003015001`.
    #[inline(always)]
    pub fn list(serializer: &'a mut S, _len: usize) -> SerializeStruct<'a, S>
        ensures opened { StructHas S.permits S.has serializer.old None CompoundKind.Single result [] }
        ensures form { form_of result ≡ StructEncoding.List }
        ensures empty { (has_descriptor result ≡ false) × (has_field result ≡ false) }
        ensures same_reference { (struct_reference result).ghost_name
            ≡ serializer.entry.ghost_name }
    {
        SerializeStruct::new(serializer, StructEncoding::List)
    }

    /// Begins a struct whose fields are a map from their names.
    ///
    /// # Encoding
    /// A map (AMQP 1.0 part 1, section 1.6.23), after the descriptor if there is one.
    ///
    /// # Example
    /// The one field `x`, the ubyte 1, is `c10602a101785001`.
    #[inline(always)]
    pub fn map(serializer: &'a mut S) -> SerializeStruct<'a, S>
        ensures opened { StructHas S.permits S.has serializer.old None CompoundKind.Single result [] }
        ensures form { form_of result ≡ StructEncoding.Map }
        ensures empty { (has_descriptor result ≡ false) × (has_field result ≡ false) }
        ensures same_reference { (struct_reference result).ghost_name
            ≡ serializer.entry.ghost_name }
    {
        SerializeStruct::new(serializer, StructEncoding::Map)
    }

    /// Begins a struct that is its one field.
    ///
    /// # Encoding
    /// The encoding of the field, after the descriptor if there is one.
    ///
    /// # Example
    /// The one field `x`, the ubyte 1, is `5001`.
    #[inline(always)]
    pub fn basic(serializer: &'a mut S) -> SerializeStruct<'a, S>
        ensures opened { StructHas S.permits S.has serializer.old None CompoundKind.Single result [] }
        ensures form { form_of result ≡ StructEncoding.Single }
        ensures empty { (has_descriptor result ≡ false) × (has_field result ≡ false) }
        ensures same_reference { (struct_reference result).ghost_name
            ≡ serializer.entry.ghost_name }
    {
        SerializeStruct::new(serializer, StructEncoding::Single)
    }

    /// Returns the serializer of the struct. The struct continues with the state that the caller
    /// leaves in it; the rest of the struct is unchanged.
    pub fn as_mut(&mut self) -> &mut S
        ensures* writes_back { sem 𝓛
            (Lends
            (the_row (record { mir = named 1; lft = [] }) S.row S.Ok.row S.Error.row S.Open.row)
            S.row self.entry result
            (struct_with_serializer self.old)) }
        ensures now { result.now ≡ (struct_reference self.old).now }
    {
        &mut *self.serializer
    }

    /// Serializes one more field, or the descriptor.
    ///
    /// # Errors
    /// Returns the serializer's error for the field or the descriptor. Always returns an error if
    /// the descriptor is neither a ulong nor a symbol. Returns a misuse error for a second or late
    /// descriptor, or for a second field of a single value. The struct is then unchanged and keeps
    /// accepting fields.
    ///
    /// # Example
    /// The ubyte 1 with the key `x` appends `5001`, and under the name `DESCRIBED_MAP`
    /// `a101785001`. As the first field, the ulong 1 with the key `DESCRIPTOR` puts `005301` before
    /// the fields.
    #[tactic(auto, unfolding(crate::specs::Structs::HasDescribed))]
    #[inline(always)]
    pub fn serialize_field<T: Serialize>(
        &mut self,
        key: &'static str,
        value: &T,
    ) -> Result<(), S::Error>
        ensures ok { IfOk result
            (λ _. (has_descriptor self.new
            ≡ (is_descriptor_name key.now || has_descriptor self.old))
            × (has_field self.new ≡ (not (is_descriptor_name key.now) || has_field self.old))) }
        ensures step { StructFieldStep S.permits S.has S.is_misuse_error key.now (T.tree value.now)
            self.old result self.new }
        ensures kept { IfErr result
            (λ _. (has_descriptor self.new ≡ has_descriptor self.old)
            × (has_field self.new ≡ has_field self.old)) }
        ensures form { form_of self.new ≡ form_of self.old }
        ensures same { (struct_reference self.new).ghost_name
            ≡ (struct_reference self.old).ghost_name }
    {
        // Most structs are lists, so the fields of a list have a path of their own, which is
        // inlined into the caller. A descriptor, and the fields of a map or of a single value,
        // share one function call.
        let descriptor = is_descriptor_name(key);
        if descriptor || !matches!(self.form, StructEncoding::List) {
            return match serialize_any_field(
                &mut *self.serializer,
                &mut self.compound,
                self.form,
                self.described,
                self.opened,
                key,
                value,
            ) {
                Ok(()) => {
                    if descriptor {
                        self.described = true;
                        return Ok(());
                    }
                    self.opened = true;
                    Ok(())
                }
                Err(e) => Err(e),
            };
        }
        match serialize_list_field(
            &mut *self.serializer,
            &mut self.compound,
            self.opened,
            value,
        ) {
            Ok(()) => {
                self.opened = true;
                Ok(())
            }
            Err(e) => Err(e),
        }
    }

    /// Ends the struct and returns the serializer's result for the tree of its fields.
    ///
    /// # Errors
    /// Returns the serializer's error for that tree, or a misuse error if the form is a single
    /// value and no field was serialized.
    ///
    /// # Example
    /// The descriptor 1 and the field `true`: `005301c0020141`; under the name `DESCRIBED_BASIC`
    /// `00530141`.
    #[inline(always)]
    pub fn end(self) -> Result<S::Ok, S::Error>
        ensures { EndsStruct S.permits S.has S.is_misuse_error self.entry result self.exit.0.now }
    {
        let SerializeStruct {
            serializer,
            compound,
            form,
            described: _,
            opened,
        } = self;
        end_fields(serializer, compound, form, opened)
    }
}
