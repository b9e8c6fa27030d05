//! Composites: described values whose descriptor is the code or the name of their type.

ghost use Rattle.std.specs.Prelude.{◌≡◌, ◌↔◌, ℕ, List, IsTrue};
ghost use Rattle.amqp_ser.specs.Carried.{descriptor_content};
ghost use Rattle.amqp_de.specs.Composites.{IsCodeOrName};
ghost use Rattle.amqp_de.specs.Laws.{Laws, as_composite};
ghost use Rattle.amqp_de.specs.Results.{Takes, Brings};

use crate::deserialize::Readable;
use crate::fault::Fault;
use crate::source::Source;
use amqp_data::Descriptor;
use std::alloc::Global;

/// A type that is read after its descriptor, which is a code or a name (AMQP 1.0 part 1, section
/// 1.4). Each composite implements `Deserialize`.
///
/// # Implementer notes
/// Required methods: `descriptor`, and `read_body`, which reads what follows it by the laws of
/// `body`, mostly by [`read_shaped`](crate::read_shaped).
///
/// # Example
/// The standard's header has the code `0x70` and the name `amqp:header:list`.
pub trait Composite: Sized + Drop {
    /// The code.
    ghost descriptor_code: { ℕ };

    /// The text of the name.
    ghost descriptor_name: { List ℕ };

    /// How what follows the descriptor is read.
    ghost body: { Laws Self };

    /// Returns the code and the name of the descriptor.
    fn descriptor() -> (u64, &'static str)
        ensures code { result.0 ≡ descriptor_code }
        ensures name { result.1.now ≡ descriptor_name };

    /// Reads what follows the descriptor, and returns what is left.
    ///
    /// # Errors
    /// Returns an error other than out of memory only if the tree is read as no value, or if the
    /// source is of bytes that were not checked before.
    fn read_body<S: Source>(alloc: Global, source: S) -> Result<(Self, S::Rest), Fault>
        ensures read { Takes body.reads
            (S.value source) (S.is_whole source) (S.left source) result }
        ensures law { Brings body.image body.restorable body.same
            (S.value source) (S.is_whole source) result };
}

/// Returns `true` if and only if the descriptor is the code or the name of `T`.
#[tactic(auto, unfolding(crate::specs::Composites::IsCodeOrName))]
#[inline(always)]
pub(crate) fn is_descriptor_of<T: Composite>(descriptor: &Descriptor) -> bool
    ensures { IsTrue result ↔ IsCodeOrName T.descriptor_code T.descriptor_name
        (descriptor_content descriptor.now) }
{
    let (code, name) = T::descriptor();
    match descriptor {
        Descriptor::Code(found) => *found == code,
        Descriptor::Name(found) => found.as_inner().as_str() == name,
    }
}

/// Reads a composite after its code or its name, and returns what is left.
///
/// # Errors
/// Returns [`Fault::invalid`] if the value has another descriptor; otherwise the error of the
/// source or of `read_body`.
///
/// # Memory
/// A descriptor that is a code takes none.
#[inline(always)]
pub fn read_composite<T: Composite, S: Source>(
    alloc: Global,
    source: S,
) -> Result<(T, S::Rest), Fault>
    ensures read { Takes (as_composite T.descriptor_code T.descriptor_name T.body).reads
        (S.value source) (S.is_whole source) (S.left source) result }
    ensures law { Brings (as_composite T.descriptor_code T.descriptor_name T.body).image
        T.body.restorable T.body.same (S.value source) (S.is_whole source) result }
{
    let (found, inner) = match source.described(alloc) {
        Ok(opened) => opened,
        Err(fault) => return Err(fault),
    };
    if !is_descriptor_of::<T>(&found) {
        return Err(Fault::other_descriptor());
    }
    drop(found);
    match T::read_body(alloc, inner) {
        Ok(read) => Ok(read),
        Err(fault) => Err(fault),
    }
}

/// A composite is read after its code or its name.
impl<T: Composite> Readable for T {
    ghost laws = { as_composite T.descriptor_code T.descriptor_name T.body };

    #[inline(always)]
    fn read_value<S: Source>(alloc: Global, source: S) -> Result<(T, S::Rest), Fault> {
        read_composite::<T, S>(alloc, source)
    }
}
