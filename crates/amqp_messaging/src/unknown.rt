//! Described values of types that the standard does not have.

ghost use Rattle.std.specs.Prelude.{◌≡◌, IfOk, IfErr};
ghost use Rattle.amqp_data.specs.declared.error.Error.TheVariants.{OutOfMemory};
ghost use Rattle.amqp_ser.specs.Carried.{descriptor_content};
ghost use Rattle.amqp_messaging.specs.Unknown.{code_of, IsCode};

use serde_amqp::de::Alternatives;
use serde_amqp::derive::{Deserialize, Fault, Global, RoundTrip, Serialize, Serializer, Source};
use serde_amqp::described::Described;
use serde_amqp::descriptor::Descriptor;
use serde_amqp::primitives::Symbol;
use serde_amqp::value::RoundTripAlternatives;
use serde_amqp::{Error, Value};

/// A described value whose descriptor a choice of types does not have: the descriptor, and the
/// value after it.
///
/// # Encoding
/// That of the described value.
#[derive(Debug, Clone, PartialEq, Drop)]
pub struct Unknown(pub Described<Value>);

impl Serialize for Unknown {
    ghost tree = { λ x. ⟦<Described<Value> as Serialize>⟧.tree x.0 };

    fn serialize<S: Serializer>(&self, serializer: &mut S) -> Result<S::Ok, S::Error> {
        self.0.serialize(serializer)
    }
}

/// Copies a descriptor.
///
/// # Errors
/// Returns `Error::OutOfMemory` if an allocation fails.
///
/// # Memory
/// Allocates the text of a name from `alloc`.
fn copy(alloc: Global, descriptor: &Descriptor) -> Result<Descriptor, Error>
    ensures ok { IfOk result (λ d. descriptor_content d ≡ descriptor_content descriptor.now) }
    ensures memory { IfErr result (λ e. e ≡ OutOfMemory) }
{
    match descriptor {
        Descriptor::Code(code) => Ok(Descriptor::Code(*code)),
        Descriptor::Name(symbol) => {
            let text = symbol.as_inner().as_str();
            Ok(Descriptor::Name(Symbol::try_from_str(alloc, text)?))
        }
    }
}

/// Keeps a value with any descriptor.
///
/// A value whose descriptor is a name is read, and no round trip is stated for it.
impl Alternatives for Unknown {
    ghost reads = { λ d t x. (descriptor_content x.0.descriptor ≡ d)
        × ⟦<Value as Deserialize>⟧.reads t x.0.value };

    ghost code_of = { λ x. code_of x.0.descriptor };

    ghost image = { λ x. ⟦<Value as Deserialize>⟧.image x.0.value };

    ghost restorable = { λ x. IsCode x.0.descriptor
        × ⟦<Value as Deserialize>⟧.restorable x.0.value };

    ghost same = { λ x y. (descriptor_content x.0.descriptor ≡ descriptor_content y.0.descriptor)
        × ⟦<Value as Deserialize>⟧.same x.0.value y.0.value };

    fn read_after<S: Source>(
        alloc: Global,
        descriptor: &Descriptor,
        source: S,
    ) -> Result<(Unknown, S::Rest), Fault> {
        let Ok(descriptor) = copy(alloc, descriptor) else {
            return Err(Fault::memory());
        };
        match source.untyped(alloc) {
            Ok((value, rest)) => Ok((Unknown(Described { descriptor, value }), rest)),
            Err(fault) => Err(fault),
        }
    }
}

impl RoundTripAlternatives for Unknown {
    ghost trees = { λ x. ⟦<Described<Value> as Serialize>⟧.tree x.0 };

    ghost code_of = { λ x. code_of x.0.descriptor };

    ghost image = { λ x. ⟦<Value as Deserialize>⟧.image x.0.value };

    ghost restorable = { λ x. IsCode x.0.descriptor
        × ⟦<Value as Deserialize>⟧.restorable x.0.value };

    fn law() {
        <Described<Value> as RoundTrip>::law();
    }
}
