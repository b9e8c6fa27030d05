//! Descriptors (AMQP 1.0 part 1, section 1.5).

ghost use Rattle.std.specs.Prelude.{◌≡◌};
ghost use Rattle.std.specs.Option.{option_copied};
ghost use Rattle.amqp_data.specs.DescriptorParts.{code_in, name_in};
ghost use Rattle.amqp_data.specs.declared.descriptor.Descriptor.TheVariants.{Name, Code};

use crate::Symbol;

/// The descriptor of a described value, a name or a code. Every name is less than every code.
///
/// # Encoding
/// A symbol or a ulong, between the `00` and the value.
///
/// # Example
/// Null described by the code 1 is encoded as `00530140`, where `5301` is the descriptor. Null
/// described by the name `a:b` is encoded as `00a303613a6240`, where `a303613a62` is the
/// descriptor.
#[derive(Debug, PartialEq, Eq, PartialOrd, Ord, Hash, Clone, Drop)]
pub enum Descriptor {
    /// A symbolic descriptor.
    Name(Symbol),
    /// A numeric descriptor.
    Code(u64),
}

impl From<Symbol> for Descriptor {
    ghost from_gives = { λ name descriptor. descriptor ≡ Name name };

    fn from(name: Symbol) -> Descriptor {
        Descriptor::Name(name)
    }
}

impl From<u64> for Descriptor {
    ghost from_gives = { λ code descriptor. descriptor ≡ Code code };

    fn from(code: u64) -> Descriptor {
        Descriptor::Code(code)
    }
}

impl Descriptor {
    /// Returns the text of the name, if the descriptor is one.
    ///
    /// # Example
    /// `Some("a:b")` for the descriptor encoded as `a303613a62`, `None` for `5301`.
    pub fn as_name(&self) -> Option<&str>
        ensures { option_copied result ≡ name_in self.now }
    {
        match self {
            Descriptor::Name(name) => Some(name.as_str()),
            Descriptor::Code(_) => None,
        }
    }

    /// Returns the code, if the descriptor is one.
    ///
    /// # Example
    /// `Some(1)` for the descriptor encoded as `5301`, `None` for `a303613a62`.
    pub fn as_code(&self) -> Option<u64>
        ensures { result ≡ code_in self.now }
    {
        match self {
            Descriptor::Name(_) => None,
            Descriptor::Code(code) => Some(*code),
        }
    }
}
