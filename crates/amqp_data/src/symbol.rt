//! Symbols: names from a domain known to the sender and the receiver (AMQP 1.0 part 1, section
//! 1.6.21).

ghost use Rattle.std.specs.Prelude.{◌≡◌, ◌==◌, length, IfOk, IfErr, Some, string_bytes};
ghost use Rattle.amqp_data.specs.Displayed.{displayed_symbol};
ghost use Rattle.amqp_data.specs.Text.{symbol_text, symbol_ref_text};

use crate::Error;
use std::alloc::Global;
use std::fmt;
use std::fmt::{Formatter, Write};

/// A symbol that owns its text.
///
/// # Encoding
/// `a3` with a length of one byte, or `b3` with a length of four bytes. Any text is accepted,
/// although AMQP restricts symbols to ASCII.
///
/// # Example
/// `amqp` is encoded as `a304616d7170`.
#[derive(Debug, PartialEq, Eq, PartialOrd, Ord, Hash, Clone, Drop)]
pub struct Symbol(String);

impl Symbol {
    /// Creates a symbol from a copy of `text`.
    ///
    /// # Errors
    /// Returns `Error::OutOfMemory` if an allocation fails.
    ///
    /// # Memory
    /// Allocates the copy from `alloc`.
    ///
    /// # Example
    /// `amqp` gives the symbol encoded as `a304616d7170` and displayed as `:amqp`.
    pub fn try_from_str(alloc: Global, text: &str) -> Result<Symbol, Error>
        ensures ok { IfOk result (λ symbol. symbol_text symbol ≡ text.now) }
        ensures memory { IfErr result (λ e. e ≡ Error.OutOfMemory) }
    {
        Ok(Symbol(String::from_str(alloc, text)?))
    }

    /// Returns the text.
    ///
    /// # Example
    /// For the symbol encoded as `a304616d7170` and displayed as `:amqp`, returns `amqp`.
    pub fn as_inner(&self) -> &String
        ensures { string_bytes result.now ≡ symbol_text self.now }
    {
        &self.0
    }

    /// Returns the text as a slice. `PartialEq` compares two values of one type, so compare with a
    /// literal by `symbol.as_str() == "amqp"`.
    ///
    /// # Example
    /// For the symbol encoded as `a304616d7170`, returns `amqp`.
    pub fn as_str(&self) -> &str
        ensures { result.now ≡ symbol_text self.now }
    {
        self.0.as_str()
    }

    /// Returns the number of bytes of the text.
    ///
    /// # Example
    /// For the symbol encoded as `a304616d7170`, returns 4.
    pub fn len(&self) -> usize
        ensures { result ≡ length (symbol_text self.now) }
    {
        self.0.len()
    }

    /// Returns whether the text is empty.
    ///
    /// # Example
    /// True for the symbol encoded as `a300`.
    pub fn is_empty(&self) -> bool
        ensures { result ≡ (length (symbol_text self.now) == 0) }
    {
        self.0.is_empty()
    }

    /// Consumes the symbol and returns the text.
    ///
    /// # Example
    /// For the symbol encoded as `a300` and displayed as `:`, returns the empty string.
    pub fn into_inner(self) -> String
        ensures { string_bytes result ≡ symbol_text self }
    {
        self.0
    }
}

impl From<String> for Symbol {
    ghost from_gives = { λ text symbol. symbol_text symbol ≡ string_bytes text };

    fn from(text: String) -> Symbol {
        Symbol(text)
    }
}

/// Writes a colon and the text.
///
/// # Example
/// `:amqp`.
impl fmt::Display for Symbol {
    ghost output = { λ symbol. Some (displayed_symbol (symbol_text symbol)) };

    fn fmt<W: Write>(&self, f: &mut Formatter<W>) -> fmt::Result {
        f.write_str(":")?;
        f.write_str(self.0.as_str())
    }
}

/// A symbol that borrows its text.
///
/// # Encoding
/// The same as a `Symbol` with this text.
///
/// # Example
/// `SymbolRef::from("amqp")` is encoded as `a304616d7170`, and its `as_inner` returns `amqp`.
#[derive(Debug, PartialEq, Eq, PartialOrd, Ord, Hash, Clone, Copy)]
pub struct SymbolRef<'a>(&'a str);

impl<'a> SymbolRef<'a> {
    /// Returns the text.
    ///
    /// # Example
    /// For the symbol encoded as `a304616d7170`, returns `amqp`.
    pub fn as_inner(&self) -> &'a str
        ensures { result.now ≡ symbol_ref_text self.now }
    {
        self.0
    }

    /// Consumes the symbol and returns the text.
    ///
    /// # Example
    /// For the symbol encoded as `a303613a62`, returns `a:b`.
    pub fn into_inner(self) -> &'a str
        ensures { result.now ≡ symbol_ref_text self.entry }
    {
        self.0
    }
}

impl<'a> SymbolRef<'a> {
    /// Returns the text. This is `as_inner` under the name that `Symbol` has for it.
    ///
    /// # Example
    /// For the symbol encoded as `a304616d7170`, returns `amqp`.
    pub fn as_str(&self) -> &'a str
        ensures { result.now ≡ symbol_ref_text self.now }
    {
        self.0
    }

    /// Returns the number of bytes of the text.
    ///
    /// # Example
    /// For the symbol encoded as `a304616d7170`, returns 4.
    pub fn len(&self) -> usize
        ensures { result ≡ length (symbol_ref_text self.now) }
    {
        self.0.len()
    }

    /// Returns whether the text is empty.
    ///
    /// # Example
    /// True for the symbol encoded as `a300`.
    pub fn is_empty(&self) -> bool
        ensures { result ≡ (length (symbol_ref_text self.now) == 0) }
    {
        self.0.is_empty()
    }
}

impl<'a> From<&'a str> for SymbolRef<'a> {
    ghost from_gives = { λ text symbol. symbol_ref_text symbol ≡ text.now };

    fn from(text: &'a str) -> SymbolRef<'a> {
        SymbolRef(text)
    }
}
