//! Symbols and strings that are read where some texts alone have a meaning.

ghost use Rattle.std.specs.Prelude.{◌≡◌, ◌⊎◌, ℕ, List, IfOk, IfErr, string_bytes};
ghost use Rattle.amqp_data.specs.Text.{symbol_text};
ghost use Rattle.amqp_ser.specs.Tree.{scalar, string, symbol};
ghost use Rattle.amqp_de.specs.Results.{IsMemory};
ghost use Rattle.amqp_de.specs.Texts.{short_ascii};

use crate::fault::Fault;
use crate::source::Source;
use amqp_data::Symbol;
use std::alloc::Global;

/// Reads a symbol, for a type whose values are some short ASCII texts.
///
/// # Errors
/// Returns an error other than out of memory only if the value is no symbol of a short ASCII text,
/// or if the source is of bytes that were not checked before.
///
/// # Memory
/// Allocates the text.
pub fn read_symbol<S: Source>(alloc: Global, source: S) -> Result<(Symbol, S::Rest), Fault>
    ensures ok { IfOk result (λ r.
        (S.value source ≡ scalar (symbol (symbol_text r.0))) × S.left source r.1) }
    ensures err { IfErr result (λ e. S.is_whole source → IsMemory e
        ⊎ ((bs : List ℕ) → ¬ (S.value source ≡ scalar (symbol (short_ascii bs))))) }
{
    match source.scalar::<Symbol>(alloc) {
        Ok(read) => Ok(read),
        Err(fault) => Err(fault),
    }
}

/// Reads a string, for a type whose values are some short ASCII texts.
///
/// # Errors
/// Returns an error other than out of memory only if the value is no string of a short ASCII text,
/// or if the source is of bytes that were not checked before.
///
/// # Memory
/// Allocates the text.
pub fn read_string<S: Source>(alloc: Global, source: S) -> Result<(String, S::Rest), Fault>
    ensures ok { IfOk result (λ r.
        (S.value source ≡ scalar (string (string_bytes r.0))) × S.left source r.1) }
    ensures err { IfErr result (λ e. S.is_whole source → IsMemory e
        ⊎ ((bs : List ℕ) → ¬ (S.value source ≡ scalar (string (short_ascii bs))))) }
{
    match source.scalar::<String>(alloc) {
        Ok(read) => Ok(read),
        Err(fault) => Err(fault),
    }
}
