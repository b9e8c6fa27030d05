//! Prints a line for each encoded value of the input.

ghost use Rattle.std.specs.Prelude.{◌≡◌, ◌≢◌, ◌≤◌, ◌⊎◌, true, false, [], IfOk, OnOk, IfErr, IfSome};
ghost use Rattle.std.specs.Prelude.{IsErrOf, IsOkUnless, Ok};
ghost use Rattle.std.specs.Io.KnownBytes.{Keeps, IsAtEnd};
ghost use Rattle.amqp_frame.specs.Reader.{Failed};
ghost use Rattle.serde_amqp.specs.CutLines.{cut_line};
ghost use Rattle.serde_amqp.specs.CutRun.{Prints, CutRefuses, CutDecidedBy};
ghost use Rattle.serde_amqp.specs.CutSteps.{PrintsNext, StepRefuses};

use crate::hexadecimal::push_hexadecimal;
use crate::write::Write;
use amqp_data::Error;
use amqp_frame::{LazyValue, Read, laws};
use std::alloc::Global;

/// Prints one line for each encoded value of the input, as it is read, until the input ends.
///
/// The line is the length of the value in decimal, a space, its bytes in lower-case hexadecimal,
/// and 0A. The writer is flushed at the end of the input.
///
/// Some public names use "frame" for an encoded value, as the crate `serde_amqp` does. It is not a
/// frame of the transport, which has a header of eight bytes (AMQP 1.0 part 2, section 2.3).
///
/// # Encoding
///
/// AMQP 1.0 part 1, sections 1.2 to 1.2.4. [`LazyValue::from_reader`] reads each value.
///
/// # Errors
///
/// Returns [`Error::InvalidFormatCode`] if the code at which a value begins is invalid, and
/// [`Error::UnexpectedEof`] if the input ends inside a value; the lines of the values before it
/// were written. Returns [`Error::Io`] if a read or a write fails, and [`Error::OutOfMemory`] if an
/// allocation fails; a prefix of the lines was written. Returns [`Error::TooLong`] if another byte
/// follows `u64::MAX` values; the lines of those values were written.
///
/// # Memory
///
/// Allocates one value and its line at a time from `alloc`.
///
/// # Example
///
/// For `500140`, prints `2 5001` and `1 40`.
pub fn run_cut<R: Read, W: Write>(
    alloc: Global,
    reader: &mut R,
    writer: &mut W,
) -> Result<(), Error>
    // What was read and written.
    ensures read { OnOk result (IfSome (R.left reader.old) (λ _. IsAtEnd (R.left reader.new))) }
    ensures ok { OnOk result (IfSome (R.left reader.old) (λ s.
        Prints s (W.written writer.old) (W.written writer.new) (λ rest. rest ≡ []))) }
    ensures refused { IfErr result (λ e. IfSome (R.left reader.old) (λ s.
        CutRefuses s (W.written writer.old) (W.written writer.new) e)) }
    ensures flushed { OnOk result (W.flushed writer.new) }
    // When each result is returned.
    ensures exact { IfSome (R.left reader.old) (λ s. CutDecidedBy s result) }
    ensures io { IsErrOf result Error.Io → Failed (R.failures reader.old) (R.failures reader.new)
        ⊎ Failed (W.failures writer.old) (W.failures writer.new) }
    ensures reads { R.failures reader.old ≤ R.failures reader.new }
    ensures writes { W.failures writer.old ≤ W.failures writer.new }
{
    laws::one_case();
    laws::one_cut();
    laws::some_byte();
    print_encoded_values(alloc, reader, writer)
}

// Prints a line for each encoded value.
fn print_encoded_values<R: Read, W: Write>(
    alloc: Global,
    reader: &mut R,
    writer: &mut W,
) -> Result<(), Error>
    ensures read { OnOk result (IfSome (R.left reader.old) (λ _. IsAtEnd (R.left reader.new))) }
    ensures ok { OnOk result (IfSome (R.left reader.old) (λ s.
        Prints s (W.written writer.old) (W.written writer.new) (λ rest. rest ≡ []))) }
    ensures refused { IfErr result (λ e. IfSome (R.left reader.old) (λ s.
        CutRefuses s (W.written writer.old) (W.written writer.new) e)) }
    ensures flushed { OnOk result (W.flushed writer.new) }
    ensures io { IsErrOf result Error.Io → Failed (R.failures reader.old) (R.failures reader.new)
        ⊎ Failed (W.failures writer.old) (W.failures writer.new) }
    ensures reads { R.failures reader.old ≤ R.failures reader.new }
    ensures writes { W.failures writer.old ≤ W.failures writer.new }
{
    laws::some_byte();
    laws::some_cut();
    for _encoded in 0..u64::MAX {
        if !print_next(alloc, reader, writer)? {
            return Ok(());
        }
    }
    finish(reader, writer)
}

// Reads the next encoded value and prints its line; returns false if the input has ended.
fn print_next<R: Read, W: Write>(
    alloc: Global,
    reader: &mut R,
    writer: &mut W,
) -> Result<bool, Error>
    ensures more { result ≡ Ok true → PrintsNext (R.left reader.old) (R.left reader.new)
        (W.written writer.old) (W.written writer.new) }
    ensures done { result ≡ Ok false → IsAtEnd (R.left reader.old)
        × Keeps (R.left reader.old) (R.left reader.new)
        × Keeps (W.written writer.old) (W.written writer.new) }
    ensures flushed { result ≡ Ok false → W.flushed writer.new }
    ensures refused { IfErr result (λ e. IfSome (R.left reader.old) (λ s.
        StepRefuses s (W.written writer.old) (W.written writer.new) e)) }
    ensures io { IsErrOf result Error.Io → Failed (R.failures reader.old) (R.failures reader.new)
        ⊎ Failed (W.failures writer.old) (W.failures writer.new) }
    ensures reads { R.failures reader.old ≤ R.failures reader.new }
    ensures writes { W.failures writer.old ≤ W.failures writer.new }
{
    if reader.peek()?.is_none() {
        writer.flush()?;
        return Ok(false);
    }
    let encoded = LazyValue::from_reader(alloc, reader)?;
    let line = line_of(alloc, encoded.as_slice())?;
    writer.put(&line)?;
    Ok(true)
}

// Ends a run that has read `u64::MAX` values.
fn finish<R: Read, W: Write>(reader: &mut R, writer: &mut W) -> Result<(), Error>
    ensures done { OnOk result (IsAtEnd (R.left reader.old)) }
    ensures flushed { OnOk result (W.flushed writer.new) }
    ensures left { Keeps (R.left reader.old) (R.left reader.new) }
    ensures written { Keeps (W.written writer.old) (W.written writer.new) }
    ensures more { IsErrOf result Error.TooLong → IfSome (R.left reader.old) (λ s. s ≢ []) }
    ensures others { IfErr result (λ e. (e ≡ Error.TooLong) ⊎ (e ≡ Error.Io)) }
    ensures io { IsErrOf result Error.Io → Failed (R.failures reader.old) (R.failures reader.new)
        ⊎ Failed (W.failures writer.old) (W.failures writer.new) }
    ensures reads { R.failures reader.old ≤ R.failures reader.new }
    ensures writes { W.failures writer.old ≤ W.failures writer.new }
{
    if reader.peek()?.is_none() {
        writer.flush()
    } else {
        Err(Error::TooLong)
    }
}

// Returns the line of an encoded value.
#[tactic(auto, unfolding(crate::specs::CutLines::cut_line))]
fn line_of(alloc: Global, encoded: &[u8]) -> Result<Vec<u8>, Error>
    ensures ok { IfOk result (λ line. line.items ≡ cut_line encoded.now) }
    ensures memory { IsOkUnless result Error.OutOfMemory }
{
    let length = encoded.len().to_string(alloc)?;
    let digits = encoded.len().saturating_mul(2);
    let len = digits.saturating_add(length.len()).saturating_add(2);
    let mut line = Vec::with_capacity(alloc, len)?;
    line.extend_from_slice(length.as_bytes())?;
    line.push(b' ')?;
    push_hexadecimal(&mut line, encoded)?;
    line.push(b'\n')?;
    Ok(line)
}
