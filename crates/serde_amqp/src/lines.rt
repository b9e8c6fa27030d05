//! Prints the length, the encoding and the text of the list of the input's lines.

ghost use Rattle.std.specs.Prelude.{◌≡◌, ◌≤◌, ◌⊎◌, true, false, IfOk, OnOk, IfErr, IfSome, IsErrOf};
ghost use Rattle.std.specs.Prelude.{IsOkUnless, IsUtf8};
ghost use Rattle.std.specs.Io.KnownBytes.{Appends, IsAtEnd};
ghost use Rattle.amqp_frame.specs.Reader.{Failed};
ghost use Rattle.amqp_ser.specs.Writable.{writable};
ghost use Rattle.amqp_value.specs.Text.{text_of};
ghost use Rattle.amqp_value.specs.TreeOf.{tree_of};
ghost use Rattle.serde_amqp.specs.Lines.{texts, strings_tree, three_lines, report, lines_out};
ghost use Rattle.serde_amqp.specs.LinesRun.{IsReportable, IsTooLong, LinesRefuses, LinesDecidedBy};

use crate::hexadecimal::push_hexadecimal;
use crate::input::read_to_end;
use crate::split_lines::split_lines;
use crate::write::Write;
use amqp_data::Error;
use amqp_frame::Read;
use amqp_size::serialized_size;
use amqp_to_value::to_value;
use amqp_value::Value;
use amqp_wire::to_vec;
use std::alloc::Global;
use std::str;

/// Prints the length, the encoding and the text of the list of the input's lines.
///
/// Reads all input. A line ends before each 0A, and the text after the last 0A is a line if it is
/// not empty; 0D is kept. The output is three lines: `size ` and the length in decimal, `bytes `
/// and the encoding in lower-case hexadecimal, and `text ` and the text of the list, each followed
/// by 0A. The writer is flushed at the end.
///
/// # Encoding
///
/// A list of strings: AMQP 1.0 part 1, sections 1.6.20 and 1.6.22.
///
/// # Errors
///
/// Returns [`Error::InvalidValue`] if the input is not UTF-8, and [`Error::TooLong`] if the list of
/// its lines exceeds a limit; nothing was written. Returns [`Error::Io`] if a read or a write
/// fails, and [`Error::OutOfMemory`] if an allocation fails; a prefix of the three lines was
/// written.
///
/// # Memory
///
/// Allocates the input and the output from `alloc`.
///
/// # Example
///
/// For the lines `a` and `bc`, prints `size 10`, `bytes c00802a10161a1026263` and
/// `text ["a", "bc"]`.
pub fn run_lines<R: Read, W: Write>(
    alloc: Global,
    reader: &mut R,
    writer: &mut W,
) -> Result<(), Error>
    // What was read and written.
    ensures read { OnOk result (IsAtEnd (R.left reader.new)) }
    ensures ok { OnOk result (IfSome (R.left reader.old) (λ s.
        Appends (W.written writer.old) (W.written writer.new) (lines_out s))) }
    ensures refused { IfErr result (λ e. IfSome (R.left reader.old) (λ s.
        LinesRefuses s (W.written writer.old) (W.written writer.new) e)) }
    ensures flushed { OnOk result (W.flushed writer.new) }
    // When each result is returned.
    ensures exact { IfSome (R.left reader.old) (λ s. LinesDecidedBy s result) }
    ensures io { IsErrOf result Error.Io → Failed (R.failures reader.old) (R.failures reader.new)
        ⊎ Failed (W.failures writer.old) (W.failures writer.new) }
    ensures reads { R.failures reader.old ≤ R.failures reader.new }
    ensures writes { W.failures writer.old ≤ W.failures writer.new }
{
    let input = read_to_end(alloc, reader)?;
    let report = report_on(alloc, &input)?;
    writer.put(&report)?;
    writer.flush()
}

// Returns the output for an input.
fn report_on(alloc: Global, input: &[u8]) -> Result<Vec<u8>, Error>
    ensures ok { IfOk result (λ report. IsReportable input.now
        × (report.items ≡ lines_out input.now)) }
    ensures invalid { IsErrOf result Error.InvalidValue → ¬ IsUtf8 input.now }
    ensures too_long { IsErrOf result Error.TooLong → IsTooLong input.now }
    ensures others { IfErr result (λ e.
        (e ≡ Error.InvalidValue) ⊎ ((e ≡ Error.TooLong) ⊎ (e ≡ Error.OutOfMemory))) }
{
    let Ok(text) = str::from_utf8(input) else {
        return Err(Error::InvalidValue);
    };
    let lines = split_lines(alloc, text)?;
    report_lines(alloc, &lines)
}

// Returns the output for the list of these strings.
fn report_lines(alloc: Global, lines: &Vec<&str>) -> Result<Vec<u8>, Error>
    ensures ok { IfOk result (λ text. let t = strings_tree (texts lines.now.items) in
        (writable t ≡ true) × (text.items ≡ report t)) }
    ensures too_long { IsErrOf result Error.TooLong →
        writable (strings_tree (texts lines.now.items)) ≡ false }
    ensures others { IfErr result (λ e. (e ≡ Error.TooLong) ⊎ (e ≡ Error.OutOfMemory)) }
{
    let size = serialized_size(lines)?;
    let bytes = to_vec(alloc, lines)?;
    let value = to_value(alloc, lines)?;
    print_report(alloc, size, &bytes, &value)
}

// Formats the three lines of the report.
#[tactic(auto, unfolding(crate::specs::Lines::three_lines))]
fn print_report(alloc: Global, size: usize, bytes: &[u8], value: &Value) -> Result<Vec<u8>, Error>
    ensures ok { IfOk result (λ text.
        text.items ≡ three_lines size bytes.now (text_of (tree_of value.now))) }
    ensures memory { IsOkUnless result Error.OutOfMemory }
{
    let mut text = format!(in alloc; "size {size}\nbytes ")?.into_bytes();
    push_hexadecimal(&mut text, bytes)?;
    text.extend_from_slice(format!(in alloc; "\ntext {value}\n")?.as_bytes())?;
    Ok(text)
}
