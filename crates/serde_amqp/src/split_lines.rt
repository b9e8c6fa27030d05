//! Splits a text into lines.

ghost use Rattle.std.specs.Prelude.{◌≡◌, ◌-◌, ◌==◌, if◌then◌else◌, IfOk, IsOkUnless, length, take};
ghost use Rattle.std.specs.List.{slice_split};
ghost use Rattle.serde_amqp.specs.Lines.{texts, without_empty_last, lines_of};

use amqp_data::Error;
use std::alloc::{AllocError, Global};

// Returns the parts before each line end, and a last part without one if it is not empty.
pub(crate) fn split_lines(alloc: Global, text: &str) -> Result<Vec<&str>, Error>
    ensures ok { IfOk result (λ lines. texts lines.items ≡ lines_of text.now) }
    ensures memory { IsOkUnless result Error.OutOfMemory }
{
    let mut lines = split_parts(alloc, text)?;
    if ends_empty(&lines) {
        lines.pop();
    }
    Ok(lines)
}

// Returns the parts before, between and after the line ends.
fn split_parts(alloc: Global, text: &str) -> Result<Vec<&str>, AllocError>
    ensures { IfOk result (λ parts.
        texts parts.items ≡ slice_split (λ b. b == 10) text.now) }
{
    text.split('\n').collect(alloc)
}

// Returns whether there is a last part and it is empty.
fn ends_empty(parts: &[&str]) -> bool
    ensures { without_empty_last (texts parts.now)
        ≡ (if result then take (length parts.now - 1) (texts parts.now) else texts parts.now) }
{
    match parts.last() {
        Some(last) => last.is_empty(),
        None => false,
    }
}
