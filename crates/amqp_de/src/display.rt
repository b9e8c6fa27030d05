//! The text of an error of reading.

use crate::fault::Fault;
use std::fmt::{Display, Formatter, Write};
use std::{error, fmt};

/// Writes the error, the offset, the names of the fields, the position if it is that of an element,
/// and the types.
///
/// # Example
/// `invalid value, in size: expected uint, found string`.
impl Display for Fault {
    fn fmt<W: Write>(&self, f: &mut Formatter<W>) -> fmt::Result {
        self.kind().error().fmt(f)?;
        if let Some(offset) = self.offset() {
            write!(f, " at byte {offset}")?;
        }
        write_fields(self.within(), self.field, f)?;
        match self.index() {
            Some(index) if !self.is_of_field() => write!(f, ", at position {index}")?,
            _ => {}
        }
        match (self.wanted(), self.found()) {
            (Some(wanted), Some(found)) => write!(f, ": expected {wanted}, found {found}"),
            (Some(wanted), None) => write!(f, ": expected {wanted}"),
            (None, Some(found)) => write!(f, ": found {found}"),
            (None, None) if self.is_missing() => f.write_str(": missing"),
            (None, None) => Ok(()),
        }
    }
}

impl error::Error for Fault {}

fn write_fields<W: Write>(within: &str, field: &str, f: &mut Formatter<W>) -> fmt::Result {
    if field.is_empty() {
        return Ok(());
    }
    f.write_str(", in ")?;
    if !within.is_empty() {
        f.write_str(within)?;
        f.write_str(".")?;
    }
    f.write_str(field)
}
