//! The names that the standard gives to descriptors and to the fields of their lists.

use crate::types::TYPES;

/// A described type of the standard (AMQP 1.0 parts 2 to 5).
#[derive(Clone, Copy, Debug, PartialEq, Eq)]
pub struct Type {
    /// The numeric descriptor.
    pub code: u64,
    /// The name of the type. The symbolic descriptor is `amqp:`, the name, `:` and the form.
    pub name: &'static str,
    /// What is described: `list`, `map`, `binary` or `*`.
    pub form: &'static str,
    /// The names of its fields, in order, if it is a list with fields.
    pub fields: &'static [&'static str],
}

impl Type {
    /// Returns whether the type is a list of fields, perhaps of none.
    pub fn has_fields(&self) -> bool {
        self.form == "list" && self.name != "amqp-sequence"
    }
}

/// Returns the type with this numeric descriptor, or `None` if the standard has none.
///
/// # Example
///
/// `0x73` gives `properties`, whose first field is `message-id`.
pub fn type_of(code: u64) -> Option<&'static Type> {
    let place = match code {
        0x10..=0x18 => code - 0x10,
        0x1d => 9,
        0x23..=0x29 => code - 0x23 + 10,
        0x2b..=0x2e => code - 0x2b + 17,
        0x30..=0x34 => code - 0x30 + 21,
        0x40..=0x44 => code - 0x40 + 26,
        0x70..=0x78 => code - 0x70 + 31,
        _ => return None,
    };
    TYPES.get(place as usize)
}

/// Returns the numeric descriptor of this symbolic descriptor, or `None` if the standard has none.
///
/// # Example
///
/// `amqp:properties:list` gives `0x73`.
pub fn code_of_symbol(symbol: &str) -> Option<u64> {
    let (name, form) = symbol.strip_prefix("amqp:")?.split_once(':')?;
    let code = code_of_name(name)?;
    let found = type_of(code)?;
    if found.form == form { Some(code) } else { None }
}

/// Returns the numeric descriptor of the type with this name, or `None` if the standard has none.
///
/// # Example
///
/// `properties` gives `0x73`.
pub fn code_of_name(name: &str) -> Option<u64> {
    for found in TYPES.iter() {
        if found.name == name {
            return Some(found.code);
        }
    }
    None
}
