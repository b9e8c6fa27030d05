//! A place between values.

ghost use Rattle.std.specs.Prelude.{◌≡◌, ◌≤◌, ◌-◌, ◌∷◌, length, IfSome, false};
ghost use Rattle.amqp_cursor.specs.Numbers.{ReadsNumber, bytes_at, is_number, with_code};
ghost use Rattle.amqp_cursor.specs.Contents.{EndsWith, ReadsContent};
ghost use Rattle.amqp_cursor.specs.declared.cursor.Step.TheVariants.{Found, End};

use crate::begins::{Beginning, begins_with};
use crate::node::{Node, read_node};
use amqp_data::EncodingCodes;
use amqp_writer::Fault;
use amqp_writer::kinds::DESCRIBED;

/// As many values as the bytes hold.
pub const ANY: u64 = u64::MAX;

/// A place between values, with the values that are left of a compound, an input or an array.
#[repr(C)]
#[derive(Clone, Copy, Debug)]
pub struct Cursor {
    /// The offset of the next value.
    pub at: usize,
    /// The offset at which the last value ends.
    pub end: usize,
    /// The number of values left, or [`ANY`].
    pub left: u64,
    /// The format code of all values, as of the elements of an array. 0 if each has its own.
    pub element: u8,
}

/// Returns the cursor of `count` encoded values that fill bytes of this length.
pub fn root(len: usize, count: u64) -> Cursor {
    Cursor {
        at: 0,
        end: len,
        left: count,
        element: 0,
    }
}

impl Node {
    /// Returns whether this is a descriptor.
    #[inline(always)]
    pub fn is_descriptor(&self) -> bool {
        self.kind == DESCRIBED
    }

    /// Returns whether there are values inside that have bytes.
    #[inline(always)]
    pub fn has_values(&self) -> bool {
        self.kind >= 0xc0 && self.element / 16 != 4
    }

    /// Returns the cursor of the values inside.
    #[inline(always)]
    pub fn inside(&self) -> Cursor {
        Cursor {
            at: self.at,
            end: self.at.saturating_add(self.len),
            left: u64::from(self.count),
            element: self.element,
        }
    }
}

/// What [`next`] found.
#[derive(Clone, Copy, Debug, PartialEq, Eq)]
pub enum Step {
    /// A value or a descriptor.
    Found,
    /// No more values.
    End,
    /// No value.
    Refused(Fault),
}

/// Reads the next value into `node`, and moves the cursor past it: past the whole of a list, a map
/// or an array, but only past the descriptor of a described value, whose value is next then.
///
/// # Errors
/// `Refused` has the fault. The cursor stays where it is.
#[inline(always)]
pub fn next(data: &[u8], cursor: &mut Cursor, node: &mut Node) -> Step
    ensures number { result ≡ Found → ReadsNumber
        (bytes_at cursor.old.element cursor.old.at cursor.old.end «data».now)
        node.new.kind node.new.bits (cursor.old.end - cursor.new.at) }
    ensures content { result ≡ Found → is_number node.new.kind ≡ false → ReadsContent «data».now
        (bytes_at cursor.old.element cursor.old.at cursor.old.end «data».now)
        node.new (cursor.old.end - cursor.new.at) }
    ensures end { result ≡ End → cursor.old.at ≡ cursor.old.end }
    ensures inside { result ≡ Found → cursor.new.at ≤ cursor.new.end }
    ensures within { result ≡ Found → cursor.new.end ≤ length «data».now }
    ensures same_end { cursor.new.end ≡ cursor.old.end }
    ensures kept { ¬ (result ≡ Found) → cursor.new ≡ cursor.old }
{
    let Some(bytes) = data.get(cursor.at..cursor.end) else {
        return Step::Refused(Fault::Misuse);
    };
    if cursor.left == 0 || (cursor.left == ANY && bytes.is_empty()) {
        return if bytes.is_empty() {
            Step::End
        } else {
            Step::Refused(Fault::Value)
        };
    }
    let Some((code, payload)) = split_code(cursor.element, bytes) else {
        return Step::Refused(Fault::Truncated);
    };
    match read_node(code, payload, cursor.end, node) {
        Ok(left) if left <= cursor.end => {
            cursor.at = cursor.end - left;
            if code != 0 && cursor.left != ANY {
                cursor.left -= 1;
            }
            Step::Found
        }
        _ => Step::Refused(why(code, bytes, cursor.element)),
    }
}

// Returns the code of the first value, and what is after it.
#[inline(always)]
fn split_code(element: u8, bytes: &[u8]) -> Option<(u8, &[u8])>
    ensures code { IfSome result (λ r. with_code element bytes.now ≡ r.0 ∷ r.1.now) }
    ensures ends { IfSome result (λ r. EndsWith bytes.now r.1.now) }
{
    if element != 0 {
        return Some((element, bytes));
    }
    match bytes.split_first() {
        Some((first, rest)) => Some((*first, rest)),
        None => None,
    }
}

// Why nothing can be read here.
#[cold]
#[inline(never)]
fn why(code: u8, bytes: &[u8], element: u8) -> Fault {
    if element != 0 {
        return match EncodingCodes::try_from(code) {
            Ok(_) => Fault::Value,
            Err(_) => Fault::Code,
        };
    }
    // a descriptor is a value after the code 00
    let value = match bytes.split_first() {
        Some((0, after)) => after,
        _ => bytes,
    };
    match begins_with(value) {
        Beginning::Value(_) => Fault::Value,
        Beginning::Incomplete => Fault::Truncated,
        Beginning::Malformed => Fault::Code,
    }
}
