//! One value of encoded data.

ghost use Rattle.std.specs.Prelude.{◌≡◌, ◌∷◌, ◌-◌, IfOk, false};
ghost use Rattle.amqp_cursor.specs.Numbers.{ReadsNumber, is_number};
ghost use Rattle.amqp_cursor.specs.Contents.{Placed};

use crate::contents::{
    node_of_array, node_of_binary, node_of_decimal32, node_of_decimal64, node_of_decimal128,
    node_of_descriptor, node_of_list, node_of_map, node_of_no_list, node_of_string, node_of_symbol,
    node_of_uuid,
};
use crate::numbers::{
    node_of_bool, node_of_byte, node_of_char, node_of_double, node_of_float, node_of_int,
    node_of_long, node_of_null, node_of_short, node_of_timestamp, node_of_ubyte, node_of_uint,
    node_of_ulong, node_of_ushort,
};
use amqp_decode::prefix::GaveUp;

/// One value of encoded data: a scalar, the header of a list, a map or an array, or a descriptor.
#[repr(C)]
#[derive(Clone, Copy, Debug, Default)]
pub struct Node {
    /// A number: extended by its sign, 0 or 1 for a boolean, the bits of a float or a double, the
    /// code of a character or of a descriptor, the milliseconds of a timestamp. Otherwise 0.
    pub bits: u64,
    /// The offset of the content: the bytes of a text, a binary, a decimal or a uuid, the name of a
    /// descriptor, or the first value inside.
    pub at: usize,
    /// The length of the content.
    pub len: usize,
    /// The number of values inside. A map has its keys and values alternately.
    pub count: u32,
    /// The kind.
    pub kind: u8,
    /// The format code, or the constructor of the array that this is in.
    pub code: u8,
    /// The format code of the elements of an array, otherwise 0.
    pub element: u8,
    /// Whether a descriptor is a name.
    pub named: bool,
}

impl Node {
    // Sets all fields.
    #[inline(always)]
    fn set(&mut self, kind: u8, code: u8, bits: u64, at: usize, len: usize, count: u32, element: u8)
        ensures kind { self.new.kind ≡ kind }
        ensures bits { self.new.bits ≡ bits }
        ensures at { self.new.at ≡ at }
        ensures len { self.new.len ≡ len }
        ensures count { self.new.count ≡ count }
        ensures named { self.new.named ≡ false }
    {
        self.bits = bits;
        self.at = at;
        self.len = len;
        self.count = count;
        self.kind = kind;
        self.code = code;
        self.element = element;
        self.named = false;
    }

    // A number.
    #[inline(always)]
    pub(crate) fn number(&mut self, kind: u8, code: u8, bits: u64)
        ensures kind { self.new.kind ≡ kind }
        ensures bits { self.new.bits ≡ bits }
    {
        self.set(kind, code, bits, 0, 0, 0, 0);
    }

    // A content of `len` bytes, before `left` bytes that end at the offset `end`.
    #[inline(always)]
    pub(crate) fn content(&mut self, kind: u8, code: u8, len: usize, left: usize, end: usize)
        ensures kind { self.new.kind ≡ kind }
        ensures at { self.new.at ≡ end - left - len }
        ensures len { self.new.len ≡ len }
        ensures count { self.new.count ≡ 0 }
        ensures named { self.new.named ≡ false }
    {
        let at = end.saturating_sub(left).saturating_sub(len);
        self.set(kind, code, 0, at, len, 0, 0);
    }
}

/// Reads the value of a format code and the bytes after it, which end at the offset `end`, and
/// returns the number of bytes that are left: after a scalar, after the whole of a list, a map or
/// an array, and after a descriptor.
#[inline(always)]
pub fn read_node(code: u8, bytes: &[u8], end: usize, node: &mut Node) -> Result<usize, GaveUp>
    ensures number { IfOk result (ReadsNumber (code ∷ bytes.now) node.new.kind node.new.bits) }
    ensures content { IfOk result (λ left. is_number node.new.kind ≡ false →
        Placed code bytes.now end node.new left) }
{
    match code {
        0x43 | 0x52 | 0x70 => node_of_uint(code, bytes, node),
        0xa1 | 0xb1 => node_of_string(code, bytes, end, node),
        0xa3 | 0xb3 => node_of_symbol(code, bytes, end, node),
        0xa0 | 0xb0 => node_of_binary(code, bytes, end, node),
        0xc0 | 0xd0 => node_of_list(code, bytes, end, node),
        0x45 => node_of_no_list(bytes, end, node),
        0xc1 | 0xd1 => node_of_map(code, bytes, end, node),
        0xe0 | 0xf0 => node_of_array(code, bytes, end, node),
        0x00 => node_of_descriptor(bytes, end, node),
        0x40 => node_of_null(code, bytes, node),
        0x41 | 0x42 | 0x56 => node_of_bool(code, bytes, node),
        0x44 | 0x53 | 0x80 => node_of_ulong(code, bytes, node),
        0x54 | 0x71 => node_of_int(code, bytes, node),
        0x55 | 0x81 => node_of_long(code, bytes, node),
        0x50 => node_of_ubyte(code, bytes, node),
        0x60 => node_of_ushort(code, bytes, node),
        0x51 => node_of_byte(code, bytes, node),
        0x61 => node_of_short(code, bytes, node),
        0x72 => node_of_float(code, bytes, node),
        0x82 => node_of_double(code, bytes, node),
        0x73 => node_of_char(code, bytes, node),
        0x83 => node_of_timestamp(code, bytes, node),
        0x74 => node_of_decimal32(bytes, end, node),
        0x84 => node_of_decimal64(bytes, end, node),
        0x94 => node_of_decimal128(bytes, end, node),
        0x98 => node_of_uuid(bytes, end, node),
        _ => Err(GaveUp),
    }
}
