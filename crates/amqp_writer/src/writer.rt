//! A place in a buffer, and what is open there.

ghost use Rattle.std.specs.Prelude.{◌≡◌, ◌≤◌, ◌<◌, ◌+◌, ◌∷◌, ◌++◌, ◌^◌, [], length, false};
ghost use Rattle.amqp_writer.specs.Appended.{Appends, CountsOne, HasSame, Keeps, Puts};
ghost use Rattle.amqp_writer.specs.Closed.{Begins, Closes, header};
ghost use Rattle.amqp_writer.specs.Filled.{FitsAt};

use crate::fault::Fault;
use crate::form::put_form;
use crate::kinds::{ARRAY, LIST, MAP};
use crate::room::write_at;
use amqp_size::width::{MAX_COUNT, MAX_LEN};

/// A place in a buffer that is filled. All fields are 0 at first.
#[repr(C)]
#[derive(Clone, Copy, Debug)]
pub struct Writer {
    /// The number of bytes written.
    pub at: usize,
    /// The most that they were, which is the room that is needed.
    pub most: usize,
    /// The number of values in the compound that is open.
    pub count: u64,
    /// The format code of the elements of the array that is open, otherwise 0.
    pub element: u8,
    /// Whether a descriptor waits for its value.
    pub described: bool,
    /// The number of the first fault, or 0.
    pub fault: u8,
}

/// What a compound that is open leaves behind when it is closed.
#[repr(C)]
#[derive(Clone, Copy, Debug)]
pub struct Opened {
    /// Where it begins.
    pub start: usize,
    /// The number of values before it.
    pub count: u64,
    /// Its kind.
    pub kind: u8,
    /// The format code of the elements of the array that it is in, otherwise 0.
    pub element: u8,
}

impl Writer {
    /// Appends bytes.
    #[inline(always)]
    pub(crate) fn push(&mut self, out: &mut [u8], bytes: &[u8])
        ensures appended { Appends out.old out.new self.old self.new bytes.now }
        ensures len { length out.new ≡ length out.old }
        ensures kept { Keeps self.old self.new }
        ensures same { HasSame self.old self.new }
    {
        write_at(out, self.at, bytes);
        self.advance(bytes.len());
    }

    /// Appends bytes, and other bytes after them.
    #[inline(always)]
    pub(crate) fn push_both(&mut self, out: &mut [u8], first: &[u8], second: &[u8])
        ensures appended { length out.old < 2 ^ 64 →
            Appends out.old out.new self.old self.new (first.now ++ second.now) }
        ensures kept { Keeps self.old self.new }
        ensures same { HasSame self.old self.new }
    {
        self.push(out, first);
        self.push(out, second);
    }

    /// Moves on.
    #[inline(always)]
    pub(crate) fn advance(&mut self, len: usize)
        ensures at { self.old.at + len < 2 ^ 64 → self.new.at ≡ self.old.at + len }
        ensures kept { Keeps self.old self.new }
        ensures same { HasSame self.old self.new }
    {
        self.at = self.at.saturating_add(len);
        if self.at > self.most {
            self.most = self.at;
        }
    }

    /// Appends the bytes of a value, and counts it.
    #[inline(always)]
    pub(crate) fn put(&mut self, out: &mut [u8], bytes: &[u8])
        ensures { Puts out.old out.new self.old self.new bytes.now }
    {
        self.push(out, bytes);
        self.counted();
    }

    /// Counts a value.
    #[inline(always)]
    pub(crate) fn counted(&mut self)
        ensures counts { CountsOne self.old self.new }
        ensures at { self.new.at ≡ self.old.at }
        ensures most { self.new.most ≡ self.old.most }
        ensures fault { self.new.fault ≡ self.old.fault }
    {
        self.count = self.count.saturating_add(1);
        self.described = false;
    }

    /// Keeps a fault if a call is wrong, unless there is one.
    #[inline(always)]
    pub(crate) fn note(&mut self, is_wrong: bool, fault: Fault)
        ensures at { self.new.at ≡ self.old.at }
        ensures most { self.new.most ≡ self.old.most }
        ensures fault { self.new.fault ≡ 0 → self.old.fault ≡ 0 }
        ensures same { HasSame self.old self.new }
    {
        if is_wrong {
            self.fail(fault);
        }
    }

    /// Keeps a fault, unless there is one.
    #[cold]
    pub fn fail(&mut self, fault: Fault)
        ensures at { self.new.at ≡ self.old.at }
        ensures most { self.new.most ≡ self.old.most }
        ensures fault { ¬ (self.new.fault ≡ 0) }
        ensures first { ¬ (self.old.fault ≡ 0) → self.new.fault ≡ self.old.fault }
        ensures same { HasSame self.old self.new }
    {
        if self.fault == 0 {
            self.fault = fault.number();
        }
    }
}

// Returns whether this is the widest format code of a kind.
fn is_widest(code: u8) -> bool {
    matches!(
        code,
        0x40 | 0x50 | 0x51 | 0x56 | 0x60 | 0x61 | 0x70..=0x74 | 0x80..=0x84 | 0x94 | 0x98 | 0xb0 | 0xb1 | 0xb3
            | 0xd0 | 0xd1 | 0xf0
    )
}

/// Opens a list, a map or an array: the values that are written next are inside, until `close`.
/// `element` is the widest format code of the elements of an array.
///
/// # Errors
/// The fault is `Misuse` if it is of none of these kinds, or cannot be in the array that is open.
#[inline(always)]
pub fn open(out: &mut [u8], writer: &mut Writer, kind: u8, element: u8) -> Opened
    ensures start { (result.start ≡ writer.old.at) × (result.count ≡ writer.old.count) }
    ensures kind { (result.kind ≡ kind) × (result.element ≡ writer.old.element) }
    ensures count { writer.new.count ≡ 0 }
    ensures list { ¬ (kind ≡ 0xf0) → Begins writer.old writer.new 0 0 }
    ensures array { kind ≡ 0xf0 → Begins writer.old writer.new element 1 }
    ensures constructor { kind ≡ 0xf0 → writer.old.at + 9 < 2 ^ 64 → FitsAt out.old out.new
        (writer.old.at + header writer.old.element) (element ∷ []) }
{
    let opened = Opened {
        start: writer.at,
        count: writer.count,
        kind,
        element: writer.element,
    };
    let is_other = writer.element != 0 && writer.element != kind;
    writer.note(is_other, Fault::Misuse);
    let is_wrong = match kind {
        ARRAY => !is_widest(element),
        _ => kind != LIST && kind != MAP,
    };
    writer.note(is_wrong, Fault::Misuse);
    let header = if writer.element == 0 { 9 } else { 8 };
    if kind == ARRAY {
        write_at(out, writer.at.saturating_add(header), &[element]);
        writer.advance(header + 1);
        writer.element = element;
    } else {
        writer.advance(header);
        writer.element = 0;
    }
    writer.described = false;
    writer.count = 0;
    opened
}

/// Closes what was opened last, and writes its header.
///
/// # Encoding
/// The shortest form: the list without elements is `45`, and a body of at most 254 bytes with at
/// most 255 elements has a header of three bytes (AMQP 1.0 part 1, sections 1.6.22 to 1.6.24). In
/// an array, the form of four bytes.
///
/// # Errors
/// The fault is `Misuse` if a descriptor is without its value or a key without its value, and
/// `Long` if the length or the count is past the limit of four bytes.
#[inline(always)]
pub fn close(out: &mut [u8], writer: &mut Writer, opened: &Opened)
    ensures { Closes out.old out.new writer.old writer.new opened.now }
{
    let header = if opened.element == 0 { 9 } else { 8 };
    let len = writer
        .at
        .saturating_sub(opened.start.saturating_add(header));
    let count = writer.count;
    if writer.described || (opened.kind == MAP && count % 2 != 0) {
        writer.fail(Fault::Misuse);
    }
    if len > MAX_LEN || count > MAX_COUNT as u64 {
        writer.fail(Fault::Long);
        return;
    }
    let form = put_form(out, opened, len, count as u32);
    writer.at = opened.start.saturating_add(form);
    writer.element = opened.element;
    writer.count = opened.count;
    writer.counted();
}

/// Returns 0 if all that was written is in a buffer of this length, and otherwise the number of the
/// first fault.
pub fn finish(writer: &Writer, room: usize) -> u8
    ensures fault { result ≡ 0 → writer.now.fault ≡ 0 }
    ensures described { result ≡ 0 → writer.now.described ≡ false }
    ensures room { result ≡ 0 → writer.now.most ≤ room }
{
    if writer.fault != 0 {
        writer.fault
    } else if writer.described {
        Fault::Misuse.number()
    } else if writer.most > room {
        Fault::Room.number()
    } else {
        0
    }
}
