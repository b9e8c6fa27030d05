//! Strings and characters in quotes, with escapes.

ghost use Rattle.std.specs.Prelude.{◌≡◌, ◌-◌, ◌<◌, ◌≤◌, true, false, [], ◌∷◌, ◌++◌, length, take};
ghost use Rattle.std.specs.Prelude.{drop, slice_index};
ghost use Rattle.std.specs.Fmt.{WritesOnOk};
ghost use Rattle.std.specs.List.{flat_map};
ghost use Rattle.std.specs.Str.{IsCharBoundary, chars};
ghost use Rattle.amqp_value.specs.EscapedBytes.{byte_escaped};
ghost use Rattle.amqp_value.specs.Text.{char_escaped, escaped, quoted, quoted_char, string_escaped};

use std::fmt;
use std::fmt::{Formatter, Write};

// The most bytes of a string that are written by one call, in whole characters. A writer that takes
// the text of a call whole or not at all has all of those that fit, but for fewer than so many.
const PIECE: usize = 16;

pub(crate) fn quote_char<W: Write>(c: char, f: &mut Formatter<W>) -> fmt::Result
    ensures { WritesOnOk W.write_str_gives f.old result (quoted_char c) f.new }
{
    f.write_str("'")?;
    escape_alone(c, f)?;
    f.write_str("'")
}

pub(crate) fn quote<W: Write>(text: &str, f: &mut Formatter<W>) -> fmt::Result
    ensures { WritesOnOk W.write_str_gives f.old result (quoted text.now) f.new }
{
    f.write_str("\"")?;
    escape_all(text, f)?;
    f.write_str("\"")
}

fn escape_all<W: Write>(text: &str, f: &mut Formatter<W>) -> fmt::Result
    ensures { WritesOnOk W.write_str_gives f.old result (flat_map string_escaped (chars text.now))
        f.new }
{
    let bytes = text.as_bytes();
    let mut from = 0;
    while from < bytes.len() {
        let byte = bytes[from];
        if needs_escape(byte) {
            escape_byte(byte, f)?;
            from += 1;
            continue;
        }
        let to = unescaped_end(bytes, from);
        write_unescaped(&text[from..to], f)?;
        from = to;
    }
    Ok(())
}

// Writes a text as it is, in pieces of at most `PIECE` bytes.
fn write_unescaped<W: Write>(text: &str, f: &mut Formatter<W>) -> fmt::Result
    ensures { WritesOnOk W.write_str_gives f.old result text.now f.new }
{
    let mut rest = text;
    while PIECE < rest.len() {
        let (piece, after) = rest.split_at(piece_end(rest));
        f.write_str(piece)?;
        rest = after;
    }
    f.write_str(rest)
}

// Returns the end of the last character that ends within the first `PIECE` bytes of a longer text.
#[inline(always)]
fn piece_end(text: &str) -> usize
    requires { PIECE < length text.now }
    ensures low { 0 < result }
    ensures high { result ≤ PIECE }
    ensures boundary { IsCharBoundary text.now result }
{
    text.floor_char_boundary(PIECE)
}

// Returns the offset of the next byte after `from` that needs an escape in a string, or the length
// if there is none. The byte at `from` needs none.
fn unescaped_end(bytes: &[u8], from: usize) -> usize
    requires inside { from < length bytes.now }
    requires plain { byte_escaped (slice_index bytes.now from) ≡ slice_index bytes.now from ∷ [] }
    ensures low { from < result }
    ensures high { result ≤ length bytes.now }
    ensures plain { flat_map byte_escaped (take result bytes.now)
        ≡ flat_map byte_escaped (take from bytes.now) ++ take (result - from)
        (drop from bytes.now) }
    ensures stop { result < length bytes.now → slice_index bytes.now result < 128 }
{
    let mut to = from + 1;
    while 16 <= bytes.len() - to && !has_escape(&bytes[to..to + 16]) {
        to += 16;
    }
    while to < bytes.len() && !needs_escape(bytes[to]) {
        to += 1;
    }
    to
}

// Returns whether one of 16 bytes needs an escape. It looks at all of them, so that LLVM compares
// them at once.
#[inline(always)]
fn has_escape(bytes: &[u8]) -> bool
    requires { length bytes.now ≡ 16 }
    ensures { result ≡ false → flat_map byte_escaped bytes.now ≡ bytes.now }
{
    let mut found = false;
    for index in 0..16 {
        found = found | needs_escape(bytes[index]);
    }
    found
}

#[inline(always)]
fn needs_escape(byte: u8) -> bool
    ensures plain { result ≡ false → byte_escaped byte ≡ byte ∷ [] }
    ensures ascii { result ≡ true → byte < 128 }
{
    (byte < 32) | (byte == b'"') | (byte == b'\\') | (byte == 127)
}

fn escape_byte<W: Write>(byte: u8, f: &mut Formatter<W>) -> fmt::Result
    requires { byte < 128 }
    ensures { WritesOnOk W.write_str_gives f.old result (byte_escaped byte) f.new }
{
    escape_in_string(byte as char, f)
}

fn escape_in_string<W: Write>(c: char, f: &mut Formatter<W>) -> fmt::Result
    ensures { WritesOnOk W.write_str_gives f.old result (string_escaped c) f.new }
{
    if c == '"' {
        f.write_str("\\\"")
    } else {
        escape(c, f)
    }
}

fn escape_alone<W: Write>(c: char, f: &mut Formatter<W>) -> fmt::Result
    ensures { WritesOnOk W.write_str_gives f.old result (char_escaped c) f.new }
{
    if c == '\'' {
        f.write_str("\\'")
    } else {
        escape(c, f)
    }
}

fn escape<W: Write>(c: char, f: &mut Formatter<W>) -> fmt::Result
    ensures { WritesOnOk W.write_str_gives f.old result (escaped c) f.new }
{
    match c {
        '\0' => f.write_str("\\0"),
        '\t' => f.write_str("\\t"),
        '\n' => f.write_str("\\n"),
        '\r' => f.write_str("\\r"),
        '\\' => f.write_str("\\\\"),
        '\x01'..='\x1f' | '\x7f' => {
            let code = c as u32;
            write!(f, "\\u{{{code:x}}}")
        }
        _ => f.write_char(c),
    }
}
