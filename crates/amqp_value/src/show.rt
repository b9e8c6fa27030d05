//! The text of a value, for logs and diagnostics. It is not meant to be parsed.

ghost use Rattle.std.specs.Prelude.{◌++◌, Some, codes};
ghost use Rattle.std.specs.Fmt.{WritesOnOk};
ghost use Rattle.amqp_ser.specs.Carried.{descriptor_content};
ghost use Rattle.amqp_value.specs.TreeOf.{all_of, pairs_trees, tree_of};
ghost use Rattle.amqp_value.specs.Text.{bytes_text, descriptor_text, items_text, pairs_text};
ghost use Rattle.amqp_value.specs.Text.{separator, text_of};

use crate::Value;
use crate::escape::{quote, quote_char};
use amqp_data::{Descriptor, write_hexadecimal};
use std::fmt;
use std::fmt::{Display, Formatter, Write};

/// Writes numbers in decimal, and binaries, decimals and the bits of floats as `0x[..]` with two
/// digits per byte. Symbols follow a colon. Strings are in `"` and characters in `'`, with escapes.
/// Lists and arrays are in brackets and maps in braces. A described value follows its descriptor,
/// which is a name or a code.
///
/// # Example
/// The list of the string `a`, the symbol `k` and null with the descriptor code 131 is written as
/// `["a", :k, 0x83 -> null]`.
impl Display for Value {
    ghost output = { λ v. Some (text_of (tree_of v)) };

    fn fmt<W: Write>(&self, f: &mut Formatter<W>) -> fmt::Result {
        show(self, f)
    }
}

#[cycle(show)]
fn show<W: Write>(value: &Value, f: &mut Formatter<W>) -> fmt::Result
    ensures { WritesOnOk W.write_str_gives f.old result (text_of (tree_of value.now)) f.new }
{
    match value {
        Value::Described(v) => {
            show_descriptor(&v.descriptor, f)?;
            f.write_str(" -> ")?;
            show(&v.value, f)
        }
        Value::Null => f.write_str("null"),
        Value::Bool(true) => f.write_str("true"),
        Value::Bool(false) => f.write_str("false"),
        Value::Ubyte(v) => v.fmt(f),
        Value::Ushort(v) => v.fmt(f),
        Value::Uint(v) => v.fmt(f),
        Value::Ulong(v) => v.fmt(f),
        Value::Byte(v) => v.fmt(f),
        Value::Short(v) => v.fmt(f),
        Value::Int(v) => v.fmt(f),
        Value::Long(v) => v.fmt(f),
        Value::Float(v) => show_bytes(&v.as_inner().to_be_bytes(), f),
        Value::Double(v) => show_bytes(&v.as_inner().to_be_bytes(), f),
        Value::Decimal32(v) => show_bytes(v.as_inner(), f),
        Value::Decimal64(v) => show_bytes(v.as_inner(), f),
        Value::Decimal128(v) => show_bytes(v.as_inner(), f),
        Value::Char(v) => quote_char(*v, f),
        Value::Timestamp(v) => v.fmt(f),
        Value::Uuid(v) => v.fmt(f),
        Value::Binary(v) => show_bytes(v.as_inner(), f),
        Value::String(v) => quote(v.as_str(), f),
        Value::Symbol(v) => v.fmt(f),
        Value::List(v) => show_list(v, f),
        Value::Map(v) => show_map(v.as_slice(), f),
        Value::Array(v) => show_list(v.as_inner(), f),
    }
}

#[cycle(show)]
fn show_list<W: Write>(items: &[Value], f: &mut Formatter<W>) -> fmt::Result
    ensures { WritesOnOk W.write_str_gives f.old result
        (codes "[" ++ (items_text (all_of items.now) 0 ++ codes "]")) f.new }
{
    f.write_str("[")?;
    show_items(items, f)?;
    f.write_str("]")
}

#[cycle(show)]
fn show_items<W: Write>(items: &[Value], f: &mut Formatter<W>) -> fmt::Result
    ensures { WritesOnOk W.write_str_gives f.old result (items_text (all_of items.now) 0) f.new }
{
    for (index, item) in items.iter().enumerate() {
        separate(index, f)?;
        show(item, f)?;
    }
    Ok(())
}

#[cycle(show)]
fn show_map<W: Write>(pairs: &[(Value, Value)], f: &mut Formatter<W>) -> fmt::Result
    ensures { WritesOnOk W.write_str_gives f.old result
        (codes "{" ++ (pairs_text (pairs_trees pairs.now) 0 ++ codes "}")) f.new }
{
    f.write_str("{")?;
    show_pairs(pairs, f)?;
    f.write_str("}")
}

#[cycle(show)]
fn show_pairs<W: Write>(pairs: &[(Value, Value)], f: &mut Formatter<W>) -> fmt::Result
    ensures { WritesOnOk W.write_str_gives f.old result (pairs_text (pairs_trees pairs.now) 0)
        f.new }
{
    for (index, pair) in pairs.iter().enumerate() {
        separate(index, f)?;
        show(&pair.0, f)?;
        f.write_str(": ")?;
        show(&pair.1, f)?;
    }
    Ok(())
}

// Writes the separator before the item at this index.
fn separate<W: Write>(index: usize, f: &mut Formatter<W>) -> fmt::Result
    ensures { WritesOnOk W.write_str_gives f.old result (separator index) f.new }
{
    if index == 0 {
        Ok(())
    } else {
        f.write_str(", ")
    }
}

fn show_descriptor<W: Write>(descriptor: &Descriptor, f: &mut Formatter<W>) -> fmt::Result
    ensures { WritesOnOk W.write_str_gives f.old result
        (descriptor_text (descriptor_content descriptor.now)) f.new }
{
    match descriptor {
        Descriptor::Name(name) => name.fmt(f),
        Descriptor::Code(code) => write!(f, "0x{code:x}"),
    }
}

fn show_bytes<W: Write>(bytes: &[u8], f: &mut Formatter<W>) -> fmt::Result
    ensures { WritesOnOk W.write_str_gives f.old result (bytes_text bytes.now) f.new }
{
    f.write_str("0x[")?;
    write_hexadecimal(bytes, f)?;
    f.write_str("]")
}
