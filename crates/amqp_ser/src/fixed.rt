//! Values of fixed width.

ghost use Rattle.std.specs.Prelude.{◌≡◌};

/// A value of fixed width, as passed to a serializer: null, or a scalar that is neither a text nor
/// a binary and needs no marker.
///
/// # Encoding
/// The fixed-width types of AMQP 1.0 part 1, sections 1.6.1 to 1.6.12 and 1.6.16 (section 1.2.1).
///
/// # Example
/// `Fixed::Ubyte(1)` is `5001`, `Fixed::Uint(0)` is `43`, `Fixed::Float(0x3fc00000)` is
/// `723fc00000`.
#[derive(Clone, Copy)]
pub enum Fixed {
    /// The null value.
    Null,
    /// A boolean.
    Bool(bool),
    /// An 8-bit unsigned integer.
    Ubyte(u8),
    /// A 16-bit unsigned integer.
    Ushort(u16),
    /// A 32-bit unsigned integer.
    Uint(u32),
    /// A 64-bit unsigned integer.
    Ulong(u64),
    /// An 8-bit signed integer.
    Byte(i8),
    /// A 16-bit signed integer.
    Short(i16),
    /// A 32-bit signed integer.
    Int(i32),
    /// A 64-bit signed integer.
    Long(i64),
    /// The bits of a 32-bit binary floating point number.
    Float(u32),
    /// The bits of a 64-bit binary floating point number.
    Double(u64),
    /// A Unicode scalar value.
    Char(char),
}
