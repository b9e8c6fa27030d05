//! Fields that allow several values (AMQP 1.0 part 1, section 1.4).

use crate::array::Array;

/// The values of a field that allows several (`multiple="true"`): one value, or an array. No value
/// is the `None` of an `Option<Multiple<T>>`.
///
/// # Encoding
/// That of the value, or that of the array. `Many` without values is null, as `None` is: an empty
/// array means the same, but has no constructor, so that Qpid Proton does not read it.
///
/// # Example
/// One symbol is encoded as `a30161`, an array of two as
/// `e00c02b300000001610000000162`.
#[derive(Debug, Clone, PartialEq, Drop)]
pub enum Multiple<T> {
    /// One value, without an array.
    One(T),
    /// An array of values.
    Many(Array<T>),
}
