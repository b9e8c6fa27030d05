//! Types that contain other values: references, boxes, options, vectors and arrays.

ghost use Rattle.std.specs.Prelude.{map};
ghost use Rattle.amqp_ser.specs.Carried.{optional};
ghost use Rattle.amqp_ser.specs.Compounds.{tree_of_parts};
ghost use Rattle.amqp_ser.specs.declared.kind.CompoundKind.TheVariants.{List};

use crate::calls::compounds::SerializeCompounds;
use crate::calls::scalars::SerializeScalars;
use crate::serialize::Serialize;
use crate::serializer::Serializer;

impl<T: Serialize> Serialize for &T {
    ghost tree = { λ r. T.tree r.now };

    #[inline(always)]
    fn serialize<S: Serializer>(&self, serializer: &mut S) -> Result<S::Ok, S::Error> {
        Serialize::serialize(*self, serializer)
    }
}

impl<T: Serialize> Serialize for Box<T> {
    ghost tree = { λ b. T.tree b.value };

    #[inline(always)]
    fn serialize<S: Serializer>(&self, serializer: &mut S) -> Result<S::Ok, S::Error> {
        (**self).serialize(serializer)
    }
}

impl<T: Serialize> Serialize for Option<T> {
    ghost tree = { optional T.tree };

    #[inline(always)]
    fn serialize<S: Serializer>(&self, serializer: &mut S) -> Result<S::Ok, S::Error> {
        match self {
            Some(value) => serializer.serialize_some(value),
            None => serializer.serialize_none(),
        }
    }
}

impl<T: Serialize> Serialize for Vec<T> {
    ghost tree = { λ v. tree_of_parts List (map T.tree v.items) };

    #[inline(always)]
    fn serialize<S: Serializer>(&self, serializer: &mut S) -> Result<S::Ok, S::Error> {
        serialize_items(self.as_slice(), serializer)
    }
}

impl<T: Serialize, const N: usize> Serialize for [T; N] {
    ghost tree = { λ a. tree_of_parts List (map T.tree a) };

    #[inline(always)]
    fn serialize<S: Serializer>(&self, serializer: &mut S) -> Result<S::Ok, S::Error> {
        serialize_items(self.as_slice(), serializer)
    }
}

/// Serializes the list of the items.
///
/// # Encoding
/// A list (AMQP 1.0 part 1, section 1.6.22).
///
/// # Errors
/// Returns the serializer's error for an item or for the list.
///
/// # Example
/// The strings `a` and `bc`: `c00802a10161a1026263`.
#[inline(always)]
pub fn serialize_items<T: Serialize, S: Serializer>(
    items: &[T],
    serializer: &mut S,
) -> Result<S::Ok, S::Error>
    ensures { S.permits serializer.old (tree_of_parts List
        (map T.tree items.now)) result serializer.new }
{
    let mut seq = serializer.serialize_seq(Some(items.len()))?;
    for item in items {
        seq.serialize_element(item)?;
    }
    seq.end()
}
