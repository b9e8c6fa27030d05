//! Wrappers that serialize fields as a list, a variant or a map.

ghost use Rattle.std.specs.Prelude.{◌≡◌, List, Option, true};
ghost use Rattle.amqp_ser.specs.Tree.{Tree};
ghost use Rattle.amqp_ser.specs.Compounds.{complete, tree_of_parts};
ghost use Rattle.amqp_ser.specs.Named.{named_parts, key_of, string_key, symbol_key, up_to_last};
ghost use Rattle.amqp_ser.specs.Named.{values_of};
ghost use Rattle.amqp_ser.specs.declared.kind.CompoundKind.TheVariants as kind;

use crate::fields::{Fields, Keys};
use crate::kind::CompoundKind;
use crate::serialize::Serialize;
use crate::serializer::Serializer;

/// Serializes the fields up to the last present one as a list or a variant.
fn serialize_values<S: Serializer, F: Fields>(
    serializer: &mut S,
    kind: CompoundKind,
    fields: &F,
) -> Result<S::Ok, S::Error>
    requires { (ps : List (Option Tree)) → complete kind ps ≡ true }
    ensures { S.permits serializer.old (tree_of_parts kind
        (up_to_last (values_of (F.field_trees fields.now))))
        result serializer.new }
{
    let mut compound = serializer.begin_compound(kind);
    fields.serialize_list_parts(&mut *serializer, &mut compound)?;
    serializer.end(compound)
}

/// Serializes the present fields as a map from their names.
#[tactic(auto, using(crate::proofs::Paired::paired_entries))]
#[inline(always)]
fn serialize_entries<S: Serializer, F: Fields>(
    serializer: &mut S,
    keys: Keys,
    fields: &F,
) -> Result<S::Ok, S::Error>
    ensures { S.permits serializer.old
        (tree_of_parts kind.Map (named_parts (key_of keys) (F.field_trees fields.now))) result serializer.new }
{
    let mut compound = serializer.begin_compound(CompoundKind::Map);
    fields.serialize_map_parts(&mut *serializer, &mut compound, keys)?;
    serializer.end(compound)
}

/// The list of the fields up to the last present one. An absent field before that one is null. The
/// names of the fields are not written.
///
/// # Encoding
/// `45`, `c0` or `d0` (AMQP 1.0 part 1, section 1.6.22).
///
/// # Example
/// `ListOf(fields! { "x": 1u32, "y": 2u32 })` is `c0050252015202`.
#[derive(Drop)]
pub struct ListOf<F>(pub F);

impl<F: Fields> Serialize for ListOf<F> {
    ghost tree = { λ l. tree_of_parts kind.List (up_to_last (values_of (F.field_trees l.0))) };

    #[inline(always)]
    fn serialize<S: Serializer>(&self, serializer: &mut S) -> Result<S::Ok, S::Error> {
        serialize_values(serializer, CompoundKind::List, &self.0)
    }
}

/// The variant with this index whose payload is the list of the fields up to the last present one.
///
/// # Encoding
/// The map of one pair, from the index as a uint to the list (AMQP 1.0 part 1, section 1.6.23).
///
/// # Example
/// `VariantOf(1, fields! { "x": 2u32 })` is `c108025201c003015202`.
#[derive(Drop)]
pub struct VariantOf<F>(pub u32, pub F);

impl<F: Fields> Serialize for VariantOf<F> {
    ghost tree = { λ v. tree_of_parts (kind.Variant v.0)
        (up_to_last (values_of (F.field_trees v.1))) };

    #[inline(always)]
    fn serialize<S: Serializer>(&self, serializer: &mut S) -> Result<S::Ok, S::Error> {
        serialize_values(serializer, CompoundKind::Variant(self.0), &self.1)
    }
}

/// The map from the names of the present fields, as strings, to their values.
///
/// # Encoding
/// `c1` or `d1` (AMQP 1.0 part 1, section 1.6.23).
///
/// # Example
/// `MapOf(fields! { "crc": 7u32 })` is `c10802a1036372635207`.
#[derive(Drop)]
pub struct MapOf<F>(pub F);

impl<F: Fields> Serialize for MapOf<F> {
    ghost tree = { λ m. tree_of_parts kind.Map (named_parts string_key (F.field_trees m.0)) };

    #[inline(always)]
    fn serialize<S: Serializer>(&self, serializer: &mut S) -> Result<S::Ok, S::Error> {
        serialize_entries(serializer, Keys::Strings, &self.0)
    }
}

/// The map from the names of the present fields, as symbols, to their values.
///
/// # Encoding
/// `c1` or `d1` (AMQP 1.0 part 1, section 1.6.23).
///
/// # Example
/// `SymbolMapOf(fields! { "crc": 7u32 })` is `c10802a3036372635207`.
#[derive(Drop)]
pub struct SymbolMapOf<F>(pub F);

impl<F: Fields> Serialize for SymbolMapOf<F> {
    ghost tree = { λ m. tree_of_parts kind.Map (named_parts symbol_key (F.field_trees m.0)) };

    #[inline(always)]
    fn serialize<S: Serializer>(&self, serializer: &mut S) -> Result<S::Ok, S::Error> {
        serialize_entries(serializer, Keys::Symbols, &self.0)
    }
}
