//! Scalars, each of one kind.

ghost use Rattle.std.specs.Prelude.{◌≡◌, ◌∷◌, ℕ, IfErr, IfOk, IfSome, IfNone};
ghost use Rattle.amqp_ser.specs.Tree as tree;
ghost use Rattle.amqp_ser.specs.Tree.{scalar};
ghost use Rattle.amqp_value.specs.TreeOf.{tree_of};
ghost use Rattle.amqp_decode.specs.Prefix.{IsScalar, item_of};
ghost use Rattle.amqp_de.specs.Encodings.{Fills};

use crate::room::push_item;
use amqp_decode::prefix::GaveUp;
use amqp_value::{Value, ValueKind};
use std::alloc::Global;

/// A type of one kind of scalars.
pub trait Scalar: Sized + Drop {
    /// The scalar.
    ghost content: { Self → tree.Scalar };

    /// The type of its values, or `None` if there are several. No proof rests on it.
    fn kind() -> Option<ValueKind>;

    /// Returns the content of a value of this kind.
    fn from_value(value: Value) -> Option<Self>
        ensures some { IfSome result (λ x. tree_of value ≡ scalar (content x)) }
        ensures none { IfNone result ((x : Self) → ¬ (tree_of value ≡ scalar (content x))) };

    /// Reads the payload after a format code.
    fn from_bytes(alloc: Global, code: u8, bytes: &[u8]) -> Result<(Self, &[u8]), GaveUp>
        ensures { IfOk result (λ r. IsScalar (code ∷ bytes.now) r.1.now (content r.0)) };

    /// Reads `count` payloads of this code that fill the content of an array.
    #[inline(always)]
    fn from_payloads(alloc: Global, code: u8, count: u32, body: &[u8]) -> Result<Vec<Self>, GaveUp>
        ensures { IfOk result (λ v. (depth : ℕ) →
            Fills (λ t x. t ≡ scalar (content x)) (item_of depth code) count body.now v.items) }
    {
        let mut items = Vec::new(alloc);
        let room = (count as usize).min(body.len());
        let mut rest = body;
        for read in 0..count {
            let (item, after) = Self::from_bytes(alloc, code, rest)?;
            rest = after;
            push_item(&mut items, item, room)?;
        }
        if rest.is_empty() {
            Ok(items)
        } else {
            Err(GaveUp)
        }
    }
}

/// Returns the content of a value that is probably of this type, or what type it is of.
#[inline(always)]
pub(crate) fn content_of<K: Scalar>(value: Value) -> Result<K, ValueKind>
    ensures ok { IfOk result (λ x. tree_of value ≡ scalar (K.content x)) }
    ensures err { IfErr result (λ _. (x : K) → ¬ (tree_of value ≡ scalar (K.content x))) }
{
    let found = value.kind();
    if Some(found) == K::kind() {
        match K::from_value(value) {
            Some(content) => Ok(content),
            None => Err(found),
        }
    } else {
        other_content::<K>(value)
    }
}

// Calls `from_other`. Inlined, so that the memory of its result is initialized in this case alone.
#[inline(always)]
fn other_content<K: Scalar>(value: Value) -> Result<K, ValueKind>
    ensures ok { IfOk result (λ x. tree_of value ≡ scalar (K.content x)) }
    ensures err { IfErr result (λ _. (x : K) → ¬ (tree_of value ≡ scalar (K.content x))) }
{
    from_other::<K>(value)
}

// Returns the content of a value that is probably of another type. In a function of its own, so
// that the likely case needs no table of jumps.
#[inline(never)]
fn from_other<K: Scalar>(value: Value) -> Result<K, ValueKind>
    ensures ok { IfOk result (λ x. tree_of value ≡ scalar (K.content x)) }
    ensures err { IfErr result (λ _. (x : K) → ¬ (tree_of value ≡ scalar (K.content x))) }
{
    let found = value.kind();
    match K::from_value(value) {
        Some(content) => Ok(content),
        None => Err(found),
    }
}
