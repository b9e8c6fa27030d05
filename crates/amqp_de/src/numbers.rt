//! Arrays of numbers of a fixed width, which are read by chunks of their payloads.

ghost use Rattle.std.specs.Prelude.{◌≡◌, ◌<◌, ℕ, IfOk};
ghost use Rattle.std.specs.List.{AllZip};
ghost use Rattle.amqp_ser.specs.Tree.{Scalar, scalar, ushort, uint, ulong, short, int, long};
ghost use Rattle.amqp_decode.specs.Prefix.{item_of};
ghost use Rattle.amqp_de.specs.Encodings.{Fills, IsPayloadOf};

use amqp_decode::prefix::GaveUp;
use std::alloc::Global;

/// A number whose payload after this code has `N` bytes.
pub(crate) trait Number<const N: usize, const CODE: u8>: Drop {
    /// The scalar.
    ghost content: { Self → Scalar };

    /// Returns the number that the payload encodes.
    fn from_payload(payload: &[u8; N]) -> Self
        ensures { IsPayloadOf CODE payload.now (content result) };
}

/// Reads `count` payloads that fill the content of an array, if they are after this code.
///
/// # Memory
/// Allocates a vector for exactly the numbers whose bytes are there.
#[inline(always)]
pub(crate) fn read_numbers<T: Number<N, CODE>, const N: usize, const CODE: u8>(
    alloc: Global,
    code: u8,
    count: u32,
    content: &[u8],
) -> Result<Vec<T>, GaveUp>
    requires nonzero { 0 < N }
    requires size { N < 9223372036854775808 }
    ensures { IfOk result (λ v. (depth : ℕ) →
        Fills (λ t x. t ≡ scalar (T.content x)) (item_of depth code) count content.now v.items) }
{
    let (chunks, left) = content.as_chunks::<N>();
    if code != CODE || !left.is_empty() || chunks.len() != count as usize {
        return Err(GaveUp);
    }
    let items = convert::<T, N, CODE>(alloc, chunks)?;
    Ok(items)
}

// Converts each payload.
#[tactic(auto, using(crate::proofs::Chunks::converting))]
#[inline(always)]
fn convert<T: Number<N, CODE>, const N: usize, const CODE: u8>(
    alloc: Global,
    chunks: &[[u8; N]],
) -> Result<Vec<T>, GaveUp>
    ensures { IfOk result (λ v.
        AllZip (λ bs x. IsPayloadOf CODE bs (T.content x)) chunks.now v.items) }
{
    let mut items = Vec::with_capacity(alloc, chunks.len())?;
    let mut rest = chunks;
    'chunks: loop {
        match rest.split_first() {
            Some((payload, after)) => {
                items.push_reserved(T::from_payload(payload));
                rest = after;
            }
            None => return Ok(items),
        }
    }
}

#[tactic(auto, using(crate::proofs::Chunks::ushort_payload))]
impl Number<2, 0x60> for u16 {
    ghost content = { ushort };

    #[inline(always)]
    fn from_payload(payload: &[u8; 2]) -> u16 {
        u16::from_be_bytes(*payload)
    }
}

#[tactic(auto, using(crate::proofs::Chunks::uint_payload))]
impl Number<4, 0x70> for u32 {
    ghost content = { uint };

    #[inline(always)]
    fn from_payload(payload: &[u8; 4]) -> u32 {
        u32::from_be_bytes(*payload)
    }
}

#[tactic(auto, using(crate::proofs::Chunks::ulong_payload))]
impl Number<8, 0x80> for u64 {
    ghost content = { ulong };

    #[inline(always)]
    fn from_payload(payload: &[u8; 8]) -> u64 {
        u64::from_be_bytes(*payload)
    }
}

#[tactic(auto, using(crate::proofs::Chunks::short_payload))]
impl Number<2, 0x61> for i16 {
    ghost content = { short };

    #[inline(always)]
    fn from_payload(payload: &[u8; 2]) -> i16 {
        i16::from_be_bytes(*payload)
    }
}

#[tactic(auto, using(crate::proofs::Chunks::int_payload))]
impl Number<4, 0x71> for i32 {
    ghost content = { int };

    #[inline(always)]
    fn from_payload(payload: &[u8; 4]) -> i32 {
        i32::from_be_bytes(*payload)
    }
}

#[tactic(auto, using(crate::proofs::Chunks::long_payload))]
impl Number<8, 0x81> for i64 {
    ghost content = { long };

    #[inline(always)]
    fn from_payload(payload: &[u8; 8]) -> i64 {
        i64::from_be_bytes(*payload)
    }
}
