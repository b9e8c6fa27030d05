//! An index of the keys of a list of entries, by hash.
//!
//! Each bucket has the number of the last entry whose key is in it, and each entry the number of
//! the entry before it in its bucket. An entry's number is its position plus one, and 0 means no
//! entry. A list without an index has no buckets.

ghost use Rattle.std.specs.Prelude.{◌≡◌, ℕ, ◌+◌, ◌<◌, ◌∷◌, ◌++◌, [], List, length, position};
ghost use Rattle.std.specs.Prelude.{IfSome, IsTrue};
ghost use Rattle.amqp_data.specs.Index as chains;
ghost use Rattle.amqp_data.specs.Index.{AddsLast, IsIndexed, IsChained, buckets};

use crate::keys::MIN_INDEXED;
use std::alloc::Global;
use std::hash::{FoldHasher, Hash, Hasher};

/// Returns the bucket of a key, of `count` buckets.
#[tactic(auto, unfolding(crate::specs::Index::bucket_of, crate::specs::Index::hash_of))]
pub(crate) fn bucket_of<K: Hash>(key: &K, count: usize) -> usize
    requires { 0 < count }
    ensures bucket { result ≡ chains.bucket_of count (K.hash_input key.now) }
    ensures within { result < count }
{
    let mut hasher = FoldHasher::default();
    key.hash(&mut hasher);
    ((hasher.finish() >> 32) % count as u64) as usize
}

/// Returns the position of the key. The keys are searched in order. Inlined, so that the key is
/// read once.
#[inline(always)]
pub(crate) fn position_of<K: Eq, V>(entries: &[(K, V)], key: &K) -> Option<usize>
    ensures { result ≡ position (λ e. K.eq key.now e.0) entries.now }
{
    for i in 0..entries.len() {
        if *key == entries[i].0 {
            return Some(i);
        }
    }
    None
}

/// How many keys of buckets may be compared.
pub(crate) trait Comparisons {
    /// Takes one off. Returns false if none is left.
    fn take(&mut self) -> bool;
}

impl Comparisons for usize {
    #[inline(always)]
    fn take(&mut self) -> bool {
        if *self == 0 {
            return false;
        }
        *self -= 1;
        true
    }
}

// No limit, which costs no instruction.
#[derive(Drop)]
struct Unlimited;

impl Comparisons for Unlimited {
    #[inline(always)]
    fn take(&mut self) -> bool {
        true
    }
}

/// Returns the position of the key, which is in the bucket if it is present. Takes one off `left`
/// for each comparison, and returns `None` if none is left.
#[inline(always)]
pub(crate) fn find_within<K: Hash + Eq, V, C: Comparisons>(
    entries: &[(K, V)],
    heads: &[u32],
    earlier: &[u32],
    bucket: usize,
    key: &K,
    left: &mut C,
) -> Option<Option<usize>>
    requires indexed { IsIndexed K.eq K.hash_input heads.now earlier.now entries.now }
    requires within { bucket < length heads.now }
    requires bucket { bucket ≡ chains.bucket_of (length heads.now) (K.hash_input key.now) }
    ensures { IfSome result (λ found. found ≡ position (λ e. K.eq key.now e.0) entries.now) }
{
    let mut number = heads[bucket] as usize;
    while number > 0 {
        let at = number - 1;
        if !left.take() {
            return None;
        }
        if *key == entries[at].0 {
            return Some(Some(at));
        }
        number = earlier[at] as usize;
    }
    Some(None)
}

// Returns the position of the key, which is in the bucket if it is present.
#[inline(always)]
fn find_in_bucket<K: Hash + Eq, V>(
    entries: &[(K, V)],
    heads: &[u32],
    earlier: &[u32],
    bucket: usize,
    key: &K,
) -> Option<usize>
    requires indexed { IsIndexed K.eq K.hash_input heads.now earlier.now entries.now }
    requires within { bucket < length heads.now }
    requires bucket { bucket ≡ chains.bucket_of (length heads.now) (K.hash_input key.now) }
    ensures { result ≡ position (λ e. K.eq key.now e.0) entries.now }
{
    match find_within(entries, heads, earlier, bucket, key, &mut Unlimited) {
        Some(found) => found,
        None => position_of(entries, key),
    }
}

/// Returns the position of the key, and its bucket if there is an index.
#[inline(always)]
pub(crate) fn locate<K: Hash + Eq, V>(
    entries: &[(K, V)],
    heads: &[u32],
    earlier: &[u32],
    key: &K,
) -> (Option<usize>, usize)
    requires { IsIndexed K.eq K.hash_input heads.now earlier.now entries.now }
    ensures position { result.0 ≡ position (λ e. K.eq key.now e.0) entries.now }
    ensures bucket { 0 < length heads.now →
        result.1 ≡ chains.bucket_of (length heads.now) (K.hash_input key.now) }
    ensures within { 0 < length heads.now → result.1 < length heads.now }
{
    if heads.is_empty() {
        return (position_of(entries, key), 0);
    }
    let bucket = bucket_of(key, heads.len());
    (find_in_bucket(entries, heads, earlier, bucket, key), bucket)
}

/// Returns the position of the key, by the index if it has buckets.
pub(crate) fn find_indexed<K: Hash + Eq, V>(
    entries: &[(K, V)],
    heads: &[u32],
    earlier: &[u32],
    key: &K,
) -> Option<usize>
    requires { 0 < length heads.now →
        IsIndexed K.eq K.hash_input heads.now earlier.now entries.now }
    ensures { result ≡ position (λ e. K.eq key.now e.0) entries.now }
{
    if heads.is_empty() {
        return position_of(entries, key);
    }
    let bucket = bucket_of(key, heads.len());
    find_in_bucket(entries, heads, earlier, bucket, key)
}

/// Adds an entry to the index, after the others. Returns false if an allocation fails, or if there
/// are 2³² - 1 entries.
pub(crate) fn add(heads: &mut [u32], earlier: &mut Vec<u32>, bucket: usize) -> bool
    requires { bucket < length heads.old }
    ensures length { length heads.new ≡ length heads.old }
    ensures chained { IsTrue result → (bs : List ℕ) → IsChained heads.old earlier.old.items bs →
        IsChained heads.new earlier.new.items (bs ++ bucket ∷ []) }
{
    let Ok(number) = u32::try_from(earlier.len() + 1) else {
        return false;
    };
    if earlier.push(heads[bucket]).is_err() {
        return false;
    }
    heads[bucket] = number;
    true
}

/// Makes an index with `count` buckets. Returns `None` if an allocation fails, or if there are 2³²
/// - 1 entries.
pub(crate) fn index_entries<K: Hash, V>(
    alloc: Global,
    entries: &[(K, V)],
    count: usize,
) -> Option<(Vec<u32>, Vec<u32>)>
    requires { 0 < count }
    ensures length { IfSome result (λ r. length r.0.items ≡ count) }
    ensures chained { IfSome result
        (λ r. IsChained r.0.items r.1.items (buckets K.hash_input count entries.now)) }
{
    let mut heads = Vec::from_elem(alloc, 0u32, count).ok()?;
    let mut earlier = Vec::with_capacity(alloc, count).ok()?;
    for entry in entries {
        if !add(&mut heads, &mut earlier, bucket_of(&entry.0, count)) {
            return None;
        }
    }
    Some((heads, earlier))
}

/// Adds the last entry to the index, if there is one or there are enough entries for one.
#[inline(always)]
pub(crate) fn add_last<K: Hash + Eq, V>(
    entries: &[(K, V)],
    heads: &mut Vec<u32>,
    earlier: &mut Vec<u32>,
    bucket: usize,
)
    requires some { 0 < length entries.now }
    requires within { 0 < length heads.old.items → bucket < length heads.old.items }
    ensures { AddsLast K.hash_input entries.now bucket heads.old.items earlier.old.items
        heads.new.items earlier.new.items }
{
    if heads.is_empty() && entries.len() < MIN_INDEXED {
        return;
    }
    add_to_index(entries, heads, earlier, bucket);
}

// Adds the last entry to the index. Makes an index with twice as many buckets as entries if there
// are more entries than buckets. If that fails, there is no index until the next entry is added.
fn add_to_index<K: Hash + Eq, V>(
    entries: &[(K, V)],
    heads: &mut Vec<u32>,
    earlier: &mut Vec<u32>,
    bucket: usize,
)
    requires some { 0 < length entries.now }
    requires within { 0 < length heads.old.items → bucket < length heads.old.items }
    ensures { AddsLast K.hash_input entries.now bucket heads.old.items earlier.old.items
        heads.new.items earlier.new.items }
{
    if entries.len() <= heads.len() && add(heads, earlier, bucket) {
        return;
    }
    heads.clear();
    let count = entries.len().saturating_mul(2);
    if let Some((new_heads, new_earlier)) = index_entries(*heads.allocator(), entries, count) {
        *heads = new_heads;
        *earlier = new_earlier;
    }
}
