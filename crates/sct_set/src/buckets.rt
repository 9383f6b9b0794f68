//! A map from keys to lists of items.

ghost use Rattle.std.specs.Prelude.{◌≡◌, ◌-◌, ◌++◌, ◌∷◌, [], length, take, OnOk, OnErr, if◌then◌else◌};
ghost use Rattle.sct_set.specs.Buckets.{bucket, HasNoEmptyList};

pub use crate::bucket::Bucket;
use indexmap::IndexMap;
use indexmap::map::Entry;
use std::alloc::{AllocError, Global};
use std::hash::Hash;

/// The items at a key, in the order in which they were filed. Expected O(1).
pub fn items_at<'a, K: Eq + Hash, V>(index: &'a IndexMap<K, Bucket<V>>, key: &K) -> &'a [V]
    ensures { result.now ≡ bucket K.eq index.now key.now }
{
    match index.get(key) {
        Some(bucket) => bucket.items(),
        None => &[],
    }
}

/// Gives a key a new list of this one item, in place of any list that it had. If out of memory, no list is changed.
/// Expected O(1).
pub fn file_first<K: Eq + Hash + Drop, V: Drop>(
    index: &mut IndexMap<K, Bucket<V>>,
    key: K,
    item: V,
) -> Result<(), AllocError>
    ensures ok { OnOk result ((k : K) → bucket K.eq index.new k
        ≡ (if K.eq key k then item ∷ [] else bucket K.eq index.old k)) }
    ensures err { OnErr result ((k : K) → bucket K.eq index.new k ≡ bucket K.eq index.old k) }
    ensures no_empty { HasNoEmptyList K.eq index.old → HasNoEmptyList K.eq index.new }
{
    index.insert(key, Bucket::of(item))?;
    Ok(())
}

/// Appends an item to its key's list. If out of memory, no list is changed. Expected O(1).
pub fn file<K: Eq + Hash + Drop, V: Drop>(
    alloc: Global,
    index: &mut IndexMap<K, Bucket<V>>,
    key: K,
    item: V,
) -> Result<(), AllocError>
    ensures ok { OnOk result ((k : K) → bucket K.eq index.new k
        ≡ (if K.eq key k then bucket K.eq index.old k ++ item ∷ [] else bucket K.eq index.old k)) }
    ensures err { OnErr result ((k : K) → bucket K.eq index.new k ≡ bucket K.eq index.old k) }
    ensures no_empty { HasNoEmptyList K.eq index.old → HasNoEmptyList K.eq index.new }
{
    match index.entry(key)? {
        Entry::Occupied(entry) => {
            entry.into_mut().push(alloc, item)?;
            Ok(())
        }
        Entry::Vacant(entry) => {
            entry.insert(Bucket::of(item));
            Ok(())
        }
    }
}

/// Removes the last item of a key's list, if the key has one. A list that becomes empty is removed. Expected O(1).
pub fn unfile<K: Eq + Hash + Drop, V: Drop>(index: &mut IndexMap<K, Bucket<V>>, key: &K)
    ensures taken { (k : K) → bucket K.eq index.new k
        ≡ (if K.eq key.now k then take (length (bucket K.eq index.old k) - 1) (bucket K.eq index.old k)
        else bucket K.eq index.old k) }
    ensures no_empty { HasNoEmptyList K.eq index.old → HasNoEmptyList K.eq index.new }
{
    let Some(bucket) = index.get_mut(key) else {
        return;
    };
    bucket.pop();
    if bucket.is_empty() {
        index.swap_remove(key);
    }
}
