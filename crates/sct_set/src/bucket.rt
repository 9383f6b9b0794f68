//! The items of one key.

ghost use Rattle.std.specs.Prelude.{◌≡◌, ◌==◌, ◌-◌, ◌++◌, ◌∷◌, [], length, take, OnOk, OnErr};
ghost use Rattle.sct_set.specs.Places.{placed, IsPlaced};

use std::alloc::{AllocError, Global};
use std::marker::Model;
use std::mem::replace;

// Where the items of a bucket lie: a single one in place, more in an allocation.
#[derive(Drop)]
enum BucketItems<V> {
    Empty,
    One([V; 1]),
    Several(Vec<V>),
}

impl<V: Drop> BucketItems<V> {
    // Appends an item. The second item makes an allocation for both. If out of memory, nothing changes.
    fn push(&mut self, alloc: Global, item: V) -> Result<(), AllocError>
        ensures ok { OnOk result (placed self.new ≡ placed self.old ++ item ∷ []) }
        ensures err { OnErr result (placed self.new ≡ placed self.old) }
        ensures kept { IsPlaced self.old → IsPlaced self.new }
    {
        match replace(self, BucketItems::Empty) {
            BucketItems::Empty => *self = BucketItems::One([item]),
            BucketItems::One([first]) => {
                let Ok(mut items) = Vec::with_capacity(alloc, 2) else {
                    *self = BucketItems::One([first]);
                    return Err(AllocError);
                };
                items.push_reserved(first);
                items.push_reserved(item);
                *self = BucketItems::Several(items);
            }
            BucketItems::Several(mut items) => {
                let pushed = items.push(item);
                *self = BucketItems::Several(items);
                pushed?;
            }
        }
        Ok(())
    }

    // Removes the last item, if there is one.
    fn pop(&mut self)
        ensures taken { IsPlaced self.old → placed self.new ≡ take (length (placed self.old) - 1) (placed self.old) }
        ensures kept { IsPlaced self.old → IsPlaced self.new }
    {
        match replace(self, BucketItems::Empty) {
            BucketItems::Empty => {}
            BucketItems::One(item) => drop(item),
            BucketItems::Several(mut items) => {
                items.pop();
                *self = BucketItems::Several(items);
            }
        }
    }
}

/// The items of one key, in the order in which they were filed. A single item takes no allocation.
#[derive(Drop)]
pub struct Bucket<V> {
    place: BucketItems<V>,
}

impl<V> Model for Bucket<V> {
    ghost use Rattle.std.specs.Prelude.{List};
    ghost use Rattle.sct_set.specs.Places.{placed, IsPlaced};

    ghost Value = { List V };

    ghost view = { λ b. placed b.place };

    ghost invariant = { λ b. IsPlaced b.place };
}

impl<V> Bucket<V> {
    /// A bucket of this one item.
    pub fn of(item: V) -> Self
        ensures { result ≡ item ∷ [] }
    {
        Bucket {
            place: BucketItems::One([item]),
        }
    }

    /// The items.
    pub fn items(&self) -> &[V]
        ensures { result.now ≡ self.now }
    {
        match &self.place {
            BucketItems::Empty => &[],
            BucketItems::One(item) => item,
            BucketItems::Several(items) => items,
        }
    }

    /// Whether there is no item.
    pub fn is_empty(&self) -> bool
        ensures { result ≡ (length self.now == 0) }
    {
        self.items().is_empty()
    }
}

impl<V: Drop> Bucket<V> {
    /// Appends an item. If out of memory, nothing changes. Amortised O(1).
    pub fn push(&mut self, alloc: Global, item: V) -> Result<(), AllocError>
        ensures ok { OnOk result (self.new ≡ self.old ++ item ∷ []) }
        ensures err { OnErr result (self.new ≡ self.old) }
    {
        self.place.push(alloc, item)
    }

    /// Removes the last item, if there is one.
    pub fn pop(&mut self)
        ensures { self.new ≡ take (length self.old - 1) self.old }
    {
        self.place.pop();
    }
}
