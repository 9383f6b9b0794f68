//! Messages in groups of those that are tied.

ghost use Rattle.std.specs.Prelude.{◌≡◌, ◌<◌, ◌∷◌, [], ℕ, true, length, IfOk, OnOk};
ghost use Rattle.sct_message.specs.Keys.{transfers_of};
ghost use Rattle.sct_message.specs.Sets.{messages_in};
ghost use Rattle.sct_message.specs.declared.keys.TransferKey.{TransferKey as TransferOf};
ghost use Rattle.sct_view.specs.Kept.{same_key};
ghost use Rattle.sct_keep.specs.Ties.{AreFirsts, AreGroups, HasFirst, IsTiedBy};
ghost use Rattle.sct_keep.specs.Trees.{AreParents};

use crate::trees::{each_alone, join, labels};
use indexmap::IndexMap;
use sct_message::{Identity, Message, TransferKey, keys_are_ordered};
use sct_set::buckets::{Bucket, file_first, items_at};
use std::alloc::{AllocError, Global};
use std::hash::Hash;
use std::sync::Arc;

/// The number of one message of each transfer.
pub(crate) type Firsts = IndexMap<TransferKey, Bucket<usize>>;

// Joins a number with the number at a key. If the key has none, this number becomes it.
fn tie_by<K: Eq + Hash + Drop>(
    parents: &mut [usize],
    first: &mut IndexMap<K, Bucket<usize>>,
    key: K,
    number: usize,
) -> Result<(), AllocError>
    requires parents { AreParents parents.now }
    requires number { number < length parents.now }
    requires firsts { (k : K) (i : ℕ) → HasFirst K.eq first.now k i → i < length parents.now }
    requires exact { (a b : K) → K.eq a b ≡ true → a ≡ b }
    requires itself { (a : K) → K.eq a a ≡ true }
    ensures { OnOk result (IsTiedBy K.eq first.old first.new parents.old parents.new (key ∷ []) number) }
{
    if let Some(other) = items_at(first, &key).first() {
        let other = *other;
        join(parents, other, number);
        return Ok(());
    }
    file_first(first, key, number)?;
    Ok(())
}

// Joins a message with the messages at its transfers.
fn tie_transfers(
    parents: &mut [usize],
    first: &mut Firsts,
    message: &Message,
    number: usize,
) -> Result<(), AllocError>
    requires parents { AreParents parents.now }
    requires number { number < length parents.now }
    requires firsts { (k : TransferOf) (i : ℕ) → HasFirst same_key first.now k i → i < length parents.now }
    ensures { OnOk result (IsTiedBy same_key first.old first.new parents.old parents.new (transfers_of message.now) number) }
{
    keys_are_ordered();
    for i in 0..message.transfer_count() {
        let Some(transfer) = message.transfer(i) else {
            return Ok(());
        };
        tie_by(parents, first, transfer, number)?;
    }
    Ok(())
}

/// A label for each message of a list, one for each group, and the number of one message of each transfer.
#[derive(Drop)]
pub(crate) struct Groups {
    pub(crate) labels: Vec<usize>,
    pub(crate) first: Firsts,
}

/// Groups messages, so that tied messages are in one group.
/// Each message is joined with one message of its identity and of each of its transfers.
/// Near linear in the messages and their transfers.
pub(crate) fn groups_of(alloc: Global, messages: &[Arc<Message>]) -> Result<Groups, AllocError>
    ensures groups { IfOk result (λ groups. AreGroups (messages_in messages.now) groups.labels.items) }
    ensures first { IfOk result (λ groups. AreFirsts (messages_in messages.now) groups.first) }
{
    keys_are_ordered();
    let mut parents = each_alone(alloc, messages.len())?;
    let trees: &mut [usize] = &mut parents;
    let mut by_identity: IndexMap<Identity, Bucket<usize>> = IndexMap::new(alloc);
    let mut first: Firsts = IndexMap::new(alloc);
    for number in 0..messages.len() {
        let message = &messages[number];
        tie_by(trees, &mut by_identity, message.identity(), number)?;
        tie_transfers(trees, &mut first, message, number)?;
    }
    let labels = labels(alloc, trees)?;
    Ok(Groups { labels, first })
}
