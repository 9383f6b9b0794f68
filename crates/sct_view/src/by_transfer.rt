//! Messages sorted, and messages filed by transfer.

ghost use Rattle.std.specs.Prelude.{◌≡◌, ◌≤◌, ◌<◌, ◌+◌, ◌-◌, ◌++◌, ◌∷◌, [], true, List, Some, length, map, filter, IfOk, OnOk};
ghost use Rattle.std.specs.Arc.{arc_value};
ghost use Rattle.std.specs.List.{slice_get};
ghost use Rattle.sct_message.specs.Ascending.{ascending};
ghost use Rattle.sct_message.specs.Keys.{identity_of, transfers_of};
ghost use Rattle.sct_message.specs.Order.{message_order, identity_order};
ghost use Rattle.sct_message.specs.Sets.{messages_in};
ghost use Rattle.sct_message.specs.Transfers.{is_on};
ghost use Rattle.sct_message.specs.declared.draft.Draft.{Draft as DraftOf};
ghost use Rattle.sct_view.specs.Filed.{HasThose, IsFiledBy};

use indexmap::IndexMap;
use sct_message::{Identity, Message, TransferKey, keys_are_ordered};
use sct_set::buckets::{Bucket, file};
use std::alloc::{AllocError, Global};
use std::sync::Arc;

/// Messages filed by transfer, in the order in which the transfers came.
pub(crate) type ByTransfer = IndexMap<TransferKey, Bucket<Arc<Message>>>;

/// The messages in their order, each once.
pub(crate) fn in_order(
    alloc: Global,
    messages: &[Arc<Message>],
) -> Result<Vec<Arc<Message>>, AllocError>
    ensures { IfOk result (λ sorted.
        messages_in sorted.items ≡ ascending message_order (messages_in messages.now)) }
{
    let mut sorted = Vec::with_capacity(alloc, messages.len())?;
    for message in messages {
        sorted.push(message.clone()?)?;
    }
    sorted.sort()?;
    sorted.dedup();
    Ok(sorted)
}

/// The identities of the messages, ascending, each once.
pub(crate) fn identities(
    alloc: Global,
    messages: &[Arc<Message>],
) -> Result<Vec<Identity>, AllocError>
    ensures { IfOk result (λ found.
        found.items ≡ ascending identity_order (map identity_of (messages_in messages.now))) }
{
    let mut found = Vec::with_capacity(alloc, messages.len())?;
    for message in messages {
        found.push(message.identity())?;
    }
    keys_are_ordered();
    found.sort()?;
    found.dedup();
    Ok(found)
}

// Whether a transaction is on the same transfer as the transaction before it.
fn is_as_before(message: &Message, i: usize, transfer: &TransferKey) -> bool
    ensures { result ≡ true → (0 < i) × (slice_get (transfers_of message.now) (i - 1) ≡ Some transfer.now) }
{
    if i == 0 {
        return false;
    }
    keys_are_ordered();
    match message.transfer(i - 1) {
        Some(before) => before == *transfer,
        None => false,
    }
}

// Files a message under each transfer that it is on. Transactions of one transfer in a row count once.
fn file_each(
    alloc: Global,
    index: &mut ByTransfer,
    message: &Arc<Message>,
) -> Result<(), AllocError>
    ensures { OnOk result ((ms : List DraftOf) → IsFiledBy index.old ms
        → IsFiledBy index.new (ms ++ arc_value message.now ∷ [])) }
{
    for i in 0..message.transfer_count() {
        let Some(transfer) = message.transfer(i) else {
            return Ok(());
        };
        if !is_as_before(message, i, &transfer) {
            file(alloc, index, transfer, message.clone()?)?;
        }
    }
    Ok(())
}

/// The messages filed by transfer: each is under every transfer that it is on. Room for one transfer for each two
/// messages is reserved at once. More room comes by doubling.
pub(crate) fn by_transfer(
    alloc: Global,
    messages: &[Arc<Message>],
) -> Result<ByTransfer, AllocError>
    ensures { IfOk result (λ index. IsFiledBy index (messages_in messages.now)) }
{
    let mut index = IndexMap::with_capacity(alloc, messages.len() / 2)?;
    for message in messages {
        file_each(alloc, &mut index, message)?;
    }
    Ok(index)
}

/// The messages that are filed under a transfer.
pub(crate) fn on_transfer<'a>(index: &'a ByTransfer, transfer: &TransferKey) -> &'a [Arc<Message>]
    ensures { (ms : List DraftOf) → IsFiledBy index.now ms
        → HasThose (messages_in result.now) (filter (is_on transfer.now) ms) }
{
    match index.get(transfer) {
        Some(bucket) => bucket.items(),
        None => &[],
    }
}

/// Appends the transfers that a message is on.
pub(crate) fn push_keys(found: &mut Vec<TransferKey>, message: &Message) -> Result<(), AllocError>
    ensures keys { OnOk result (found.new.items ≡ found.old.items ++ transfers_of message.now) }
    ensures few { OnOk result (length found.new.items ≤ length found.old.items + 100) }
{
    for i in 0..message.transfer_count() {
        let Some(transfer) = message.transfer(i) else {
            return Ok(());
        };
        found.push(transfer)?;
    }
    Ok(())
}
