//! Messages filed by transfer. A view has the answers on each transfer, and this has the messages.

ghost use Rattle.std.specs.Prelude.{◌≡◌, ◌<◌, ◌-◌, ◌++◌, ◌∷◌, [], true, Some, List, filter, OnOk};
ghost use Rattle.std.specs.Arc.{arc_value};
ghost use Rattle.std.specs.List.{slice_get};
ghost use Rattle.sct_message.specs.Keys.{transfers_of};
ghost use Rattle.sct_message.specs.Sets.{messages_in};
ghost use Rattle.sct_message.specs.Transfers.{is_on};
ghost use Rattle.sct_message.specs.declared.draft.Draft.{Draft as DraftOf};
ghost use Rattle.sct_view.specs.Filed.{HasThose, IsFiledBy};

use indexmap::IndexMap;
use sct_message::{Message, TransferKey, keys_are_ordered};
use sct_set::buckets::{Bucket, file};
use std::alloc::{AllocError, Global};
use std::sync::Arc;

/// Messages filed by transfer: each is under every transfer that it is on, contradicted or not.
pub type ByTransfer = IndexMap<TransferKey, Bucket<Arc<Message>>>;

/// No messages.
pub fn none_filed(alloc: Global) -> ByTransfer
    ensures { IsFiledBy result [] }
{
    IndexMap::new(alloc)
}

// Whether a transaction is on the same transfer as the transaction before it.
fn is_as_before(message: &Message, i: usize, transfer: &TransferKey) -> bool
    ensures { result ≡ true → (0 < i) × (slice_get (transfers_of message.now) (i - 1) ≡ Some transfer.now) }
{
    if i == 0 {
        return false;
    }
    keys_are_ordered();
    match message.transfer(i - 1) {
        Some(before) => before == *transfer,
        None => false,
    }
}

// Files a message under each transfer that it is on. Transactions of one transfer in a row count once.
fn file_each(
    alloc: Global,
    index: &mut ByTransfer,
    message: &Arc<Message>,
) -> Result<(), AllocError>
    ensures { OnOk result ((ms : List DraftOf) → IsFiledBy index.old ms
        → IsFiledBy index.new (ms ++ arc_value message.now ∷ [])) }
{
    for i in 0..message.transfer_count() {
        let Some(transfer) = message.transfer(i) else {
            return Ok(());
        };
        if !is_as_before(message, i, &transfer) {
            file(alloc, index, transfer, message.clone()?)?;
        }
    }
    Ok(())
}

/// Files messages, each after those before it. The error is that it is out of memory; then the caller files all of them anew.
/// O(transactions of the messages).
pub fn file_all(
    alloc: Global,
    index: &mut ByTransfer,
    messages: &[Arc<Message>],
) -> Result<(), AllocError>
    ensures { OnOk result ((ms : List DraftOf) → IsFiledBy index.old ms
        → IsFiledBy index.new (ms ++ messages_in messages.now)) }
{
    for message in messages {
        file_each(alloc, index, message)?;
    }
    Ok(())
}

/// The messages that are filed under a transfer. Expected O(1).
pub(crate) fn on_transfer<'a>(index: &'a ByTransfer, transfer: &TransferKey) -> &'a [Arc<Message>]
    ensures { (ms : List DraftOf) → IsFiledBy index.now ms
        → HasThose (messages_in result.now) (filter (is_on transfer.now) ms) }
{
    match index.get(transfer) {
        Some(bucket) => bucket.items(),
        None => &[],
    }
}
