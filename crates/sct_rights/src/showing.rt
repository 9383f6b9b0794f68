//! The answers for banks, in bytes.
ghost use Rattle.std.specs.Prelude.{◌≡◌, map, filter, true, false, IfOk, None};
ghost use Rattle.std.specs.List.{list_all};
ghost use Rattle.sct_message.specs.Rules.{first_broken_rule};
ghost use Rattle.std.specs.Arc.{arc_value};
ghost use Rattle.sct_message.specs.Recalls.{transfer_in};
ghost use Rattle.sct_message.specs.declared.draft.Draft.TheVariants as draft;
ghost use Rattle.sct_message.specs.Sets.{in_order, messages_in};
ghost use Rattle.sct_message.specs.Transfers.{is_on};
ghost use Rattle.sct_set.specs.Contents.{contents_of};
ghost use Rattle.sct_view.specs.Filed.{IsFiled};
ghost use Rattle.sct_rights.specs.Rights.{is_one_of as is_among, is_theirs as are_theirs};
ghost use Rattle.sct_rights.specs.Shown.{bank_line_for, lines_for, messages_for, shown_to as shown};

use crate::banks::is_one_of;
use crate::filed::{ByTransfer, on_transfer};
use crate::theirs::is_theirs;
use sct_case::CaseFault;
use sct_element::Bic;
use sct_message::{
    Boxed, CancellationRequest, Draft, Head, Message, Original, RecallTx, TransferKey,
};
use sct_set::Archive;
use sct_view::View;
use std::alloc::{AllocError, Global};
use std::sync::Arc;

/// The lines of a transfer, as the status text has them. A transfer that is not theirs has one line, with the status
/// `UNKNOWN`, whether or not messages on it are held. Error: `Memory` (39). O(messages on the transfer).
#[tactic(auto, using(crate::proofs::TruthLemmas::theirs_lines, crate::proofs::TruthLemmas::foreign_lines))]
pub fn transfer_text_for(
    alloc: Global,
    view: &View,
    filed: &ByTransfer,
    banks: &[Bic],
    transfer: &TransferKey,
) -> Result<Vec<u8>, CaseFault>
    requires { IsFiled view.now filed.now }
    ensures { IfOk result (λ text. text.items ≡ lines_for banks.now view.now transfer.now) }
{
    if !is_theirs(view, filed, banks, transfer) {
        return View::new(alloc).transfer_text(transfer);
    }
    view.transfer_text(transfer)
}

/// The line of a bank in the totals. Error: `Memory` (39). Expected O(1).
#[tactic(auto, using(crate::proofs::TruthLemmas::bank_told))]
pub fn bank_text_for(view: &View, banks: &[Bic], bank: &Bic) -> Result<Vec<u8>, CaseFault>
    requires { is_among banks.now bank.now ≡ true }
    ensures { IfOk result (λ text. text.items ≡ bank_line_for banks.now view.now bank.now) }
{
    let _ = banks;
    view.totals_line(bank)
}

// ---- a message as it is shown

fn copy_head(head: &Head) -> Head
    ensures { result ≡ head.now }
{
    Head {
        message_name: head.message_name.copy(),
        message_id: head.message_id.copy(),
        creation_time: head.creation_time.copy(),
        instructing_agent: head.instructing_agent.copy(),
        instructed_agent: head.instructed_agent.as_ref().map(|bank| bank.copy()),
    }
}

fn copy_original(original: &Original) -> Original
    ensures { result ≡ original.now }
{
    Original {
        message_id: original.message_id.copy(),
        message_name: original.message_name.copy(),
        end_to_end_id: original.end_to_end_id.as_ref().map(|id| id.copy()),
        transaction_id: original.transaction_id.copy(),
    }
}

fn copy_tx(tx: &RecallTx) -> RecallTx
    ensures { result ≡ tx.now }
{
    RecallTx {
        cancellation_id: tx.cancellation_id.copy(),
        original: copy_original(&tx.original),
        original_amount: tx.original_amount,
        currency: tx.currency.copy(),
        original_settlement_date: tx.original_settlement_date.as_ref().map(|day| day.copy()),
        reason: tx.reason.copy(),
        debtor_agent: tx.debtor_agent.copy(),
    }
}

// The transactions that are on transfers of theirs.
fn theirs_among(
    alloc: Global,
    view: &View,
    filed: &ByTransfer,
    banks: &[Bic],
    txs: &[RecallTx],
) -> Result<Vec<RecallTx>, AllocError>
    requires { IsFiled view.now filed.now }
    ensures { IfOk result (λ kept. kept.items ≡ filter (λ tx. are_theirs banks.now view.now (transfer_in tx)) txs.now) }
{
    let mut kept = Vec::new(alloc);
    for tx in txs {
        if is_theirs(view, filed, banks, &tx.transfer()) {
            kept.push(copy_tx(tx))?;
        }
    }
    Ok(kept)
}

// A recall message that none of the banks sent, as it is shown.
fn shown_recall(
    alloc: Global,
    view: &View,
    filed: &ByTransfer,
    banks: &[Bic],
    request: &CancellationRequest,
) -> Result<Arc<Message>, AllocError>
    requires filed { IsFiled view.now filed.now }
    requires others { is_among banks.now request.now.head.instructing_agent ≡ false }
    requires rules { first_broken_rule (shown banks.now view.now (draft.CancellationRequest request.now)) ≡ None }
    ensures { IfOk result (λ told. arc_value told ≡ shown banks.now view.now (draft.CancellationRequest request.now)) }
{
    let txs = theirs_among(alloc, view, filed, banks, &request.txs)?;
    let head = copy_head(&request.head);
    let request = Boxed::new(alloc, CancellationRequest { head, txs })?;
    let Ok(message) = Message::of(Draft::CancellationRequest(request)) else {
        unreachable!()
    };
    Ok(Arc::new(alloc, message).map_err(AllocError::from)?)
}

// A message on a transfer that is theirs, as it is shown.
fn shown_to(
    alloc: Global,
    view: &View,
    filed: &ByTransfer,
    banks: &[Bic],
    transfer: &TransferKey,
    message: &Arc<Message>,
) -> Result<Arc<Message>, AllocError>
    requires filed { IsFiled view.now filed.now }
    requires theirs { are_theirs banks.now view.now transfer.now ≡ true }
    requires on { is_on transfer.now (arc_value message.now) ≡ true }
    ensures { IfOk result (λ told. arc_value told ≡ shown banks.now view.now (arc_value message.now)) }
{
    let _ = transfer;
    let Draft::CancellationRequest(request) = message.draft() else {
        return Ok(message.clone()?);
    };
    if is_one_of(banks, &request.head.instructing_agent) {
        return Ok(message.clone()?);
    }
    shown_recall(alloc, view, filed, banks, request)
}

// Each of the messages on a transfer that is theirs, as it is shown.
fn all_shown(
    alloc: Global,
    view: &View,
    filed: &ByTransfer,
    banks: &[Bic],
    transfer: &TransferKey,
    messages: &[Arc<Message>],
) -> Result<Vec<Arc<Message>>, AllocError>
    requires filed { IsFiled view.now filed.now }
    requires theirs { are_theirs banks.now view.now transfer.now ≡ true }
    requires on { list_all (λ m. is_on transfer.now (arc_value m)) messages.now ≡ true }
    ensures { IfOk result (λ told. messages_in told.items ≡ map (shown banks.now view.now) (messages_in messages.now)) }
{
    let mut told = Vec::with_capacity(alloc, messages.len())?;
    for message in messages {
        told.push(shown_to(alloc, view, filed, banks, transfer, message)?)?;
    }
    Ok(told)
}

// The messages on a transfer that is theirs, each as it is shown.
fn told_on(
    alloc: Global,
    view: &View,
    filed: &ByTransfer,
    banks: &[Bic],
    transfer: &TransferKey,
) -> Result<Vec<Arc<Message>>, AllocError>
    requires filed { IsFiled view.now filed.now }
    requires theirs { are_theirs banks.now view.now transfer.now ≡ true }
    ensures { IfOk result (λ told. contents_of (messages_in told.items)
        ≡ contents_of (map (shown banks.now view.now) (filter (is_on transfer.now) (in_order view.now)))) }
{
    let on_it = on_transfer(filed, transfer);
    let told = all_shown(alloc, view, filed, banks, transfer, on_it)?;
    Ok(told)
}

/// The messages on a transfer, contradicted or not, each as it is shown: their lines of the archive text. The text is empty if the
/// transfer is not theirs. Error: out of memory. O(n log n) in the transactions of the messages on the transfer, and for each
/// transaction of a recall message O(messages on its transfer).
#[tactic(auto, using(crate::proofs::ShowingLemmas::theirs_messages, crate::proofs::ShowingLemmas::foreign_messages))]
pub fn messages_text_for(
    alloc: Global,
    view: &View,
    filed: &ByTransfer,
    banks: &[Bic],
    transfer: &TransferKey,
) -> Result<Vec<u8>, AllocError>
    requires { IsFiled view.now filed.now }
    ensures { IfOk result (λ text. text.items ≡ messages_for banks.now view.now transfer.now) }
{
    let mut archive = Archive::new(alloc);
    if !is_theirs(view, filed, banks, transfer) {
        return Ok(archive.text()?);
    }
    let told = told_on(alloc, view, filed, banks, transfer)?;
    archive.add_all(&told)?;
    Ok(archive.text()?)
}
