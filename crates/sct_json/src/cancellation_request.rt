//! camt.056: the recall of 1 to 100 transfers. It has two forms. The form for one transfer has the elements of the recall
//! beside those of the head. The other form has a list with an object for each transfer.
ghost use Rattle.std.specs.Prelude.{◌≡◌, ◌∷◌, [], Some, Ok, OnOk};
ghost use Rattle.serde_json.specs.Data.{Data};
ghost use Rattle.serde_json.specs.Find.{get};
ghost use Rattle.sct_json.specs.Keys.{key_text};
ghost use Rattle.sct_json.specs.Reading.{GivesWithMemory, GivesItems, flat_recall_in, listed_recalls_in, cancellation_request_in};
ghost use Rattle.sct_json.specs.Line.{with_line, one_recall_line, with_recalls, Writes};
ghost use Rattle.sct_json.specs.Writing.{RecallsReadBack};

use crate::faults::JsonFault;
use crate::keys::Key;
use crate::members::{put, put_optional};
use crate::object::{Found, Object};
use crate::{head, recall_list, transaction};
use json::Writer;
use sct_message::{CancellationRequest, Head, RecallTx};
use std::alloc::{AllocError, Global};

/// A list of one transaction.
fn list_of(alloc: Global, tx: RecallTx) -> Result<Vec<RecallTx>, JsonFault>
    ensures { GivesItems result (Ok (tx ∷ [])) }
{
    match vec![in alloc; tx] {
        Ok(txs) => Ok(txs),
        Err(_) => Err(JsonFault::Memory),
    }
}

/// The form of one transaction, whose keys are beside those of the head.
#[tactic(auto, unfolding(crate::specs::Reading::flat_recall_in))]
fn read_flat<O: Object>(alloc: Global, object: &O) -> Result<CancellationRequest, JsonFault>
    ensures { GivesWithMemory result (flat_recall_in (O.value object.now)) }
{
    let head = head::read(alloc, object)?;
    let tx = transaction::read(alloc, object)?;
    let txs = list_of(alloc, tx)?;
    Ok(CancellationRequest { head, txs })
}

/// The form with a list of transactions.
#[tactic(auto, unfolding(crate::specs::Reading::listed_recalls_in))]
fn read_listed<O: Object>(alloc: Global, object: &O) -> Result<CancellationRequest, JsonFault>
    ensures { (list : Data) → get (key_text Key.TxInf) (O.value object.now) ≡ Some list
        → GivesWithMemory result (listed_recalls_in list (O.value object.now)) }
{
    let head = head::read(alloc, object)?;
    let txs = object.transactions(alloc)?;
    Ok(CancellationRequest { head, txs })
}

#[tactic(auto, unfolding(crate::specs::Reading::cancellation_request_in))]
pub(crate) fn read<O: Object>(alloc: Global, object: &O) -> Result<CancellationRequest, JsonFault>
    ensures { GivesWithMemory result (cancellation_request_in (O.value object.now)) }
{
    match object.at(Key::TxInf) {
        Found::Nothing => read_flat(alloc, object),
        _ => read_listed(alloc, object),
    }
}

/// Writes the members of the head and of one transaction, in the order of the bytes of their keys.
fn put_flat(head: &Head, tx: &RecallTx, out: &mut Writer) -> Result<(), AllocError>
    ensures { OnOk result (Writes (with_line (one_recall_line head.now tx.now)) out.old out.new) }
{
    put(Key::Ccy, &tx.currency, out)?;
    put(Key::CreDtTm, &head.creation_time, out)?;
    put(Key::CxlId, &tx.cancellation_id, out)?;
    put(Key::DbtrAgt, &tx.debtor_agent, out)?;
    put_optional(Key::InstdAgt, &head.instructed_agent, out)?;
    put(Key::InstgAgt, &head.instructing_agent, out)?;
    put(Key::MsgId, &head.message_id, out)?;
    put(Key::MsgNmId, &head.message_name, out)?;
    put_optional(Key::OrgnlEndToEndId, &tx.original.end_to_end_id, out)?;
    put(Key::OrgnlIntrBkSttlmAmt, &tx.original_amount, out)?;
    put_optional(Key::OrgnlIntrBkSttlmDt, &tx.original_settlement_date, out)?;
    put(Key::OrgnlMsgId, &tx.original.message_id, out)?;
    put(Key::OrgnlMsgNmId, &tx.original.message_name, out)?;
    put(Key::OrgnlTxId, &tx.original.transaction_id, out)?;
    put(Key::Rsn, &tx.reason, out)?;
    Ok(())
}

/// Writes one transaction beside the head, and two or more as a list after the head.
fn put_recalls(head: &Head, txs: &[RecallTx], out: &mut Writer) -> Result<(), AllocError>
    ensures { OnOk result (Writes (with_recalls head.now txs.now) out.old out.new) }
{
    if let [tx] = txs {
        return put_flat(head, tx, out);
    }
    head::put_all(head, out)?;
    recall_list::put_list(txs, out)
}

/// Writes the members, in the order of the bytes of their keys.
pub(crate) fn put_all(
    cancellation_request: &CancellationRequest,
    out: &mut Writer,
) -> Result<(), AllocError>
    ensures { OnOk result (Writes
        (with_recalls cancellation_request.now.head cancellation_request.now.txs) out.old out.new) }
{
    put_recalls(&cancellation_request.head, &cancellation_request.txs, out)
}

/// A law: the written form of each element is read as the element.
pub(crate) fn elements_read_back(cancellation_request: &CancellationRequest)
    ensures { RecallsReadBack cancellation_request.now }
{
    head::elements_read_back(&cancellation_request.head);
    recall_list::elements_read_back(&cancellation_request.txs);
}
