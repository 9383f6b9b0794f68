//! The transfers and the recalls under which a message is filed: one for each transaction of a camt.056, and at most one
//! for a message of another kind.
ghost use Rattle.std.specs.Prelude.{◌≡◌, ◌∷◌, [], length};
ghost use Rattle.std.specs.List.{slice_get};
ghost use Rattle.std.specs.Option.{option_copied};
ghost use Rattle.sct_message.specs.Keys.{transfer_key, transfers_of, recalls_named, recalls_of};

use crate::draft::Draft;
use crate::keys::{RecallKey, TransferKey};
use sct_element::{Bic, Id35};

/// How many transfers a draft is about: the number of transactions of a camt.056, else 1.
pub(crate) fn transfer_count(draft: &Draft) -> usize
    ensures { result ≡ length (transfers_of draft.now) }
{
    match draft {
        Draft::CancellationRequest(cancellation_request) => cancellation_request.txs.len(),
        _ => 1,
    }
}

/// The one transfer of a message for `i` = 0, else none.
fn of_one(i: usize, debtor_agent: &Bic, tx: &Id35) -> Option<TransferKey>
    ensures { result ≡ slice_get (transfer_key debtor_agent.now tx.now ∷ []) i }
{
    if i == 0 {
        Some(TransferKey {
            debtor_agent: debtor_agent.copy(),
            tx: tx.copy(),
        })
    } else {
        None
    }
}

/// The transfer `i` of a draft, from 0. None past the last.
pub(crate) fn transfer(draft: &Draft, i: usize) -> Option<TransferKey>
    ensures { result ≡ slice_get (transfers_of draft.now) i }
{
    match draft {
        Draft::CreditTransfer(m) => of_one(i, &m.debtor_agent, &m.transaction_id),
        Draft::StatusReport(m) => of_one(i, &m.debtor_agent, &m.original.transaction_id),
        Draft::StatusRequest(m) => of_one(i, &m.debtor_agent, &m.original.transaction_id),
        Draft::CancellationRequest(m) => {
            let tx = m.txs.get(i)?;
            Some(tx.transfer())
        }
        Draft::PaymentReturn(m) => of_one(i, &m.debtor_agent, &m.original.transaction_id),
        Draft::Resolution(m) => of_one(i, &m.debtor_agent, &m.original.transaction_id),
    }
}

/// The one recall of a message for `i` = 0, if the message names a recall.
fn of_one_recall(i: usize, debtor_agent: &Bic, tx: &Id35, cxl: Option<&Id35>) -> Option<RecallKey>
    ensures { result ≡ slice_get (recalls_named (transfer_key debtor_agent.now tx.now) (option_copied cxl.entry)) i }
{
    let cxl = cxl?;
    let transfer = of_one(i, debtor_agent, tx)?;
    Some(RecallKey {
        transfer,
        cxl: cxl.copy(),
    })
}

/// The recall `i` of a draft, from 0. None past the last.
pub(crate) fn recall(draft: &Draft, i: usize) -> Option<RecallKey>
    ensures { result ≡ slice_get (recalls_of draft.now) i }
{
    match draft {
        Draft::CreditTransfer(_) | Draft::StatusReport(_) => None,
        Draft::StatusRequest(m) => of_one_recall(
            i,
            &m.debtor_agent,
            &m.original.transaction_id,
            m.cancellation_id.as_ref(),
        ),
        Draft::CancellationRequest(m) => {
            let tx = m.txs.get(i)?;
            Some(tx.recall())
        }
        Draft::PaymentReturn(m) => of_one_recall(
            i,
            &m.debtor_agent,
            &m.original.transaction_id,
            Some(&m.cancellation_id),
        ),
        Draft::Resolution(m) => of_one_recall(
            i,
            &m.debtor_agent,
            &m.original.transaction_id,
            Some(&m.cancellation_id),
        ),
    }
}
