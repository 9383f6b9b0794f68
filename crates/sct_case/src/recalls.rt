//! The status of one recall of a transfer, from what messages say of it. No call allocates.
ghost use Rattle.std.specs.Prelude.{◌≡◌, ◌||◌, List};
ghost use Rattle.std.specs.List.{list_any};
ghost use Rattle.sct_message.specs.Sets.{messages_in};
ghost use Rattle.sct_message.specs.declared.draft.Draft.TheVariants as draft;
ghost use Rattle.sct_message.specs.declared.keys.Identity.{Identity as IdentityOf};
ghost use Rattle.sct_case.specs.Inside.{IsOneMoreOn, IsSaidOn, recall_standing_said};
ghost use Rattle.sct_case.specs.Said.{made_in, recalls_made_by, refusals_by, requests_by, returns_by};
ghost use Rattle.sct_case.specs.Statuses.{amount_returned, reason_refused, request_of_it, recall_standing_of, recall_status_of, as_standing, transfer_status_of};
ghost use Rattle.sct_case.specs.Told.{recall_of_it};

use crate::said::{is_of, recalls};
use crate::status::{RecallStatus, Status};
use sct_element::{Amount, Id35};
use sct_message::{
    CancellationRequest, Draft, Message, PaymentReturn, RecallTx, Resolution, StatusRequest,
    TransferKey,
};
use sct_reason::Reason;
use std::sync::Arc;

/// What messages say of one recall of a transfer.
#[derive(Drop)]
pub(crate) struct RecallSaid {
    pub(crate) made: bool,
    pub(crate) returned: Option<Amount>,
    pub(crate) refused: Option<Reason>,
    /// Whether the status of the recall was asked for.
    pub(crate) chased: bool,
}

impl RecallSaid {
    /// What the messages on the transfer say of its recall `cxl`.
    fn of(transfer: &TransferKey, clean: &[Arc<Message>], cxl: &Id35) -> RecallSaid
        ensures { IsSaidOn transfer.now (messages_in clean.now) cxl.now result }
    {
        let mut said = RecallSaid {
            made: false,
            returned: None,
            refused: None,
            chased: false,
        };
        for message in clean {
            said.add(transfer, message.draft(), cxl);
        }
        said
    }

    /// Adds what one more message says of the recall.
    fn add(&mut self, transfer: &TransferKey, draft: &Draft, cxl: &Id35)
        ensures { IsOneMoreOn transfer.now draft.now cxl.now self.old self.new }
    {
        match draft {
            Draft::CreditTransfer(_) | Draft::StatusReport(_) => {}
            Draft::StatusRequest(m) => self.chased = self.chased || asks(m, transfer, cxl),
            Draft::CancellationRequest(m) => {
                if !self.made {
                    self.made = makes(m, transfer, cxl);
                }
            }
            Draft::PaymentReturn(m) => {
                if self.returned.is_none() {
                    self.returned = amount_of(m, transfer, cxl);
                }
            }
            Draft::Resolution(m) => {
                if self.refused.is_none() {
                    self.refused = reason_of(m, transfer, cxl);
                }
            }
        }
    }

    /// The status of the recall, if its transfer has no finding.
    pub(crate) fn status(self) -> RecallStatus
        ensures { result ≡ recall_standing_said self }
    {
        let named = self.made || self.returned.is_some() || self.refused.is_some() || self.chased;
        if !named {
            return RecallStatus::Unknown;
        }
        if !self.made {
            return RecallStatus::Unasked;
        }
        if let Some(amount) = self.returned {
            return RecallStatus::Returned(amount);
        }
        match self.refused {
            Some(reason) => RecallStatus::Refused(reason),
            None if self.chased => RecallStatus::Chased,
            None => RecallStatus::Open,
        }
    }
}

/// Whether a transaction makes the recall.
fn transaction_makes(tx: &RecallTx, transfer: &TransferKey, cxl: &Id35) -> bool
    ensures { result ≡ list_any (recall_of_it cxl.now) (made_in transfer.now tx.now) }
{
    recalls(transfer, tx) && tx.cancellation_id.text() == cxl.text()
}

/// Whether one of the transactions makes the recall.
fn any_makes(txs: &[RecallTx], transfer: &TransferKey, cxl: &Id35) -> bool
    ensures { result ≡ list_any (λ tx. list_any (recall_of_it cxl.now) (made_in transfer.now tx)) txs.now }
{
    txs.iter().any(|tx| transaction_makes(tx, transfer, cxl))
}

/// Whether a message makes the recall.
fn makes(request: &CancellationRequest, transfer: &TransferKey, cxl: &Id35) -> bool
    ensures { result
        ≡ list_any (recall_of_it cxl.now) (recalls_made_by transfer.now (draft.CancellationRequest request.now)) }
{
    any_makes(&request.txs, transfer, cxl)
}

/// Whether a message asks for the status of the recall.
fn asks(request: &StatusRequest, transfer: &TransferKey, cxl: &Id35) -> bool
    ensures { result ≡ list_any (request_of_it cxl.now) (requests_by transfer.now (draft.StatusRequest request.now)) }
{
    match &request.cancellation_id {
        Some(named) => named.text() == cxl.text()
            && is_of(
                transfer,
                &request.debtor_agent,
                &request.original.transaction_id,
            ),
        None => false,
    }
}

/// The amount that a message returns after the recall.
fn amount_of(payment: &PaymentReturn, transfer: &TransferKey, cxl: &Id35) -> Option<Amount>
    ensures { result ≡ amount_returned cxl.now (returns_by transfer.now (draft.PaymentReturn payment.now)) }
{
    if is_of(
        transfer,
        &payment.debtor_agent,
        &payment.original.transaction_id,
    ) && payment.cancellation_id.text() == cxl.text()
    {
        Some(payment.returned_amount)
    } else {
        None
    }
}

/// The reason for which a message refuses the recall.
fn reason_of(resolution: &Resolution, transfer: &TransferKey, cxl: &Id35) -> Option<Reason>
    ensures { result ≡ reason_refused cxl.now (refusals_by transfer.now (draft.Resolution resolution.now)) }
{
    if is_of(
        transfer,
        &resolution.debtor_agent,
        &resolution.original.transaction_id,
    ) && resolution.cancellation_id.text() == cxl.text()
    {
        Some(resolution.reason.copy())
    } else {
        None
    }
}

/// The status of the recall `cxl` of a transfer, from the status of the transfer and its clean messages.
/// O(t) for t transactions in the messages, without allocation. For many recalls of one transfer use
/// [`recall_statuses`](crate::recall_statuses).
pub fn recall_status_by(
    status: &Status,
    transfer: &TransferKey,
    clean: &[Arc<Message>],
    cxl: &Id35,
) -> RecallStatus
    ensures { (asides : List IdentityOf)
        → as_standing status.now ≡ transfer_status_of transfer.now (messages_in clean.now) asides
        → result ≡ recall_status_of transfer.now (messages_in clean.now) asides cxl.now }
{
    match status {
        Status::Contradicted(_) => RecallStatus::Contradicted,
        _ => RecallSaid::of(transfer, clean, cxl).status(),
    }
}
