//! What messages say of one transfer, read in one pass.
ghost use Rattle.std.specs.Prelude.{◌≡◌, ◌++◌, ◌&&◌, List, [], nat_eq, OnOk, IfOk};
ghost use Rattle.std.specs.List.{flat_map};
ghost use Rattle.std.specs.Cmp.Lexicographic.{pointwise};
ghost use Rattle.sct_message.specs.Keys.{transfer_key};
ghost use Rattle.sct_message.specs.Order.{same_transfer};
ghost use Rattle.sct_message.specs.Recalls.{transfer_in};
ghost use Rattle.sct_message.specs.Sets.{messages_in};
ghost use Rattle.sct_message.specs.declared.draft.Draft.TheVariants as draft;
ghost use Rattle.sct_message.specs.declared.keys.TransferKey.{TransferKey as TransferOf};
ghost use Rattle.sct_case.specs.Inside.{IsOneMore, IsSaidOf};
ghost use Rattle.sct_case.specs.Said.{made_in, original_amount_in};

use sct_element::{Amount, Bic, Id35};
use sct_message::{
    CreditTransfer, Draft, Message, PaymentReturn, RecallTx, Resolution, StatusReport,
    StatusRequest, TransferKey,
};
use sct_reason::Reason;
use std::alloc::{AllocError, Global};
use std::sync::Arc;

/// An instruction, by its amount.
#[derive(Drop)]
pub(crate) struct InstructedAmount {
    pub(crate) amount: Amount,
}

/// A rejection, by its reason.
#[derive(Drop)]
pub(crate) struct RejectionReason {
    pub(crate) reason: Reason,
}

/// A recall: its identification, the original amount that it names, and its reason.
#[derive(Drop)]
pub(crate) struct RecallMade {
    pub(crate) cxl: Id35,
    pub(crate) amount: Amount,
    pub(crate) reason: Reason,
}

/// An original amount that a recall or a return names.
#[derive(Drop)]
pub(crate) struct OriginalAmount {
    pub(crate) amount: Amount,
}

/// A return: its identification, the recall that it answers, and the returned amount.
#[derive(Drop)]
pub(crate) struct ReturnMade {
    pub(crate) return_id: Id35,
    pub(crate) cxl: Id35,
    pub(crate) amount: Amount,
}

/// A refusal: the recall that it answers, and its reason.
#[derive(Drop)]
pub(crate) struct RefusalMade {
    pub(crate) cxl: Id35,
    pub(crate) reason: Reason,
}

/// A recall whose status is asked for.
#[derive(Drop)]
pub(crate) struct RecallAsked {
    pub(crate) cxl: Id35,
}

/// What messages say of a transfer. Each list is in the order of the messages.
#[derive(Drop)]
pub(crate) struct Said {
    pub(crate) instructions: Vec<InstructedAmount>,
    /// Whether a message accepts the transfer.
    pub(crate) accepted: bool,
    pub(crate) rejections: Vec<RejectionReason>,
    /// Whether the status of the transfer was asked for.
    pub(crate) investigated: bool,
    pub(crate) recalls: Vec<RecallMade>,
    /// The original amounts that recalls and returns name.
    pub(crate) amounts: Vec<OriginalAmount>,
    pub(crate) returns: Vec<ReturnMade>,
    pub(crate) refusals: Vec<RefusalMade>,
    /// The recalls whose status was asked for.
    pub(crate) requests: Vec<RecallAsked>,
}

impl Said {
    /// Nothing said.
    fn new(alloc: Global) -> Said
        ensures { (transfer : TransferOf) → IsSaidOf transfer [] result }
    {
        Said {
            instructions: Vec::new(alloc),
            accepted: false,
            rejections: Vec::new(alloc),
            investigated: false,
            recalls: Vec::new(alloc),
            amounts: Vec::new(alloc),
            returns: Vec::new(alloc),
            refusals: Vec::new(alloc),
            requests: Vec::new(alloc),
        }
    }

    /// What the messages say of the transfer.
    /// O(transactions of the messages).
    pub(crate) fn of(
        alloc: Global,
        transfer: &TransferKey,
        clean: &[Arc<Message>],
    ) -> Result<Said, AllocError>
        ensures { IfOk result (λ said. IsSaidOf transfer.now (messages_in clean.now) said) }
    {
        let mut said = Said::new(alloc);
        for message in clean {
            said.add(transfer, message.draft())?;
        }
        Ok(said)
    }

    /// Adds what one more message says of the transfer.
    fn add(&mut self, transfer: &TransferKey, draft: &Draft) -> Result<(), AllocError>
        ensures { OnOk result (IsOneMore transfer.now draft.now self.old self.new) }
    {
        match draft {
            Draft::CreditTransfer(m) => self.add_instruction(m),
            Draft::StatusReport(m) => self.add_confirmation(m),
            Draft::StatusRequest(m) => self.add_request(transfer, m),
            Draft::CancellationRequest(m) => {
                push_recalls(&mut self.recalls, &mut self.amounts, transfer, &m.txs)
            }
            Draft::PaymentReturn(m) => self.add_return(transfer, m),
            Draft::Resolution(m) => self.add_refusal(transfer, m),
        }
    }

    fn add_instruction(&mut self, instruction: &CreditTransfer) -> Result<(), AllocError>
        ensures { (transfer : TransferOf)
            → OnOk result (IsOneMore transfer (draft.CreditTransfer instruction.now) self.old self.new) }
    {
        self.instructions.push(InstructedAmount {
            amount: instruction.settlement_amount,
        })?;
        Ok(())
    }

    fn add_confirmation(&mut self, report: &StatusReport) -> Result<(), AllocError>
        ensures { (transfer : TransferOf)
            → OnOk result (IsOneMore transfer (draft.StatusReport report.now) self.old self.new) }
    {
        match report.status.text() {
            "ACCP" => self.accepted = true,
            "RJCT" => {
                if let Some(reason) = &report.reason {
                    self.rejections.push(RejectionReason {
                        reason: reason.copy(),
                    })?;
                }
            }
            _ => {}
        }
        Ok(())
    }

    fn add_request(
        &mut self,
        transfer: &TransferKey,
        request: &StatusRequest,
    ) -> Result<(), AllocError>
        ensures { OnOk result (IsOneMore transfer.now (draft.StatusRequest request.now) self.old self.new) }
    {
        match &request.cancellation_id {
            None => self.investigated = true,
            Some(cxl) => {
                if is_of(
                    transfer,
                    &request.debtor_agent,
                    &request.original.transaction_id,
                ) {
                    self.requests.push(RecallAsked { cxl: cxl.copy() })?;
                }
            }
        }
        Ok(())
    }

    fn add_return(
        &mut self,
        transfer: &TransferKey,
        payment: &PaymentReturn,
    ) -> Result<(), AllocError>
        ensures { OnOk result (IsOneMore transfer.now (draft.PaymentReturn payment.now) self.old self.new) }
    {
        if !is_of(
            transfer,
            &payment.debtor_agent,
            &payment.original.transaction_id,
        ) {
            return Ok(());
        }
        self.amounts.push(OriginalAmount {
            amount: payment.original_amount,
        })?;
        self.returns.push(ReturnMade {
            return_id: payment.return_id.copy(),
            cxl: payment.cancellation_id.copy(),
            amount: payment.returned_amount,
        })?;
        Ok(())
    }

    fn add_refusal(
        &mut self,
        transfer: &TransferKey,
        resolution: &Resolution,
    ) -> Result<(), AllocError>
        ensures { OnOk result (IsOneMore transfer.now (draft.Resolution resolution.now) self.old self.new) }
    {
        if !is_of(
            transfer,
            &resolution.debtor_agent,
            &resolution.original.transaction_id,
        ) {
            return Ok(());
        }
        self.refusals.push(RefusalMade {
            cxl: resolution.cancellation_id.copy(),
            reason: resolution.reason.copy(),
        })?;
        Ok(())
    }
}

/// Appends the recalls that the transactions make of the transfer, and the original amounts that they name.
fn push_recalls(
    made: &mut Vec<RecallMade>,
    amounts: &mut Vec<OriginalAmount>,
    transfer: &TransferKey,
    txs: &[RecallTx],
) -> Result<(), AllocError>
    ensures made { OnOk result (made.new.items ≡ made.old.items ++ flat_map (made_in transfer.now) txs.now) }
    ensures amounts { OnOk result (amounts.new.items
        ≡ amounts.old.items ++ flat_map (original_amount_in transfer.now) txs.now) }
{
    for tx in txs {
        push_recall(made, amounts, transfer, tx)?;
    }
    Ok(())
}

/// Appends the recall that a transaction makes and the original amount that it names, if it recalls the transfer.
fn push_recall(
    made: &mut Vec<RecallMade>,
    amounts: &mut Vec<OriginalAmount>,
    transfer: &TransferKey,
    tx: &RecallTx,
) -> Result<(), AllocError>
    ensures made { OnOk result (made.new.items ≡ made.old.items ++ made_in transfer.now tx.now) }
    ensures amounts { OnOk result (amounts.new.items ≡ amounts.old.items ++ original_amount_in transfer.now tx.now) }
{
    if !recalls(transfer, tx) {
        return Ok(());
    }
    made.push(RecallMade {
        cxl: tx.cancellation_id.copy(),
        amount: tx.original_amount,
        reason: tx.reason.copy(),
    })?;
    amounts.push(OriginalAmount {
        amount: tx.original_amount,
    })?;
    Ok(())
}

/// Whether an originator bank and a transfer identification are those of the transfer. The identification is
/// compared first, because it differs most often.
fn has_parts_of(transfer: &TransferKey, debtor_agent: &Bic, tx: &Id35) -> bool
    ensures { result ≡ (pointwise nat_eq tx.now transfer.now.tx
        && pointwise nat_eq debtor_agent.now transfer.now.debtor_agent) }
{
    tx.text() == transfer.tx.text() && debtor_agent.text() == transfer.debtor_agent.text()
}

/// Whether an originator bank and a transfer identification name the transfer.
pub(crate) fn is_of(transfer: &TransferKey, debtor_agent: &Bic, tx: &Id35) -> bool
    ensures { result ≡ same_transfer (transfer_key debtor_agent.now tx.now) transfer.now }
{
    has_parts_of(transfer, debtor_agent, tx)
}

/// Whether a transaction recalls the transfer.
pub(crate) fn recalls(transfer: &TransferKey, tx: &RecallTx) -> bool
    ensures { result ≡ same_transfer (transfer_in tx.now) transfer.now }
{
    is_of(transfer, &tx.debtor_agent, &tx.original.transaction_id)
}
