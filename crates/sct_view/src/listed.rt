//! The lists that a view gives.
ghost use Rattle.std.specs.Prelude.{◌≡◌, ◌++◌, ◌||◌, filter, map, IfOk, OnOk};
ghost use Rattle.std.specs.List.{flat_map};
ghost use Rattle.sct_message.specs.Sets.{messages_in};
ghost use Rattle.sct_message.specs.Transfers.{keys_of, instruction_of};
ghost use Rattle.sct_view.specs.Answers.{cxls_named_by, recall_of, recalls_on, all_findings_of, transfers_of_bank, is_originator, is_beneficiary, found_on};
ghost use Rattle.sct_view.specs.Kept.{kept_in, instruction_in};
ghost use Rattle.sct_view.specs.Listed.{cxls_in, recalls_in_case, found_in, beside};
ghost use Rattle.sct_case.specs.Statuses.{as_standing};

use crate::case::Case;
use crate::view::View;
use sct_case::{CaseFault, Finding, RecallStatus, Status, recall_statuses};
use sct_element::{Bic, Id35};
use sct_message::{Message, RecallKey, TransferKey, keys_are_ordered};
use std::alloc::{AllocError, Global};
use std::sync::Arc;

/// The findings that a status holds; empty for a status other than contradicted.
pub(crate) fn findings_in(status: &Status) -> &[Finding]
    ensures { result.now ≡ found_in (as_standing status.now) }
{
    match status {
        Status::Contradicted(found) => found,
        _ => &[],
    }
}

/// Appends the findings of a transfer, each with the transfer's key.
pub(crate) fn push_beside(
    found: &mut Vec<(TransferKey, Finding)>,
    transfer: &TransferKey,
    findings: &[Finding],
) -> Result<(), AllocError>
    ensures { OnOk result (found.new.items ≡ found.old.items ++ beside transfer.now findings.now) }
{
    for finding in findings {
        found.push((transfer.copy(), finding.copy()))?;
    }
    Ok(())
}

// ---- one transfer

// Appends the identification of a recall, if it is a recall of the transfer.
fn push_where_of(
    found: &mut Vec<Id35>,
    transfer: &TransferKey,
    recall: RecallKey,
) -> Result<(), AllocError>
    ensures { OnOk result (found.new.items ≡ found.old.items ++ cxls_in transfer.now recall) }
{
    keys_are_ordered();
    if recall.transfer == *transfer {
        found.push(recall.cxl)?;
    }
    Ok(())
}

// Appends the recalls of a transfer that a message names.
fn push_named(
    found: &mut Vec<Id35>,
    transfer: &TransferKey,
    message: &Message,
) -> Result<(), AllocError>
    ensures { OnOk result (found.new.items ≡ found.old.items ++ cxls_named_by transfer.now message.now) }
{
    for i in 0..message.transfer_count() {
        let Some(recall) = message.recall(i) else {
            return Ok(());
        };
        push_where_of(found, transfer, recall)?;
    }
    Ok(())
}

// Appends the recalls of a transfer that the messages name.
fn push_all_named(
    found: &mut Vec<Id35>,
    transfer: &TransferKey,
    messages: &[Arc<Message>],
) -> Result<(), AllocError>
    ensures { OnOk result (found.new.items
        ≡ found.old.items ++ flat_map (cxls_named_by transfer.now) (messages_in messages.now)) }
{
    for message in messages {
        push_named(found, transfer, message)?;
    }
    Ok(())
}

// The recalls of a transfer that the messages of its case name, contradicted messages included.
fn all_named(alloc: Global, transfer: &TransferKey, case: &Case) -> Result<Vec<Id35>, AllocError>
    ensures { IfOk result (λ found. found.items
        ≡ flat_map (cxls_named_by transfer.now) (kept_in case.now).clean
        ++ flat_map (cxls_named_by transfer.now) (kept_in case.now).contradicted) }
{
    let mut found = Vec::new(alloc);
    push_all_named(&mut found, transfer, &case.clean)?;
    push_all_named(&mut found, transfer, &case.contradicted)?;
    Ok(found)
}

/// The recalls of a transfer that the messages of its case name, ascending, each once.
pub(crate) fn recalls_in(
    alloc: Global,
    transfer: &TransferKey,
    case: &Case,
) -> Result<Vec<Id35>, AllocError>
    ensures { IfOk result (λ found. found.items ≡ recalls_in_case transfer.now (kept_in case.now)) }
{
    let mut found = all_named(alloc, transfer, case)?;
    found.sort()?;
    found.dedup();
    Ok(found)
}

// ---- the transfers of a bank

fn is_originator(bank: &Bic, transfer: &TransferKey) -> bool
    ensures { result ≡ is_originator bank.now transfer.now }
{
    transfer.debtor_agent.text() == bank.text()
}

fn is_beneficiary(bank: &Bic, case: &Case) -> bool
    ensures { result ≡ is_beneficiary bank.now (instruction_in (kept_in case.now)) }
{
    match case.beneficiary() {
        Some(beneficiary) => beneficiary.text() == bank.text(),
        None => false,
    }
}

// ---- the lists of a view

impl View {
    // The findings of a transfer.
    fn findings(&self, transfer: &TransferKey) -> &[Finding]
        ensures { result.now ≡ found_on self.now transfer.now }
    {
        findings_in(self.status(transfer))
    }

    // Whether the bank is the beneficiary bank of the transfer's instruction.
    fn is_paid(&self, bank: &Bic, transfer: &TransferKey) -> bool
        ensures { result ≡ is_beneficiary bank.now (instruction_of self.now transfer.now) }
    {
        match self.case_on(transfer) {
            Some(case) => is_beneficiary(bank, case),
            None => false,
        }
    }

    /// The transfers that messages held are on, ascending. Error: `Memory` (39). O(n log n) in the transfers held.
    pub fn keys(&self) -> Result<Vec<TransferKey>, CaseFault>
        ensures { IfOk result (λ keys. keys.items ≡ keys_of self.now) }
    {
        keys_are_ordered();
        let mut keys = self.tables.keys(self.alloc)?;
        keys.sort()?;
        Ok(keys)
    }

    /// The recalls of a transfer that messages held name, contradicted messages included,
    /// ascending. Error: `Memory` (39). The program does not call it; users of the library can.
    pub fn recalls_of(&self, transfer: &TransferKey) -> Result<Vec<Id35>, CaseFault>
        ensures { IfOk result (λ recalls. recalls.items ≡ recalls_on self.now transfer.now) }
    {
        match self.case_on(transfer) {
            Some(case) => Ok(recalls_in(self.alloc, transfer, case)?),
            None => Ok(Vec::new(self.alloc)),
        }
    }

    /// The recalls of a transfer, as [`View::recalls_of`] has them, each with its status. Error: `Memory` (39).
    /// O(n log n) in the transactions of the messages on the transfer.
    pub fn recalls_with_statuses(
        &self,
        transfer: &TransferKey,
    ) -> Result<Vec<(Id35, RecallStatus)>, CaseFault>
        ensures { IfOk result (λ recalls. recalls.items
            ≡ map (λ cxl. (cxl, recall_of self.now (record { transfer = transfer.now; cxl = cxl })))
            (recalls_on self.now transfer.now)) }
    {
        let Some(case) = self.case_on(transfer) else {
            return Ok(Vec::new(self.alloc));
        };
        let cxls = recalls_in(self.alloc, transfer, case)?;
        let recalls = recall_statuses(self.alloc, &case.status, transfer, &case.clean, &cxls)?;
        Ok(recalls)
    }

    // Those of the transfers that have a bank as the originator bank, or as the beneficiary bank of their instruction.
    fn those_of(
        &self,
        bank: &Bic,
        transfers: Vec<TransferKey>,
    ) -> Result<Vec<TransferKey>, AllocError>
        ensures { IfOk result (λ found. found.items
            ≡ filter (λ t. is_originator bank.now t || is_beneficiary bank.now (instruction_of self.now t)) transfers.items) }
    {
        let mut found = Vec::new(self.alloc);
        for transfer in transfers {
            if is_originator(bank, &transfer) || self.is_paid(bank, &transfer) {
                found.push(transfer)?;
            }
        }
        Ok(found)
    }

    /// The transfers that have a bank as the originator bank, or as the beneficiary bank
    /// of their instruction, ascending.
    /// Error: `Memory` (39). It looks at every transfer held, and sorts those of the bank.
    pub fn transfers_of(&self, bank: &Bic) -> Result<Vec<TransferKey>, CaseFault>
        ensures { IfOk result (λ transfers. transfers.items ≡ transfers_of_bank self.now bank.now) }
    {
        let keys = self.tables.keys(self.alloc)?;
        let mut transfers = self.those_of(bank, keys)?;
        transfers.sort()?;
        transfers.dedup();
        Ok(transfers)
    }

    /// All findings, each with its transfer, sorted by transfer and then in the order in which findings are reported.
    /// Error: `Memory` (39). It looks at every transfer held. The program does not call it; users of the library can.
    #[tactic(auto, unfolding(crate::specs::Answers::all_findings_of))]
    pub fn all_findings(&self) -> Result<Vec<(TransferKey, Finding)>, CaseFault>
        ensures { IfOk result (λ found. found.items ≡ all_findings_of self.now) }
    {
        let transfers = self.keys()?;
        let mut found = Vec::new(self.alloc);
        for transfer in &transfers {
            push_beside(&mut found, transfer, self.findings(transfer))?;
        }
        Ok(found)
    }
}
