//! Whether a message may be sent in the name of banks.
ghost use Rattle.std.specs.Prelude.{◌≡◌, ◌∷◌, ◌<◌, ◌^◌, [], map, position, IfSome};
ghost use Rattle.sct_message.specs.Keys.{transfer_key, transfers_of};
ghost use Rattle.sct_message.specs.Recalls.{transfer_in};
ghost use Rattle.sct_view.specs.Filed.{IsFiled};
ghost use Rattle.sct_rights.specs.Rights.{as_beneficiary, as_originators, has_credit_to, has_instruction, is_foreign, verdict};

use crate::banks::is_one_of;
use crate::filed::{ByTransfer, on_transfer};
use crate::theirs::{credit, instruct};
use sct_element::{Bic, Id35};
use sct_message::{Draft, Message, RecallTx, TransferKey};
use sct_set::Archive;

/// What comes of a message that is sent in the name of banks.
#[derive(Debug, Drop, PartialEq, Eq)]
pub enum Permission {
    /// It may be sent.
    Allowed,
    /// The sender (InstgAgt) is none of the banks.
    NotSender,
    /// The originator bank (DbtrAgt) of this transaction, from 1, is none of the banks.
    NotOriginator(usize),
    /// The beneficiary bank (CdtrAgt) of each instruction is none of the banks.
    NotBeneficiary,
    /// No instruction on this transfer is held yet.
    Waits(TransferKey),
}

// The place of the only transfer, if its originator bank is none of the banks.
fn foreign_one(banks: &[Bic], debtor_agent: &Bic, tx: &Id35) -> Option<usize>
    ensures place { result ≡ position (is_foreign banks.now) (transfer_key debtor_agent.now tx.now ∷ []) }
    ensures small { IfSome result (λ place. place < 2 ^ 63) }
{
    let _ = tx;
    if is_one_of(banks, debtor_agent) {
        None
    } else {
        Some(0)
    }
}

// The place of the first transaction, from 0, whose originator bank is none of the banks.
fn foreign_tx(banks: &[Bic], txs: &[RecallTx]) -> Option<usize>
    ensures place { result ≡ position (λ tx. is_foreign banks.now (transfer_in tx)) txs.now }
    ensures small { IfSome result (λ place. place < 2 ^ 63) }
{
    txs.iter()
        .position(|tx| !is_one_of(banks, &tx.debtor_agent))
}

// The same, over the transfers of the transactions.
fn foreign_in(banks: &[Bic], txs: &[RecallTx]) -> Option<usize>
    ensures place { result ≡ position (is_foreign banks.now) (map transfer_in txs.now) }
    ensures small { IfSome result (λ place. place < 2 ^ 63) }
{
    foreign_tx(banks, txs)
}

// The place of the first transfer, from 0, whose originator bank is none of the banks.
fn first_foreign(banks: &[Bic], draft: &Draft) -> Option<usize>
    ensures place { result ≡ position (is_foreign banks.now) (transfers_of draft.now) }
    ensures small { IfSome result (λ place. place < 2 ^ 63) }
{
    match draft {
        Draft::CreditTransfer(m) => foreign_one(banks, &m.debtor_agent, &m.transaction_id),
        Draft::StatusReport(m) => foreign_one(banks, &m.debtor_agent, &m.original.transaction_id),
        Draft::StatusRequest(m) => foreign_one(banks, &m.debtor_agent, &m.original.transaction_id),
        Draft::CancellationRequest(m) => foreign_in(banks, &m.txs),
        Draft::PaymentReturn(m) => foreign_one(banks, &m.debtor_agent, &m.original.transaction_id),
        Draft::Resolution(m) => foreign_one(banks, &m.debtor_agent, &m.original.transaction_id),
    }
}

// Whether the originator banks of all transactions are among the banks.
fn as_originators(banks: &[Bic], draft: &Draft) -> Permission
    ensures { result ≡ as_originators banks.now (transfers_of draft.now) }
{
    match first_foreign(banks, draft) {
        Some(place) => Permission::NotOriginator(place + 1),
        None => Permission::Allowed,
    }
}

// Whether there is an instruction on the transfer, contradicted or not.
fn is_instructed(held: &Archive, filed: &ByTransfer, transfer: &TransferKey) -> bool
    requires { IsFiled held.now filed.now }
    ensures { result ≡ has_instruction held.now transfer.now }
{
    let _ = held;
    instruct(on_transfer(filed, transfer))
}

// Whether there is an instruction on the transfer to one of the banks.
fn is_credited(held: &Archive, filed: &ByTransfer, banks: &[Bic], transfer: &TransferKey) -> bool
    requires { IsFiled held.now filed.now }
    ensures { result ≡ has_credit_to banks.now held.now transfer.now }
{
    let _ = held;
    credit(banks, on_transfer(filed, transfer))
}

// Whether there is an instruction on the transfer, and one to a bank of the banks.
fn as_beneficiary(
    held: &Archive,
    filed: &ByTransfer,
    banks: &[Bic],
    debtor_agent: &Bic,
    tx: &Id35,
) -> Permission
    requires { IsFiled held.now filed.now }
    ensures { result ≡ as_beneficiary banks.now held.now (transfer_key debtor_agent.now tx.now) }
{
    let transfer = TransferKey {
        debtor_agent: debtor_agent.copy(),
        tx: tx.copy(),
    };
    if !is_instructed(held, filed, &transfer) {
        return Permission::Waits(transfer);
    }
    if is_credited(held, filed, banks, &transfer) {
        return Permission::Allowed;
    }
    Permission::NotBeneficiary
}

/// Whether a message may be sent in the name of banks, to a site that holds the messages of the archive. An instruction that is
/// contradicted counts. O(banks), times the transactions of a camt.056, or the messages on the transfer of an answer.
#[tactic(auto, unfolding(crate::specs::Rights::verdict))]
pub fn verdict(held: &Archive, filed: &ByTransfer, banks: &[Bic], message: &Message) -> Permission
    requires { IsFiled held.now filed.now }
    ensures { result ≡ verdict banks.now held.now message.now }
{
    let draft = message.draft();
    if !is_one_of(banks, &draft.head().instructing_agent) {
        return Permission::NotSender;
    }
    match draft {
        Draft::CreditTransfer(_) | Draft::CancellationRequest(_) | Draft::StatusRequest(_) => {
            as_originators(banks, draft)
        }
        Draft::StatusReport(m) => {
            as_beneficiary(
                held,
                filed,
                banks,
                &m.debtor_agent,
                &m.original.transaction_id,
            )
        }
        Draft::PaymentReturn(m) => {
            as_beneficiary(
                held,
                filed,
                banks,
                &m.debtor_agent,
                &m.original.transaction_id,
            )
        }
        Draft::Resolution(m) => {
            as_beneficiary(
                held,
                filed,
                banks,
                &m.debtor_agent,
                &m.original.transaction_id,
            )
        }
    }
}
