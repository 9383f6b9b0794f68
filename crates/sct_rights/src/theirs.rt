//! Which transfers are theirs.
ghost use Rattle.std.specs.Prelude.{◌≡◌};
ghost use Rattle.std.specs.Arc.{arc_value};
ghost use Rattle.std.specs.List.{list_any};
ghost use Rattle.sct_message.specs.Transfers.{is_instruction as instructs};
ghost use Rattle.sct_view.specs.Filed.{IsFiled};
ghost use Rattle.sct_rights.specs.Rights.{has_on, has_credit_to, has_instruction, is_between as passes_between, is_credit_to as credits, is_theirs};

use crate::banks::{is_between, is_credit_to, is_instruction, is_one_of};
use crate::filed::{ByTransfer, on_transfer};
use sct_element::Bic;
use sct_message::{Message, TransferKey};
use sct_view::View;
use std::sync::Arc;

/// Whether one of the messages is an instruction.
pub(crate) fn instruct(messages: &[Arc<Message>]) -> bool
    ensures { result ≡ list_any (λ m. instructs (arc_value m)) messages.now }
{
    messages.iter().any(|message| is_instruction(message))
}

/// Whether one of the messages is an instruction to one of the banks.
pub(crate) fn credit(banks: &[Bic], messages: &[Arc<Message>]) -> bool
    ensures { result ≡ list_any (λ m. credits banks.now (arc_value m)) messages.now }
{
    messages.iter().any(|message| is_credit_to(banks, message))
}

fn pass_between(banks: &[Bic], messages: &[Arc<Message>]) -> bool
    ensures { result ≡ list_any (λ m. passes_between banks.now (arc_value m)) messages.now }
{
    messages.iter().any(|message| is_between(banks, message))
}

// Whether there is an instruction on the transfer, contradicted or not. O(messages on the transfer).
fn has_instruction(view: &View, filed: &ByTransfer, transfer: &TransferKey) -> bool
    requires { IsFiled view.now filed.now }
    ensures { result ≡ has_instruction view.now transfer.now }
{
    let _ = view;
    instruct(on_transfer(filed, transfer))
}

// Whether there is an instruction on the transfer to one of the banks. O(messages on the transfer).
fn has_credit_to(view: &View, filed: &ByTransfer, banks: &[Bic], transfer: &TransferKey) -> bool
    requires { IsFiled view.now filed.now }
    ensures { result ≡ has_credit_to banks.now view.now transfer.now }
{
    let _ = view;
    credit(banks, on_transfer(filed, transfer))
}

// Whether one of the banks sent or was sent a message on the transfer. O(messages on the transfer).
fn has_between(view: &View, filed: &ByTransfer, banks: &[Bic], transfer: &TransferKey) -> bool
    requires { IsFiled view.now filed.now }
    ensures { result ≡ has_on view.now transfer.now (passes_between banks.now) }
{
    let _ = view;
    pass_between(banks, on_transfer(filed, transfer))
}

/// Whether the transfer is theirs: one of the banks is its originator bank, or the beneficiary bank of an instruction on it. Or
/// there is no instruction on it, and one of them sent or was sent a message on it. O(messages on the transfer).
#[tactic(auto, unfolding(crate::specs::Rights::is_theirs))]
pub fn is_theirs(view: &View, filed: &ByTransfer, banks: &[Bic], transfer: &TransferKey) -> bool
    requires { IsFiled view.now filed.now }
    ensures { result ≡ is_theirs banks.now view.now transfer.now }
{
    is_one_of(banks, &transfer.debtor_agent)
        || has_credit_to(view, filed, banks, transfer)
        || (!has_instruction(view, filed, transfer) && has_between(view, filed, banks, transfer))
}
