//! The data that a view keeps for one transfer.

ghost use Rattle.std.specs.Prelude.{◌≡◌, ◌<◌, ◌^◌, ℕ, map, filter, find, length, option_map, Some};
ghost use Rattle.std.specs.Arc.{arc_value};
ghost use Rattle.std.specs.List.{count_by};
ghost use Rattle.std.specs.Option.{option_copied, option_to_list};
ghost use Rattle.sct_message.specs.Sets.{messages_in};
ghost use Rattle.sct_message.specs.Transfers.{is_instruction, sole};
ghost use Rattle.sct_view.specs.Kept.{kept_in, instruction_in};
ghost use Rattle.sct_view.specs.Totals.{cents_in, beneficiary_in};

use sct_case::Status;
use sct_element::Bic;
use sct_message::{Draft, Message, TransferKey};
use std::sync::Arc;

/// The messages on a transfer, and its status by them.
#[derive(Drop)]
pub struct Case {
    /// The clean messages, in the order of messages.
    pub clean: Vec<Arc<Message>>,
    /// The messages whose identity is contradicted, in the order of messages.
    pub contradicted: Vec<Arc<Message>>,
    /// The status of the transfer.
    pub status: Status,
}

/// A case that will replace the case of its transfer.
#[derive(Drop)]
pub(crate) struct Planned {
    /// The transfer.
    pub(crate) transfer: TransferKey,
    /// The new case of the transfer.
    pub(crate) case: Case,
}

fn is_instruction(draft: &Draft) -> bool
    ensures { result ≡ is_instruction draft.now }
{
    match draft {
        Draft::CreditTransfer(_) => true,
        _ => false,
    }
}

fn instructions(messages: &[Arc<Message>]) -> usize
    ensures { result ≡ count_by (λ m. is_instruction (arc_value m)) messages.now }
{
    let mut count = 0;
    for message in messages {
        if is_instruction(message.draft()) {
            count += 1;
        }
    }
    count
}

fn first_instruction(messages: &[Arc<Message>]) -> Option<&Arc<Message>>
    ensures { option_copied result ≡ find (λ m. is_instruction (arc_value m)) messages.now }
{
    messages
        .iter()
        .find(|message| is_instruction(message.draft()))
}

/// The cents that an instruction names, 0 for a message of another kind.
fn cents_named(draft: &Draft) -> u64
    ensures { result ≡ cents_in (Some draft.now) }
{
    match draft {
        Draft::CreditTransfer(transfer) => transfer.settlement_amount.cents(),
        _ => 0,
    }
}

/// The beneficiary bank that an instruction names, or none for a message of another kind.
fn beneficiary_named(draft: &Draft) -> Option<&Bic>
    ensures { option_to_list (option_copied result) ≡ beneficiary_in (Some draft.now) }
{
    match draft {
        Draft::CreditTransfer(transfer) => Some(&transfer.creditor_agent),
        _ => None,
    }
}

impl Case {
    ghost use Rattle.sct_view.specs.Listed.{has_messages};

    /// The instruction of the transfer: its pacs.008, if exactly one clean message is a pacs.008, else none.
    pub fn instruction(&self) -> Option<&Arc<Message>>
        ensures { option_map arc_value (option_copied result) ≡ instruction_in (kept_in self.now) }
    {
        if instructions(&self.clean) == 1 {
            first_instruction(&self.clean)
        } else {
            None
        }
    }

    /// The cents that the instruction names, 0 if there is none.
    pub(crate) fn cents(&self) -> u64
        ensures { result ≡ cents_in (instruction_in (kept_in self.now)) }
    {
        match self.instruction() {
            Some(instruction) => cents_named(instruction.draft()),
            None => 0,
        }
    }

    /// The beneficiary bank of the instruction, or none.
    pub(crate) fn beneficiary(&self) -> Option<&Bic>
        ensures { option_to_list (option_copied result) ≡ beneficiary_in (instruction_in (kept_in self.now)) }
    {
        beneficiary_named(self.instruction()?.draft())
    }

    /// Whether the transfer has a message.
    pub(crate) fn has_messages(&self) -> bool
        ensures { result ≡ has_messages self.now }
    {
        !(self.clean.is_empty() && self.contradicted.is_empty())
    }
}
