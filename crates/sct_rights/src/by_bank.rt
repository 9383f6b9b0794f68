//! Transfers filed by bank, so that a report of one bank does not look at those of others.

ghost use Rattle.std.specs.Prelude.{◌≡◌, ◌++◌, ◌∷◌, ◌&&◌, ◌||◌, [], ℕ, List, Some, OnOk};
ghost use Rattle.std.specs.Arc.{arc_value};
ghost use Rattle.std.specs.List.{list_any};
ghost use Rattle.sct_element.specs.Text.{is_text};
ghost use Rattle.sct_message.specs.Order.{same_transfer};
ghost use Rattle.sct_message.specs.Sets.{messages_in};
ghost use Rattle.sct_message.specs.declared.draft.Draft.{Draft as DraftOf};
ghost use Rattle.sct_message.specs.declared.keys.TransferKey.{TransferKey as TransferOf};
ghost use Rattle.sct_set.specs.Buckets.{bucket};
ghost use Rattle.sct_view.specs.Answers.{is_beneficiary};
ghost use Rattle.sct_rights.specs.ByBanks.{IsFiledByBanks, names_bank};

use indexmap::IndexMap;
use sct_element::Bic;
use sct_message::{Draft, Message, TransferKey};
use sct_set::buckets::{Bucket, file};
use std::alloc::{AllocError, Global};
use std::sync::Arc;

/// Transfers filed by bank. Under a bank are those with a message that have it as the originator bank, and those with an
/// instruction that has it as the beneficiary bank, contradicted or not. A transfer is there once for each such message.
pub type ByBank = IndexMap<Bic, Bucket<TransferKey>>;

/// No transfers.
pub fn no_banks_filed(alloc: Global) -> ByBank
    ensures { IsFiledByBanks result [] }
{
    IndexMap::new(alloc)
}

// Files a transfer under the beneficiary bank that a message on it names, if the message is an instruction.
fn file_beneficiary(
    alloc: Global,
    index: &mut ByBank,
    transfer: &TransferKey,
    message: &Message,
) -> Result<(), AllocError>
    ensures { OnOk result ((bank : List ℕ) (t : TransferOf)
        → list_any (same_transfer t) (bucket is_text index.new bank)
        ≡ (list_any (same_transfer t) (bucket is_text index.old bank)
        || (same_transfer t transfer.now && is_beneficiary bank (Some message.now)))) }
{
    match message.draft() {
        Draft::CreditTransfer(instruction) => {
            file(
                alloc,
                index,
                instruction.creditor_agent.copy(),
                transfer.copy(),
            )?;
            Ok(())
        }
        _ => Ok(()),
    }
}

// Files a transfer under the banks that a message on it names.
fn file_under(
    alloc: Global,
    index: &mut ByBank,
    transfer: &TransferKey,
    message: &Message,
) -> Result<(), AllocError>
    ensures { OnOk result ((bank : List ℕ) (t : TransferOf)
        → list_any (same_transfer t) (bucket is_text index.new bank)
        ≡ (list_any (same_transfer t) (bucket is_text index.old bank)
        || (same_transfer t transfer.now && names_bank bank transfer.now message.now))) }
{
    file_beneficiary(alloc, index, transfer, message)?;
    file(alloc, index, transfer.debtor_agent.copy(), transfer.copy())?;
    Ok(())
}

// Files each transfer of a message under the banks that the message names.
fn file_transfers(alloc: Global, index: &mut ByBank, message: &Message) -> Result<(), AllocError>
    ensures { OnOk result ((ms : List DraftOf) → IsFiledByBanks index.old ms
        → IsFiledByBanks index.new (ms ++ message.now ∷ [])) }
{
    for i in 0..message.transfer_count() {
        let Some(transfer) = message.transfer(i) else {
            return Ok(());
        };
        file_under(alloc, index, &transfer, message)?;
    }
    Ok(())
}

/// Files the transfers of messages. The error is that it is out of memory; then the caller files all of them anew.
/// O(transactions of the messages).
pub fn file_banks(
    alloc: Global,
    index: &mut ByBank,
    messages: &[Arc<Message>],
) -> Result<(), AllocError>
    ensures { OnOk result ((ms : List DraftOf) → IsFiledByBanks index.old ms
        → IsFiledByBanks index.new (ms ++ messages_in messages.now)) }
{
    for message in messages {
        file_transfers(alloc, index, message)?;
    }
    Ok(())
}
