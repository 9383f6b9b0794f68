//! The transfers of a report.
ghost use Rattle.std.specs.Prelude.{◌≡◌, ◌++◌, ◌∷◌, [], map, Some, IfOk, OnOk};
ghost use Rattle.std.specs.Prelude.{if◌then◌else◌};
ghost use Rattle.sct_message.specs.Transfers.{instruction_of};
ghost use Rattle.sct_reconcile.specs.Reports.{is_of_day, keys_reported, transfers_on_day};

use crate::rows::ListedRow;
use sct_element::{Bic, Day};
use sct_message::{Draft, Message, TransferKey, keys_are_ordered};
use sct_view::View;
use std::alloc::{AllocError, Global};

// Whether a message is of this settlement day, or does not instruct a transfer.
fn is_dated(day: &Day, message: &Message) -> bool
    ensures { result ≡ is_of_day day.now (Some message.now) }
{
    match message.draft() {
        Draft::CreditTransfer(instruction) => instruction.settlement_date == *day,
        _ => true,
    }
}

// Whether the instruction of a transfer is of this settlement day. True if it has no sole instruction.
fn is_of_day(view: &View, day: &Day, key: &TransferKey) -> bool
    ensures { result ≡ is_of_day day.now (instruction_of view.now key.now) }
{
    match view.instruction(key) {
        Some(message) => is_dated(day, message),
        None => true,
    }
}

// Appends a transfer, unless its instruction has another settlement day.
fn push_of_day(
    keys: &mut Vec<TransferKey>,
    view: &View,
    day: &Day,
    key: TransferKey,
) -> Result<(), AllocError>
    ensures { OnOk result (keys.new.items
        ≡ keys.old.items ++ (if is_of_day day.now (instruction_of view.now key) then key ∷ [] else [])) }
{
    if is_of_day(view, day, &key) {
        keys.push(key)?;
    }
    Ok(())
}

// Appends the transfers of the bank, except those whose instruction has another settlement day.
fn push_all_of_day(
    keys: &mut Vec<TransferKey>,
    view: &View,
    bank: &Bic,
    day: &Day,
) -> Result<(), AllocError>
    ensures { OnOk result (keys.new.items ≡ keys.old.items ++ transfers_on_day view.now bank.now day.now) }
{
    for key in view.transfers_of(bank)? {
        push_of_day(keys, view, day, key)?;
    }
    Ok(())
}

// The transfer of each row.
fn keys_of_list(alloc: Global, rows: &[ListedRow]) -> Result<Vec<TransferKey>, AllocError>
    ensures { IfOk result (λ keys. keys.items ≡ map (λ row. row.key) rows.now) }
{
    let mut keys = Vec::new(alloc);
    for row in rows {
        keys.push(row.key.copy())?;
    }
    Ok(keys)
}

/// The transfer of each row, followed by those of the bank on the day.
pub(crate) fn keys_named(
    alloc: Global,
    view: &View,
    bank: &Bic,
    day: &Day,
    rows: &[ListedRow],
) -> Result<Vec<TransferKey>, AllocError>
    ensures { IfOk result (λ keys. keys.items
        ≡ map (λ row. row.key) rows.now ++ transfers_on_day view.now bank.now day.now) }
{
    let mut keys = keys_of_list(alloc, rows)?;
    push_all_of_day(&mut keys, view, bank, day)?;
    Ok(keys)
}

/// The transfers of a report: those of the rows and those of the bank on the day, ascending, each once.
pub(crate) fn keys_reported(
    alloc: Global,
    view: &View,
    bank: &Bic,
    day: &Day,
    rows: &[ListedRow],
) -> Result<Vec<TransferKey>, AllocError>
    ensures { IfOk result (λ keys. keys.items ≡ keys_reported view.now bank.now day.now rows.now) }
{
    keys_are_ordered();
    let mut keys = keys_named(alloc, view, bank, day, rows)?;
    keys.sort()?;
    keys.dedup();
    Ok(keys)
}
