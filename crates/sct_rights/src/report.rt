//! The report of a bank: the hub's own, and the one for banks.
ghost use Rattle.std.specs.FinSet as set;
ghost use Rattle.std.specs.Prelude.{◌≡◌, ◌++◌, List as Rows, Some, map, filter, true, IfErr, IfOk, OnOk};
ghost use Rattle.sct_element.specs.Text.{is_text};
ghost use Rattle.sct_message.specs.Transfers.{instruction_of};
ghost use Rattle.sct_set.specs.Buckets.{bucket};
ghost use Rattle.sct_view.specs.Answers.{is_beneficiary};
ghost use Rattle.sct_view.specs.Filed.{IsFiled};
ghost use Rattle.sct_reconcile.specs.Filed.{IsFiled as IsListed};
ghost use Rattle.sct_reconcile.specs.Reports.{is_of_day, keys_reported, listed_on, report_of, row_on};
ghost use Rattle.sct_reconcile.specs.declared.fault.ReconcileFault.TheVariants as fault;
ghost use Rattle.sct_reconcile.specs.declared.rows.ListedRow.{ListedRow as Row};
ghost use Rattle.sct_rights.specs.ByBanks.{IsFiledForBanks, is_reported};
ghost use Rattle.sct_rights.specs.Reported.{report_for, row_for};
ghost use Rattle.sct_rights.specs.Rights.{is_one_of as is_among};

use crate::by_bank::ByBank;
use crate::filed::ByTransfer;
use crate::theirs::is_theirs;
use indexmap::IndexMap;
use sct_element::{Bic, Day};
use sct_message::{Draft, Message, TransferKey, keys_are_ordered};
use sct_reconcile::{List, ListRow, ListedRow, ReconcileFault, ReportRow, row_on};
use sct_set::buckets::{Bucket, file, items_at};
use sct_view::View;
use std::alloc::{AllocError, Global};

// ---- the rows of the list, by transfer

// What the rows of a list say of each transfer.
type Index = IndexMap<TransferKey, Bucket<ListRow>>;

fn by_transfer(alloc: Global, rows: &[ListedRow]) -> Result<Index, AllocError>
    ensures { IfOk result (λ index. IsListed index rows.now) }
{
    keys_are_ordered();
    let mut index = IndexMap::new(alloc);
    for row in rows {
        file(alloc, &mut index, row.key.copy(), row.listed)?;
    }
    Ok(index)
}

// What the rows on a transfer say, in the order of the list.
fn listed_on<'a>(rows: &[ListedRow], index: &'a Index, key: &TransferKey) -> &'a [ListRow]
    requires { IsListed index.now rows.now }
    ensures { result.now ≡ listed_on rows.now key.now }
{
    let _ = rows;
    keys_are_ordered();
    items_at(index, key)
}

// ---- the transfers of the report

// Whether a message instructs a transfer to the bank.
fn is_credit(bank: &Bic, message: &Message) -> bool
    ensures { result ≡ is_beneficiary bank.now (Some message.now) }
{
    match message.draft() {
        Draft::CreditTransfer(instruction) => instruction.creditor_agent.text() == bank.text(),
        _ => false,
    }
}

// Whether the bank is the beneficiary bank of the transfer's instruction.
fn is_paid(view: &View, bank: &Bic, key: &TransferKey) -> bool
    ensures { result ≡ is_beneficiary bank.now (instruction_of view.now key.now) }
{
    match view.instruction(key) {
        Some(message) => is_credit(bank, message),
        None => false,
    }
}

// Whether a message is of this settlement day, or does not instruct a transfer.
fn is_dated(day: &Day, message: &Message) -> bool
    ensures { result ≡ is_of_day day.now (Some message.now) }
{
    match message.draft() {
        Draft::CreditTransfer(instruction) => instruction.settlement_date == *day,
        _ => true,
    }
}

// Whether the instruction of a transfer is of this settlement day. True if it has no sole instruction.
fn is_of_day(view: &View, day: &Day, key: &TransferKey) -> bool
    ensures { result ≡ is_of_day day.now (instruction_of view.now key.now) }
{
    match view.instruction(key) {
        Some(message) => is_dated(day, message),
        None => true,
    }
}

// Whether a transfer is one of the bank, and its instruction has no other settlement day.
fn is_reported(view: &View, bank: &Bic, day: &Day, key: &TransferKey) -> bool
    ensures { result ≡ is_reported view.now bank.now day.now key.now }
{
    let is_of_bank = key.debtor_agent.text() == bank.text() || is_paid(view, bank, key);
    is_of_bank && is_of_day(view, day, key)
}

// Those of the transfers that are reported.
fn keys_of_bank(
    alloc: Global,
    view: &View,
    bank: &Bic,
    day: &Day,
    under: &[TransferKey],
) -> Result<Vec<TransferKey>, AllocError>
    ensures { IfOk result (λ keys. keys.items ≡ filter (is_reported view.now bank.now day.now) under.now) }
{
    let mut keys = Vec::new(alloc);
    for key in under {
        if is_reported(view, bank, day, key) {
            keys.push(key.copy())?;
        }
    }
    Ok(keys)
}

// Appends the transfer of each row of the list.
fn push_listed(keys: &mut Vec<TransferKey>, rows: &[ListedRow]) -> Result<(), AllocError>
    ensures { OnOk result (keys.new.items ≡ keys.old.items ++ map (λ row. row.key) rows.now) }
{
    for row in rows {
        keys.push(row.key.copy())?;
    }
    Ok(())
}

// The transfers under a bank that are reported, and those of the list.
fn keys_named(
    alloc: Global,
    view: &View,
    by_bank: &ByBank,
    bank: &Bic,
    day: &Day,
    rows: &[ListedRow],
) -> Result<Vec<TransferKey>, AllocError>
    ensures { IfOk result (λ keys. keys.items
        ≡ filter (is_reported view.now bank.now day.now) (bucket is_text by_bank.now bank.now) ++ map (λ row. row.key) rows.now) }
{
    let mut keys = keys_of_bank(alloc, view, bank, day, items_at(by_bank, bank))?;
    push_listed(&mut keys, rows)?;
    Ok(keys)
}

// The transfers of the report, ascending, each once.
fn keys_reported(
    alloc: Global,
    view: &View,
    by_bank: &ByBank,
    bank: &Bic,
    day: &Day,
    rows: &[ListedRow],
) -> Result<Vec<TransferKey>, AllocError>
    requires { IsFiledForBanks view.now by_bank.now }
    ensures { IfOk result (λ keys. keys.items ≡ keys_reported view.now bank.now day.now rows.now) }
{
    keys_are_ordered();
    let mut keys = keys_named(alloc, view, by_bank, bank, day, rows)?;
    keys.sort()?;
    keys.dedup();
    Ok(keys)
}

// ---- the rows

// The rows of transfers in the hub's own report.
fn rows_on(
    alloc: Global,
    view: &View,
    rows: &[ListedRow],
    keys: &[TransferKey],
) -> Result<Vec<ReportRow>, AllocError>
    ensures { IfOk result (λ found. found.items ≡ map (row_on view.now rows.now) keys.now) }
{
    let index = by_transfer(alloc, rows)?;
    let mut found = Vec::with_capacity(alloc, keys.len())?;
    for key in keys {
        found.push(row_on(view, listed_on(rows, &index, key), key))?;
    }
    Ok(found)
}

// The row of a transfer for banks. `nothing` is a view of no messages.
fn row_for(
    view: &View,
    nothing: &View,
    filed: &ByTransfer,
    banks: &[Bic],
    rows: &[ListedRow],
    index: &Index,
    key: &TransferKey,
) -> ReportRow
    requires filed { IsFiled view.now filed.now }
    requires nothing { nothing.now ≡ set.empty }
    requires listed { IsListed index.now rows.now }
    ensures { result ≡ row_for banks.now view.now rows.now key.now }
{
    let listed = listed_on(rows, index, key);
    if !is_theirs(view, filed, banks, key) {
        return row_on(nothing, listed, key);
    }
    row_on(view, listed, key)
}

fn rows_for(
    alloc: Global,
    view: &View,
    filed: &ByTransfer,
    banks: &[Bic],
    rows: &[ListedRow],
    keys: &[TransferKey],
) -> Result<Vec<ReportRow>, AllocError>
    requires { IsFiled view.now filed.now }
    ensures { IfOk result (λ found. found.items ≡ map (row_for banks.now view.now rows.now) keys.now) }
{
    let nothing = View::new(alloc);
    let index = by_transfer(alloc, rows)?;
    let mut found = Vec::with_capacity(alloc, keys.len())?;
    for key in keys {
        found.push(row_for(view, &nothing, filed, banks, rows, &index, key))?;
    }
    Ok(found)
}

/// The rows of the hub's own report on a list of a bank, as `reconcile` has them. Error: `Memory` (49). O(n log n) in the rows of the
/// list and the messages on transfers of the bank, however many messages the view holds.
#[tactic(auto, unfolding(sct_reconcile::specs::Reports::report_of))]
pub fn report_rows(
    alloc: Global,
    view: &View,
    by_bank: &ByBank,
    bank: &Bic,
    day: &Day,
    list: &List,
) -> Result<Vec<ReportRow>, ReconcileFault>
    requires { IsFiledForBanks view.now by_bank.now }
    ensures rows { IfOk result (λ rows. rows.items ≡ report_of view.now bank.now day.now list.now) }
    ensures fault { IfErr result (λ e. e ≡ fault.Memory) }
{
    let keys = keys_reported(alloc, view, by_bank, bank, day, list.rows())?;
    let rows = rows_on(alloc, view, list.rows(), &keys)?;
    Ok(rows)
}

/// The rows of the report on a list of a bank of theirs. They are those of the hub's own report, but of a transfer that is not
/// theirs what a row on no message is. Error: `Memory` (49). O(n log n) in the rows of the list and the messages on transfers of
/// the bank, and O(messages on the transfer) for each row, however many messages the view holds.
#[tactic(auto, using(crate::proofs::ReportLemmas::report_made))]
pub fn report_rows_for(
    alloc: Global,
    view: &View,
    filed: &ByTransfer,
    by_bank: &ByBank,
    banks: &[Bic],
    bank: &Bic,
    day: &Day,
    list: &List,
) -> Result<Vec<ReportRow>, ReconcileFault>
    requires filed { IsFiled view.now filed.now }
    requires by_bank { IsFiledForBanks view.now by_bank.now }
    requires bank { is_among banks.now bank.now ≡ true }
    ensures rows { IfOk result (λ rows. rows.items ≡ report_for banks.now view.now bank.now day.now list.now) }
    ensures fault { IfErr result (λ e. e ≡ fault.Memory) }
{
    let keys = keys_reported(alloc, view, by_bank, bank, day, list.rows())?;
    let rows = rows_for(alloc, view, filed, banks, list.rows(), &keys)?;
    Ok(rows)
}
