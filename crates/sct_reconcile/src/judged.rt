//! The row of one transfer.
ghost use Rattle.std.specs.Prelude.{◌≡◌, Some};
ghost use Rattle.sct_message.specs.Transfers.{instruction_of, sole};
ghost use Rattle.sct_reconcile.specs.Reports.{amount_in, row_beside, row_from, verdict_of};
ghost use Rattle.sct_reconcile.specs.Reports.{has_amount, has_status, is_contradicted_word, is_uninstructed};

use crate::rows::{ListRow, ReportRow};
use crate::words::Verdict;
use sct_case::StatusWord;
use sct_element::Amount;
use sct_message::{Draft, Message, TransferKey};
use sct_view::View;

// Whether the messages on a transfer contradict each other.
fn is_contradicted(status: StatusWord) -> bool
    ensures { result ≡ is_contradicted_word status }
{
    matches!(status, StatusWord::Contradicted)
}

// Whether a transfer has no instruction.
fn is_uninstructed(status: StatusWord) -> bool
    ensures { result ≡ is_uninstructed status }
{
    matches!(status, StatusWord::Unknown | StatusWord::Missing)
}

// What a list says of a transfer, if it names the transfer exactly once.
fn sole(listed: &[ListRow]) -> Option<ListRow>
    ensures { result ≡ sole listed.now }
{
    match listed {
        [one] => Some(*one),
        _ => None,
    }
}

// Whether the row of a list has the amount of the instruction. False if there is no such row or no instruction.
fn has_amount(listed: Option<ListRow>, amount: &Option<Amount>) -> bool
    ensures { result ≡ has_amount listed amount.now }
{
    match (listed, amount) {
        (Some(listed), Some(amount)) => listed.amount == *amount,
        _ => false,
    }
}

// Whether the row of a list has the word of the status. False if there is no such row.
fn has_status(listed: Option<ListRow>, status: StatusWord) -> bool
    ensures { result ≡ has_status listed status }
{
    match listed {
        Some(listed) => listed.status.agrees(status),
        None => false,
    }
}

// The first case that holds, in the order of [`Verdict`].
#[tactic(auto, unfolding(crate::specs::Reports::verdict_of))]
fn verdict_of(listed: &[ListRow], status: StatusWord, amount: &Option<Amount>) -> Verdict
    ensures { result ≡ verdict_of listed.now status amount.now }
{
    if listed.len() > 1 {
        return Verdict::ListedTwice;
    }
    if is_contradicted(status) {
        return Verdict::Contradicted;
    }
    if is_uninstructed(status) && listed.len() > 0 {
        return Verdict::OnlyInList;
    }
    if is_uninstructed(status) {
        return Verdict::Missing;
    }
    if !(listed.len() > 0) {
        return Verdict::OnlyInArchive;
    }
    if !has_amount(sole(listed), amount) {
        return Verdict::AmountDiffers;
    }
    if !has_status(sole(listed), status) {
        return Verdict::StatusDiffers;
    }
    Verdict::Matched
}

// The amount of a message, if it instructs a transfer.
fn amount_of(message: &Message) -> Option<Amount>
    ensures { result ≡ amount_in (Some message.now) }
{
    match message.draft() {
        Draft::CreditTransfer(instruction) => Some(instruction.settlement_amount),
        _ => None,
    }
}

// The amount of the instruction, if there is exactly one.
fn amount_on(view: &View, key: &TransferKey) -> Option<Amount>
    ensures { result ≡ amount_in (instruction_of view.now key.now) }
{
    match view.instruction(key) {
        Some(message) => amount_of(message),
        None => None,
    }
}

// The row of a transfer, from what the list, the messages and the instruction say of it.
fn row_from(
    key: TransferKey,
    listed: &[ListRow],
    status: StatusWord,
    amount: Option<Amount>,
) -> ReportRow
    ensures { result ≡ row_from key listed.now status amount }
{
    let verdict = verdict_of(listed, status, &amount);
    ReportRow {
        key,
        verdict,
        listed: sole(listed),
        amount,
        status,
    }
}

/// The report row of the transfer `key`. `listed` is what the rows of a list say of `key`. Expected O(1).
pub fn row_on(view: &View, listed: &[ListRow], key: &TransferKey) -> ReportRow
    ensures { result ≡ row_beside view.now listed.now key.now }
{
    let status = view.status(key).word();
    let amount = amount_on(view, key);
    row_from(key.copy(), listed, status, amount)
}
