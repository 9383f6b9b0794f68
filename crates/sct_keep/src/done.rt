//! Whether a message is from before a day, and whether a transfer is settled.

ghost use Rattle.std.specs.Prelude.{◌≡◌, ◌≤◌, true, false, length, take, IfOk};
ghost use Rattle.std.specs.List.{list_all};
ghost use Rattle.sct_message.specs.Keys.{transfers_of};
ghost use Rattle.sct_case.specs.Statuses.{as_standing};
ghost use Rattle.sct_keep.specs.Done.{is_answered, is_before, is_final, is_settled};

use sct_case::{CaseFault, RecallStatus, Status};
use sct_element::{Day, Id35};
use sct_message::{Message, TransferKey};
use sct_view::View;

// Whether a transfer of this status awaits nothing more.
fn is_final(status: &Status) -> bool
    ensures { result ≡ is_final (as_standing status.now) }
{
    match status {
        Status::Rejected(_) => true,
        Status::Returned(_) => true,
        Status::Accepted => true,
        _ => false,
    }
}

// Whether a recall of this status was answered.
fn is_answered(status: &RecallStatus) -> bool
    ensures { result ≡ is_answered status.now }
{
    match status {
        RecallStatus::Returned(_) => true,
        RecallStatus::Refused(_) => true,
        _ => false,
    }
}

// The first ten bytes of a date and time, which are its date.
fn date_in(stamp: &[u8]) -> &[u8]
    ensures { result.now ≡ take 10 stamp.now }
{
    if stamp.len() < 10 {
        stamp
    } else {
        &stamp[..10]
    }
}

// Whether the message was created before the day.
fn is_before(day: &Day, message: &Message) -> bool
    ensures { result ≡ is_before day.now message.now }
{
    let date = date_in(message.draft().head().creation_time.text().as_bytes());
    date.cmp(day.text().as_bytes()).is_lt()
}

/// Whether the message is on a transfer, and was not created before the day.
pub(crate) fn is_late(day: &Day, message: &Message) -> bool
    ensures late { result ≡ true → (1 ≤ length (transfers_of message.now)) × (is_before day.now message.now ≡ false) }
    ensures early { result ≡ false → 1 ≤ length (transfers_of message.now) → is_before day.now message.now ≡ true }
{
    message.transfer_count() > 0 && !is_before(day, message)
}

// Whether each of the recalls was answered.
fn are_answered(recalls: &[(Id35, RecallStatus)]) -> bool
    ensures { result ≡ list_all (λ recall. is_answered recall.1) recalls.now }
{
    recalls.iter().all(|recall| is_answered(&recall.1))
}

/// Whether the status of the transfer is final, and each of its recalls was answered. Error: `Memory` (39).
/// O(n log n) in the transactions of the messages on the transfer.
pub(crate) fn is_settled(view: &View, transfer: &TransferKey) -> Result<bool, CaseFault>
    ensures { IfOk result (λ settled. settled ≡ is_settled view.now transfer.now) }
{
    if !is_final(view.status(transfer)) {
        return Ok(false);
    }
    let recalls = view.recalls_with_statuses(transfer)?;
    Ok(are_answered(&recalls))
}
