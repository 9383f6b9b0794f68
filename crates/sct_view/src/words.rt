//! The lines of the status text.
ghost use Rattle.std.specs.Prelude.{◌≡◌, ◌++◌, OnOk, string_bytes};
ghost use Rattle.sct_case.specs.Statuses.{as_standing};
ghost use Rattle.sct_element.specs.Money.{amount_text};
ghost use Rattle.sct_view.specs.StatusText.{
  shown,
  status_words,
  recall_words,
  identity_words,
  finding_words,
  key_words,
  status_line,
  finding_line,
  recall_line,
};

use sct_case::{Finding, RecallStatus, Status};
use sct_element::{Amount, Id35};
use sct_message::{Identity, TransferKey};
use sct_reason::{Reason, Use};
use std::alloc::AllocError;

// Appends a reason as it is shown: its code, followed by a question mark if it is not usual in that use.
fn push_reason(text: &mut String, reason: &Reason, usage: Use) -> Result<(), AllocError>
    ensures { OnOk result (string_bytes text.new ≡ string_bytes text.old ++ shown usage reason.now) }
{
    text.push_str(reason.text())?;
    text.push_str(if reason.is_usual(usage) { "" } else { "?" })
}

fn push_amount(text: &mut String, amount: Amount) -> Result<(), AllocError>
    ensures { OnOk result (string_bytes text.new ≡ string_bytes text.old ++ amount_text amount) }
{
    let written = amount.text();
    text.push_str(written.as_str())
}

// Appends the word of a status, and its reason or amount after a bar.
fn push_status(text: &mut String, status: &Status) -> Result<(), AllocError>
    ensures { OnOk result (string_bytes text.new ≡ string_bytes text.old ++ status_words (as_standing status.now)) }
{
    text.push_str(status.word().text())?;
    match status {
        Status::Rejected(reason) => {
            text.push_str("|")?;
            push_reason(text, reason, Use::Reject)
        }
        Status::Returned(amount) => {
            text.push_str("|")?;
            push_amount(text, *amount)
        }
        _ => Ok(()),
    }
}

// Appends the word of a recall's status, and its reason or amount after a bar.
fn push_recall_status(text: &mut String, status: &RecallStatus) -> Result<(), AllocError>
    ensures { OnOk result (string_bytes text.new ≡ string_bytes text.old ++ recall_words status.now) }
{
    text.push_str(status.word())?;
    match status {
        RecallStatus::Returned(amount) => {
            text.push_str("|")?;
            push_amount(text, *amount)
        }
        RecallStatus::Refused(reason) => {
            text.push_str("|")?;
            push_reason(text, reason, Use::Refusal)
        }
        _ => Ok(()),
    }
}

fn push_identity(text: &mut String, identity: &Identity) -> Result<(), AllocError>
    ensures { OnOk result (string_bytes text.new ≡ string_bytes text.old ++ identity_words identity.now) }
{
    text.push_str(identity.sender.text())?;
    text.push_str("|")?;
    text.push_str(identity.kind.text())?;
    text.push_str("|")?;
    text.push_str(identity.msg_id.text())
}

// Appends a word and an identification. The word ends with the bar that separates them.
fn push_named(text: &mut String, word: &str, cxl: &Id35) -> Result<(), AllocError>
    ensures { OnOk result (string_bytes text.new ≡ string_bytes text.old ++ word.now ++ cxl.now) }
{
    text.push_str(word)?;
    text.push_str(cxl.text())
}

fn push_finding(text: &mut String, finding: &Finding) -> Result<(), AllocError>
    ensures { OnOk result (string_bytes text.new ≡ string_bytes text.old ++ finding_words finding.now) }
{
    match finding {
        Finding::Identity(identity) => {
            text.push_str("Identity|")?;
            push_identity(text, identity)
        }
        Finding::TwoInstructions => text.push_str("TwoInstructions"),
        Finding::BothConfirmed => text.push_str("BothConfirmed"),
        Finding::ReasonsDiffer => text.push_str("ReasonsDiffer"),
        Finding::AmountDiffers => text.push_str("AmountDiffers"),
        Finding::RecallsDiffer(cxl) => push_named(text, "RecallsDiffer|", cxl),
        Finding::BothAnswers(cxl) => push_named(text, "BothAnswers|", cxl),
        Finding::RefusalsDiffer(cxl) => push_named(text, "RefusalsDiffer|", cxl),
        Finding::TwoReturns => text.push_str("TwoReturns"),
        Finding::ReturnOfRejected => text.push_str("ReturnOfRejected"),
    }
}

// Appends the front of a line on a transfer: a letter and the transfer's key, each followed by a bar.
fn push_key(text: &mut String, letter: &str, transfer: &TransferKey) -> Result<(), AllocError>
    ensures { OnOk result (string_bytes text.new ≡ string_bytes text.old ++ key_words letter.now transfer.now) }
{
    text.push_str(letter)?;
    text.push_str("|")?;
    text.push_str(transfer.debtor_agent.text())?;
    text.push_str("|")?;
    text.push_str(transfer.tx.text())?;
    text.push_str("|")
}

/// Appends the T line of a transfer. The error is that it is out of memory.
#[tactic(auto, unfolding(crate::specs::StatusText::line_on))]
pub fn push_status_line(
    text: &mut String,
    transfer: &TransferKey,
    status: &Status,
) -> Result<(), AllocError>
    ensures { OnOk result (string_bytes text.new
        ≡ string_bytes text.old ++ status_line transfer.now (as_standing status.now)) }
{
    push_key(text, "T", transfer)?;
    push_status(text, status)?;
    text.push('\n')?;
    Ok(())
}

/// Appends the F line of a finding. The error is that it is out of memory.
#[tactic(auto, unfolding(crate::specs::StatusText::line_on))]
pub fn push_finding_line(
    text: &mut String,
    transfer: &TransferKey,
    finding: &Finding,
) -> Result<(), AllocError>
    ensures { OnOk result (string_bytes text.new
        ≡ string_bytes text.old ++ finding_line transfer.now finding.now) }
{
    push_key(text, "F", transfer)?;
    push_finding(text, finding)?;
    text.push('\n')?;
    Ok(())
}

/// Appends the R line of a recall. The error is that it is out of memory.
#[tactic(auto, unfolding(crate::specs::StatusText::line_on))]
pub fn push_recall_line(
    text: &mut String,
    transfer: &TransferKey,
    cxl: &Id35,
    status: &RecallStatus,
) -> Result<(), AllocError>
    ensures { OnOk result (string_bytes text.new
        ≡ string_bytes text.old ++ recall_line transfer.now cxl.now status.now) }
{
    push_key(text, "R", transfer)?;
    text.push_str(cxl.text())?;
    text.push_str("|")?;
    push_recall_status(text, status)?;
    text.push('\n')?;
    Ok(())
}
