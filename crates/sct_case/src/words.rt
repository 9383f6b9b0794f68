//! The words of statuses, without their arguments: reasons, amounts and findings.
ghost use Rattle.std.specs.Prelude.{◌≡◌};
ghost use Rattle.sct_case.specs.Statuses.{as_standing};
ghost use Rattle.sct_case.specs.Words.{recall_word_text, word_of, word_text};

use crate::status::{RecallStatus, Status};

/// The status of a transfer without its argument (a reason, an amount or findings).
#[derive(Clone, Copy, Debug, PartialEq, Eq)]
pub enum StatusWord {
    Contradicted,
    Unknown,
    Missing,
    Rejected,
    Returned,
    Accepted,
    Investigated,
    Pending,
}

impl StatusWord {
    /// The word as it is written, such as `MISSING`.
    pub fn text(self) -> &'static str
        ensures { result.now ≡ word_text self }
    {
        match self {
            StatusWord::Contradicted => "CONTRADICTED",
            StatusWord::Unknown => "UNKNOWN",
            StatusWord::Missing => "MISSING",
            StatusWord::Rejected => "REJECTED",
            StatusWord::Returned => "RETURNED",
            StatusWord::Accepted => "ACCEPTED",
            StatusWord::Investigated => "INVESTIGATED",
            StatusWord::Pending => "PENDING",
        }
    }
}

impl Status {
    /// The word of the status.
    pub fn word(&self) -> StatusWord
        ensures { result ≡ word_of (as_standing self.now) }
    {
        match self {
            Status::Contradicted(_) => StatusWord::Contradicted,
            Status::Unknown => StatusWord::Unknown,
            Status::Missing => StatusWord::Missing,
            Status::Rejected(_) => StatusWord::Rejected,
            Status::Returned(_) => StatusWord::Returned,
            Status::Accepted => StatusWord::Accepted,
            Status::Investigated => StatusWord::Investigated,
            Status::Pending => StatusWord::Pending,
        }
    }
}

impl RecallStatus {
    /// The word of the status as it is written, such as `CHASED`.
    pub fn word(&self) -> &'static str
        ensures { result.now ≡ recall_word_text self.now }
    {
        match self {
            RecallStatus::Contradicted => "CONTRADICTED",
            RecallStatus::Unknown => "UNKNOWN",
            RecallStatus::Unasked => "UNASKED",
            RecallStatus::Returned(_) => "RETURNED",
            RecallStatus::Refused(_) => "REFUSED",
            RecallStatus::Chased => "CHASED",
            RecallStatus::Open => "OPEN",
        }
    }
}
