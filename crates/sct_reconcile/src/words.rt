//! The words of lists and reports.
ghost use Rattle.std.specs.Prelude.{◌≡◌};
ghost use Rattle.sct_reconcile.specs.Words.{agrees, list_status_of, list_status_text, verdict_text};

use sct_case::StatusWord;

/// The status of a transfer in a list.
#[derive(Clone, Copy, Debug, PartialEq, Eq)]
pub enum ListStatus {
    Accepted,
    Rejected,
    Returned,
    Pending,
    Investigated,
}

impl ListStatus {
    /// The status that a word names, or none if it is not one of the five.
    pub fn read(word: &str) -> Option<ListStatus>
        ensures { result ≡ list_status_of word.now }
    {
        match word {
            "ACCEPTED" => Some(ListStatus::Accepted),
            "REJECTED" => Some(ListStatus::Rejected),
            "RETURNED" => Some(ListStatus::Returned),
            "PENDING" => Some(ListStatus::Pending),
            "INVESTIGATED" => Some(ListStatus::Investigated),
            _ => None,
        }
    }

    /// The word as it is written, such as `ACCEPTED`.
    pub fn text(self) -> &'static str
        ensures { result.now ≡ list_status_text self }
    {
        match self {
            ListStatus::Accepted => "ACCEPTED",
            ListStatus::Rejected => "REJECTED",
            ListStatus::Returned => "RETURNED",
            ListStatus::Pending => "PENDING",
            ListStatus::Investigated => "INVESTIGATED",
        }
    }

    /// Whether the list has the word of the transfer's status.
    pub(crate) fn agrees(self, status: StatusWord) -> bool
        ensures { result ≡ agrees self status }
    {
        self.text() == status.text()
    }
}

/// The result of a comparison for a transfer: the first of these that holds.
#[derive(Clone, Copy, Debug, PartialEq, Eq)]
pub enum Verdict {
    /// Two or more rows of the list are on it.
    ListedTwice,
    /// The messages on it contradict each other.
    Contradicted,
    /// It is listed, and it has no instruction.
    OnlyInList,
    /// It is not listed. There are messages on it, but no instruction.
    Missing,
    /// It is not listed, and it has an instruction.
    OnlyInArchive,
    /// The amount of the list differs from that of the instruction.
    AmountDiffers,
    /// The status of the list differs from that of the messages.
    StatusDiffers,
    /// The list and the messages agree.
    Matched,
}

impl Verdict {
    /// The word as it is written, such as `LISTED_TWICE`.
    pub fn text(self) -> &'static str
        ensures { result.now ≡ verdict_text self }
    {
        match self {
            Verdict::ListedTwice => "LISTED_TWICE",
            Verdict::Contradicted => "CONTRADICTED",
            Verdict::OnlyInList => "ONLY_IN_LIST",
            Verdict::Missing => "MISSING",
            Verdict::OnlyInArchive => "ONLY_IN_ARCHIVE",
            Verdict::AmountDiffers => "AMOUNT_DIFFERS",
            Verdict::StatusDiffers => "STATUS_DIFFERS",
            Verdict::Matched => "MATCHED",
        }
    }
}
