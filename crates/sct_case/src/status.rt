//! The status of a transfer, and the status of a recall.
ghost use Rattle.std.specs.Prelude.{◌≡◌, IfOk};
ghost use Rattle.sct_case.specs.Statuses.{as_standing};
ghost use Rattle.sct_case.specs.Inside.{standing_said};

use crate::differ::first;
use crate::finding::{Finding, copy_findings};
use crate::said::Said;
use sct_element::Amount;
use sct_reason::Reason;
use std::alloc::{AllocError, Global};

/// The status of a transfer: the first of these that holds. [`Finding`] names the messages (EPC004-16) that decide it;
/// a pacs.028 asks for a status.
#[derive(Debug, Drop, PartialEq, Eq)]
pub enum Status {
    /// Its messages contradict each other: these findings, in their order.
    Contradicted(Vec<Finding>),
    /// No message is on it.
    Unknown,
    /// There are messages on it, but no instruction.
    Missing,
    /// It was rejected, for this reason.
    Rejected(Reason),
    /// It was accepted, and this amount was returned after a recall.
    Returned(Amount),
    /// It was accepted.
    Accepted,
    /// It was instructed, no confirmation came, and its status was asked for.
    Investigated,
    /// It was instructed, and nothing is known beyond that.
    Pending,
}

impl Status {
    /// A copy. The only error is that it is out of memory. O(findings).
    pub fn copy(&self, alloc: Global) -> Result<Status, AllocError>
        ensures { IfOk result (λ copy. as_standing copy ≡ as_standing self.now) }
    {
        match self {
            Status::Contradicted(found) => Ok(Status::Contradicted(copy_findings(alloc, found)?)),
            Status::Unknown => Ok(Status::Unknown),
            Status::Missing => Ok(Status::Missing),
            Status::Rejected(reason) => Ok(Status::Rejected(reason.copy())),
            Status::Returned(amount) => Ok(Status::Returned(*amount)),
            Status::Accepted => Ok(Status::Accepted),
            Status::Investigated => Ok(Status::Investigated),
            Status::Pending => Ok(Status::Pending),
        }
    }
}

impl Said {
    /// The status of the transfer, if it has no finding.
    pub(crate) fn standing(&self) -> Status
        ensures { as_standing result ≡ standing_said self.now }
    {
        if self.instructions.is_empty() {
            return Status::Missing;
        }
        if let Some(rejection) = first(&self.rejections) {
            return Status::Rejected(rejection.reason.copy());
        }
        if self.accepted {
            return match first(&self.returns) {
                Some(made) => Status::Returned(made.amount),
                None => Status::Accepted,
            };
        }
        if self.investigated {
            return Status::Investigated;
        }
        Status::Pending
    }
}

/// The status of a recall: the first of these that holds.
#[derive(Debug, Drop, PartialEq, Eq)]
pub enum RecallStatus {
    /// The messages on the transfer contradict each other.
    Contradicted,
    /// No message names the recall.
    Unknown,
    /// A message is about the recall, but none makes it.
    Unasked,
    /// This amount was returned.
    Returned(Amount),
    /// It was refused, for this reason.
    Refused(Reason),
    /// It is not answered, and its status was asked for.
    Chased,
    /// It is not answered.
    Open,
}
