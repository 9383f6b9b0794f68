//! The ways in which the messages on a transfer contradict each other.
ghost use Rattle.std.specs.Prelude.{◌≡◌, IfOk};

use sct_element::Id35;
use sct_message::Identity;
use std::alloc::{AllocError, Global};

/// A contradiction among the messages on a transfer. The variants are in the order in which findings are reported.
/// A recall is named by its identification. By EPC004-16, an instruction is a pacs.008, a confirmation or a rejection a
/// pacs.002, a recall a camt.056, and its answer a return (pacs.004) or a refusal (camt.029).
#[derive(Debug, Drop, PartialEq, Eq)]
pub enum Finding {
    /// Two different messages have this identity, and at least one of them is on the transfer.
    Identity(Identity),
    /// Two messages instruct the transfer.
    TwoInstructions,
    /// One message accepts the transfer and another rejects it.
    BothConfirmed,
    /// Two rejections give different reasons.
    ReasonsDiffer,
    /// A recall or a return names an original amount that differs from that of the one instruction.
    AmountDiffers,
    /// Two recalls of this identification differ in their original amount or their reason.
    RecallsDiffer(Id35),
    /// The recall is both refused and answered by a return.
    BothAnswers(Id35),
    /// Two refusals of the recall give different reasons.
    RefusalsDiffer(Id35),
    /// Two returns differ in their identification, their recall or the returned amount.
    TwoReturns,
    /// Money was returned for a transfer that was rejected.
    ReturnOfRejected,
}

impl Finding {
    /// A copy. It does not allocate.
    pub fn copy(&self) -> Finding
        ensures { result ≡ self.now }
    {
        match self {
            Finding::Identity(identity) => Finding::Identity(identity.copy()),
            Finding::TwoInstructions => Finding::TwoInstructions,
            Finding::BothConfirmed => Finding::BothConfirmed,
            Finding::ReasonsDiffer => Finding::ReasonsDiffer,
            Finding::AmountDiffers => Finding::AmountDiffers,
            Finding::RecallsDiffer(cxl) => Finding::RecallsDiffer(cxl.copy()),
            Finding::BothAnswers(cxl) => Finding::BothAnswers(cxl.copy()),
            Finding::RefusalsDiffer(cxl) => Finding::RefusalsDiffer(cxl.copy()),
            Finding::TwoReturns => Finding::TwoReturns,
            Finding::ReturnOfRejected => Finding::ReturnOfRejected,
        }
    }
}

/// Copies of the findings, in their order. The only error is that it is out of memory. O(findings).
pub fn copy_findings(alloc: Global, findings: &[Finding]) -> Result<Vec<Finding>, AllocError>
    ensures { IfOk result (λ copies. copies.items ≡ findings.now) }
{
    let mut copies = Vec::new(alloc);
    for finding in findings {
        copies.push(finding.copy())?;
    }
    Ok(copies)
}
