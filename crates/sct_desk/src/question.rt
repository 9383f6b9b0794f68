//! The questions of a query to the published view.

ghost use Rattle.std.specs.Prelude.{◌≡◌, IfOk, OnErr};
ghost use Rattle.sct_case.specs.Statuses.{as_standing};
ghost use Rattle.sct_view.specs.Listed.{found_in};

use sct_case::{CaseFault, Finding, RecallStatus, Status, copy_findings};
use sct_element::Bic;
use sct_message::{RecallKey, TransferKey};
use sct_view::{Totals, View};
use std::alloc::{AllocError, Global};

/// A question that each set of messages answers.
pub(crate) trait ViewQuestion {
    ghost use Rattle.sct_message.specs.Sets.{MessageSet};

    type Value;

    // The answers of a set of messages.
    ghost is_answer: { Self → MessageSet → Self.Value → Type 0 };

    // A proof that the answer may be out of memory.
    ghost may_want: { Type 0 };

    fn ask(&self, view: &View) -> Result<Self::Value, CaseFault>
        ensures answer { IfOk result (λ value. is_answer self.now view.now value) }
        ensures memory { OnErr result may_want };
}

/// The question for the status of a transfer.
#[derive(Drop)]
pub(crate) struct StatusOf<'a> {
    pub(crate) alloc: Global,
    pub(crate) transfer: &'a TransferKey,
}

impl ViewQuestion for StatusOf<'_> {
    ghost use Rattle.sct_case.specs.Statuses.{as_standing};
    ghost use Rattle.sct_view.specs.Answers.{status_of};

    type Value = Status;

    ghost is_answer = { λ q held status. as_standing status ≡ status_of held q.transfer.now };

    ghost may_want = { Unit {0} };

    fn ask(&self, view: &View) -> Result<Status, CaseFault> {
        Ok(view.status(self.transfer).copy(self.alloc)?)
    }
}

// Copies of the findings that a status holds; empty for a status other than contradicted.
fn findings_of(alloc: Global, status: &Status) -> Result<Vec<Finding>, AllocError>
    ensures { IfOk result (λ found. found.items ≡ found_in (as_standing status.now)) }
{
    match status {
        Status::Contradicted(found) => copy_findings(alloc, found),
        _ => Ok(Vec::new(alloc)),
    }
}

/// The question for the findings of a transfer.
#[derive(Drop)]
pub(crate) struct FindingsOf<'a> {
    pub(crate) alloc: Global,
    pub(crate) transfer: &'a TransferKey,
}

impl ViewQuestion for FindingsOf<'_> {
    ghost use Rattle.sct_view.specs.Answers.{found_on};

    type Value = Vec<Finding>;

    ghost is_answer = { λ q held found. found.items ≡ found_on held q.transfer.now };

    ghost may_want = { Unit {0} };

    #[tactic(auto, using(sct_view::proofs::ToldLemmas::found_on_status))]
    fn ask(&self, view: &View) -> Result<Vec<Finding>, CaseFault> {
        Ok(findings_of(self.alloc, view.status(self.transfer))?)
    }
}

/// The question for the status of a recall.
#[derive(Drop)]
pub(crate) struct RecallOf<'a> {
    pub(crate) recall: &'a RecallKey,
}

impl ViewQuestion for RecallOf<'_> {
    ghost use Rattle.sct_view.specs.Answers.{recall_of};

    type Value = RecallStatus;

    ghost is_answer = { λ q held stands. stands ≡ recall_of held q.recall.now };

    ghost may_want = { ⊥ };

    fn ask(&self, view: &View) -> Result<RecallStatus, CaseFault> {
        Ok(view.recall(self.recall))
    }
}

/// The question for the totals of a bank.
#[derive(Drop)]
pub(crate) struct TotalsOf<'a> {
    pub(crate) bank: &'a Bic,
}

impl ViewQuestion for TotalsOf<'_> {
    ghost use Rattle.sct_view.specs.Totals.{totals_of};

    type Value = Totals;

    ghost is_answer = { λ q held totals. totals ≡ totals_of held q.bank.now };

    ghost may_want = { ⊥ };

    fn ask(&self, view: &View) -> Result<Totals, CaseFault> {
        Ok(view.totals(self.bank))
    }
}
