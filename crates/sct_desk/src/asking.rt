//! The questions that a query answers.

ghost use Rattle.std.specs.Prelude.{◌≡◌, ◌⊎◌, IfOk, IfErr};
ghost use Rattle.sct_case.specs.Statuses.{as_standing};
ghost use Rattle.sct_delta.specs.Entries.{messages_of};
ghost use Rattle.sct_view.specs.Answers.{status_of, found_on, recall_of};
ghost use Rattle.sct_view.specs.Totals.{totals_of};
ghost use Rattle.sct_desk.specs.Answering.{AnswersFromView};
ghost use Rattle.sct_desk.specs.declared.fault.DeskFault.TheVariants as fault;

use crate::fault::DeskFault;
use crate::query::{Answer, Query};
use crate::question::{FindingsOf, RecallOf, StatusOf, TotalsOf};
use core::mem::replace_with;
use sct_case::{Finding, RecallStatus, Status};
use sct_element::Bic;
use sct_message::{RecallKey, TransferKey};
use sct_view::Totals;
use std::alloc::Global;

impl Query {
    /// The status of a transfer. Errors: `Closed` (55) only after the desk was closed or dropped; `Memory` (50).
    /// What the query has seen may have grown after `Memory`.
    pub fn status(
        &mut self,
        alloc: Global,
        transfer: &TransferKey,
    ) -> Result<Answer<Status>, DeskFault>
        ensures answer { AnswersFromView self.old self.new result }
        ensures value { IfOk result (λ answer. as_standing answer.value
            ≡ status_of (messages_of self.new.seen) transfer.now) }
        ensures refused { IfErr result (λ refusal. (refusal ≡ fault.Closed) ⊎ (refusal ≡ fault.Memory)) }
    {
        replace_with(self, StatusOf { alloc, transfer }, |query, question| {
            query.answer(&question)
        })
    }

    /// The findings of a transfer, in their order; empty if it has none. Errors: `Closed` (55) only after the
    /// desk was closed or dropped; `Memory` (50).
    /// What the query has seen may have grown after `Memory`.
    pub fn findings(
        &mut self,
        alloc: Global,
        transfer: &TransferKey,
    ) -> Result<Answer<Vec<Finding>>, DeskFault>
        ensures answer { AnswersFromView self.old self.new result }
        ensures value { IfOk result (λ answer. answer.value.items
            ≡ found_on (messages_of self.new.seen) transfer.now) }
        ensures refused { IfErr result (λ refusal. (refusal ≡ fault.Closed) ⊎ (refusal ≡ fault.Memory)) }
    {
        replace_with(self, FindingsOf { alloc, transfer }, |query, question| {
            query.answer(&question)
        })
    }

    /// The status of a recall. Error: `Closed` (55), only after the desk was closed or dropped. It does not allocate.
    pub fn recall(&mut self, recall: &RecallKey) -> Result<Answer<RecallStatus>, DeskFault>
        ensures answer { AnswersFromView self.old self.new result }
        ensures value { IfOk result (λ answer. answer.value
            ≡ recall_of (messages_of self.new.seen) recall.now) }
        ensures refused { IfErr result (λ refusal. refusal ≡ fault.Closed) }
    {
        replace_with(
            self,
            RecallOf { recall },
            |query, question| query.answer(&question),
        )
    }

    /// The totals of a bank, with amounts in cents. Error: `Closed` (55), only after the desk was
    /// closed or dropped. It does not allocate.
    pub fn totals(&mut self, bank: &Bic) -> Result<Answer<Totals>, DeskFault>
        ensures answer { AnswersFromView self.old self.new result }
        ensures value { IfOk result (λ answer. answer.value ≡ totals_of (messages_of self.new.seen) bank.now) }
        ensures refused { IfErr result (λ refusal. refusal ≡ fault.Closed) }
    {
        replace_with(
            self,
            TotalsOf { bank },
            |query, question| query.answer(&question),
        )
    }
}
