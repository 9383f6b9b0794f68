//! A set of messages with all its answers.

ghost use Rattle.std.specs.Prelude.{◌≡◌, ◌≤◌, ◌+◌, ◌*◌, length, option_map, IfOk, OnOk, OnErr};
ghost use Rattle.std.specs.Arc.{arc_value};
ghost use Rattle.std.specs.FinSet as set;
ghost use Rattle.std.specs.Option.{option_copied};
ghost use Rattle.sct_case.specs.Statuses.{as_standing};
ghost use Rattle.sct_message.specs.Sets.{messages_in};
ghost use Rattle.sct_message.specs.Transfers.{instruction_of};
ghost use Rattle.sct_set.specs.Contents.{contents_of};
ghost use Rattle.sct_view.specs.Answers.{recall_of, status_of};
ghost use Rattle.sct_view.specs.Kept.{case_of, kept_or_none};
ghost use Rattle.sct_view.specs.Totals.{totals_of};
ghost use Rattle.sct_view.specs.Touched.{AreOnAtMost, touched_in};

use crate::batch::{Replanned, fresh_among, touched};
use crate::build::{filled_in_parts, tables_of};
use crate::case::Case;
use crate::tables::{Tables, make_room};
use crate::totals::Totals;
use sct_case::{CaseFault, RecallStatus, Status, recall_status_by};
use sct_element::Bic;
use sct_message::{Message, RecallKey, TransferKey};
use sct_set::Archive;
use std::alloc::Global;
use std::marker::Model;
use std::sync::Arc;
use std::thread::Threads;

/// The change that a batch of messages made.
#[derive(Clone, Copy, Debug, PartialEq, Eq)]
pub struct Applied {
    /// How many messages of the batch were not held before, each counted once.
    pub fresh: u64,
    /// How many transfers the batch touched: those of its fresh messages, and those of held
    /// messages that the fresh ones contradict.
    pub touched: u64,
}

/// The change that a planned batch makes.
fn brought_by(plan: &Replanned) -> Applied
    ensures fresh { result.fresh ≡ set.len plan.now.fresh }
    ensures touched { result.touched ≡ plan.now.evaluations }
{
    Applied {
        fresh: plan.fresh.len() as u64,
        touched: plan.evaluations,
    }
}

/// Messages, each held once, with the case of each transfer and the totals of each bank.
#[derive(Drop)]
pub struct View {
    pub(crate) alloc: Global,
    pub(crate) archive: Archive,
    pub(crate) tables: Tables,
    unknown: Status,
}

impl Model for View {
    ghost use Rattle.std.specs.Prelude.{◌≡◌};
    ghost use Rattle.std.specs.FinSet as set;
    ghost use Rattle.sct_case.specs.Statuses.{as_standing, Unknown};
    ghost use Rattle.sct_message.specs.contracts.messages.Message as message;
    ghost use Rattle.sct_message.specs.Order.{message_order};
    ghost use Rattle.sct_view.specs.Kept.{AreCasesOf};

    ghost Value = { set.FinSet message_order };

    ghost coded = { set.code message.the_row.coded };

    ghost view = { λ v. v.archive };

    ghost invariant = { λ v. AreCasesOf v.archive v.tables.cases × (as_standing v.unknown ≡ Unknown) };
}

impl View {
    /// The view of no messages.
    pub fn new(alloc: Global) -> Self
        ensures { result ≡ set.empty }
    {
        View {
            alloc,
            archive: Archive::new(alloc),
            tables: Tables::new(alloc),
            unknown: Status::Unknown,
        }
    }

    /// Builds the view of an archive in one thread. Error: `Memory` (39).
    /// With a runtime use [`View::of_messages`].
    pub fn of(alloc: Global, archive: Archive) -> Result<Self, CaseFault>
        ensures { IfOk result (λ view. view ≡ archive) }
    {
        let tables = tables_of(alloc, &archive)?;
        Ok(View {
            alloc,
            archive,
            tables,
            unknown: Status::Unknown,
        })
    }

    /// Builds the view of the messages, which may be in any order and may repeat. Error: `Memory` (39).
    /// It works in as many threads as there are processors. If a thread cannot be
    /// started, another thread does its work.
    pub fn of_messages<R: Threads + Sync>(
        rt: &R,
        alloc: Global,
        messages: &[Arc<Message>],
    ) -> Result<Self, CaseFault>
        ensures { IfOk result (λ view. view ≡ contents_of (messages_in messages.now)) }
    {
        let filled = filled_in_parts(rt, alloc, messages)?;
        Ok(View {
            alloc,
            archive: filled.archive,
            tables: filled.tables,
            unknown: Status::Unknown,
        })
    }

    /// Adds a batch of messages, and evaluates the touched transfers again. Touched are the transfers of fresh messages,
    /// and those of held messages that fresh ones contradict. Error: `Memory` (39), with the view unchanged.
    /// O(messages of the batch and of the touched transfers), however many messages the view holds.
    pub fn apply(&mut self, messages: &[Arc<Message>]) -> Result<Applied, CaseFault>
        ensures ok { OnOk result (self.new ≡ set.union self.old (contents_of (messages_in messages.now))) }
        ensures fresh { IfOk result (λ applied. set.len self.new ≡ set.len self.old + applied.fresh) }
        ensures touched { IfOk result (λ applied. applied.touched
            ≡ length (touched_in self.old (contents_of (messages_in messages.now)))) }
        ensures few { IfOk result (λ applied. applied.touched ≤ 200 * applied.fresh) }
        ensures few_of_one { IfOk result (λ applied. AreOnAtMost 1 self.old
            → AreOnAtMost 1 (contents_of (messages_in messages.now)) → applied.touched ≤ 2 * applied.fresh) }
        ensures err { OnErr result (self.new ≡ self.old) }
    {
        let plan = self.replan(messages)?;
        let brought = brought_by(&plan);
        make_room(
            self.alloc,
            &mut self.archive,
            &mut self.tables,
            &plan.fresh,
            &plan.planned,
        )?;
        self.tables.commit_all(plan.planned);
        Ok(brought)
    }

    /// The transfers that [`View::apply`] of the batch would touch, ascending, each once. Every other transfer has the same
    /// messages, status, findings and recalls before and after. Error: `Memory` (39).
    /// O(n log n) in the messages of the batch, however many messages the view holds.
    pub fn touched(&self, messages: &[Arc<Message>]) -> Result<Vec<TransferKey>, CaseFault>
        ensures { IfOk result (λ found. found.items
            ≡ touched_in self.now (contents_of (messages_in messages.now))) }
    {
        let fresh = fresh_among(self.alloc, &self.archive, messages)?;
        Ok(touched(self.alloc, &self.archive, &fresh)?)
    }

    /// The case of a transfer, if the view has one. Expected O(1).
    pub(crate) fn case_on(&self, transfer: &TransferKey) -> Option<&Case>
        ensures { kept_or_none (option_copied result) ≡ case_of self.now transfer.now }
    {
        self.tables.case(transfer)
    }

    /// The status of a transfer; `Unknown` if no message is on it. Expected O(1).
    pub fn status(&self, transfer: &TransferKey) -> &Status
        ensures { as_standing result.now ≡ status_of self.now transfer.now }
    {
        match self.case_on(transfer) {
            Some(case) => &case.status,
            None => &self.unknown,
        }
    }

    /// The status of a recall; `Unknown` if no message names it. O(transactions of the messages on its transfer).
    pub fn recall(&self, recall: &RecallKey) -> RecallStatus
        ensures { result ≡ recall_of self.now recall.now }
    {
        match self.case_on(&recall.transfer) {
            Some(case) => {
                recall_status_by(&case.status, &recall.transfer, &case.clean, &recall.cxl)
            }
            None => RecallStatus::Unknown,
        }
    }

    /// The totals of a bank. All are 0 if no message names it as the originator or the
    /// beneficiary bank of a transfer. Expected O(1).
    pub fn totals(&self, bank: &Bic) -> Totals
        ensures { result ≡ totals_of self.now bank.now }
    {
        self.tables.totals(bank)
    }

    /// The instruction of a transfer: its pacs.008, if exactly one clean message on it is a pacs.008, else none.
    pub fn instruction(&self, transfer: &TransferKey) -> Option<&Arc<Message>>
        ensures { option_map arc_value (option_copied result) ≡ instruction_of self.now transfer.now }
    {
        self.case_on(transfer)?.instruction()
    }
}
