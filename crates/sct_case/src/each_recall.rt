//! The statuses of several recalls of one transfer. The statements about recalls are sorted by recall once,
//! and each recall is looked up among them.
ghost use Rattle.std.specs.Prelude.{◌≡◌, List, IfOk, map};
ghost use Rattle.std.specs.List.{flat_map, list_any};
ghost use Rattle.sct_message.specs.Sets.{messages_in};
ghost use Rattle.sct_message.specs.declared.keys.Identity.{Identity as IdentityOf};
ghost use Rattle.sct_case.specs.Inside.{IsByRecall, SayAlike, recall_standing_said};
ghost use Rattle.sct_case.specs.Said.{recalls_made_by, refusals_by, requests_by, returns_by};
ghost use Rattle.sct_case.specs.Statuses.{amount_returned, reason_refused, recall_standing_of, recall_status_of, request_of_it, as_standing, transfer_status_of};
ghost use Rattle.sct_case.specs.Told.{recall_of_it};
ghost use Rattle.sct_case.specs.declared.status.RecallStatus.TheVariants as recall;

use crate::differ::{first_on, is_some_on};
use crate::fault::CaseFault;
use crate::recall_order::by_recall;
use crate::recalls::RecallSaid;
use crate::said::{RecallAsked, RecallMade, RefusalMade, ReturnMade, Said};
use crate::status::{RecallStatus, Status};
use sct_element::{Amount, Id35};
use sct_message::{Message, TransferKey};
use sct_reason::Reason;
use std::alloc::{AllocError, Global};
use std::sync::Arc;

/// The statements of messages about the recalls of a transfer. Each list is sorted by recall.
#[derive(Drop)]
struct SaidByRecall {
    made: Vec<RecallMade>,
    returns: Vec<ReturnMade>,
    refusals: Vec<RefusalMade>,
    requests: Vec<RecallAsked>,
    ghost made_in_order: { IsByRecall (λ m. m.cxl) made.items },
    ghost returns_in_order: { IsByRecall (λ m. m.cxl) returns.items },
    ghost refusals_in_order: { IsByRecall (λ m. m.cxl) refusals.items },
    ghost requests_in_order: { IsByRecall (λ m. m.cxl) requests.items },
}

/// The amount that is returned after a recall.
fn amount_returned(returns: &[ReturnMade], cxl: &Id35) -> Option<Amount>
    requires { IsByRecall (λ m. m.cxl) returns.now }
    ensures { result ≡ amount_returned cxl.now returns.now }
{
    first_on(returns, cxl).map(|made| made.amount)
}

/// The reason for which a recall was refused.
fn reason_refused(refusals: &[RefusalMade], cxl: &Id35) -> Option<Reason>
    requires { IsByRecall (λ m. m.cxl) refusals.now }
    ensures { result ≡ reason_refused cxl.now refusals.now }
{
    first_on(refusals, cxl).map(|made| made.reason.copy())
}

impl SaidByRecall {
    /// The statements of the messages about the recalls of a transfer.
    fn of(
        alloc: Global,
        transfer: &TransferKey,
        clean: &[Arc<Message>],
    ) -> Result<SaidByRecall, AllocError>
        ensures made { IfOk result (λ said. SayAlike (λ m. m.cxl) said.made.items
            (flat_map (recalls_made_by transfer.now) (messages_in clean.now))) }
        ensures returns { IfOk result (λ said. SayAlike (λ m. m.cxl) said.returns.items
            (flat_map (returns_by transfer.now) (messages_in clean.now))) }
        ensures refusals { IfOk result (λ said. SayAlike (λ m. m.cxl) said.refusals.items
            (flat_map (refusals_by transfer.now) (messages_in clean.now))) }
        ensures requests { IfOk result (λ said. SayAlike (λ m. m.cxl) said.requests.items
            (flat_map (requests_by transfer.now) (messages_in clean.now))) }
    {
        let said = Said::of(alloc, transfer, clean)?;
        Ok(SaidByRecall {
            made: by_recall(said.recalls)?,
            returns: by_recall(said.returns)?,
            refusals: by_recall(said.refusals)?,
            requests: by_recall(said.requests)?,
        })
    }

    /// The status of a recall, if its transfer has no finding. O(log n) in the number of statements.
    fn standing(&self, cxl: &Id35) -> RecallStatus
        ensures { result ≡ recall_standing_said (record {
          made = list_any (recall_of_it cxl.now) self.now.made.items;
          returned = amount_returned cxl.now self.now.returns.items;
          refused = reason_refused cxl.now self.now.refusals.items;
          chased = list_any (request_of_it cxl.now) self.now.requests.items;
        }) }
    {
        let said = RecallSaid {
            made: is_some_on(&self.made, cxl),
            returned: amount_returned(&self.returns, cxl),
            refused: reason_refused(&self.refusals, cxl),
            chased: is_some_on(&self.requests, cxl),
        };
        said.status()
    }
}

/// Each of the recalls with its status, if their transfer has no finding.
fn standings(
    alloc: Global,
    transfer: &TransferKey,
    clean: &[Arc<Message>],
    cxls: &[Id35],
) -> Result<Vec<(Id35, RecallStatus)>, AllocError>
    ensures { IfOk result (λ found. found.items
        ≡ map (λ cxl. (cxl, recall_standing_of transfer.now (messages_in clean.now) cxl)) cxls.now) }
{
    let mut found = Vec::new(alloc);
    if cxls.is_empty() {
        return Ok(found);
    }
    let said = SaidByRecall::of(alloc, transfer, clean)?;
    for cxl in cxls {
        found.push((cxl.copy(), said.standing(cxl)))?;
    }
    Ok(found)
}

/// Each of the recalls, with the status contradicted.
fn all_contradicted(alloc: Global, cxls: &[Id35]) -> Result<Vec<(Id35, RecallStatus)>, AllocError>
    ensures { IfOk result (λ found. found.items ≡ map (λ cxl. (cxl, recall.Contradicted)) cxls.now) }
{
    cxls.iter()
        .map(|cxl| (cxl.copy(), RecallStatus::Contradicted))
        .collect(alloc)
}

/// Each of the recalls with its status, from the status of the transfer and its clean messages. Error: `Memory` (39).
/// O(t + (n + c) log n) for t transactions in the messages, n statements about the recalls and c recalls.
/// For one recall use [`recall_status_by`](crate::recall_status_by), which does not allocate.
pub fn recall_statuses(
    alloc: Global,
    status: &Status,
    transfer: &TransferKey,
    clean: &[Arc<Message>],
    cxls: &[Id35],
) -> Result<Vec<(Id35, RecallStatus)>, CaseFault>
    ensures { (asides : List IdentityOf)
        → as_standing status.now ≡ transfer_status_of transfer.now (messages_in clean.now) asides
        → IfOk result (λ found. found.items
        ≡ map (λ cxl. (cxl, recall_status_of transfer.now (messages_in clean.now) asides cxl)) cxls.now) }
{
    match status {
        Status::Contradicted(_) => Ok(all_contradicted(alloc, cxls)?),
        _ => Ok(standings(alloc, transfer, clean, cxls)?),
    }
}
