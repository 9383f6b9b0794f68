//! The findings and statuses of one transfer, from its clean messages and its asides.
ghost use Rattle.std.specs.Prelude.{◌≡◌, List, IfOk};
ghost use Rattle.sct_message.specs.Sets.{messages_in};
ghost use Rattle.sct_case.specs.Told.{findings_of};
ghost use Rattle.sct_case.specs.Statuses.{as_standing, transfer_status_of, recall_status_of};

use crate::fault::CaseFault;
use crate::finding::Finding;
use crate::recalls::recall_status_by;
use crate::said::Said;
use crate::status::{RecallStatus, Status};
use sct_element::Id35;
use sct_message::{Identity, Message, TransferKey};
use std::alloc::Global;
use std::sync::Arc;

/// The findings of a transfer, in their stated order.
/// `clean` are the uncontradicted messages on the transfer. `asides` are the contradicted identities that a message on
/// it has, ascending. Error: `Memory` (39).
/// O(t + n log n) for t transactions in the messages and n statements about the transfer.
/// The program does not call it; users of the library can.
pub fn findings(
    alloc: Global,
    transfer: &TransferKey,
    clean: &[Arc<Message>],
    asides: &[Identity],
) -> Result<Vec<Finding>, CaseFault>
    ensures { IfOk result (λ found. found.items ≡ findings_of transfer.now (messages_in clean.now) asides.now) }
{
    let said = Said::of(alloc, transfer, clean)?;
    Ok(said.into_findings(alloc, asides)?)
}

/// The status of the transfer, from its clean messages and its asides, as [`findings`] takes them. Error: `Memory` (39).
/// It costs what [`findings`] costs.
pub fn transfer_status(
    alloc: Global,
    transfer: &TransferKey,
    clean: &[Arc<Message>],
    asides: &[Identity],
) -> Result<Status, CaseFault>
    ensures { IfOk result (λ stands.
        as_standing stands ≡ transfer_status_of transfer.now (messages_in clean.now) asides.now) }
{
    let said = Said::of(alloc, transfer, clean)?;
    let standing = said.standing();
    let found = said.into_findings(alloc, asides)?;
    if !found.is_empty() {
        return Ok(Status::Contradicted(found));
    }
    if clean.is_empty() {
        return Ok(Status::Unknown);
    }
    Ok(standing)
}

/// The status of the recall `cxl` of a transfer, from the transfer's clean messages and its asides, as [`findings`] takes
/// them. Error: `Memory` (39). It costs what [`findings`] costs. If the status of the transfer is known, use
/// [`recall_status_by`], and for many recalls [`recall_statuses`](crate::recall_statuses).
/// The program does not call it; users of the library can.
pub fn recall_status(
    alloc: Global,
    transfer: &TransferKey,
    clean: &[Arc<Message>],
    asides: &[Identity],
    cxl: &Id35,
) -> Result<RecallStatus, CaseFault>
    ensures { IfOk result (λ stands.
        stands ≡ recall_status_of transfer.now (messages_in clean.now) asides.now cxl.now) }
{
    let status = transfer_status(alloc, transfer, clean, asides)?;
    Ok(recall_status_by(&status, transfer, clean, cxl))
}
