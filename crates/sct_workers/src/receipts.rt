//! Calls of a desk whose receipts can be kept.

ghost use Rattle.std.specs.Arc.{arc_value};
ghost use Rattle.std.specs.Prelude.{◌≡◌, ◌≤◌, ◌+◌, ◌∷◌, [], true, length, IfErr, IfOk, OnOk};
ghost use Rattle.sct_set.specs.Contents.{contents_of};
ghost use Rattle.sct_site.specs.Cores.{took_by};
ghost use Rattle.sct_desk.specs.Locked.{IsDeltaRefusal, answer_to_delta};
ghost use Rattle.sct_desk.specs.Passes.{before, site_with};
ghost use Rattle.sct_workers.specs.Kept.{Keeps, shows};
ghost use Rattle.sct_workers.specs.declared.fault.WorkFault.TheVariants as fault;

use crate::fault::WorkFault;
use sct_delta::{Delta, DeltaFault};
use sct_desk::{Desk, Receipt, Site};
use sct_message::Message;
use sct_site::{Accepted, Took};
use std::alloc::Global;
use std::sync::{Arc, Wait};

// Refuses a receipt with an arrival of an earlier call.
fn refuse_carried(receipt: &Receipt) -> Result<(), WorkFault>
    ensures none { OnOk result (receipt.now.carried ≡ 0) }
    ensures first { OnOk result (1 ≤ receipt.now.from) }
    ensures last { OnOk result (receipt.now.from + receipt.now.count ≡ length receipt.now.shown + 1) }
    ensures memory { IfErr result (λ e. e ≡ fault.Memory) }
{
    if receipt.carried() > 0 {
        return Err(WorkFault::Memory);
    }
    // The call is made for its contract: positions count from 1, and the receipt's last one ends what it shows.
    receipt.from();
    Ok(())
}

/// Takes a message at the desk. Error: `Memory` (65), also if the receipt has an arrival of an earlier call, which was
/// out of memory. Such a receipt is not about this message alone.
pub fn take_for_receipt<J: Site, H: Wait + Drop, W: Wait>(
    rt: &W,
    alloc: Global,
    desk: &Desk<J, H>,
    message: Arc<Message>,
) -> Result<(Took, Receipt), WorkFault>
    ensures keeps { IfOk result (λ t. Keeps J.book J.number J.group
        (contents_of (arc_value message ∷ [])) t.1) }
    ensures shown { IfOk result (λ t. shows (arc_value message) t.1 ≡ true) }
    ensures took { IfOk result (λ t. t.0
        ≡ took_by (site_with J.number J.group (before t.1)) (arc_value message)) }
    ensures memory { IfErr result (λ e. e ≡ fault.Memory) }
{
    let (took, receipt) = desk.take(rt, alloc, message)?;
    refuse_carried(&receipt)?;
    Ok((took, receipt))
}

/// Publishes the pending arrivals of the desk. Error: `Memory` (65), also if the receipt
/// has an arrival of an earlier call.
pub fn publish_for_receipt<J: Site, H: Wait + Drop, W: Wait>(
    rt: &W,
    alloc: Global,
    desk: &Desk<J, H>,
) -> Result<Receipt, WorkFault>
    ensures keeps { IfOk result (Keeps J.book J.number J.group (contents_of [])) }
    ensures memory { IfErr result (λ e. e ≡ fault.Memory) }
{
    let receipt = desk.publish(rt, alloc)?;
    refuse_carried(&receipt)?;
    Ok(receipt)
}

/// Hands a delta to the desk. It adds no entry of the site's own. Error: `Memory` (65), also if the
/// receipt has an arrival of an earlier call.
pub fn accept_for_receipt<J: Site, H: Wait + Drop, W: Wait>(
    rt: &W,
    alloc: Global,
    desk: &Desk<J, H>,
    delta: &Delta,
) -> Result<(Result<Accepted, DeltaFault>, Receipt), WorkFault>
    ensures keeps { IfOk result (λ t. Keeps J.book J.number J.group (contents_of []) t.1) }
    ensures answer { IfOk result (λ t. t.0 ≡ answer_to_delta (site_with J.number J.group (before t.1)) delta.now) }
    ensures refusals { IfOk result (λ t. IfErr t.0 IsDeltaRefusal) }
    ensures memory { IfErr result (λ e. e ≡ fault.Memory) }
{
    // The call is made for its contract: the entries of a delta are in order.
    delta.entries();
    let (answer, receipt) = desk.accept(rt, alloc, delta)?;
    refuse_carried(&receipt)?;
    Ok((answer, receipt))
}
