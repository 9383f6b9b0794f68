//! The messages that a site takes, and the receipts that its workers keep until the desk is closed with them.

ghost use Rattle.std.specs.Prelude.{◌≡◌, ◌++◌, ◌∷◌, [], true, Err, IfErr, IfOk, Ok, OnOk};
ghost use Rattle.sct_set.specs.Contents.{contents_of};
ghost use Rattle.sct_site.specs.Cores.{is_open};
ghost use Rattle.sct_workers.specs.Faults.{IsNotClosed, IsRefusalToClose, fault_of_desk};
ghost use Rattle.sct_workers.specs.Kept.{AllKeep, AllShown, Keeps};
ghost use Rattle.sct_workers.specs.Stands.{Stands};
ghost use Rattle.sct_workers.specs.declared.fault.WorkFault.TheVariants as fault;

use crate::fault::WorkFault;
use sct_desk::{Desk, NotClosed, Receipt, Site};
use sct_site::SiteCore;
use std::alloc::{AllocError, Global};
use std::marker::{Brand, PhantomData};
use std::sync::Wait;

/// The messages that a site takes. Each call that runs a site picks its own, so that the receipts of the site are known to
/// be about these messages.
pub trait Takes {
    ghost use Rattle.sct_message.specs.Sets.{MessageSet};

    ghost messages: { MessageSet };
}

/// The messages that a call picks.
impl Takes for Brand {
    ghost messages = { contents_of [] };
}

// The result of a worker that closed a desk: the core, or the desk's own refusal.
fn closed_by<J: Site, H: Wait + Drop>(
    closed: Result<SiteCore, NotClosed<J, H>>,
) -> Result<SiteCore, WorkFault>
    ensures core { IfOk closed (λ core. result ≡ Ok core) }
    ensures refused { IfErr closed (λ refusal. result ≡ Err (fault_of_desk refusal.fault)) }
    ensures site { IfOk result (λ core. is_open core.number core.group ≡ true) }
{
    match closed {
        Ok(core) => {
            // The call is made for its contract: the site of a core is one of its group.
            core.arrivals();
            Ok(core)
        }
        Err(refusal) => Err(WorkFault::from(refusal.fault)),
    }
}

/// Receipts of the desk of a site, which takes the messages of `J`. An own entry that one of them reports as published
/// has one of these messages, and every other entry is of another site of the group.
#[derive(Drop)]
pub struct Kept<J: Site + Takes> {
    receipts: Vec<Receipt>,
    of: PhantomData<J>,
    ghost kept: { AllKeep J.book J.number J.group J.messages receipts.items },
}

impl<J: Site + Takes> Kept<J> {
    /// No receipts.
    pub fn none(alloc: Global) -> Kept<J>
        ensures { result.receipts.items ≡ [] }
    {
        Kept {
            receipts: Vec::new(alloc),
            of: PhantomData,
        }
    }

    /// Keeps one more receipt. Error: `Memory` (65), and the receipt is lost.
    pub fn push(&mut self, receipt: Receipt) -> Result<(), WorkFault>
        requires { Keeps J.book J.number J.group J.messages receipt }
        ensures items { OnOk result (self.new.receipts.items ≡ self.old.receipts.items ++ receipt ∷ []) }
        ensures memory { IfErr result (λ e. e ≡ fault.Memory) }
    {
        self.receipts.push(receipt).map_err(AllocError::from)?;
        Ok(())
    }

    // The receipts of two workers.
    pub(crate) fn append(self, more: Kept<J>) -> Result<Kept<J>, AllocError>
        ensures items { IfOk result (λ all. all.receipts.items ≡ self.receipts.items ++ more.receipts.items) }
    {
        let Kept { mut receipts, .. } = self;
        let Kept {
            receipts: mut others,
            ..
        } = more;
        receipts.append(&mut others)?;
        Ok(Kept {
            receipts,
            of: PhantomData,
        })
    }

    /// Closes the desk of the site with all receipts that its workers kept, and returns the site's core.
    /// The caller guarantees that the receipts show each message.
    /// Error: `Refused` (66) with the number of the desk's refusal: 53 (`Pending`) if an arrival is pending, else 54
    /// (`Untold`) if a position is not covered by exactly one of the receipts.
    pub fn close<H: Wait + Drop>(self, desk: Desk<J, H>) -> Result<SiteCore, WorkFault>
        requires { AllShown J.messages self.receipts.items }
        ensures core { IfOk result (Stands J.number J.group J.messages) }
        ensures refused { IfErr result IsNotClosed }
        ensures reason { IfErr result (IsRefusalToClose J.number self.receipts.items) }
    {
        let Kept { receipts, .. } = self;
        closed_by(desk.close(receipts))
    }
}
