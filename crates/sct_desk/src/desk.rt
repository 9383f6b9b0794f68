//! A running site that threads share.

ghost use Rattle.std.specs.Arc.{arc_value};
ghost use Rattle.std.specs.Prelude.{◌≡◌, IfOk, IfErr};
ghost use Rattle.sct_delta.specs.Vectors.{count_in};
ghost use Rattle.sct_site.specs.Cores.{took_by, arrivals_taken, entries_above};
ghost use Rattle.sct_desk.specs.Locked.{IsDeltaRefusal, IsWant, answer_to_delta, arrivals_handed, came_by_delta, came_by_take};
ghost use Rattle.sct_desk.specs.Passes.{IsReceipt, before, site_with};
ghost use Rattle.sct_desk.specs.Tilings.{AreOurs, FailsToClose, Tiles};

use crate::fault::DeskFault;
use crate::held::{HeldArrivals, Site};
use crate::receipt::Receipt;
use sct_delta::{Delta, DeltaFault, Vector};
use sct_message::Message;
use sct_site::{Accepted, History, SiteCore, Took};
use std::alloc::Global;
use std::sync::{Arc, Mutex, Wait};

/// One running site. Threads take messages, accept deltas and cut deltas, one call at a time under the
/// desk's lock. Each call publishes the pending arrivals, and its receipt says which these were. Queries
/// read the published view without the lock.
#[derive(Drop)]
pub struct Desk<J: Site, R: Wait + Drop> {
    pub(crate) history: History,
    pub(crate) lock: Mutex<HeldArrivals<J, R>>,
    ghost book_is: { history ≡ J.book },
}

/// A desk that was not closed, with its receipts unchanged, and the reason.
#[derive(Drop)]
pub struct NotClosed<J: Site, R: Wait + Drop> {
    pub desk: Desk<J, R>,
    pub receipts: Vec<Receipt>,
    pub fault: DeskFault,
}

impl<J: Site, R: Wait + Drop> Desk<J, R> {
    /// The history of the site. It identifies the receipts of this desk.
    pub fn history(&self) -> &History
        ensures history { result.now ≡ self.now.history }
        ensures book { result.now ≡ J.book }
    {
        &self.history
    }

    /// Takes a message. It becomes the next own entry, unless the site holds it from any
    /// origin. The call waits for the lock.
    /// Errors: `Memory` (50), with nothing changed; `Unpublished` (51): the message is held, but
    /// it or an earlier arrival is not shown yet.
    pub fn take<W: Wait>(
        &self,
        rt: &W,
        alloc: Global,
        message: Arc<Message>,
    ) -> Result<(Took, Receipt), DeskFault>
        ensures receipt { IfOk result (λ t. IsReceipt J.book J.number (came_by_take t.0) t.1) }
        ensures took { IfOk result (λ t. t.0
            ≡ took_by (site_with J.number J.group (before t.1)) (arc_value message)) }
        ensures shown { IfOk result (λ t.
            t.1.shown ≡ arrivals_taken (site_with J.number J.group (before t.1)) (arc_value message)) }
        ensures refused { IfErr result IsWant }
    {
        let mut held = self.lock.lock(rt);
        held.take(alloc, &self.history, message)
    }

    /// Hands a delta to the site. The call waits for the lock.
    /// A delta that does not fit (`BadSite` 44, `OwnAhead` 43, `Gap` 41 or `Fork` 42) changes nothing;
    /// this refusal is an answer with a receipt.
    /// Errors: `Memory` (50), with nothing changed; `Unpublished` (51): what came with the delta is
    /// held, but some arrival is not shown yet.
    pub fn accept<W: Wait>(
        &self,
        rt: &W,
        alloc: Global,
        delta: &Delta,
    ) -> Result<(Result<Accepted, DeltaFault>, Receipt), DeskFault>
        ensures receipt { IfOk result (λ t. IsReceipt J.book J.number (came_by_delta t.0) t.1) }
        ensures answer { IfOk result (λ t. t.0
            ≡ answer_to_delta (site_with J.number J.group (before t.1)) delta.now) }
        ensures refusals { IfOk result (λ t. IfErr t.0 IsDeltaRefusal) }
        ensures shown { IfOk result (λ t.
            t.1.shown ≡ arrivals_handed (site_with J.number J.group (before t.1)) delta.now) }
        ensures refused { IfErr result IsWant }
    {
        let mut held = self.lock.lock(rt);
        held.accept(alloc, &self.history, delta)
    }

    /// Cuts the entries numbered above `vector`, of every origin, as a delta. The call waits for the lock.
    /// Errors if out of memory, with nothing changed: `Memory` (50), or `Unpublished`
    /// (51) only if arrivals are pending. The program does not call it; users of the library can.
    pub fn cut<W: Wait>(
        &self,
        rt: &W,
        alloc: Global,
        vector: &Vector,
    ) -> Result<(Delta, Receipt), DeskFault>
        ensures receipt { IfOk result (λ t. IsReceipt J.book J.number 0 t.1) }
        ensures cut { IfOk result (λ t. t.0 ≡ entries_above (count_in vector.now) t.1.shown) }
        ensures refused { IfErr result IsWant }
    {
        let mut held = self.lock.lock(rt);
        held.cut(alloc, &self.history, vector)
    }

    /// Publishes the pending arrivals. The call waits for the lock.
    /// Errors if out of memory, with nothing changed: `Unpublished` (51) if arrivals are pending, else `Memory` (50).
    pub fn publish<W: Wait>(&self, rt: &W, alloc: Global) -> Result<Receipt, DeskFault>
        ensures receipt { IfOk result (IsReceipt J.book J.number 0) }
        ensures refused { IfErr result IsWant }
    {
        let mut held = self.lock.lock(rt);
        held.publish(alloc, &self.history)
    }

    /// Closes the desk with all its receipts, and returns the site's core if the receipts
    /// tile its arrivals. It does not allocate.
    /// Otherwise the desk and the unchanged receipts are returned with the error:
    /// - `Pending` (53): arrivals are pending;
    /// - `Untold` (54) with the least position that is not covered by exactly one receipt of this site.
    pub fn close(self, receipts: Vec<Receipt>) -> Result<SiteCore, NotClosed<J, R>>
        requires { AreOurs J.book J.number receipts.items }
        ensures core { IfOk result (λ core. core ≡ site_with J.number J.group core.arrivals) }
        ensures tiles { IfOk result (λ core. Tiles J.number core.arrivals receipts.items) }
        ensures receipts { IfErr result (λ n. n.receipts.items ≡ receipts.items) }
        ensures history { IfErr result (λ n. n.desk.history ≡ self.history) }
        ensures refused { IfErr result (λ n. FailsToClose J.number receipts.items n.fault) }
    {
        let Desk { history, lock } = self;
        let mut held = lock.into_inner();
        match held.untold(&receipts) {
            Some(fault) => {
                let desk = Desk {
                    history,
                    lock: Mutex::new(held),
                };
                Err(NotClosed {
                    desk,
                    receipts,
                    fault,
                })
            }
            None => Ok(held.end()),
        }
    }
}
