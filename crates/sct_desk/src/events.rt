//! The events under a desk's lock: a message is taken, a delta is accepted, a delta is
//! cut, pending arrivals are published.

ghost use Rattle.std.specs.Arc.{arc_value};
ghost use Rattle.std.specs.Prelude.{◌≡◌, ◌≢◌, ◌≤◌, Err, IfNone, IfOk, IfErr, IfSome, MatchOption, OnOk, length};
ghost use Rattle.sct_delta.specs.Vectors.{count_in};
ghost use Rattle.sct_delta.specs.declared.fault.DeltaFault.TheVariants as delta_fault;
ghost use Rattle.sct_site.specs.Cores.{took_by, arrivals_taken, entries_above};
ghost use Rattle.sct_desk.specs.Locked.{Fails, IsDeltaRefusal, IsWant, Publishes, answer_to_delta, arrivals_handed, came_by_delta, came_by_take, unpublished};
ghost use Rattle.sct_desk.specs.Passes.{before, site_with};

use crate::fault::DeskFault;
use crate::held::{HeldArrivals, Site};
use crate::receipt::Receipt;
use sct_delta::{Delta, DeltaFault, Vector};
use sct_message::Message;
use sct_site::{Accepted, History, SiteCore, Took};
use std::alloc::{AllocError, Global};
use std::sync::{Arc, Wait};

// Makes sure that there are at least `least` marks.
fn make_marks(marks: &mut Vec<u8>, least: usize) -> Result<(), AllocError>
    ensures ok { OnOk result (least ≤ length marks.new.items) }
    ensures more { length marks.old.items ≤ length marks.new.items }
{
    if marks.len() < least {
        marks.resize(least, 0)?;
    }
    Ok(())
}

// How many arrivals came by a take.
fn came_by(took: &Took) -> u64
    ensures { result ≡ came_by_take took.now }
{
    match took {
        Took::Taken { .. } => 1,
        Took::Repeat => 0,
    }
}

// How many arrivals came with a delta, or none if it was out of memory.
fn came_with(answer: &Result<Accepted, DeltaFault>) -> Option<u64>
    ensures { MatchOption result (answer.now ≡ Err delta_fault.Memory)
        (λ news. (news ≡ came_by_delta answer.now) × (answer.now ≢ Err delta_fault.Memory)) }
{
    match answer {
        Ok(accepted) => Some(accepted.fresh),
        Err(DeltaFault::Memory) => None,
        Err(_) => Some(0),
    }
}

// The answer of a core to a delta, and how many arrivals came with it. None if it was out of memory.
#[tactic(auto, using(crate::proofs::Arrived::answered_so, crate::proofs::Arrived::arrived_so, crate::proofs::Arrived::refused_so))]
fn handed(core: &mut SiteCore, delta: &Delta) -> Option<(Result<Accepted, DeltaFault>, u64)>
    ensures number { core.new.number ≡ core.old.number }
    ensures group { core.new.group ≡ core.old.group }
    ensures answer { IfSome result (λ t. t.0 ≡ answer_to_delta core.old delta.now) }
    ensures refusals { IfSome result (λ t. IfErr t.0 IsDeltaRefusal) }
    ensures news { IfSome result (λ t. t.1 ≡ came_by_delta t.0) }
    ensures arrivals { IfSome result (λ t. core.new.arrivals ≡ arrivals_handed core.old delta.now) }
    ensures want { IfNone result (core.new ≡ core.old) }
{
    let answer = core.accept(delta);
    match came_with(&answer) {
        Some(news) => Some((answer, news)),
        None => None,
    }
}

// The delta that is cut from a core, or none if it was out of memory.
fn cut_from(core: &SiteCore, vector: &Vector) -> Option<Delta>
    ensures { IfSome result (λ delta. delta ≡ entries_above (count_in vector.now) core.now.arrivals) }
{
    core.cut(vector).ok()
}

impl<J: Site, R: Wait + Drop> HeldArrivals<J, R> {
    // Takes a message and publishes the pending arrivals.
    pub(crate) fn take(
        &mut self,
        alloc: Global,
        history: &History,
        message: Arc<Message>,
    ) -> Result<(Took, Receipt), DeskFault>
        requires { history.now ≡ J.book }
        ensures site { self.old.core ≡ site_with J.number J.group self.old.core.arrivals }
        ensures same { self.new.core ≡ site_with J.number J.group self.new.core.arrivals }
        ensures took { IfOk result (λ t. t.0 ≡ took_by self.old.core (arc_value message)) }
        ensures arrivals { OnOk result (self.new.core.arrivals
            ≡ arrivals_taken self.old.core (arc_value message)) }
        ensures published { IfOk result (λ t.
            Publishes J.book J.number (came_by_take t.0) self.old self.new t.1) }
        ensures before_call { IfOk result (λ t. before t.1 ≡ self.old.core.arrivals) }
        ensures want { IfErr result IsWant }
        ensures failed { IfErr result (Fails self.old
            (arrivals_taken self.old.core (arc_value message)) self.new) }
    {
        let least = self.core.arrivals().len() + 1;
        let Ok(()) = make_marks(&mut self.marks, least) else {
            return Err(DeskFault::Memory);
        };
        let Ok(took) = self.core.take(message) else {
            return Err(DeskFault::Memory);
        };
        let news = came_by(&took);
        self.publish_with(alloc, history, news, took)
    }

    // Hands a delta to the core and publishes the pending arrivals. A delta that is refused changes nothing.
    pub(crate) fn accept(
        &mut self,
        alloc: Global,
        history: &History,
        delta: &Delta,
    ) -> Result<(Result<Accepted, DeltaFault>, Receipt), DeskFault>
        requires { history.now ≡ J.book }
        ensures site { self.old.core ≡ site_with J.number J.group self.old.core.arrivals }
        ensures same { self.new.core ≡ site_with J.number J.group self.new.core.arrivals }
        ensures answer { IfOk result (λ t. t.0 ≡ answer_to_delta self.old.core delta.now) }
        ensures refusals { IfOk result (λ t. IfErr t.0 IsDeltaRefusal) }
        ensures arrivals { OnOk result (self.new.core.arrivals ≡ arrivals_handed self.old.core delta.now) }
        ensures published { IfOk result (λ t.
            Publishes J.book J.number (came_by_delta t.0) self.old self.new t.1) }
        ensures before_call { IfOk result (λ t. before t.1 ≡ self.old.core.arrivals) }
        ensures want { IfErr result IsWant }
        ensures failed { IfErr result (Fails self.old (arrivals_handed self.old.core delta.now) self.new) }
    {
        let least = self.core.arrivals().len() + delta.entries().len();
        let Ok(()) = make_marks(&mut self.marks, least) else {
            return Err(DeskFault::Memory);
        };
        let Some((answer, news)) = handed(&mut self.core, delta) else {
            return Err(DeskFault::Memory);
        };
        self.publish_with(alloc, history, news, answer)
    }

    // Cuts a delta from the core and publishes the pending arrivals.
    pub(crate) fn cut(
        &mut self,
        alloc: Global,
        history: &History,
        vector: &Vector,
    ) -> Result<(Delta, Receipt), DeskFault>
        requires { history.now ≡ J.book }
        ensures core { self.new.core ≡ self.old.core }
        ensures cut { IfOk result (λ t. t.0 ≡ entries_above (count_in vector.now) self.old.core.arrivals) }
        ensures published { IfOk result (λ t. Publishes J.book J.number 0 self.old self.new t.1) }
        ensures want { IfErr result IsWant }
        ensures failed { IfErr result (Fails self.old self.old.core.arrivals self.new) }
    {
        let Some(delta) = cut_from(&self.core, vector) else {
            return Err(DeskFault::Memory);
        };
        self.publish_with(alloc, history, 0, delta)
    }

    // Publishes the pending arrivals.
    pub(crate) fn publish(&mut self, alloc: Global, history: &History) -> Result<Receipt, DeskFault>
        requires { history.now ≡ J.book }
        ensures core { self.new.core ≡ self.old.core }
        ensures published { IfOk result (Publishes J.book J.number 0 self.old self.new) }
        ensures want { IfErr result IsWant }
        ensures refused { IfErr result (λ refusal. refusal ≡ unpublished self.old) }
        ensures failed { IfErr result (Fails self.old self.old.core.arrivals self.new) }
    {
        // The core is read so that the facts of this type are known: the published arrivals are no more than all.
        let _core = &self.core;
        self.publish_after(alloc, history, 0)
    }
}
