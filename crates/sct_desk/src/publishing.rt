//! Publishes the pending arrivals.

ghost use Rattle.std.specs.FinSet as set;
ghost use Rattle.std.specs.Prelude.{◌≡◌, ◌+◌, ◌<◌, ◌≤◌, List, [], length, take, drop, IfOk, IfErr, MatchBool, OnOk, OnErr};
ghost use mathlib.Core.List.{IsPrefix};
ghost use Rattle.sct_delta.specs.Entries.{IsArrivals, messages_of};
ghost use Rattle.sct_desk.specs.Locked.{Publishes, unpublished};
ghost use Rattle.sct_desk.specs.Passes.{IsReceipt};
ghost use Rattle.sct_desk.specs.Rules.{GoesOn, handed_over};

use crate::fault::DeskFault;
use crate::held::{HeldArrivals, Site};
use crate::receipt::Receipt;
use crate::shown::{ShownWriter, ShowsArrivals, ViewUpdate};
use core::mem::replace_with;
use sct_delta::{Entry, messages_in};
use sct_site::{History, Track};
use std::alloc::{AllocError, Global};
use std::sync::Wait;

// Adds the arrivals that the history lacks. It fails if the history has other arrivals,
// which nobody adds without the lock.
fn follow(track: &mut Track, history: &History, arrivals: &[Entry]) -> bool
    requires history { history.now ≡ track.old.book }
    requires order { IsArrivals arrivals.now }
    requires begins { IsPrefix track.old.log arrivals.now }
    ensures book { track.new.book ≡ track.old.book }
    ensures begins { IsPrefix track.new.log arrivals.now }
    ensures all { MatchBool result (track.new.log ≡ arrivals.now) (length track.new.log < length arrivals.now) }
{
    let known = track.len() as usize;
    for at in known..arrivals.len() {
        if !track.add(history, &arrivals[at]) {
            return false;
        }
    }
    true
}

// Hands the arrivals from `handed` on to the writer.
fn hand_over(
    alloc: Global,
    writer: &mut ShownWriter,
    track: &Track,
    arrivals: &[Entry],
    handed: usize,
) -> Result<(), AllocError>
    requires { handed ≤ length arrivals.now }
    ensures desk { writer.new.desk ≡ writer.old.desk }
    ensures ok { OnOk result (
        handed_over writer.old.desk.shown.value (drop writer.new.behind writer.new.log.items)
        ≡ record {
          view = set.union
              (handed_over writer.old.desk.shown.value (drop writer.old.behind writer.old.log.items)).view
              (messages_of (drop handed arrivals.now));
          track = track.now;
        }) }
    ensures err { OnErr result (drop writer.new.behind writer.new.log.items
        ≡ drop writer.old.behind writer.old.log.items) }
{
    let messages = messages_in(alloc, &arrivals[handed..])?;
    let update = ViewUpdate {
        messages,
        track: track.again(),
    };
    match writer.append(update) {
        Ok(()) => Ok(()),
        Err(_) => Err(AllocError),
    }
}

// Publishes what was handed over, and returns the writer.
fn publish_handed_over<R: Wait>(
    writer: ShownWriter,
    rt: &R,
) -> (ShownWriter, Result<(), AllocError>)
    requires { GoesOn writer.desk.shown.value
        (handed_over writer.desk.shown.value (drop writer.behind writer.log.items)) }
    ensures ok { OnOk result.1 (result.0.desk.shown.value
        ≡ handed_over writer.desk.shown.value (drop writer.behind writer.log.items)) }
    ensures none { OnOk result.1 (drop result.0.behind result.0.log.items ≡ []) }
    ensures err { OnErr result.1 (result.0.desk.shown.value ≡ writer.desk.shown.value) }
    ensures same { OnErr result.1 (drop result.0.behind result.0.log.items
        ≡ drop writer.behind writer.log.items) }
{
    writer.publish_as::<ShowsArrivals, R>(rt)
}

// Shows queries what was handed over.
fn show<R: Wait>(writer: &mut ShownWriter, rt: &R) -> Result<(), AllocError>
    requires { GoesOn writer.old.desk.shown.value
        (handed_over writer.old.desk.shown.value (drop writer.old.behind writer.old.log.items)) }
    ensures ok { OnOk result (writer.new.desk.shown.value
        ≡ handed_over writer.old.desk.shown.value (drop writer.old.behind writer.old.log.items)) }
    ensures none { OnOk result (drop writer.new.behind writer.new.log.items ≡ []) }
    ensures err { OnErr result (writer.new.desk.shown.value ≡ writer.old.desk.shown.value) }
    ensures same { OnErr result (drop writer.new.behind writer.new.log.items
        ≡ drop writer.old.behind writer.old.log.items) }
{
    replace_with(writer, rt, |writer, rt| publish_handed_over(writer, rt))
}

// The receipt of a call that published the arrivals from this position on. The last `news` of them came by the call.
#[tactic(auto, using(crate::proofs::Arrived::carries_so))]
fn receipt_of(site: u16, from: u64, track: &Track, news: u64) -> Receipt
    requires from { 1 ≤ from }
    requires news { news + from ≤ length track.now.log + 1 }
    ensures receipt { IsReceipt track.now.book site news result }
    ensures from { result.from ≡ from }
    ensures shown { result.shown ≡ track.now.log }
{
    let count = track.len() - (from - 1);
    Receipt {
        site,
        from,
        count,
        carried: count - news,
        track: track.again(),
    }
}

impl<J: Site, R: Wait + Drop> HeldArrivals<J, R> {
    // The error of a publication that is out of memory: 51 if arrivals are pending, else 50.
    fn unpublished(&self) -> DeskFault
        ensures { result ≡ unpublished self.now }
    {
        let published = self.writer.published().track.len();
        if published == self.core.arrivals().len() as u64 {
            DeskFault::Memory
        } else {
            DeskFault::Unpublished {
                from: published + 1,
            }
        }
    }

    // Publishes all pending arrivals. The last `news` of them came by this call.
    pub(crate) fn publish_after(
        &mut self,
        alloc: Global,
        history: &History,
        news: u64,
    ) -> Result<Receipt, DeskFault>
        requires history { history.now ≡ J.book }
        requires news { news + length self.old.published ≤ length self.old.core.arrivals }
        ensures core { self.new.core ≡ self.old.core }
        ensures published { IfOk result (Publishes J.book J.number news self.old self.new) }
        ensures refused { IfErr result (λ refusal. refusal ≡ unpublished self.old) }
        ensures unchanged { OnErr result (self.new ≡ self.old) }
    {
        let refusal = self.unpublished();
        let published = self.writer.published().track.len();
        if !follow(&mut self.track, history, self.core.arrivals()) {
            return Err(refusal);
        }
        let Ok(()) = hand_over(
            alloc,
            &mut self.writer,
            &self.track,
            self.core.arrivals(),
            self.handed,
        ) else {
            return Err(refusal);
        };
        self.handed = self.core.arrivals().len();
        let Ok(()) = show(&mut self.writer, &self.rt) else {
            return Err(refusal);
        };
        Ok(receipt_of(self.core.number(), published + 1, &self.track, news))
    }

    // Publishes all pending arrivals. Returns the answer of this call with the receipt. The last `news` of the arrivals came by
    // this call.
    pub(crate) fn publish_with<T: Drop>(
        &mut self,
        alloc: Global,
        history: &History,
        news: u64,
        answer: T,
    ) -> Result<(T, Receipt), DeskFault>
        requires history { history.now ≡ J.book }
        requires news { news + length self.old.published ≤ length self.old.core.arrivals }
        ensures core { self.new.core ≡ self.old.core }
        ensures answer { IfOk result (λ t. t.0 ≡ answer) }
        ensures published { IfOk result (λ t. Publishes J.book J.number news self.old self.new t.1) }
        ensures refused { IfErr result (λ refusal. refusal ≡ unpublished self.old) }
        ensures unchanged { OnErr result (self.new ≡ self.old) }
    {
        let receipt = self.publish_after(alloc, history, news)?;
        Ok((answer, receipt))
    }
}
