//! Sites on threads, with ample memory: the result of each, under gates that hold and gates that let pass.

mod faults;
mod inputs;

use crate::gates::{HeldAccepts, HeldAnswers, HeldFirst, InStep, Meeting, Shut};
use faults::FAILED;
use inputs::{ONE_SITE, Row, TWO_SITES, WITH_REFUSED};
use sct_set::Archive;
use sct_site::SiteCore;
use sct_view::View;
use sct_workers::*;
use std::alloc::{AllocError, Global};
use std::process::Abort;
use std::sync::{Arc, Wait};
use std::thread::Threads;

// The inputs, each as bytes of its own.
fn owned(alloc: Global, inputs: &[&[u8]]) -> Result<Vec<Vec<u8>>, AllocError> {
    let mut texts = Vec::new(alloc);
    for input in inputs {
        texts.push(Vec::from_slice(alloc, input)?)?;
    }
    Ok(texts)
}

// The sites of some inputs.
fn filled<G: Gate + Sync, R: Threads + Wait + Sync>(
    rt: &R,
    alloc: Global,
    gate: &G,
    inputs: &[&[u8]],
) -> Result<Sites, WorkFault> {
    let inputs = owned(alloc, inputs)?;
    fill_sites(rt, alloc, gate, &inputs)
}

// The view of an archive.
fn view_of(alloc: Global, archive: &Archive) -> Option<Arc<View>> {
    let mut copy = Archive::new(alloc);
    copy.merge(archive).ok()?;
    let view = View::of(alloc, copy).ok()?;
    Arc::new(alloc, view).ok()
}

// The status text of an archive.
fn status_of(alloc: Global, archive: &Archive) -> Option<Vec<u8>> {
    let view = view_of(alloc, archive)?;
    view.status_text().ok()
}

// Whether a site has the result of the row. None only if it is out of memory.
fn is_filled(alloc: Global, core: &SiteCore, row: &Row) -> Option<bool> {
    let status = status_of(alloc, core.archive())?;
    Some(core.arrivals().len() == row.arrivals && status.as_slice() == row.status)
}

// Whether there is a site for each input, and the refused lines are reported as the row says.
fn are_reported(sites: &Sites, row: &Row) -> bool {
    sites.cores.len() == row.inputs.len()
        && sites.refusals.text() == row.refused_text
        && sites.refusals.count() == row.refused
}

// Asserts that under the gate each site has the result of the row, and that all deltas in
// the channels were accepted too.
fn expect_row<G: Gate + Sync, R: Threads + Wait + Abort + Sync>(
    rt: &R,
    alloc: Global,
    gate: &G,
    row: &Row,
) {
    let sites = filled(rt, alloc, gate, row.inputs).expect(rt, "sites");
    assert!(rt; are_reported(&sites, row));
    for core in &sites.cores {
        assert!(rt; is_filled(alloc, core, row) == Some(true));
    }
}

#[test]
fn all_pass(rt: HostRuntime) {
    expect_row(&rt, rt.alloc(), &FreeGate, &ONE_SITE);
    expect_row(&rt, rt.alloc(), &FreeGate, &TWO_SITES);
    expect_row(&rt, rt.alloc(), &FreeGate, &WITH_REFUSED);
}

#[test]
fn workers_in_step(rt: HostRuntime) {
    expect_row(&rt, rt.alloc(), &InStep::new(), &TWO_SITES);
}

#[test]
fn meeting_gate(rt: HostRuntime) {
    expect_row(&rt, rt.alloc(), &Meeting::new(), &TWO_SITES);
}

#[test]
fn shut_gate(rt: HostRuntime) {
    let held = filled(&rt, rt.alloc(), &Shut, TWO_SITES.inputs);
    assert_eq!(rt; held.err(), Some(WorkFault::Held));
}

// The message identification of the entry with a number, of those that came to a site from an origin.
fn identification_at(core: &SiteCore, origin: u16, n: u64) -> Option<&str> {
    for entry in core.arrivals() {
        if entry.origin == origin && entry.n == n {
            return Some(entry.message.draft().head().message_id.text());
        }
    }
    None
}

#[test]
fn own_numbers_are_in_the_order_of_the_lines(rt: HostRuntime) {
    let sites = filled(&rt, rt.alloc(), &FreeGate, TWO_SITES.inputs).expect(&rt, "sites");
    for core in &sites.cores {
        assert_eq!(rt; identification_at(core, 1, 1), Some("M1"));
        assert_eq!(rt; identification_at(core, 1, 2), Some("C1"));
    }
}

// The first of three sites has the only message. A message that is taken before its point is passed would be sent to the
// other sites, which would accept it.
#[test]
fn a_point_is_passed_before_its_message_is_taken(rt: HostRuntime) {
    let gate = HeldFirst::new();
    let held = filled(&rt, rt.alloc(), &gate, WITH_REFUSED.inputs);
    assert_eq!(rt; held.err(), Some(WorkFault::Held));
    assert_eq!(rt; gate.accepted(), 0);
}

// The receipt of a delta that the held worker accepted is lost, so the desk could not be closed: 66 with 54.
#[test]
fn held_comes_before_a_lost_receipt(rt: HostRuntime) {
    let held = filled(&rt, rt.alloc(), &HeldAccepts, TWO_SITES.inputs);
    assert_eq!(rt; held.err(), Some(WorkFault::Held));
}

// The query worker's receipts show no arrival that no other receipt shows, so the desk could be closed without them.
#[test]
fn a_held_query_ends_a_site(rt: HostRuntime) {
    let held = filled(&rt, rt.alloc(), &HeldAnswers, ONE_SITE.inputs);
    assert_eq!(rt; held.err(), Some(WorkFault::Held));
}

// The fault that is reported of sites with these faults.
fn reported_of(alloc: Global, faults: &[SiteFault]) -> Result<Option<SiteFault>, AllocError> {
    let mut answers = Vec::new(alloc);
    for fault in faults {
        answers.push(Err(*fault))?;
    }
    Ok(reported_fault(&answers))
}

#[test]
fn sites_fail_differently(rt: HostRuntime) -> Result<(), AllocError> {
    for row in &FAILED {
        assert_eq!(rt; reported_of(rt.alloc(), row.sites)?, row.reported);
    }
    Ok(())
}
