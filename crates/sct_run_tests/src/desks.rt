//! Desks with ample memory: a refused close, and three threads at one. `tests/data/test-driver/desks.txt` has the answers of a desk.

ghost use Rattle.std.specs.Prelude.{◌≡◌, [], IfSome};
ghost use Rattle.sct_desk.specs.Passes.{IsOf};
ghost use Rattle.sct_desk.specs.Tilings.{AreOurs};

mod scenes;
mod shared;

use scenes::{first_transfer, open_one, receipt_of, sizes_closed, take_some};
use sct_case::Status;
use sct_desk::{Desk, DeskFault, NotClosed, Query, Receipt, Site};
use sct_message::TransferKey;
use sct_site::{History, Track};
use std::alloc::Global;
use std::marker::Brand;
use std::process::Abort;
use std::sync::Wait;

// Whether the transfer is pending, by one arrival.
fn is_pending(alloc: Global, query: &mut Query, transfer: &TransferKey) -> bool {
    match query.status(alloc, transfer) {
        Ok(answer) => answer.value == Status::Pending && answer.front == 1,
        Err(_) => false,
    }
}

// Whether a query is refused because the desk was closed.
fn is_refused(alloc: Global, query: &mut Query, transfer: &TransferKey) -> bool {
    match query.status(alloc, transfer) {
        Ok(_) => false,
        Err(fault) => fault == DeskFault::Closed,
    }
}

// The receipts of this desk, and one more.
fn with<J: Site>(mut receipts: Vec<Receipt>, more: Receipt) -> Option<Vec<Receipt>>
    requires receipts { AreOurs J.book J.number receipts.items }
    requires more { IsOf J.book J.number more }
    ensures { IfSome result (λ all. AreOurs J.book J.number all.items) }
{
    receipts.push(more).ok()?;
    Some(receipts)
}

// How many arrivals and messages the site of a desk has. The desk was not closed because its first position was not
// covered; then it was closed with the receipt that covers it.
fn closed_at_last<J: Site, H: Wait + Drop>(
    refusal: NotClosed<J, H>,
    first: Receipt,
) -> Option<(usize, usize)>
    requires first { IsOf J.book J.number first }
    requires rest { AreOurs J.book J.number refusal.receipts.items }
{
    let NotClosed {
        desk,
        receipts,
        fault,
    } = refusal;
    if fault != (DeskFault::Untold { position: 1 }) {
        return None;
    }
    match sizes_closed(desk, with::<J>(receipts, first)?) {
        Ok(sizes) => Some(sizes),
        Err(_) => None,
    }
}

// Tests a desk from opening to closing.
fn expect_life<J: Site, R: Wait + Abort>(rt: &R, alloc: Global, history: History, track: Track)
    requires history { history ≡ J.book }
    requires track { (track.book ≡ J.book) × (track.log ≡ []) }
    requires site { (1 ≡ J.number) × (1 ≡ J.group) }
{
    let (desk, mut query) = open_one::<J, R>(rt, alloc, history, track, 1, 1);
    let first = receipt_of(rt, alloc, &desk, 1).expect(rt, "a receipt");
    query.learn(&first);
    let transfer = first_transfer().expect(rt, "a transfer");
    assert!(rt; is_pending(alloc, &mut query, &transfer));
    let rest = take_some(rt, alloc, &desk, 2, 1).expect(rt, "another receipt");
    let Err(refusal) = sizes_closed(desk, rest) else {
        panic!(rt; "no gap");
    };
    assert!(rt; closed_at_last(refusal, first) == Some((2, 2)));
    assert!(rt; is_refused(alloc, &mut query, &transfer));
}

#[test]
fn close_succeeds(rt: HostRuntime) {
    let (history, track) = History::open();
    expect_life::<Brand, HostRuntime>(&rt, rt.alloc(), history, track);
}
