//! A desk that three threads share, and the status text of the 100 transfers that it then has.

ghost use Rattle.std.specs.Prelude.{◌≡◌, ◌≤◌, [], IfSome};
ghost use Rattle.sct_desk.specs.Tilings.{AreOurs};

use super::scenes::{first_transfer, open_one, sizes_of, take_some};
use sct_case::Status;
use sct_desk::{Desk, Query, Receipt, Site};
use sct_message::TransferKey;
use sct_site::{History, SiteCore, Track};
use sct_view::View;
use std::alloc::Global;
use std::marker::Brand;
use std::process::Abort;
use std::sync::Wait;
use std::thread;
use std::thread::Threads;

/// A taker takes this many messages, every other one.
const TAKEN: u64 = 50;

// All receipts of both.
fn joined<J: Site>(one: Option<Vec<Receipt>>, other: Option<Vec<Receipt>>) -> Option<Vec<Receipt>>
    requires one { IfSome one (λ kept. AreOurs J.book J.number kept.items) }
    requires other { IfSome other (λ kept. AreOurs J.book J.number kept.items) }
    ensures { IfSome result (λ kept. AreOurs J.book J.number kept.items) }
{
    let mut kept = one?;
    let mut rest = other?;
    kept.append(&mut rest).ok()?;
    Some(kept)
}

fn two_takers<J: Site + Send + Sync, H: Wait + Drop + Send + Sync, R: Threads + Wait + Sync>(
    rt: &R,
    alloc: Global,
    desk: &Desk<J, H>,
) -> Option<Vec<Receipt>>
    ensures { IfSome result (λ kept. AreOurs J.book J.number kept.items) }
{
    let (odd, even) = thread::join(
        rt,
        || -> Option<Vec<Receipt>>
            ensures { IfSome result (λ kept. AreOurs J.book J.number kept.items) }
        { take_some(rt, alloc, desk, 1, TAKEN) },
        || -> Option<Vec<Receipt>>
            ensures { IfSome result (λ kept. AreOurs J.book J.number kept.items) }
        { take_some(rt, alloc, desk, 2, TAKEN) },
    );
    joined::<J>(odd, even)
}

// How many arrivals an answer is based on, and whether the transfer is pending (else it is
// unknown). None if it has another status.
fn seen(query: &mut Query, alloc: Global, transfer: &TransferKey) -> Option<(u64, bool)> {
    let answer = query.status(alloc, transfer).ok()?;
    match answer.value {
        Status::Unknown => Some((answer.front, false)),
        Status::Pending => Some((answer.front, true)),
        _ => None,
    }
}

// Asks for the transfer until it is pending. Returns whether no answer was based on fewer
// arrivals than the answer before.
fn look(mut query: Query, alloc: Global, transfer: &TransferKey) -> bool {
    let mut last = 0;
    for _ in 0..20_000_000 {
        let Some((front, pending)) = seen(&mut query, alloc, transfer) else {
            return false;
        };
        if front < last {
            return false;
        }
        if pending {
            return true;
        }
        last = front;
        thread::yield_now();
    }
    false
}

// The query asks while two threads take messages.
fn three_threads<J: Site + Send + Sync, H: Wait + Drop + Send + Sync, R: Threads + Wait + Sync>(
    rt: &R,
    alloc: Global,
    desk: &Desk<J, H>,
    query: Query,
    transfer: TransferKey,
) -> (bool, Option<Vec<Receipt>>)
    ensures { IfSome result.1 (λ kept. AreOurs J.book J.number kept.items) }
{
    thread::join(
        rt,
        move || look(query, alloc, &transfer),
        || -> Option<Vec<Receipt>>
            ensures { IfSome result (λ kept. AreOurs J.book J.number kept.items) }
        { two_takers(rt, alloc, desk) },
    )
}

// The status text of a view of all messages of a site. None only if it is out of memory.
fn status_of(alloc: Global, core: &SiteCore) -> Option<Vec<u8>> {
    let mut view = View::new(alloc);
    view.apply(core.archive().messages()).ok()?;
    view.status_text().ok()
}

// Appends the line of one pending transfer.
fn push_pending(alloc: Global, text: &mut String, at: u64) -> Option<()> {
    let line = format!(in alloc; "T|BANKDEFFXXX|T{at}|PENDING\n").ok()?;
    text.push_str(&line).ok()
}

// Appends the lines of the transfers whose number begins with this digit. Keys ascend by bytes, so T100 follows T10.
fn push_digit(alloc: Global, text: &mut String, digit: u64) -> Option<()>
    requires { digit ≤ 9 }
{
    push_pending(alloc, text, digit)?;
    for at in 10 * digit..10 * digit + 10 {
        push_pending(alloc, text, at)?;
        if at == 10 {
            push_pending(alloc, text, 100)?;
        }
    }
    Some(())
}

// The status text of the pending transfers T1 to T100. None only if it is out of memory.
fn all_pending(alloc: Global) -> Option<String> {
    let mut text = String::new(alloc);
    for digit in 1..10 {
        push_digit(alloc, &mut text, digit)?;
    }
    Some(text)
}

// Asserts that the site has 100 arrivals, and that all its 100 transfers are pending.
fn expect_pending(rt: &impl Abort, alloc: Global, core: &SiteCore) {
    assert!(rt; sizes_of(core) == (100, 100));
    let text = status_of(alloc, core).expect(rt, "a status text");
    let wanted = all_pending(alloc).expect(rt, "a status text");
    assert!(rt; text.as_slice() == wanted.as_bytes());
}

fn expect_shared<J: Site + Send + Sync, R: Threads + Wait + Abort + Sync>(
    rt: &R,
    alloc: Global,
    history: History,
    track: Track,
)
    requires history { history ≡ J.book }
    requires track { (track.book ≡ J.book) × (track.log ≡ []) }
    requires site { (1 ≡ J.number) × (1 ≡ J.group) }
{
    let (desk, query) = open_one::<J, R>(rt, alloc, history, track, 1, 1);
    let transfer = first_transfer().expect(rt, "a transfer");
    let (rose, kept) = three_threads(rt, alloc, &desk, query, transfer);
    assert!(rt; rose, "a front fell, or T1 was not seen");
    let receipts = kept.expect(rt, "receipts of all calls");
    let Ok(core) = desk.close(receipts) else {
        panic!(rt; "a desk that is not closed");
    };
    expect_pending(rt, alloc, &core);
}

#[test]
fn desk_shared(rt: HostRuntime) {
    let (history, track) = History::open();
    expect_shared::<Brand, HostRuntime>(&rt, rt.alloc(), history, track);
}
