//! Desks of one thread, with ample memory.

ghost use Rattle.std.specs.Arc.{arc_value};
ghost use Rattle.std.specs.Prelude.{◌≡◌, ◌∷◌, []};
ghost use Rattle.sct_set.specs.Contents.{contents_of};
ghost use Rattle.sct_workers.specs.Kept.{AllShown, Keeps};

use sct_desk::{Desk, Receipt, Site};
use sct_json::read_message;
use sct_message::Message;
use sct_site::{History, SiteCore, Took, Track};
use sct_workers::*;
use std::alloc::Global;
use std::marker::Brand;
use std::process::Abort;
use std::sync::{Arc, Wait};

// The confirmation of a transfer.
static CONFIRMED: &[u8] =
    b"{\"MsgNmId\":\"pacs.002\",\"MsgId\":\"C1\",\"CreDtTm\":\"2024-05-02T10:00:02Z\",\"InstgAgt\":\"BANQFRPP\",\"OrgnlMsgId\":\"M1\",\"OrgnlMsgNmId\":\"pacs.008\",\"OrgnlTxId\":\"T1\",\"TxSts\":\"ACCP\",\"DbtrAgt\":\"BANKDEFF\"}";

fn confirmation(alloc: Global) -> Option<Arc<Message>> {
    let message = read_message(alloc, CONFIRMED).ok()?;
    Arc::new(alloc, message).ok()
}

// Asserts the answer of the desk to its site's message.
fn expect_taken<J: Site + Takes, H: Wait + Drop, W: Wait + Abort>(
    rt: &W,
    alloc: Global,
    desk: &Desk<J, H>,
    message: &Arc<Message>,
    wanted: Took,
) -> Receipt
    requires { J.messages ≡ contents_of (arc_value message.now ∷ []) }
    ensures keeps { Keeps J.book J.number J.group J.messages result }
    ensures shown { AllShown J.messages (result ∷ []) }
{
    let Ok(shared) = message.clone() else {
        panic!(rt; "out of memory");
    };
    let Ok((took, receipt)) = take_for_receipt(rt, alloc, desk, shared) else {
        panic!(rt; "the message is not taken");
    };
    assert_eq!(rt; took, wanted);
    receipt
}

// The desk of a site, closed with only this receipt.
fn closed_with<J: Site + Takes, H: Wait + Drop>(
    alloc: Global,
    desk: Desk<J, H>,
    receipt: Receipt,
) -> Result<SiteCore, WorkFault>
    requires keeps { Keeps J.book J.number J.group J.messages receipt }
    requires shown { AllShown J.messages (receipt ∷ []) }
{
    let mut kept = Kept::none(alloc);
    kept.push(receipt)?;
    kept.close(desk)
}

// The desk takes the message twice and is closed with one of the receipts: that of the
// first take, or that of the second.
fn close<J: Site + Takes, W: Wait + Abort>(
    rt: &W,
    alloc: Global,
    history: History,
    track: Track,
    message: &Arc<Message>,
    lost: bool,
) -> Result<SiteCore, WorkFault>
    requires history { history ≡ J.book }
    requires track { (track.book ≡ J.book) × (track.log ≡ []) }
    requires site { (1 ≡ J.number) × (1 ≡ J.group) }
    requires messages { J.messages ≡ contents_of (arc_value message.now ∷ []) }
{
    let (desk, _) = Desk::<J, &W>::open(rt, alloc, history, track, 1, 1, 1)
        .ok()
        .expect(rt, "a desk");
    let first = expect_taken(rt, alloc, &desk, message, Took::Taken { n: 1 });
    let second = expect_taken(rt, alloc, &desk, message, Took::Repeat);
    if lost {
        closed_with(alloc, desk, second)
    } else {
        closed_with(alloc, desk, first)
    }
}

fn close_one<W: Wait + Abort>(rt: &W, alloc: Global, lost: bool) -> Result<SiteCore, WorkFault> {
    let message = confirmation(alloc).expect(rt, "a message");
    let (history, track) = History::open();
    close::<Brand, W>(rt, alloc, history, track, &message, lost)
}

#[test]
fn a_desk_gives_its_core(rt: HostRuntime) {
    let core = close_one(&rt, rt.alloc(), false).ok().expect(&rt, "a core");
    assert_eq!(rt; core.arrivals().len(), 1);
}

#[test]
fn a_lost_receipt_is_refused(rt: HostRuntime) {
    let refusal = close_one(&rt, rt.alloc(), true).err();
    assert_eq!(rt; refusal, Some(WorkFault::Refused { number: 54 }));
}
