//! Messages and desks for tests.

ghost use Rattle.std.specs.List.{All};
ghost use Rattle.std.specs.Prelude.{◌≡◌, ◌≤◌, [], IfErr, IfSome};
ghost use Rattle.sct_desk.specs.Openings.{IsNewQuery};
ghost use Rattle.sct_desk.specs.Passes.{IsOf};
ghost use Rattle.sct_desk.specs.Tilings.{AreOurs};

use sct_desk::{Desk, NotClosed, Query, Receipt, Site};
use sct_element::{Bic, Id35};
use sct_json::read_message;
use sct_message::{Message, TransferKey};
use sct_site::{History, SiteCore, Track};
use std::alloc::Global;
use std::process::Abort;
use std::sync::{Arc, Wait};

/// The transfer T1 of BANKDEFF.
pub(crate) fn first_transfer() -> Option<TransferKey> {
    Some(TransferKey {
        debtor_agent: Bic::read("BANKDEFF").ok()?,
        tx: Id35::read("T1").ok()?,
    })
}

// The credit transfer of this number, of 100 cents. None only if it is out of memory.
fn credit_transfer(alloc: Global, at: u64) -> Option<Arc<Message>> {
    let text = format!(in alloc;
        r#"{{"MsgNmId":"pacs.008","MsgId":"M{at}","CreDtTm":"2024-05-02T10:00:00Z","InstgAgt":"BANKDEFF","IntrBkSttlmDt":"2024-05-02","SvcLvl":"SEPA","LclInstrm":"INST","EndToEndId":"E1","TxId":"T{at}","IntrBkSttlmAmt":"1.00","Ccy":"EUR","ChrgBr":"SLEV","Dbtr":"Anna Weber","DbtrAcct":"DE89370400440532013000","DbtrAgt":"BANKDEFF","CdtrAgt":"BANQFRPP","Cdtr":"Bo Maes","CdtrAcct":"BE68539007547034"}}"#
    );
    let message = read_message(alloc, text.ok()?.as_bytes()).ok()?;
    Arc::new(alloc, message).ok()
}

/// The receipt of taking the credit transfer of this number. None only if it is out of memory.
pub(crate) fn receipt_of<J: Site, H: Wait + Drop, W: Wait>(
    rt: &W,
    alloc: Global,
    desk: &Desk<J, H>,
    at: u64,
) -> Option<Receipt>
    ensures { IfSome result (λ receipt. IsOf J.book J.number receipt) }
{
    let message = credit_transfer(alloc, at)?;
    let (_, receipt) = desk.take(rt, alloc, message).ok()?;
    Some(receipt)
}

/// The receipts of taking `count` credit transfers, every other one from this number on.
pub(crate) fn take_some<J: Site, H: Wait + Drop, W: Wait>(
    rt: &W,
    alloc: Global,
    desk: &Desk<J, H>,
    first: u64,
    count: u64,
) -> Option<Vec<Receipt>>
    requires first { first ≤ 2 }
    requires count { count ≤ 50 }
    ensures { IfSome result (λ kept. AreOurs J.book J.number kept.items) }
{
    let mut kept = Vec::new(alloc);
    for at in 0..count {
        kept.push(receipt_of(rt, alloc, desk, first + 2 * at)?)
            .ok()?;
    }
    Some(kept)
}

/// How many arrivals a site has, and how many messages.
pub(crate) fn sizes_of(core: &SiteCore) -> (usize, usize) {
    (core.arrivals().len(), core.archive().len())
}

/// How many arrivals and messages the site of a desk has after it is closed. A desk that is not closed is returned.
pub(crate) fn sizes_closed<J: Site, H: Wait + Drop>(
    desk: Desk<J, H>,
    receipts: Vec<Receipt>,
) -> Result<(usize, usize), NotClosed<J, H>>
    requires { AreOurs J.book J.number receipts.items }
    ensures { IfErr result (λ refusal. AreOurs J.book J.number refusal.receipts.items) }
{
    match desk.close(receipts) {
        Ok(core) => Ok(sizes_of(&core)),
        Err(refusal) => Err(refusal),
    }
}

// One of the queries of a desk, which has seen nothing.
fn one_of<J: Site>(mut queries: Vec<Query>) -> Option<Query>
    requires { All (IsNewQuery J.book J.number) queries.items }
    ensures { IfSome result (IsNewQuery J.book J.number) }
{
    queries.pop()
}

/// The desk of a site, and its one query.
pub(crate) fn open_one<'a, J: Site, R: Wait + Abort>(
    rt: &'a R,
    alloc: Global,
    history: History,
    track: Track,
    number: u16,
    group: u16,
) -> (Desk<J, &'a R>, Query)
    requires history { history ≡ J.book }
    requires track { (track.book ≡ J.book) × (track.log ≡ []) }
    requires site { (number ≡ J.number) × (group ≡ J.group) }
    ensures { IsNewQuery J.book J.number result.1 }
{
    let Ok(opened) = Desk::<J, &'a R>::open(rt, alloc, history, track, number, group, 1) else {
        panic!(rt; "no desk");
    };
    let (desk, queries) = opened;
    let query = one_of::<J>(queries).expect(rt, "a query");
    (desk, query)
}
