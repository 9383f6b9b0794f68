//! The durations of takes and answers at a desk that two threads share.

ghost use Rattle.std.specs.Prelude.{◌≡◌, []};

use anyhow::{Result, bail};
use sct_case::Status;
use sct_desk::{Desk, Query, Site};
use sct_element::{Bic, Id35};
use sct_json::read_message;
use sct_message::{Message, TransferKey};
use sct_site::{History, Track};
use std::alloc::Global;
use std::io::Write;
use std::marker::Brand;
use std::sync::{Arc, Wait};
use std::thread;
use std::thread::Threads;
use std::time::{Clock, Duration, Instant};

/// An asker asks at most this often.
const MOST_ANSWERS: u64 = 20_000_000;

// The credit transfer of this number, if there is memory.
fn credit_transfer(alloc: Global, number: u64) -> Option<Arc<Message>> {
    let text = format!(in alloc;
        r#"{{"MsgNmId":"pacs.008","MsgId":"M{number}","CreDtTm":"2024-05-02T10:00:00Z","InstgAgt":"BANKDEFF","IntrBkSttlmDt":"2024-05-02","SvcLvl":"SEPA","LclInstrm":"INST","EndToEndId":"E1","TxId":"T{number}","IntrBkSttlmAmt":"1.00","Ccy":"EUR","ChrgBr":"SLEV","Dbtr":"Anna Weber","DbtrAcct":"DE89370400440532013000","DbtrAgt":"BANKDEFF","CdtrAgt":"BANQFRPP","Cdtr":"Bo Maes","CdtrAcct":"BE68539007547034"}}"#
    );
    let message = read_message(alloc, text.ok()?.as_bytes()).ok()?;
    Arc::new(alloc, message).ok()
}

// The key of the credit transfer of this number.
fn transfer(alloc: Global, number: u64) -> Result<TransferKey> {
    Ok(TransferKey {
        debtor_agent: Bic::read("BANKDEFF")?,
        tx: Id35::read(&format!(in alloc; "T{number}")?)?,
    })
}

// Takes the credit transfers up to a number, and returns how long each take lasted.
fn take_all<J: Site, H: Wait + Drop, R: Wait + Clock>(
    rt: &R,
    alloc: Global,
    desk: &Desk<J, H>,
    count: u64,
) -> Option<Vec<Duration>> {
    let mut times = Vec::new(alloc);
    for at in 0..count {
        let message = credit_transfer(alloc, at + 1)?;
        let start = Instant::now(rt).ok()?;
        let _taken = desk.take(rt, alloc, message).ok()?;
        times.push(start.elapsed(rt).ok()?).ok()?;
    }
    Some(times)
}

// Asks for the status of a transfer. Returns whether it is known, and how long the answer took.
fn ask<R: Clock>(
    rt: &R,
    alloc: Global,
    query: &mut Query,
    transfer: &TransferKey,
) -> Option<(bool, Duration)> {
    let start = Instant::now(rt).ok()?;
    let answer = query.status(alloc, transfer).ok()?;
    let time = start.elapsed(rt).ok()?;
    Some((answer.value != Status::Unknown, time))
}

// Asks until the transfer is known, and returns how long each answer took.
fn ask_on<R: Clock>(
    rt: &R,
    alloc: Global,
    mut query: Query,
    transfer: &TransferKey,
) -> Option<(Query, Vec<Duration>)> {
    let mut times = Vec::new(alloc);
    for _ in 0..MOST_ANSWERS {
        let (is_known, time) = ask(rt, alloc, &mut query, transfer)?;
        times.push(time).ok()?;
        if is_known {
            return Some((query, times));
        }
        thread::yield_now();
    }
    None
}

// Asks this number of times, and returns how long each answer took.
fn ask_again<R: Clock>(
    rt: &R,
    alloc: Global,
    query: &mut Query,
    transfer: &TransferKey,
    count: usize,
) -> Option<Vec<Duration>> {
    let mut times = Vec::new(alloc);
    for _ in 0..count {
        times.push(ask(rt, alloc, query, transfer)?.1).ok()?;
        thread::yield_now();
    }
    Some(times)
}

// Prints times, each after a word.
fn print_times<W: Write>(alloc: Global, out: &mut W, word: &str, times: &[Duration]) -> Result<()> {
    for time in times {
        let line = format!(in alloc; "{word} {}\n", time.as_nanos())?;
        out.write_all(line.as_bytes())?;
    }
    Ok(())
}

// Takes `count` credit transfers at a new desk while another thread asks, and prints how long each call lasted.
fn time_desk<J: Site + Send + Sync, R: Threads + Wait + Clock + Sync, W: Write>(
    rt: &R,
    alloc: Global,
    history: History,
    track: Track,
    count: u64,
    out: &mut W,
) -> Result<()>
    requires history { history ≡ J.book }
    requires track { (track.book ≡ J.book) × (track.log ≡ []) }
    requires site { (1 ≡ J.number) × (1 ≡ J.group) }
{
    let Ok((desk, mut queries)) = Desk::<J, &R>::open(rt, alloc, history, track, 1, 1, 1) else {
        bail!("no desk");
    };
    let Some(query) = queries.pop() else {
        bail!("no query");
    };
    let last = transfer(alloc, count)?;
    let (asked, taken) = thread::join(
        rt,
        || ask_on(rt, alloc, query, &last),
        || take_all(rt, alloc, &desk, count),
    );
    let Some((mut query, busy)) = asked else {
        bail!("the last transfer was not seen");
    };
    let Some(takes) = taken else {
        bail!("a take was refused");
    };
    let Some(quiet) = ask_again(rt, alloc, &mut query, &last, busy.len()) else {
        bail!("an answer was refused");
    };
    print_times(alloc, out, "take", &takes)?;
    print_times(alloc, out, "busy", &busy)?;
    print_times(alloc, out, "quiet", &quiet)
}

/// Takes a number of credit transfers at a new desk while another thread asks, and prints how long each call lasted.
pub fn try_times<R: Threads + Wait + Clock + Sync, W: Write>(
    rt: &R,
    alloc: Global,
    count: u64,
    out: &mut W,
) -> Result<()> {
    let (history, track) = History::open();
    time_desk::<Brand, R, W>(rt, alloc, history, track, count, out)
}
