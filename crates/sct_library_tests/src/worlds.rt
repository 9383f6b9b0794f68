//! Answers and reports of a site after events. `tests/data/cases/scripts.txt` has what else events bring.

use crate::texts::messages_of;
use sct_delta::Vector;
use sct_element::{Bic, Day};
use sct_message::Identity;
use sct_reconcile::List;
use sct_world::*;
use std::alloc::Global;
use std::test::Fail;
use std::thread::Threads;

// Site 1 takes an instruction and its confirmation.
static TAKEN: [&str; 2] = [
    r#"{"MsgNmId":"pacs.008","MsgId":"M1","CreDtTm":"2024-05-02T10:00:00Z","InstgAgt":"BANKDEFF","IntrBkSttlmDt":"2024-05-02","SvcLvl":"SEPA","LclInstrm":"INST","EndToEndId":"E1","TxId":"T1","IntrBkSttlmAmt":"10.00","Ccy":"EUR","ChrgBr":"SLEV","Dbtr":"Anna Weber","DbtrAcct":"DE89370400440532013000","DbtrAgt":"BANKDEFF","CdtrAgt":"BANQFRPP","Cdtr":"Bo Maes","CdtrAcct":"BE68539007547034"}"#,
    r#"{"MsgNmId":"pacs.002","MsgId":"C1","CreDtTm":"2024-05-02T10:00:02Z","InstgAgt":"BANQFRPP","OrgnlMsgId":"M1","OrgnlMsgNmId":"pacs.008","OrgnlTxId":"T1","TxSts":"ACCP","DbtrAgt":"BANKDEFF"}"#,
];

// Site 3 takes another message under the identity of the confirmation.
static DISPUTED: [&str; 1] = [
    r#"{"MsgNmId":"pacs.002","MsgId":"C1","CreDtTm":"2024-05-02T10:00:02Z","InstgAgt":"BANQFRPP","OrgnlMsgId":"M1","OrgnlMsgNmId":"pacs.008","OrgnlTxId":"T2","TxSts":"ACCP","DbtrAgt":"BANKDEFF"}"#,
];

static ACCEPTED: &str = "T|BANKDEFFXXX|T1|ACCEPTED\n";

static CONTRADICTED: &str =
    "T|BANKDEFFXXX|T1|CONTRADICTED\nF|BANKDEFFXXX|T1|Identity|BANQFRPPXXX|pacs.002|C1\nT|BANKDEFFXXX|T2|CONTRADICTED\nF|BANKDEFFXXX|T2|Identity|BANQFRPPXXX|pacs.002|C1\n";

static LIST: &str = "DbtrAgt,TxId,Amt,Sts\nBANKDEFF,T1,10,ACCEPTED\nBANKDEFF,T3,5.00,ACCEPTED\n";

static REPORT: &str =
    "DbtrAgt,TxId,Result,ListAmt,ListSts,Amt,Sts\nBANKDEFFXXX,T1,MATCHED,10.00,ACCEPTED,10.00,ACCEPTED\nBANKDEFFXXX,T3,ONLY_IN_LIST,5.00,ACCEPTED,,UNKNOWN\n";

// Appends events in which a site takes the messages.
fn push_takes(
    alloc: Global,
    events: &mut Vec<Event>,
    site: u16,
    texts: &[&str],
) -> Result<(), Fail> {
    for message in messages_of(alloc, texts)? {
        events.push(Event::Take { site, message })?;
    }
    Ok(())
}

// All that site 1 took is handed to the sites 2 and 3.
fn events(alloc: Global) -> Result<Vec<Event>, Fail> {
    let mut events = Vec::new(alloc);
    push_takes(alloc, &mut events, 1, &TAKEN)?;
    push_takes(alloc, &mut events, 3, &DISPUTED)?;
    let vector = Vector::of(alloc, &[])?;
    events.push(Event::Cut { site: 1, vector })?;
    events.push(Event::Hand { delta: 1, site: 2 })?;
    events.push(Event::Hand { delta: 1, site: 3 })?;
    Ok(events)
}

// Whether one identity is contradicted, that of the confirmation.
fn is_disputed(found: &[Identity]) -> bool {
    match found {
        [one] => one.msg_id.text() == "C1",
        _ => false,
    }
}

// Whether a site of three has this status text, and whether its one contradicted identity is that of the confirmation.
fn answers(alloc: Global, site: u16, statuses: &str) -> Result<(bool, bool), Fail> {
    let after = answers_after(alloc, 3, &events(alloc)?, site)?;
    Ok((
        after.answers.statuses.as_slice() == statuses.as_bytes(),
        is_disputed(&after.contradictions),
    ))
}

#[test]
fn a_site_answers_after_events(rt: HostRuntime) -> Result<(), Fail> {
    assert_eq!(rt; answers(rt.alloc(), 2, ACCEPTED)?, (true, false));
    assert_eq!(rt; answers(rt.alloc(), 3, CONTRADICTED)?, (true, true));
    Ok(())
}

// The text of the report of a site of three.
fn reported(rt: &(impl Threads + Sync), alloc: Global, site: u16) -> Result<Vec<u8>, Fail> {
    let list = List::read(alloc, LIST.as_bytes())?;
    let (bank, day) = (Bic::read("BANKDEFF")?, Day::read("2024-05-02")?);
    let report = report_after(rt, alloc, 3, &events(alloc)?, site, &bank, &day, &list)?;
    Ok(report.write()?)
}

#[test]
fn a_site_reports_after_events(rt: HostRuntime) -> Result<(), Fail> {
    assert_eq!(rt; reported(&rt, rt.alloc(), 2)?.as_slice(), REPORT.as_bytes());
    Ok(())
}
