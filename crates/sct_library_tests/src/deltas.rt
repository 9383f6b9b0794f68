//! Logs that join deltas. `tests/golden/delta_texts.py` and `tests/data/exchange/exchanges.txt` have what sites accept and refuse.

use sct_delta::{Delta, Entry, Logs};
use sct_json::read_message;
use std::alloc::Global;
use std::sync::Arc;
use std::test::Fail;

const FIRST: &str =
    r#"{"MsgNmId":"pacs.002","MsgId":"C1","CreDtTm":"2024-05-02T10:00:02Z","InstgAgt":"BANQFRPP","OrgnlMsgId":"M1","OrgnlMsgNmId":"pacs.008","OrgnlTxId":"T1","TxSts":"ACCP","DbtrAgt":"BANKDEFF"}"#;

const SECOND: &str =
    r#"{"MsgNmId":"pacs.002","MsgId":"C2","CreDtTm":"2024-05-02T10:00:02Z","InstgAgt":"BANQFRPP","OrgnlMsgId":"M1","OrgnlMsgNmId":"pacs.008","OrgnlTxId":"T1","TxSts":"ACCP","DbtrAgt":"BANKDEFF"}"#;

const THIRD: &str =
    r#"{"MsgNmId":"pacs.002","MsgId":"C3","CreDtTm":"2024-05-02T10:00:02Z","InstgAgt":"BANQFRPP","OrgnlMsgId":"M1","OrgnlMsgNmId":"pacs.008","OrgnlTxId":"T1","TxSts":"ACCP","DbtrAgt":"BANKDEFF"}"#;

// Entries of site 1: their numbers and their messages.
static TWO: [(u64, &str); 2] = [(1, FIRST), (2, SECOND)];

static THREE: [(u64, &str); 3] = [(1, FIRST), (2, SECOND), (3, THIRD)];

fn push_entry(alloc: Global, entries: &mut Vec<Entry>, n: u64, text: &str) -> Result<(), Fail> {
    let message = Arc::new(alloc, read_message(alloc, text.as_bytes())?)?;
    entries.push(Entry {
        origin: 1,
        n,
        message,
    })?;
    Ok(())
}

fn delta_of(alloc: Global, rows: &[(u64, &str)]) -> Result<Delta, Fail> {
    let mut entries = Vec::new(alloc);
    for (n, text) in rows {
        push_entry(alloc, &mut entries, *n, text)?;
    }
    Ok(Delta::of(entries)?)
}

// How many of the entries are new to site 2, whose logs join them.
fn joined(alloc: Global, logs: &mut Logs, rows: &[(u64, &str)]) -> Result<u64, Fail> {
    let delta = delta_of(alloc, rows)?;
    logs.reserve(&delta)?;
    Ok(logs.join(2, delta)?)
}

#[test]
fn joins_what_is_not_held(rt: HostRuntime) -> Result<(), Fail> {
    let mut logs = Logs::new(rt.alloc(), 3)?;
    assert_eq!(rt; joined(rt.alloc(), &mut logs, &TWO)?, 2);
    assert_eq!(rt; joined(rt.alloc(), &mut logs, &TWO)?, 0);
    assert_eq!(rt; joined(rt.alloc(), &mut logs, &THREE)?, 1);
    assert_eq!(rt; logs.vector().get(1), 3);
    Ok(())
}
