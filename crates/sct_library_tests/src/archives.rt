//! An index of lists, and an archive that is split by a day. `tests/data/cases/kept.txt` has what is kept.

use crate::texts::messages_of;
use indexmap::IndexMap;
use sct_element::Day;
use sct_keep::split_archive;
use sct_set::Archive;
use sct_set::buckets::{file, unfile};
use std::alloc::Global;
use std::test::Fail;

#[test]
fn a_key_goes_with_its_last_item(rt: HostRuntime) {
    let mut index = IndexMap::new(rt.alloc());
    assert!(rt; file(rt.alloc(), &mut index, 7u32, 'a').is_ok());
    assert!(rt; file(rt.alloc(), &mut index, 7u32, 'b').is_ok());
    unfile(&mut index, &7u32);
    assert_eq!(rt; index.len(), 1);
    unfile(&mut index, &7u32);
    assert_eq!(rt; index.len(), 0);
}

// T1 is accepted before the day. T2 is pending.
static MESSAGES: [&str; 3] = [
    r#"{"MsgNmId":"pacs.008","MsgId":"M1","CreDtTm":"2024-05-02T10:00:00Z","InstgAgt":"BANKDEFF","IntrBkSttlmDt":"2024-05-02","SvcLvl":"SEPA","LclInstrm":"INST","EndToEndId":"E1","TxId":"T1","IntrBkSttlmAmt":"1.00","Ccy":"EUR","ChrgBr":"SLEV","Dbtr":"Anna Weber","DbtrAcct":"DE89370400440532013000","DbtrAgt":"BANKDEFF","CdtrAgt":"BANQFRPP","Cdtr":"Bo Maes","CdtrAcct":"BE68539007547034"}"#,
    r#"{"MsgNmId":"pacs.002","MsgId":"C1","CreDtTm":"2024-05-02T10:00:02Z","InstgAgt":"BANQFRPP","OrgnlMsgId":"M1","OrgnlMsgNmId":"pacs.008","OrgnlTxId":"T1","TxSts":"ACCP","DbtrAgt":"BANKDEFF"}"#,
    r#"{"MsgNmId":"pacs.008","MsgId":"M2","CreDtTm":"2024-05-02T10:00:00Z","InstgAgt":"BANKDEFF","IntrBkSttlmDt":"2024-05-02","SvcLvl":"SEPA","LclInstrm":"INST","EndToEndId":"E1","TxId":"T2","IntrBkSttlmAmt":"1.00","Ccy":"EUR","ChrgBr":"SLEV","Dbtr":"Anna Weber","DbtrAcct":"DE89370400440532013000","DbtrAgt":"BANKDEFF","CdtrAgt":"BANQFRPP","Cdtr":"Bo Maes","CdtrAcct":"BE68539007547034"}"#,
];

// How many messages are kept, and how many are closed.
fn sizes(alloc: Global) -> Result<(usize, usize), Fail> {
    let mut archive = Archive::new(alloc);
    archive.add_all(&messages_of(alloc, &MESSAGES)?)?;
    let parts = split_archive(alloc, &archive, &Day::read("2024-05-03")?)?;
    Ok((parts.kept.len(), parts.closed.len()))
}

#[test]
fn splits_an_archive(rt: HostRuntime) -> Result<(), Fail> {
    assert_eq!(rt; sizes(rt.alloc())?, (1, 2));
    Ok(())
}
