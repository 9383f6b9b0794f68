//! Findings and recalls by the calls that the program does not make. `tests/data/cases/contradictions.txt` has each finding.

use crate::texts::messages_of;
use sct_case::{Finding, RecallStatus, findings, recall_status};
use sct_element::{Bic, ElementFault, Id35};
use sct_message::{Message, TransferKey};
use sct_view::View;
use std::alloc::Global;
use std::sync::Arc;
use std::test::Fail;

// An accepted transfer, and a recall that names another amount.
static MESSAGES: [&str; 3] = [
    r#"{"MsgNmId":"pacs.008","MsgId":"M1","CreDtTm":"2024-05-02T10:00:00Z","InstgAgt":"BANKDEFF","IntrBkSttlmDt":"2024-05-02","SvcLvl":"SEPA","LclInstrm":"INST","EndToEndId":"E1","TxId":"T1","IntrBkSttlmAmt":"100.00","Ccy":"EUR","ChrgBr":"SLEV","Dbtr":"Anna Weber","DbtrAcct":"DE89370400440532013000","DbtrAgt":"BANKDEFF","CdtrAgt":"BANQFRPP","Cdtr":"Bo Maes","CdtrAcct":"BE68539007547034"}"#,
    r#"{"MsgNmId":"pacs.002","MsgId":"C1","CreDtTm":"2024-05-02T10:00:02Z","InstgAgt":"BANQFRPP","OrgnlMsgId":"M1","OrgnlMsgNmId":"pacs.008","OrgnlTxId":"T1","TxSts":"ACCP","DbtrAgt":"BANKDEFF"}"#,
    r#"{"MsgNmId":"camt.056","MsgId":"K1","CreDtTm":"2024-05-03T09:00:00Z","InstgAgt":"BANKDEFF","CxlId":"R1","OrgnlMsgId":"M1","OrgnlMsgNmId":"pacs.008","OrgnlTxId":"T1","OrgnlIntrBkSttlmAmt":"90.00","Ccy":"EUR","Rsn":"FRAD","DbtrAgt":"BANKDEFF"}"#,
];

fn transfer() -> Result<TransferKey, ElementFault> {
    Ok(TransferKey {
        debtor_agent: Bic::read("BANKDEFF")?,
        tx: Id35::read("T1")?,
    })
}

// Whether the only finding on the transfer is that an amount differs.
fn finds_the_amount(alloc: Global, clean: &[Arc<Message>]) -> Result<bool, Fail> {
    let found = findings(alloc, &transfer()?, clean, &[])?;
    Ok(matches!(found.as_slice(), [Finding::AmountDiffers]))
}

// The status of the recall R1.
fn recalled(alloc: Global, clean: &[Arc<Message>]) -> Result<RecallStatus, Fail> {
    Ok(recall_status(alloc, &transfer()?, clean, &[], &Id35::read("R1")?)?)
}

#[test]
fn finds_what_contradicts_itself(rt: HostRuntime) -> Result<(), Fail> {
    let clean = messages_of(rt.alloc(), &MESSAGES)?;
    assert!(rt; finds_the_amount(rt.alloc(), &clean)?);
    assert!(rt; recalled(rt.alloc(), &clean)? == RecallStatus::Contradicted);
    assert!(rt; recalled(rt.alloc(), &[])? == RecallStatus::Unknown);
    Ok(())
}

// Whether the view lists the recall of the transfer, and the finding.
fn lists(view: &View) -> Result<bool, Fail> {
    let recalls = view.recalls_of(&transfer()?)?;
    let found = view.all_findings()?;
    let is_listed = match recalls.as_slice() {
        [recall] => recall.text() == "R1",
        _ => false,
    };
    Ok(is_listed && matches!(found.as_slice(), [(_, Finding::AmountDiffers)]))
}

#[test]
fn lists_recalls_and_findings(rt: HostRuntime) -> Result<(), Fail> {
    let mut view = View::new(rt.alloc());
    view.apply(&messages_of(rt.alloc(), &MESSAGES)?)?;
    assert!(rt; lists(&view)?);
    Ok(())
}
