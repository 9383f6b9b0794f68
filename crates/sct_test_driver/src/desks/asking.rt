//! The answers of a desk's query, one line each. The query stays that of its site.

ghost use Rattle.std.specs.Prelude.{◌≡◌};

use super::texts::fault_text;
use anyhow::Result;
use sct_desk::{Answer, Query};
use sct_element::{Bic, Id35};
use sct_message::{RecallKey, TransferKey};
use std::alloc::Global;

// The transfer T1 of BANKDEFF.
fn first_transfer() -> Result<TransferKey> {
    Ok(TransferKey {
        debtor_agent: Bic::read("BANKDEFF")?,
        tx: Id35::read("T1")?,
    })
}

/// The status of the transfer T1 of BANKDEFF.
pub fn status_text(alloc: Global, query: &mut Query) -> Result<String>
    ensures { (query.new.site ≡ query.old.site) × (query.new.book ≡ query.old.book) }
{
    match query.status(alloc, &first_transfer()?) {
        Ok(Answer { value, front }) => Ok(format!(in alloc; "{value:?} {front}\n")?),
        Err(fault) => fault_text(alloc, &fault),
    }
}

/// The number of findings on the transfer T1 of BANKDEFF.
pub fn findings_text(alloc: Global, query: &mut Query) -> Result<String>
    ensures { (query.new.site ≡ query.old.site) × (query.new.book ≡ query.old.book) }
{
    match query.findings(alloc, &first_transfer()?) {
        Ok(Answer { value, front }) => Ok(format!(in alloc; "{} {front}\n", value.len())?),
        Err(fault) => fault_text(alloc, &fault),
    }
}

/// The status of the recall of the transfer T1 with this identification.
pub fn recall_text(alloc: Global, query: &mut Query, cxl: &str) -> Result<String>
    ensures { (query.new.site ≡ query.old.site) × (query.new.book ≡ query.old.book) }
{
    let recall = RecallKey {
        transfer: first_transfer()?,
        cxl: Id35::read(cxl)?,
    };
    match query.recall(&recall) {
        Ok(Answer { value, front }) => Ok(format!(in alloc; "{value:?} {front}\n")?),
        Err(fault) => fault_text(alloc, &fault),
    }
}

/// How many transfers BANKDEFF sent, and how many cents.
pub fn totals_text(alloc: Global, query: &mut Query) -> Result<String>
    ensures { (query.new.site ≡ query.old.site) × (query.new.book ≡ query.old.book) }
{
    match query.totals(&Bic::read("BANKDEFF")?) {
        Ok(Answer { value, front }) => {
            Ok(format!(in alloc; "{} {} {front}\n", value.sent, value.sent_cents)?)
        }
        Err(fault) => fault_text(alloc, &fault),
    }
}
