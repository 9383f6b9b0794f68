//! The texts of the rules of messages, and the rules that no line can break, since its reading ends before: the name of another kind, and
//! lists of no transaction and of more than 100. `tests/data/cases/faults.txt` and `tests/golden/made_inputs.py` have the other rules.

use sct_element::{Amount, Bic, Code4, ElementFault, Id35, Stamp};
use sct_message::*;
use sct_reason::Reason;
use std::alloc::Global;
use std::test::Fail;

static FAULTS: [(RuleFault, u8, &str); 14] = [
    (
        RuleFault::WrongName,
        10,
        "the message name is of another kind",
    ),
    (RuleFault::WrongCurrency, 11, "the currency is not EUR"),
    (RuleFault::WrongService, 12, "the service level is not SEPA"),
    (
        RuleFault::WrongInstrument,
        13,
        "the local instrument is not INST",
    ),
    (RuleFault::WrongCharge, 14, "the charge bearer is not SLEV"),
    (
        RuleFault::WrongStatus,
        15,
        "the status is neither ACCP nor RJCT",
    ),
    (RuleFault::ReasonMissing, 16, "a rejection has no reason"),
    (
        RuleFault::ReasonUnasked,
        17,
        "a positive confirmation has a reason",
    ),
    (
        RuleFault::ReturnAboveOriginal,
        18,
        "the returned amount is above the original amount",
    ),
    (
        RuleFault::WrongReturnReason,
        19,
        "the reason of the return is not FOCR",
    ),
    (RuleFault::WrongAnswer, 20, "the confirmation is not RJCR"),
    (
        RuleFault::WrongOriginalName,
        21,
        "the original message name is of a wrong kind",
    ),
    (RuleFault::RepeatedRecall, 22, "a recall is named twice"),
    (
        RuleFault::WrongCount,
        23,
        "the number of transactions is not 1 to 100",
    ),
];

#[test]
fn rules_have_their_numbers_and_texts(rt: HostRuntime) -> Result<(), Fail> {
    for (fault, number, text) in &FAULTS {
        assert_eq!(rt; fault.number(), *number, "{fault:?}");
        let told = format!(in rt.alloc(); "{fault}")?;
        assert_eq!(rt; told.as_str(), *text);
    }
    Ok(())
}

/// A transaction after those of other recalls: its recall, what it recalls, and its currency.
type Last = (&'static str, &'static str, &'static str);

/// A message name, how many transactions of the recalls R1, R2 and so on of one transfer are in its list, the transactions after them,
/// and the first rule that the message breaks, or 0.
static RULES: [(&str, usize, &[Last], u8); 12] = [
    ("camt.029", 0, &[], 10),
    ("camt.029", 101, &[], 10),
    ("camt.056", 0, &[], 23),
    ("camt.056", 100, &[], 0),
    ("camt.056", 101, &[], 23),
    ("camt.056", 200, &[], 23),
    ("camt.056", 100, &[("R1", "pacs.008", "EUR")], 22),
    ("camt.056", 200, &[("R50", "pacs.008", "EUR")], 22),
    ("camt.056", 100, &[("R101", "pacs.008", "EUR")], 23),
    ("camt.056", 101, &[("R0", "pacs.008", "USD")], 11),
    ("camt.056", 101, &[("R00", "pacs.004", "EUR")], 21),
    (
        "camt.056",
        101,
        &[("R1", "pacs.008", "EUR"), ("R00", "pacs.004", "EUR")],
        21,
    ),
];

fn head(name: &str) -> Result<Head, ElementFault> {
    Ok(Head {
        message_name: Id35::read(name)?,
        message_id: Id35::read("K1")?,
        creation_time: Stamp::read("2024-05-03T09:00:00Z")?,
        instructing_agent: Bic::read("BANKDEFF")?,
        instructed_agent: None,
    })
}

fn original(name: &str) -> Result<Original, ElementFault> {
    Ok(Original {
        message_id: Id35::read("M1")?,
        message_name: Id35::read(name)?,
        end_to_end_id: None,
        transaction_id: Id35::read("T1")?,
    })
}

fn transaction(cxl: &str, name: &str, currency: &str) -> Result<RecallTx, ElementFault> {
    Ok(RecallTx {
        cancellation_id: Id35::read(cxl)?,
        original: original(name)?,
        original_amount: Amount::read("9.00")?,
        currency: Code4::read(currency)?,
        original_settlement_date: None,
        reason: Reason::read("FRAD").ok_or(ElementFault::BadCode)?,
        debtor_agent: Bic::read("BANKDEFF")?,
    })
}

fn push_numbered(txs: &mut Vec<RecallTx>, alloc: Global, count: usize) -> Result<(), Fail> {
    for number in 1..=count {
        let cxl = format!(in alloc; "R{number}")?;
        txs.push(transaction(cxl.as_str(), "pacs.008", "EUR")?)?;
    }
    Ok(())
}

fn push_last(txs: &mut Vec<RecallTx>, last: &[Last]) -> Result<(), Fail> {
    for (cxl, name, currency) in last {
        txs.push(transaction(cxl, name, currency)?)?;
    }
    Ok(())
}

/// The number of the first rule that a message of these transactions breaks, or 0.
fn broken(alloc: Global, name: &str, count: usize, last: &[Last]) -> Result<u8, Fail> {
    let mut txs = Vec::new(alloc);
    push_numbered(&mut txs, alloc, count)?;
    push_last(&mut txs, last)?;
    let recalls = CancellationRequest {
        head: head(name)?,
        txs,
    };
    let draft = Draft::CancellationRequest(Boxed::new(alloc, recalls)?);
    Ok(Message::of(draft).err().map_or(0, RuleFault::number))
}

#[test]
fn tells_the_first_rule_that_a_list_breaks(rt: HostRuntime) -> Result<(), Fail> {
    for (name, count, last, number) in &RULES {
        assert_eq!(rt;
            broken(rt.alloc(), name, *count, last)?,
            *number,
            "{name} and {count}"
        );
    }
    Ok(())
}
