//! The rows of the reason table that no answer shows. `tests/data/cases/reasons.txt` has those that are usual for a rejection, and for
//! the refusal of a recall.

use sct_reason::*;
use std::process::Abort;

static LISTED: [&str; 40] = [
    "AB05", "AB06", "AB07", "AB08", "AB09", "AB10", "AC01", "AC03", "AC04", "AC06", "AG01", "AG02",
    "AG09", "AG10", "AG11", "AM02", "AM04", "AM05", "AM09", "AM23", "ARDT", "BE04", "CUST", "DUPL",
    "FF01", "FOCR", "FRAD", "LEGL", "MD07", "MS02", "MS03", "NOAS", "NOOR", "RC01", "RR01", "RR02",
    "RR03", "RR04", "TECH", "TM01",
];

static RECALLS: [&str; 6] = ["DUPL", "TECH", "FRAD", "CUST", "AC03", "AM09"];

static RETURNS: [&str; 1] = ["FOCR"];

static UNLISTED: [&str; 4] = ["ZZ9", "A", "9", "ABCD"];

/// The reason of a code.
fn reason(rt: &impl Abort, code: &str) -> Reason {
    let Some(reason) = Reason::read(code) else {
        panic!(rt; "no reason at {code}");
    };
    reason
}

/// Asserts that the reasons of a row are usual in its use, and that no others are.
fn assert_row(rt: &impl Abort, purpose: Use, row: &[&str]) {
    for code in &LISTED {
        let is_in_row = row.iter().any(|usual| usual == code);
        assert_eq!(rt;
            reason(rt, code).is_usual(purpose),
            is_in_row,
            "{code}, {purpose:?}"
        );
    }
    for code in &UNLISTED {
        assert!(rt; !reason(rt, code).is_usual(purpose), "{code}, {purpose:?}");
    }
}

#[test]
fn tells_usual_reasons(rt: HostRuntime) {
    assert_row(&rt, Use::Recall, &RECALLS);
    assert_row(&rt, Use::Return, &RETURNS);
}

static CLASSES: [(&str, RecallClass); 8] = [
    ("TECH", RecallClass::Bank),
    ("DUPL", RecallClass::Bank),
    ("FRAD", RecallClass::Bank),
    ("CUST", RecallClass::Originator),
    ("AC03", RecallClass::Originator),
    ("AM09", RecallClass::Originator),
    ("AC04", RecallClass::Unlisted),
    ("ZZ9", RecallClass::Unlisted),
];

#[test]
fn tells_who_asks_for_a_recall(rt: HostRuntime) {
    for (code, class) in &CLASSES {
        assert_eq!(rt; reason(&rt, code).recall_class(), *class, "{code}");
    }
}
