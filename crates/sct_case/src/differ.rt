//! Statements about one transfer, compared with each other.
ghost use Rattle.std.specs.Prelude.{◌≡◌, ◌&&◌, ℕ, List, Bool, IfOk, map, find, not, nat_eq};
ghost use Rattle.std.specs.List.{list_any};
ghost use Rattle.std.specs.Option.{option_copied};
ghost use Rattle.sct_reason.specs.Codes.{reason_text};
ghost use Rattle.sct_message.specs.Ascending.{ascending};
ghost use Rattle.sct_element.specs.Text.{is_text};
ghost use Rattle.sct_message.specs.Order.{text_order};
ghost use Rattle.sct_case.specs.Inside.{IsByRecall};
ghost use Rattle.sct_case.specs.Statuses.{first};
ghost use Rattle.sct_case.specs.Told.{same_reason, same_recall_made, same_return, same_refusal, differ, differ_among, cxls};

use crate::recall_order::on;
use crate::said::{RecallAsked, RecallMade, RefusalMade, RejectionReason, ReturnMade};
use sct_element::Id35;
use std::alloc::{AllocError, Global};

/// A statement that is compared in all its parts.
pub(crate) trait Compared: Drop {
    ghost same: { Self → Self → Bool };

    fn is_same(&self, other: &Self) -> bool
        ensures { result ≡ same self.now other.now };
}

/// A statement about one recall.
pub(crate) trait OfRecall: Drop {
    ghost recall: { Self → List ℕ };

    /// The identification of the recall.
    fn cxl(&self) -> &Id35
        ensures { result.now ≡ recall self.now };
}

impl Compared for RejectionReason {
    ghost same = { same_reason };

    fn is_same(&self, other: &Self) -> bool {
        self.reason.text() == other.reason.text()
    }
}

impl Compared for RecallMade {
    ghost same = { same_recall_made };

    fn is_same(&self, other: &Self) -> bool {
        self.cxl.text() == other.cxl.text()
            && self.amount.cents() == other.amount.cents()
            && self.reason.text() == other.reason.text()
    }
}

impl Compared for ReturnMade {
    ghost same = { same_return };

    fn is_same(&self, other: &Self) -> bool {
        self.return_id.text() == other.return_id.text()
            && self.cxl.text() == other.cxl.text()
            && self.amount.cents() == other.amount.cents()
    }
}

impl Compared for RefusalMade {
    ghost same = { same_refusal };

    fn is_same(&self, other: &Self) -> bool {
        self.cxl.text() == other.cxl.text() && self.reason.text() == other.reason.text()
    }
}

impl OfRecall for RecallMade {
    ghost recall = { λ m. m.cxl };

    fn cxl(&self) -> &Id35 {
        &self.cxl
    }
}

impl OfRecall for ReturnMade {
    ghost recall = { λ m. m.cxl };

    fn cxl(&self) -> &Id35 {
        &self.cxl
    }
}

impl OfRecall for RefusalMade {
    ghost recall = { λ m. m.cxl };

    fn cxl(&self) -> &Id35 {
        &self.cxl
    }
}

impl OfRecall for RecallAsked {
    ghost recall = { λ m. m.cxl };

    fn cxl(&self) -> &Id35 {
        &self.cxl
    }
}

/// The first statement, or none.
pub(crate) fn first<S>(said: &[S]) -> Option<&S>
    ensures { option_copied result ≡ first said.now }
{
    said.first()
}

/// Whether a statement differs from `one`.
fn differs<S: Compared>(said: &[S], one: &S) -> bool
    ensures { result ≡ list_any (λ other. not (S.same one.now other)) said.now }
{
    said.iter().any(|other| !one.is_same(other))
}

/// Whether two statements differ.
pub(crate) fn differ<S: Compared>(said: &[S]) -> bool
    ensures { result ≡ differ S.same said.now }
{
    match said.first() {
        Some(one) => differs(said, one),
        None => false,
    }
}

/// The first statement about a recall, or none.
pub(crate) fn first_on<'a, S: OfRecall>(said: &'a [S], cxl: &Id35) -> Option<&'a S>
    requires { IsByRecall S.recall said.now }
    ensures { option_copied result ≡ find (λ m. is_text (S.recall m) cxl.now) said.now }
{
    first(on(said, cxl))
}

/// Whether there is a statement about a recall.
pub(crate) fn is_some_on<S: OfRecall>(said: &[S], cxl: &Id35) -> bool
    requires { IsByRecall S.recall said.now }
    ensures { result ≡ list_any (λ m. is_text (S.recall m) cxl.now) said.now }
{
    !on(said, cxl).is_empty()
}

/// Whether two statements about a recall differ.
pub(crate) fn differ_on<S: Compared + OfRecall>(said: &[S], cxl: &Id35) -> bool
    requires { IsByRecall S.recall said.now }
    ensures { result ≡ differ_among (λ m. is_text (S.recall m) cxl.now) S.same said.now }
{
    differ(on(said, cxl))
}

/// The recall of each statement, in the order of the statements.
fn cxls_as_said<S: OfRecall>(alloc: Global, said: &[S]) -> Result<Vec<Id35>, AllocError>
    ensures { IfOk result (λ found. found.items ≡ map S.recall said.now) }
{
    said.iter().map(|one| one.cxl().copy()).collect(alloc)
}

/// The recalls that statements are about, each once, ascending.
pub(crate) fn cxls<S: OfRecall>(alloc: Global, said: &[S]) -> Result<Vec<Id35>, AllocError>
    ensures { IfOk result (λ found. found.items ≡ cxls (map S.recall said.now)) }
{
    let mut found = cxls_as_said(alloc, said)?;
    found.sort()?;
    found.dedup();
    Ok(found)
}
