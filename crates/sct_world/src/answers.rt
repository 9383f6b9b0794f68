//! The answers of a site about the messages that it holds.

ghost use Rattle.std.specs.Prelude.{◌≡◌, IfOk};
ghost use Rattle.sct_reconcile.specs.Reports.{report_of};
ghost use Rattle.sct_set.specs.Archive.{archive_text_of};
ghost use Rattle.sct_view.specs.StatusText.{status_text_of};
ghost use Rattle.sct_view.specs.TotalsText.{totals_text_of};

use sct_element::{Bic, Day};
use sct_reconcile::{List, Report, reconcile};
use sct_set::Archive;
use sct_view::View;
use std::alloc::{AllocError, Global};
use std::thread::Threads;

/// The answers of a site: three texts about the messages that it holds.
#[derive(Drop)]
pub struct Answers {
    /// The archive text: one line for each message.
    pub archive: Vec<u8>,
    /// The status text: the status of each transfer and of each recall, and the findings.
    pub statuses: Vec<u8>,
    /// The totals text: the totals of each bank.
    pub totals: Vec<u8>,
}

// A view of the messages of an archive. It shares the messages.
fn view_of(alloc: Global, archive: &Archive) -> Result<View, AllocError>
    ensures { IfOk result (λ view. view ≡ archive.now) }
{
    let mut shared = Archive::new(alloc);
    shared.merge(archive)?;
    Ok(View::of(alloc, shared)?)
}

// The texts of the messages of an archive and of a view.
fn texts_of(archive: &Archive, view: &View) -> Result<Answers, AllocError>
    ensures archive { IfOk result (λ answers. answers.archive.items ≡ archive_text_of archive.now) }
    ensures statuses { IfOk result (λ answers. answers.statuses.items ≡ status_text_of view.now) }
    ensures totals { IfOk result (λ answers. answers.totals.items ≡ totals_text_of view.now) }
{
    Ok(Answers {
        archive: archive.text()?,
        statuses: view.status_text()?,
        totals: view.totals_text()?,
    })
}

/// The texts of the messages of an archive.
pub(crate) fn answers_of(alloc: Global, archive: &Archive) -> Result<Answers, AllocError>
    ensures archive { IfOk result (λ answers. answers.archive.items ≡ archive_text_of archive.now) }
    ensures statuses { IfOk result (λ answers. answers.statuses.items ≡ status_text_of archive.now) }
    ensures totals { IfOk result (λ answers. answers.totals.items ≡ totals_text_of archive.now) }
{
    let view = view_of(alloc, archive)?;
    texts_of(archive, &view)
}

// The report on a list over the messages of a view.
fn reconciled<R: Threads + Sync>(
    rt: &R,
    alloc: Global,
    view: &View,
    bank: &Bic,
    day: &Day,
    list: &List,
) -> Result<Report, AllocError>
    ensures { IfOk result (λ report. report ≡ report_of view.now bank.now day.now list.now) }
{
    match reconcile(rt, alloc, view, bank, day, list) {
        Ok(report) => Ok(report),
        Err(_) => Err(AllocError),
    }
}

/// The report on a bank's list for a settlement day, over the messages of an archive.
pub(crate) fn report_on<R: Threads + Sync>(
    rt: &R,
    alloc: Global,
    archive: &Archive,
    bank: &Bic,
    day: &Day,
    list: &List,
) -> Result<Report, AllocError>
    ensures { IfOk result (λ report. report ≡ report_of archive.now bank.now day.now list.now) }
{
    let view = view_of(alloc, archive)?;
    reconciled(rt, alloc, &view, bank, day, list)
}
