//! Places for transfers and banks, opened before any answer changes. No answer shows a place that is only open.

ghost use Rattle.std.specs.Prelude.{◌≡◌, ◌≤◌, ℕ, List, true, length, take, OnOk, OnErr};
ghost use Rattle.std.specs.FinSet as set;
ghost use Rattle.std.specs.List.{list_all};
ghost use Rattle.sct_message.specs.declared.keys.TransferKey.{TransferKey as TransferOf};
ghost use Rattle.sct_view.specs.Changes.{are_ready};
ghost use Rattle.sct_view.specs.Kept.{case_at, has_case, has_totals, instruction_in, is_ready, kept_in, no_messages, totals_at};
ghost use Rattle.sct_view.specs.Totals.{beneficiary_in};

use crate::case::{Case, Planned};
use crate::tables::Tables;
use crate::totals::Totals;
use indexmap::IndexMap;
use indexmap::map::Entry;
use sct_case::Status;
use sct_element::Bic;
use sct_message::TransferKey;
use sct_set::Archive;
use std::alloc::{AllocError, Global};

/// A case without messages.
fn no_case(alloc: Global) -> Case
    ensures { kept_in result ≡ no_messages }
{
    Case {
        clean: Vec::new(alloc),
        contradicted: Vec::new(alloc),
        status: Status::Unknown,
    }
}

/// Opens a place for a transfer, if it has none.
fn open_case(
    alloc: Global,
    cases: &mut IndexMap<TransferKey, Case>,
    transfer: &TransferKey,
) -> Result<(), AllocError>
    ensures there { OnOk result (has_case cases.new transfer.now ≡ true) }
    ensures same { (t : TransferOf) → case_at cases.new t ≡ case_at cases.old t }
    ensures stays { (t : TransferOf) → has_case cases.old t ≡ true → has_case cases.new t ≡ true }
    ensures front { (n : ℕ) → n ≤ length cases.old.entries
        → take n cases.new.entries ≡ take n cases.old.entries }
    ensures grows { length cases.old.entries ≤ length cases.new.entries }
{
    match cases.entry(transfer.copy())? {
        Entry::Occupied(_) => Ok(()),
        Entry::Vacant(entry) => {
            entry.insert(no_case(alloc));
            Ok(())
        }
    }
}

/// Opens a place for the totals of a bank, if it has none.
fn open_total(totals: &mut IndexMap<Bic, Totals>, bank: &Bic) -> Result<(), AllocError>
    ensures there { OnOk result (has_totals totals.new bank.now ≡ true) }
    ensures same { (p : List ℕ) → totals_at totals.new p ≡ totals_at totals.old p }
    ensures stays { (p : List ℕ) → has_totals totals.old p ≡ true → has_totals totals.new p ≡ true }
    ensures front { (n : ℕ) → n ≤ length totals.old.entries
        → take n totals.new.entries ≡ take n totals.old.entries }
    ensures grows { length totals.old.entries ≤ length totals.new.entries }
{
    match totals.entry(bank.copy())? {
        Entry::Occupied(_) => Ok(()),
        Entry::Vacant(entry) => {
            entry.insert(Totals::nothing());
            Ok(())
        }
    }
}

/// Opens a place for the totals of the beneficiary bank of a case, if the case has an instruction.
fn open_beneficiary(totals: &mut IndexMap<Bic, Totals>, case: &Case) -> Result<(), AllocError>
    ensures there { OnOk result (list_all (has_totals totals.new)
        (beneficiary_in (instruction_in (kept_in case.now))) ≡ true) }
    ensures same { (p : List ℕ) → totals_at totals.new p ≡ totals_at totals.old p }
    ensures stays { (p : List ℕ) → has_totals totals.old p ≡ true → has_totals totals.new p ≡ true }
    ensures front { (n : ℕ) → n ≤ length totals.old.entries
        → take n totals.new.entries ≡ take n totals.old.entries }
    ensures grows { length totals.old.entries ≤ length totals.new.entries }
{
    match case.beneficiary() {
        Some(bank) => open_total(totals, bank),
        None => Ok(()),
    }
}

impl Tables {
    /// Opens the places that a planned case needs. If out of memory, some places may be open.
    pub(crate) fn open(&mut self, alloc: Global, planned: &Planned) -> Result<(), AllocError>
        ensures ready { OnOk result (is_ready self.new.cases self.new.totals planned.now.transfer
            (kept_in planned.now.case) ≡ true) }
        ensures same_cases { (t : TransferOf) → case_at self.new.cases t ≡ case_at self.old.cases t }
        ensures same_totals { (p : List ℕ) → totals_at self.new.totals p ≡ totals_at self.old.totals p }
        ensures cases_stay { (t : TransferOf) → has_case self.old.cases t ≡ true → has_case self.new.cases t ≡ true }
        ensures totals_stay { (p : List ℕ) → has_totals self.old.totals p ≡ true
            → has_totals self.new.totals p ≡ true }
        ensures cases_front { (n : ℕ) → n ≤ length self.old.cases.entries
            → take n self.new.cases.entries ≡ take n self.old.cases.entries }
        ensures totals_front { (n : ℕ) → n ≤ length self.old.totals.entries
            → take n self.new.totals.entries ≡ take n self.old.totals.entries }
        ensures cases_grow { length self.old.cases.entries ≤ length self.new.cases.entries }
        ensures totals_grow { length self.old.totals.entries ≤ length self.new.totals.entries }
    {
        open_case(alloc, &mut self.cases, &planned.transfer)?;
        open_total(&mut self.totals, &planned.transfer.debtor_agent)?;
        open_beneficiary(&mut self.totals, &planned.case)
    }

    /// Opens the places that each planned case needs. If out of memory, some places may be open.
    fn open_all(&mut self, alloc: Global, planned: &[Planned]) -> Result<(), AllocError>
        ensures ready { OnOk result (are_ready self.new.cases self.new.totals planned.now ≡ true) }
        ensures same_cases { (t : TransferOf) → case_at self.new.cases t ≡ case_at self.old.cases t }
        ensures same_totals { (p : List ℕ) → totals_at self.new.totals p ≡ totals_at self.old.totals p }
        ensures cases_front { take (length self.old.cases.entries) self.new.cases.entries ≡ self.old.cases.entries }
        ensures totals_front { take (length self.old.totals.entries) self.new.totals.entries
            ≡ self.old.totals.entries }
    {
        for one in planned {
            self.open(alloc, one)?;
        }
        Ok(())
    }
}

/// Opens the places that each planned case needs, and adds the fresh messages to the archive.
/// If out of memory, no new place stays open and the archive is unchanged.
pub(crate) fn make_room(
    alloc: Global,
    archive: &mut Archive,
    tables: &mut Tables,
    fresh: &Archive,
    planned: &[Planned],
) -> Result<(), AllocError>
    ensures joined { OnOk result (archive.new ≡ set.union archive.old fresh.now) }
    ensures ready { OnOk result (are_ready tables.new.cases tables.new.totals planned.now ≡ true) }
    ensures same_cases { (t : TransferOf) → case_at tables.new.cases t ≡ case_at tables.old.cases t }
    ensures archive_stays { OnErr result (archive.new ≡ archive.old) }
    ensures cases_stay { OnErr result (tables.new.cases.entries ≡ tables.old.cases.entries) }
    ensures totals_stay { OnErr result (tables.new.totals.entries ≡ tables.old.totals.entries) }
{
    let transfers = tables.cases.len();
    let banks = tables.totals.len();
    if let Err(refused) = tables.open_all(alloc, planned) {
        tables.cases.truncate(transfers);
        tables.totals.truncate(banks);
        return Err(refused);
    }
    if archive.merge(fresh).is_err() {
        tables.cases.truncate(transfers);
        tables.totals.truncate(banks);
        return Err(AllocError);
    }
    Ok(())
}
