//! The totals of the banks, summed over the transfers under which messages are filed. Parts of the transfers are summed in
//! threads, and their sums are joined. No case is kept.

ghost use Rattle.std.specs.Prelude.{◌≡◌, ◌<◌, ◌≤◌, ℕ, List, IfOk, OnOk};
ghost use Rattle.std.specs.List.{flat_map};
ghost use Rattle.std.specs.Thread.{IsSync};
ghost use Rattle.indexmap.specs.IndexMap.{IsUnique};
ghost use Rattle.sct_element.specs.Text.{is_text};
ghost use Rattle.sct_message.specs.Sets.{MessageSet};
ghost use Rattle.sct_view.specs.Filed.{IsFiled};
ghost use Rattle.sct_view.specs.Kept.{totals_at, IsInRange};
ghost use Rattle.sct_view.specs.Listed.{is_something, keys_with};
ghost use Rattle.sct_view.specs.Sums.{AreSharesOf};
ghost use Rattle.sct_view.specs.Totals.{banks_of, plus, totals_of};
ghost use Rattle.sct_view.specs.TotalsText.{totals_line};

use crate::build::{halvings, planned_on};
use crate::by_transfer::ByTransfer;
use crate::tables::{add, add_shares};
use crate::totals::Totals;
use crate::totals_text::push_totals_line;
use indexmap::IndexMap;
use sct_element::Bic;
use sct_message::TransferKey;
use sct_set::Archive;
use std::alloc::{AllocError, Global};
use std::thread::{Threads, join};

/// The totals of banks. A bank without an entry has none.
pub(crate) type BankTotals = IndexMap<Bic, Totals>;

// Adds the totals of each bank to those that it has.
fn add_all(totals: &mut BankTotals, more: &BankTotals) -> Result<(), AllocError>
    requires fits { (p : List ℕ) → IsInRange (plus (totals_at totals.old p) (totals_at more.now p)) }
    ensures { OnOk result ((p : List ℕ) → totals_at totals.new p
        ≡ plus (totals_at totals.old p) (totals_at more.now p)) }
{
    let _banks = more.len(); // for its clause: each bank has one entry
    for (bank, share) in more {
        add(totals, bank, share)?;
    }
    Ok(())
}

// The totals of the banks over some transfers, in one part.
fn sums_in_turn(
    alloc: Global,
    archive: &Archive,
    index: &ByTransfer,
    transfers: &[TransferKey],
) -> Result<BankTotals, AllocError>
    requires { IsFiled archive.now index.now }
    ensures { IfOk result (λ totals. AreSharesOf archive.now transfers.now (totals_at totals)) }
{
    let mut totals = IndexMap::new(alloc);
    for transfer in transfers {
        let planned = planned_on(alloc, archive, index, transfer)?;
        add_shares(&mut totals, transfer, &planned.case)?;
    }
    Ok(totals)
}

// The totals of the banks over some transfers. The list is halved `halvings` times, and each part is summed in turn.
#[cycle(halves)]
fn sums_by_halves<R: Threads + Sync>(
    rt: &R,
    alloc: Global,
    archive: &Archive,
    index: &ByTransfer,
    transfers: &[TransferKey],
    halvings: u32,
) -> Result<BankTotals, AllocError>
    requires filed { IsFiled archive.now index.now }
    requires few { halvings ≤ 16 }
    ensures { IfOk result (λ totals. AreSharesOf archive.now transfers.now (totals_at totals)) }
{
    if halvings == 0 {
        return sums_in_turn(alloc, archive, index, transfers);
    }
    let (front, back) = transfers.split_at(transfers.len() / 2);
    let (first, second) = join(
        rt,
        || -> Result<BankTotals, AllocError>
            requires { IsSync R.row × (0 < halvings) × (halvings ≤ 16) × IsFiled archive.now index.now }
            ensures { IfOk result (λ totals. AreSharesOf archive.entry.now front.entry.now (totals_at totals)) }
        { sums_by_halves(rt, alloc, archive, index, front, halvings - 1) },
        || -> Result<BankTotals, AllocError>
            requires { IsSync R.row × (0 < halvings) × (halvings ≤ 16) × IsFiled archive.now index.now }
            ensures { IfOk result (λ totals. AreSharesOf archive.entry.now back.entry.now (totals_at totals)) }
        { sums_by_halves(rt, alloc, archive, index, back, halvings - 1) },
    );
    let mut totals = first?;
    let more = second?;
    add_all(&mut totals, &more)?;
    Ok(totals)
}

/// The totals of the banks in an archive. `index` has the archive's messages by transfer.
/// It works in as many threads as there are processors. If a thread cannot be started, another thread does its work.
pub(crate) fn sums_of<R: Threads + Sync>(
    rt: &R,
    alloc: Global,
    archive: &Archive,
    index: &ByTransfer,
) -> Result<BankTotals, AllocError>
    requires { IsFiled archive.now index.now }
    ensures { IfOk result (λ totals. (p : List ℕ) → totals_at totals p ≡ totals_of archive.now p) }
{
    let transfers = index.keys().as_slice();
    let halvings = halvings(rt, transfers.len());
    let totals = sums_by_halves(rt, alloc, archive, index, transfers, halvings)?;
    Ok(totals)
}

/// The totals of a bank, all 0 if it has no entry. Expected O(1).
pub(crate) fn totals_in(totals: &BankTotals, bank: &Bic) -> Totals
    ensures { result ≡ totals_at totals.now bank.now }
{
    match totals.get(bank) {
        Some(found) => *found,
        None => Totals::nothing(),
    }
}

/// The banks whose totals are not all zero, in the order of the entries.
pub(crate) fn banks_in(alloc: Global, totals: &BankTotals) -> Result<Vec<Bic>, AllocError>
    ensures banks { IfOk result (λ banks. banks.items ≡ keys_with is_something totals.now.entries) }
    ensures unique { IfOk result (λ banks. IsUnique is_text totals.now) }
{
    let mut banks = Vec::new(alloc);
    for (bank, found) in totals {
        if found.is_something() {
            banks.push(bank.copy())?;
        }
    }
    Ok(banks)
}

/// The banks whose totals are not all zero, ascending.
pub(crate) fn banks_in_order(alloc: Global, totals: &BankTotals) -> Result<Vec<Bic>, AllocError>
    ensures { IfOk result (λ banks. (held : MessageSet)
        → ((p : List ℕ) → totals_at totals.now p ≡ totals_of held p) → banks.items ≡ banks_of held) }
{
    let mut banks = banks_in(alloc, totals)?;
    banks.sort()?;
    banks.dedup();
    Ok(banks)
}

/// The line of each of the banks.
pub(crate) fn lines_of(
    alloc: Global,
    totals: &BankTotals,
    banks: &[Bic],
) -> Result<Vec<u8>, AllocError>
    ensures { IfOk result (λ text. text.items
        ≡ flat_map (λ bank. totals_line bank (totals_at totals.now bank)) banks.now) }
{
    let mut text = String::new(alloc);
    for bank in banks {
        push_totals_line(&mut text, bank, &totals_in(totals, bank))?;
    }
    Ok(text.into_bytes())
}
