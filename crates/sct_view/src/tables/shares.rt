//! The running totals of the banks: the shares of each transfer are added and subtracted again.

ghost use Rattle.std.specs.Prelude.{◌≡◌, ◌<◌, ◌^◌, ℕ, List, true, if◌then◌else◌, OnOk};
ghost use Rattle.sct_case.specs.Statuses.{as_standing};
ghost use Rattle.sct_element.specs.Text.{is_text};
ghost use Rattle.std.specs.List.{list_all};
ghost use Rattle.sct_view.specs.Kept.{cents_back, has_totals, kept_in, instruction_in, share_in, totals_at, IsInRange, IsSmall, IsUpTo};
ghost use Rattle.sct_view.specs.Totals.{beneficiary_in, plus, share_of_beneficiary, share_of_originator};

use crate::case::Case;
use crate::totals::Totals;
use indexmap::IndexMap;
use sct_case::Status;
use sct_element::Bic;
use sct_message::TransferKey;
use std::alloc::AllocError;

/// The share of a transfer for its originator bank, by its status and the cents of its instruction.
fn share_of_originator(status: &Status, cents: u64) -> Totals
    ensures share { result ≡ share_of_originator (as_standing status.now) cents }
    ensures back { cents_back (as_standing status.now) < 2 ^ 64 }
{
    let nothing = Totals::nothing();
    match status {
        Status::Contradicted(_) => Totals {
            contradicted: 1,
            ..nothing
        },
        Status::Unknown => nothing,
        Status::Missing => Totals {
            missing: 1,
            ..nothing
        },
        Status::Rejected(_) => Totals {
            rejected: 1,
            ..nothing
        },
        Status::Returned(amount) => Totals {
            sent: 1,
            sent_cents: cents as u128,
            returned_in: amount.cents() as u128,
            ..nothing
        },
        Status::Accepted => Totals {
            sent: 1,
            sent_cents: cents as u128,
            ..nothing
        },
        Status::Investigated | Status::Pending => Totals {
            waiting: 1,
            ..nothing
        },
    }
}

/// The share of a transfer for the beneficiary bank of its instruction, by its status and
/// the cents of that instruction.
fn share_of_beneficiary(status: &Status, cents: u64) -> Totals
    ensures { result ≡ share_of_beneficiary (as_standing status.now) cents }
{
    let nothing = Totals::nothing();
    match status {
        Status::Returned(amount) => Totals {
            received: 1,
            received_cents: cents as u128,
            returned_out: amount.cents() as u128,
            ..nothing
        },
        Status::Accepted => Totals {
            received: 1,
            received_cents: cents as u128,
            ..nothing
        },
        _ => nothing,
    }
}

/// Adds a share to the totals of a bank.
fn put(totals: &mut IndexMap<Bic, Totals>, bank: &Bic, share: &Totals)
    requires there { has_totals totals.old bank.now ≡ true }
    requires fits { IsInRange (plus (totals_at totals.old bank.now) share.now) }
    ensures totals { (p : List ℕ) → totals_at totals.new p
        ≡ (if is_text bank.now p then plus (totals_at totals.old p) share.now else totals_at totals.old p) }
    ensures stays { (p : List ℕ) → has_totals totals.new p ≡ has_totals totals.old p }
{
    if let Some(total) = totals.get_mut(bank) {
        total.put(share);
    }
}

/// Adds a share to the totals of a bank, which need not have an entry. The bank is not looked up for a share of nothing.
pub(crate) fn add(
    totals: &mut IndexMap<Bic, Totals>,
    bank: &Bic,
    share: &Totals,
) -> Result<(), AllocError>
    requires fits { IsInRange (plus (totals_at totals.old bank.now) share.now) }
    ensures { OnOk result ((p : List ℕ) → totals_at totals.new p
        ≡ (if is_text bank.now p then plus (totals_at totals.old p) share.now else totals_at totals.old p)) }
{
    if !share.is_something() {
        return Ok(());
    }
    if let Some(total) = totals.get_mut(bank) {
        total.put(share);
        return Ok(());
    }
    totals.insert(bank.copy(), *share)?;
    Ok(())
}

/// Subtracts a share from the totals of a bank. The bank is not looked up for a share of nothing.
fn take(totals: &mut IndexMap<Bic, Totals>, bank: &Bic, share: &Totals)
    requires fits { IsUpTo share.now (totals_at totals.old bank.now) }
    ensures totals { (p : List ℕ)
        → (if is_text bank.now p then plus (totals_at totals.new p) share.now else totals_at totals.new p)
        ≡ totals_at totals.old p }
    ensures stays { (p : List ℕ) → has_totals totals.new p ≡ has_totals totals.old p }
{
    if !share.is_something() {
        return;
    }
    if let Some(total) = totals.get_mut(bank) {
        total.take(share);
    }
}

/// Adds the shares of a transfer to the totals of its banks. The amounts of a case fit into 64 bits, since every
/// amount does.
#[tactic(auto, unfolding(crate::specs::Totals::share))]
pub(super) fn put_shares(totals: &mut IndexMap<Bic, Totals>, transfer: &TransferKey, case: &Case)
    requires originator { has_totals totals.old transfer.now.debtor_agent ≡ true }
    requires beneficiary { list_all (has_totals totals.old)
        (beneficiary_in (instruction_in (kept_in case.now))) ≡ true }
    requires fits { IsSmall (kept_in case.now) → (p : List ℕ)
        → IsInRange (plus (totals_at totals.old p) (share_in p transfer.now (kept_in case.now))) }
    ensures small { IsSmall (kept_in case.now) }
    ensures totals { (p : List ℕ) → totals_at totals.new p
        ≡ plus (totals_at totals.old p) (share_in p transfer.now (kept_in case.now)) }
    ensures stays { (p : List ℕ) → has_totals totals.new p ≡ has_totals totals.old p }
{
    let cents = case.cents();
    let share = share_of_originator(&case.status, cents);
    put(totals, &transfer.debtor_agent, &share);
    if let Some(bank) = case.beneficiary() {
        let share = share_of_beneficiary(&case.status, cents);
        put(totals, bank, &share);
    }
}

/// Adds the shares of a transfer to the totals of its banks, which need not have an entry.
#[tactic(auto, unfolding(crate::specs::Totals::share))]
pub(crate) fn add_shares(
    totals: &mut IndexMap<Bic, Totals>,
    transfer: &TransferKey,
    case: &Case,
) -> Result<(), AllocError>
    requires fits { IsSmall (kept_in case.now) → (p : List ℕ)
        → IsInRange (plus (totals_at totals.old p) (share_in p transfer.now (kept_in case.now))) }
    ensures small { OnOk result (IsSmall (kept_in case.now)) }
    ensures totals { OnOk result ((p : List ℕ) → totals_at totals.new p
        ≡ plus (totals_at totals.old p) (share_in p transfer.now (kept_in case.now))) }
{
    let cents = case.cents();
    let share = share_of_originator(&case.status, cents);
    add(totals, &transfer.debtor_agent, &share)?;
    if let Some(bank) = case.beneficiary() {
        let share = share_of_beneficiary(&case.status, cents);
        add(totals, bank, &share)?;
    }
    Ok(())
}

/// Subtracts the shares of a transfer from the totals of its banks.
#[tactic(auto, unfolding(crate::specs::Totals::share))]
pub(super) fn take_shares(totals: &mut IndexMap<Bic, Totals>, transfer: &TransferKey, case: &Case)
    requires fits { (p : List ℕ)
        → IsUpTo (share_in p transfer.now (kept_in case.now)) (totals_at totals.old p) }
    ensures totals { (p : List ℕ) → plus (totals_at totals.new p) (share_in p transfer.now (kept_in case.now))
        ≡ totals_at totals.old p }
    ensures stays { (p : List ℕ) → has_totals totals.new p ≡ has_totals totals.old p }
{
    let cents = case.cents();
    let share = share_of_originator(&case.status, cents);
    take(totals, &transfer.debtor_agent, &share);
    if let Some(bank) = case.beneficiary() {
        let share = share_of_beneficiary(&case.status, cents);
        take(totals, bank, &share);
    }
}
