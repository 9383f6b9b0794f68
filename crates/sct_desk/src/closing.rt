//! Whether the receipts of a desk tile its arrivals.

ghost use Rattle.std.specs.List.{All};
ghost use Rattle.std.specs.Prelude.{◌≡◌, ◌+◌, ◌<◌, ◌≤◌, ◌⊎◌, ℕ, Some, length, slice_index, MatchBool, MatchOption};
ghost use mathlib.Core.List.{IsPrefix};
ghost use Rattle.sct_desk.specs.Tilings.{
  AllBegin,
  AreOurs,
  FailsToClose,
  IsFirstUnmarked,
  IsLeastUntold,
  IsPendingFrom,
  OneShowsMore,
  PendingFirst,
  ShowsMore,
  Tiles,
  tellings,
  up_to_two,
};
ghost use Rattle.sct_desk.specs.declared.fault.DeskFault.TheVariants as fault;

use crate::fault::DeskFault;
use crate::held::{HeldArrivals, Site};
use crate::receipt::Receipt;
use sct_site::Track;
use std::sync::Wait;

// Whether the arrivals that a receipt of this site shows are a prefix of the arrivals. If
// not, the receipt shows more arrivals.
fn begins(receipt: &Receipt, number: u16, arrivals: &Track) -> bool
    requires { receipt.now.site ≡ number → receipt.now.book ≡ arrivals.now.book }
    ensures { MatchBool result (receipt.now.site ≡ number → IsPrefix receipt.now.shown arrivals.now.log)
        (ShowsMore number arrivals.now.log receipt.now) }
{
    if receipt.site == number {
        receipt.track.begins(arrivals)
    } else {
        true
    }
}

// Whether each receipt of this site shows a prefix of the arrivals. If not, one of them shows more arrivals.
fn all_begin(receipts: &[Receipt], number: u16, arrivals: &Track) -> bool
    requires { AreOurs arrivals.now.book number receipts.now }
    ensures { MatchBool result (AllBegin number arrivals.now.log receipts.now)
        (OneShowsMore number arrivals.now.log receipts.now) }
{
    for receipt in receipts {
        if !begins(receipt, number, arrivals) {
            return false;
        }
    }
    true
}

// Sets all marks to 0.
fn clear(marks: &mut [u8])
    ensures len { length marks.new ≡ length marks.old }
    ensures clear { (at : ℕ) → at < length marks.new → slice_index marks.new at ≡ 0 }
{
    for at in 0..marks.len() {
        marks[at] = 0;
    }
}

// Adds one to the marks from `start` up to `end`, but to no more than two.
fn mark(marks: &mut [u8], start: usize, end: usize)
    requires { (start ≤ end) × (end ≤ length marks.old) }
    ensures len { length marks.new ≡ length marks.old }
    ensures inside { (at : ℕ) → start ≤ at → at < end → slice_index marks.new at
        ≡ up_to_two (slice_index marks.old at + 1) }
    ensures outside { (at : ℕ) → (at < start) ⊎ (end ≤ at)
        → slice_index marks.new at ≡ slice_index marks.old at }
{
    for at in start..end {
        marks[at] = if marks[at] == 0 { 1 } else { 2 };
    }
}

// Sets each mark to the number of receipts of this site that cover its position, at most two.
fn mark_all(marks: &mut [u8], receipts: &[Receipt], number: u16)
    requires clear { (at : ℕ) → at < length marks.old → slice_index marks.old at ≡ 0 }
    requires room { All
        (λ receipt. receipt.site ≡ number → length receipt.shown ≤ length marks.old) receipts.now }
    ensures len { length marks.new ≡ length marks.old }
    ensures marks { (at : ℕ) → at < length marks.new → slice_index marks.new at
        ≡ up_to_two (tellings number (at + 1) receipts.now) }
{
    for receipt in receipts {
        if receipt.site == number {
            let start = receipt.from() as usize - 1;
            mark(marks, start, start + receipt.count as usize);
        }
    }
}

// The first position whose mark is not 1.
fn first_unmarked(marks: &[u8]) -> Option<u64>
    ensures { MatchOption result ((at : ℕ) → at < length marks.now → slice_index marks.now at ≡ 1)
        (λ position. IsFirstUnmarked marks.now position) }
{
    for at in 0..marks.len() {
        if marks[at] != 1 {
            return Some(at as u64 + 1);
        }
    }
    None
}

// The least position, among as many as there are marks, that is not covered by exactly one receipt.
// O(marks + arrivals that the receipts cover).
fn first_untold(marks: &mut [u8], receipts: &[Receipt], number: u16) -> Option<u64>
    requires { All (λ receipt. receipt.site ≡ number → length receipt.shown ≤ length marks.old) receipts.now }
    ensures len { length marks.new ≡ length marks.old }
    ensures first { MatchOption result
        ((position : ℕ) → 1 ≤ position → position ≤ length marks.old
        → tellings number position receipts.now ≡ 1)
        (IsLeastUntold number receipts.now) }
{
    clear(marks);
    mark_all(marks, receipts, number);
    first_unmarked(marks)
}

// The least of the first `len` positions that is not covered by exactly one receipt.
fn first_untold_of(
    marks: &mut Vec<u8>,
    len: usize,
    receipts: &[Receipt],
    number: u16,
) -> Option<u64>
    requires len { len ≤ length marks.old.items }
    requires room { All (λ receipt. receipt.site ≡ number → length receipt.shown ≤ len) receipts.now }
    ensures len { length marks.new.items ≡ length marks.old.items }
    ensures first { MatchOption result
        ((position : ℕ) → 1 ≤ position → position ≤ len → tellings number position receipts.now ≡ 1)
        (IsLeastUntold number receipts.now) }
{
    first_untold(&mut marks[..len], receipts, number)
}

impl<J: Site, R: Wait + Drop> HeldArrivals<J, R> {
    // Why the desk cannot be closed with these receipts, or none if it can.
    pub(crate) fn untold(&mut self, receipts: &[Receipt]) -> Option<DeskFault>
        requires { AreOurs J.book J.number receipts.now }
        ensures same { self.new ≡ self.old }
        ensures tiles { MatchOption result (Tiles J.number self.old.core.arrivals receipts.now)
            (FailsToClose J.number receipts.now) }
        ensures pending { (from : ℕ) → result ≡ Some (fault.Pending from)
            → IsPendingFrom J.number self.old receipts.now from }
        ensures order { PendingFirst self.old result }
    {
        let len = self.core.arrivals().len();
        let number = self.core.number();
        let published = &self.writer.published().track;
        if published.len() != len as u64 || !all_begin(receipts, number, published) {
            return Some(DeskFault::Pending {
                from: published.len() + 1,
            });
        }
        let Some(position) = first_untold_of(&mut self.marks, len, receipts, number) else {
            return None;
        };
        Some(DeskFault::Untold { position })
    }
}
