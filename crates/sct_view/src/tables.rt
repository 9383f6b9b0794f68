//! The tables of a view: the case of each transfer and the totals of each bank.

ghost use Rattle.std.specs.Prelude.{◌≡◌, IfOk};
ghost use Rattle.std.specs.Option.{option_copied};
ghost use Rattle.indexmap.specs.IndexMap.{IsUnique};
ghost use Rattle.sct_element.specs.Text.{is_text};
ghost use Rattle.sct_message.specs.declared.keys.TransferKey.{TransferKey as TransferOf};
ghost use Rattle.sct_view.specs.Kept.{case_at, kept_or_none, no_messages, same_key, totals_at, AreSums, IsSmall};
ghost use Rattle.sct_view.specs.Listed.{has_messages, is_something, keys_with};

mod commit;
mod places;
mod shares;

use crate::case::Case;
use crate::sums::{banks_in, totals_in};
use crate::totals::Totals;
use indexmap::IndexMap;
pub(crate) use places::make_room;
use sct_element::Bic;
use sct_message::TransferKey;
pub(crate) use shares::{add, add_shares};
use std::alloc::{AllocError, Global};

/// The case of each transfer and the totals of each bank, which are the sums of the shares of its transfers.
/// A table may have places that no answer shows: a transfer without messages, a bank without totals.
#[derive(Drop)]
pub(crate) struct Tables {
    cases: IndexMap<TransferKey, Case>,
    totals: IndexMap<Bic, Totals>,
    ghost summed: { AreSums (case_at cases) (totals_at totals) },
    ghost small: { (t : TransferOf) → IsSmall (case_at cases t) },
}

impl Tables {
    /// Tables without places.
    pub(crate) fn new(alloc: Global) -> Self
        ensures { (t : TransferOf) → case_at result.cases t ≡ no_messages }
    {
        Tables {
            cases: IndexMap::new(alloc),
            totals: IndexMap::new(alloc),
        }
    }

    /// Tables with room for as many transfers, but without places.
    fn with_room(alloc: Global, transfers: usize) -> Result<Self, AllocError>
        ensures { IfOk result (λ tables. (t : TransferOf) → case_at tables.cases t ≡ no_messages) }
    {
        Ok(Tables {
            cases: IndexMap::with_capacity(alloc, transfers)?,
            totals: IndexMap::new(alloc),
        })
    }

    /// The case of a transfer, if it has a place. Expected O(1).
    pub(crate) fn case(&self, transfer: &TransferKey) -> Option<&Case>
        ensures { kept_or_none (option_copied result) ≡ case_at self.now.cases transfer.now }
    {
        self.cases.get(transfer)
    }

    /// The totals of a bank, all 0 if it has no place. Expected O(1).
    pub(crate) fn totals(&self, bank: &Bic) -> Totals
        ensures { result ≡ totals_at self.now.totals bank.now }
    {
        totals_in(&self.totals, bank)
    }

    /// The transfers whose case has a message, in the order of the table.
    pub(crate) fn keys(&self, alloc: Global) -> Result<Vec<TransferKey>, AllocError>
        ensures keys { IfOk result (λ keys. keys.items ≡ keys_with has_messages self.now.cases.entries) }
        ensures unique { IfOk result (λ keys. IsUnique same_key self.now.cases) }
    {
        let mut keys = Vec::with_capacity(alloc, self.cases.len())?;
        for (transfer, case) in &self.cases {
            if case.has_messages() {
                keys.push(transfer.copy())?;
            }
        }
        Ok(keys)
    }

    /// The banks whose totals are not all zero, in the order of the table.
    pub(crate) fn banks(&self, alloc: Global) -> Result<Vec<Bic>, AllocError>
        ensures banks { IfOk result (λ banks. banks.items ≡ keys_with is_something self.now.totals.entries) }
        ensures unique { IfOk result (λ banks. IsUnique is_text self.now.totals) }
    {
        banks_in(alloc, &self.totals)
    }
}
