//! New cases in place of those of their transfers, with their shares of the totals of their banks.

ghost use Rattle.std.specs.Prelude.{◌≡◌, ℕ, List, true, map, if◌then◌else◌, IfOk};
ghost use Rattle.sct_message.specs.declared.keys.TransferKey.{TransferKey as TransferOf};
ghost use Rattle.sct_view.specs.Changes.{are_ready, case_after, change_in};
ghost use Rattle.sct_view.specs.Kept.{case_at, has_case, has_totals, is_ready, kept_in, no_messages, same_key};

use crate::case::Planned;
use crate::tables::Tables;
use crate::tables::shares::{put_shares, take_shares};
use std::alloc::{AllocError, Global};

impl Tables {
    /// Tables with these cases. A later case of a transfer takes the place of an earlier one.
    pub(crate) fn of(alloc: Global, planned: Vec<Planned>) -> Result<Self, AllocError>
        ensures { IfOk result (λ tables. (t : TransferOf) → case_at tables.cases t
            ≡ case_after (map change_in planned.items) (λ t. no_messages) t) }
    {
        let mut tables = Tables::with_room(alloc, planned.len())?;
        for one in planned {
            tables.open(alloc, &one)?;
            tables.commit(one);
        }
        Ok(tables)
    }

    /// Replaces the case of a transfer, and its shares of the totals of its banks. It does not allocate and cannot fail.
    /// The totals fit: a transfer without a place has no share, and there are fewer than 2^63 places.
    fn commit(&mut self, planned: Planned)
        requires ready { is_ready self.old.cases self.old.totals planned.transfer (kept_in planned.case) ≡ true }
        ensures cases { (t : TransferOf) → case_at self.new.cases t
            ≡ (if same_key planned.transfer t then kept_in planned.case else case_at self.old.cases t) }
        ensures cases_stay { (t : TransferOf) → has_case self.new.cases t ≡ has_case self.old.cases t }
        ensures totals_stay { (p : List ℕ) → has_totals self.new.totals p ≡ has_totals self.old.totals p }
    {
        let Planned {
            transfer,
            case: anew,
        } = planned;
        let _places = self.cases.len(); // for its clause: fewer than 2^63
        if let Some(case) = self.cases.get_mut(&transfer) {
            take_shares(&mut self.totals, &transfer, case);
            put_shares(&mut self.totals, &transfer, &anew);
            *case = anew;
        }
    }

    /// Replaces the case of each planned transfer. It does not allocate and cannot fail.
    pub(crate) fn commit_all(&mut self, planned: Vec<Planned>)
        requires { are_ready self.old.cases self.old.totals planned.items ≡ true }
        ensures { (t : TransferOf) → case_at self.new.cases t
            ≡ case_after (map change_in planned.items) (case_at self.old.cases) t }
    {
        for one in planned {
            self.commit(one);
        }
    }
}
