//! What banks may send and see is looked up in messages filed by transfer, and the transfers of a report in transfers filed by bank.

ghost use Rattle.std.specs.Prelude.{◌≡◌, [], length, OnOk};
ghost use Rattle.sct_embed.specs.Shelves.{IsShelf};

use sct_delta::{Entry, messages_in};
use sct_rights::{ByBank, ByTransfer, file_all, file_banks, no_banks_filed, none_filed};
use std::alloc::{AllocError, Global};

/// The messages of the first arrivals of a site, filed. Each index has as many arrivals as the answers of the site needed:
/// a site that no bank asks files no messages, and without reports no transfers.
#[derive(Drop)]
pub(crate) struct Shelf {
    /// The messages, by transfer.
    pub(crate) by_transfer: ByTransfer,
    /// How many arrivals have their messages filed.
    pub(crate) messages_filed: usize,
    /// The transfers, by bank.
    pub(crate) by_bank: ByBank,
    /// How many arrivals have their transfers filed.
    pub(crate) transfers_filed: usize,
}

impl Shelf {
    /// No arrivals are filed.
    pub(crate) fn new(alloc: Global) -> Shelf
        ensures { IsShelf result [] }
    {
        Shelf {
            by_transfer: none_filed(alloc),
            messages_filed: 0,
            by_bank: no_banks_filed(alloc),
            transfers_filed: 0,
        }
    }

    /// Has the messages of all arrivals filed by transfer. Only those that are not filed yet are added; after an error all are filed
    /// anew. O(transactions of the messages that are new).
    pub(crate) fn file_by_transfer(
        &mut self,
        alloc: Global,
        arrivals: &[Entry],
    ) -> Result<(), AllocError>
        requires { IsShelf self.old arrivals.now }
        ensures shelf { IsShelf self.new arrivals.now }
        ensures all { OnOk result (self.new.messages_filed ≡ length arrivals.now) }
        ensures other { self.new.transfers_filed ≡ self.old.transfers_filed }
    {
        if self.messages_filed == arrivals.len() {
            return Ok(());
        }
        let messages = messages_in(alloc, &arrivals[self.messages_filed..])?;
        if let Err(error) = file_all(alloc, &mut self.by_transfer, &messages) {
            self.by_transfer = none_filed(alloc);
            self.messages_filed = 0;
            return Err(error);
        }
        self.messages_filed = arrivals.len();
        Ok(())
    }

    /// Has the transfers of all arrivals filed by bank, in the same way.
    pub(crate) fn file_by_bank(
        &mut self,
        alloc: Global,
        arrivals: &[Entry],
    ) -> Result<(), AllocError>
        requires { IsShelf self.old arrivals.now }
        ensures shelf { IsShelf self.new arrivals.now }
        ensures all { OnOk result (self.new.transfers_filed ≡ length arrivals.now) }
        ensures other { self.new.messages_filed ≡ self.old.messages_filed }
    {
        if self.transfers_filed == arrivals.len() {
            return Ok(());
        }
        let messages = messages_in(alloc, &arrivals[self.transfers_filed..])?;
        if let Err(error) = file_banks(alloc, &mut self.by_bank, &messages) {
            self.by_bank = no_banks_filed(alloc);
            self.transfers_filed = 0;
            return Err(error);
        }
        self.transfers_filed = arrivals.len();
        Ok(())
    }
}
