//! The answers of an embedded site to banks.

ghost use Rattle.std.specs.Prelude.{◌≡◌, OnErr};
ghost use Rattle.sct_delta.specs.Entries.{messages_of};
ghost use Rattle.sct_embed.specs.ByBanks.{bank_answer_for, messages_answer_for, report_answer_for, transfer_answer_for, transfer_named};
ghost use Rattle.sct_embed.specs.Questions.{Answers, bank_in, identification_in};

use crate::embedded_site::EmbeddedSite;
use crate::faults::EmbedFault;
use sct_message::TransferKey;
use sct_reconcile::{List, bank_of, day_of, identification_of, write_report};
use sct_rights::{
    bank_text_for, is_one_of, messages_text_for, read_banks, report_rows_for, transfer_text_for,
};
use std::alloc::AllocError;

// The transfer that a bank and an identification name. Error: `BadArgument` (73), 2 for the bank and 3 for the identification.
fn transfer_named(bank: &[u8], tx: &[u8]) -> Result<TransferKey, EmbedFault>
    ensures { result ≡ transfer_named (bank_in bank.now) (identification_in tx.now) }
{
    let Some(debtor_agent) = bank_of(bank) else {
        return Err(EmbedFault::BadArgument(2));
    };
    let Some(tx) = identification_of(tx) else {
        return Err(EmbedFault::BadArgument(3));
    };
    Ok(TransferKey { debtor_agent, tx })
}

impl EmbeddedSite {
    pub(crate) fn transfer_text_for(
        &mut self,
        banks: &[u8],
        bank: &[u8],
        tx: &[u8],
    ) -> Result<(), EmbedFault>
        ensures answer { Answers (transfer_answer_for banks.now bank.now tx.now (messages_of self.old.core.arrivals)) result self.new.answer }
        ensures core { self.new.core ≡ self.old.core }
        ensures watched { self.new.watched ≡ self.old.watched }
        ensures unchanged { OnErr result (self.new ≡ self.old) }
    {
        let Some(banks) = read_banks(self.alloc, banks)? else {
            return Err(EmbedFault::BadArgument(1));
        };
        let transfer = transfer_named(bank, tx)?;
        self.showing
            .show_by_transfer(self.alloc, self.core.arrivals())?;
        let (view, filed) = (&self.showing.view, &self.showing.shelf.by_transfer);
        let text = transfer_text_for(self.alloc, view, filed, &banks, &transfer);
        self.answer = text.map_err(AllocError::from)?;
        Ok(())
    }

    pub(crate) fn messages_text_for(
        &mut self,
        banks: &[u8],
        bank: &[u8],
        tx: &[u8],
    ) -> Result<(), EmbedFault>
        ensures answer { Answers (messages_answer_for banks.now bank.now tx.now (messages_of self.old.core.arrivals)) result self.new.answer }
        ensures core { self.new.core ≡ self.old.core }
        ensures watched { self.new.watched ≡ self.old.watched }
        ensures unchanged { OnErr result (self.new ≡ self.old) }
    {
        let Some(banks) = read_banks(self.alloc, banks)? else {
            return Err(EmbedFault::BadArgument(1));
        };
        let transfer = transfer_named(bank, tx)?;
        self.showing
            .show_by_transfer(self.alloc, self.core.arrivals())?;
        let (view, filed) = (&self.showing.view, &self.showing.shelf.by_transfer);
        self.answer = messages_text_for(self.alloc, view, filed, &banks, &transfer)?;
        Ok(())
    }

    pub(crate) fn bank_totals_for(&mut self, banks: &[u8], bank: &[u8]) -> Result<(), EmbedFault>
        ensures answer { Answers (bank_answer_for banks.now bank.now (messages_of self.old.core.arrivals)) result self.new.answer }
        ensures core { self.new.core ≡ self.old.core }
        ensures watched { self.new.watched ≡ self.old.watched }
        ensures unchanged { OnErr result (self.new ≡ self.old) }
    {
        let Some(banks) = read_banks(self.alloc, banks)? else {
            return Err(EmbedFault::BadArgument(1));
        };
        let Some(bank) = bank_of(bank) else {
            return Err(EmbedFault::BadArgument(2));
        };
        if !is_one_of(&banks, &bank) {
            return Err(EmbedFault::NotYours);
        }
        self.showing.show_all(self.alloc, self.core.arrivals())?;
        let line = bank_text_for(&self.showing.view, &banks, &bank);
        self.answer = line.map_err(AllocError::from)?;
        Ok(())
    }

    pub(crate) fn report_for(
        &mut self,
        banks: &[u8],
        bank: &[u8],
        day: &[u8],
        list: &[u8],
    ) -> Result<(), EmbedFault>
        ensures answer { Answers (report_answer_for banks.now bank.now day.now list.now (messages_of self.old.core.arrivals)) result self.new.answer }
        ensures core { self.new.core ≡ self.old.core }
        ensures watched { self.new.watched ≡ self.old.watched }
        ensures unchanged { OnErr result (self.new ≡ self.old) }
    {
        let Some(banks) = read_banks(self.alloc, banks)? else {
            return Err(EmbedFault::BadArgument(1));
        };
        let Some(bank) = bank_of(bank) else {
            return Err(EmbedFault::BadArgument(2));
        };
        let Some(day) = day_of(day) else {
            return Err(EmbedFault::BadArgument(3));
        };
        if !is_one_of(&banks, &bank) {
            return Err(EmbedFault::NotYours);
        }
        let list = List::read(self.alloc, list)?;
        self.showing
            .show_for_banks(self.alloc, self.core.arrivals())?;
        let showing = &self.showing;
        let rows = report_rows_for(
            self.alloc,
            &showing.view,
            &showing.shelf.by_transfer,
            &showing.shelf.by_bank,
            &banks,
            &bank,
            &day,
            &list,
        )?;
        self.answer = write_report(self.alloc, &rows)?;
        Ok(())
    }
}
