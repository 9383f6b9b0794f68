//! The answers of an embedded site.

ghost use Rattle.std.specs.Prelude.{◌≡◌, IfErr, Ok, OnErr, OnOk, Some, length};
ghost use Rattle.sct_delta.specs.Entries.{messages_of};
ghost use Rattle.sct_exchange.specs.Sites.{held_text};
ghost use Rattle.sct_set.specs.Archive.{archive_text_of};
ghost use Rattle.sct_view.specs.StatusText.{status_text_of};
ghost use Rattle.sct_view.specs.TotalsText.{totals_text_of};
ghost use Rattle.sct_embed.specs.Asking.{answer_to_question, journal_text, newest_text, watched_after_answer};
ghost use Rattle.sct_digest.specs.Digests.{digests_text};
ghost use Rattle.sct_embed.specs.Calls.{cut_above_answer, cut_answer, digest_answer, entries_answer};
ghost use Rattle.sct_embed.specs.Questions.{Answers, bank_answer, changes_since, closed_answer, contradictions_text_of, kept_answer, messages_answer, report_answer, transfer_answer};
ghost use Rattle.sct_embed.specs.Reading.{reading_text_of};

use crate::arguments::{is_text_size, transfer_of, vector_of};
use crate::changes::{Watch, text_of_changes};
use crate::embedded_site::EmbeddedSite;
use crate::faults::EmbedFault;
use crate::question::Question;
use crate::reading::read_text;
use crate::texts::{push_identities, text_of_entries, text_of_messages, text_of_own_entries};
use sct_delta::{is_site, read_vector};
use sct_exchange::{write_cut, write_entries, write_held};
use sct_keep::split;
use sct_reconcile::{List, bank_of, day_of, write_report};
use sct_rights::report_rows;
use std::alloc::AllocError;

impl EmbeddedSite {
    /// Asks a question. The text becomes the answer. Errors: the refusals of the question, and `Memory` (65).
    pub fn ask(&mut self, question: Question<'_>) -> Result<(), EmbedFault>
        ensures answer { Answers (answer_to_question question.entry self.old) result self.new.answer }
        ensures core { self.new.core ≡ self.old.core }
        ensures watched { OnOk result (self.new.watched ≡ watched_after_answer question.entry self.old) }
        ensures unchanged { OnErr result (self.new ≡ self.old) }
    {
        match question {
            Question::Archive => Ok(self.archive_text()?),
            Question::Status => Ok(self.status_text()?),
            Question::Totals => Ok(self.totals_text()?),
            Question::Contradictions => Ok(self.contradictions_text()?),
            Question::Vector => Ok(self.vector_text()?),
            Question::Cut(vector) => self.cut(vector),
            Question::CutAbove(counts) => self.cut_above(counts),
            Question::Entries {
                origin,
                above,
                most,
            } => self.entries(origin, above, most),
            Question::Digest { origin, count } => self.digest(origin, count),
            Question::Digests => Ok(self.digests_text()?),
            Question::Journal(above) => Ok(self.journal_text(above)?),
            Question::Newest(count) => Ok(self.newest_text(count)?),
            Question::Reading(text) => Ok(self.reading_text(text)?),
            Question::Transfer { bank, tx } => self.transfer_text(bank, tx),
            Question::Messages { bank, tx } => self.messages_text(bank, tx),
            Question::Bank(bank) => self.bank_totals(bank),
            Question::Report { bank, day, list } => self.report(bank, day, list),
            Question::Kept(day) => self.kept_text(day),
            Question::Closed(day) => self.closed_text(day),
            Question::Changes => Ok(self.changes_text()?),
            Question::TransferFor { banks, bank, tx } => self.transfer_text_for(banks, bank, tx),
            Question::MessagesFor { banks, bank, tx } => self.messages_text_for(banks, bank, tx),
            Question::BankFor { banks, bank } => self.bank_totals_for(banks, bank),
            Question::ReportFor {
                banks,
                bank,
                day,
                list,
            } => self.report_for(banks, bank, day, list),
        }
    }

    fn archive_text(&mut self) -> Result<(), AllocError>
        ensures answer { OnOk result (self.new.answer ≡ archive_text_of (messages_of self.old.core.arrivals)) }
        ensures core { self.new.core ≡ self.old.core }
        ensures watched { self.new.watched ≡ self.old.watched }
        ensures unchanged { OnErr result (self.new ≡ self.old) }
    {
        self.answer = self.core.archive().text()?;
        Ok(())
    }

    fn status_text(&mut self) -> Result<(), AllocError>
        ensures answer { OnOk result (self.new.answer ≡ status_text_of (messages_of self.old.core.arrivals)) }
        ensures core { self.new.core ≡ self.old.core }
        ensures watched { self.new.watched ≡ self.old.watched }
        ensures unchanged { OnErr result (self.new ≡ self.old) }
    {
        self.showing.show_all(self.alloc, self.core.arrivals())?;
        self.answer = self.showing.view.status_text()?;
        Ok(())
    }

    fn totals_text(&mut self) -> Result<(), AllocError>
        ensures answer { OnOk result (self.new.answer ≡ totals_text_of (messages_of self.old.core.arrivals)) }
        ensures core { self.new.core ≡ self.old.core }
        ensures watched { self.new.watched ≡ self.old.watched }
        ensures unchanged { OnErr result (self.new ≡ self.old) }
    {
        self.showing.show_all(self.alloc, self.core.arrivals())?;
        self.answer = self.showing.view.totals_text()?;
        Ok(())
    }

    #[tactic(auto, unfolding(crate::specs::Questions::contradictions_text_of))]
    fn contradictions_text(&mut self) -> Result<(), AllocError>
        ensures answer { OnOk result (self.new.answer ≡ contradictions_text_of (messages_of self.old.core.arrivals)) }
        ensures core { self.new.core ≡ self.old.core }
        ensures watched { self.new.watched ≡ self.old.watched }
        ensures unchanged { OnErr result (self.new ≡ self.old) }
    {
        let identities = self.core.archive().contradictions()?;
        let mut text = String::new(self.alloc);
        push_identities(&mut text, &identities)?;
        self.answer = text.into_bytes();
        Ok(())
    }

    fn vector_text(&mut self) -> Result<(), AllocError>
        ensures answer { OnOk result (self.new.answer ≡ held_text self.old.core.arrivals) }
        ensures core { self.new.core ≡ self.old.core }
        ensures watched { self.new.watched ≡ self.old.watched }
        ensures unchanged { OnErr result (self.new ≡ self.old) }
    {
        self.answer = write_held(self.alloc, &self.core)?.into_bytes();
        Ok(())
    }

    fn cut(&mut self, vector: &[u8]) -> Result<(), EmbedFault>
        ensures answer { Answers (cut_answer vector.now self.old.core.arrivals) result self.new.answer }
        ensures core { self.new.core ≡ self.old.core }
        ensures watched { self.new.watched ≡ self.old.watched }
        ensures unchanged { OnErr result (self.new ≡ self.old) }
    {
        let Some(vector) = read_vector(self.alloc, vector)? else {
            return Err(EmbedFault::BadVector);
        };
        self.answer = write_cut(self.alloc, &self.core, &vector)?;
        Ok(())
    }

    fn cut_above(&mut self, counts: &[u64]) -> Result<(), EmbedFault>
        ensures answer { Answers (cut_above_answer counts.now self.old.core.arrivals) result self.new.answer }
        ensures core { self.new.core ≡ self.old.core }
        ensures watched { self.new.watched ≡ self.old.watched }
        ensures unchanged { OnErr result (self.new ≡ self.old) }
    {
        let vector = vector_of(self.alloc, counts)?;
        self.answer = write_cut(self.alloc, &self.core, &vector)?;
        Ok(())
    }

    fn entries(&mut self, origin: u16, above: u64, most: u64) -> Result<(), EmbedFault>
        ensures answer { Answers (entries_answer origin above most self.old.core.arrivals) result self.new.answer }
        ensures core { self.new.core ≡ self.old.core }
        ensures watched { self.new.watched ≡ self.old.watched }
        ensures unchanged { OnErr result (self.new ≡ self.old) }
    {
        if !is_site(origin) {
            return Err(EmbedFault::BadArgument(1));
        }
        if !is_text_size(most) {
            return Err(EmbedFault::BadArgument(3));
        }
        self.answer = write_entries(self.alloc, &self.core, origin, above, most)?;
        Ok(())
    }

    fn digest(&mut self, origin: u16, count: u64) -> Result<(), EmbedFault>
        ensures answer { Answers (digest_answer origin count self.old.core.arrivals) result self.new.answer }
        ensures core { self.new.core ≡ self.old.core }
        ensures watched { self.new.watched ≡ self.old.watched }
        ensures unchanged { OnErr result (self.new ≡ self.old) }
    {
        if !is_site(origin) {
            return Err(EmbedFault::BadArgument(1));
        }
        let digests = &mut self.showing.digests;
        let Some(text) = digests.text_at(self.alloc, &self.core, origin, count)? else {
            return Err(EmbedFault::BadArgument(2));
        };
        self.answer = text.into_bytes();
        Ok(())
    }

    fn digests_text(&mut self) -> Result<(), AllocError>
        ensures answer { OnOk result (self.new.answer ≡ digests_text self.old.core.arrivals) }
        ensures core { self.new.core ≡ self.old.core }
        ensures watched { self.new.watched ≡ self.old.watched }
        ensures unchanged { OnErr result (self.new ≡ self.old) }
    {
        let text = self.showing.digests.text(self.alloc, &self.core)?;
        self.answer = text.into_bytes();
        Ok(())
    }

    fn journal_text(&mut self, above: u64) -> Result<(), AllocError>
        ensures answer { OnOk result (self.new.answer ≡ journal_text above self.old.core) }
        ensures core { self.new.core ≡ self.old.core }
        ensures watched { self.new.watched ≡ self.old.watched }
        ensures unchanged { OnErr result (self.new ≡ self.old) }
    {
        let number = self.core.number();
        self.answer = text_of_own_entries(self.alloc, number, above, self.core.arrivals())?;
        Ok(())
    }

    fn newest_text(&mut self, count: u64) -> Result<(), AllocError>
        ensures answer { OnOk result (self.new.answer ≡ newest_text count self.old.core.arrivals) }
        ensures core { self.new.core ≡ self.old.core }
        ensures watched { self.new.watched ≡ self.old.watched }
        ensures unchanged { OnErr result (self.new ≡ self.old) }
    {
        let arrivals = self.core.arrivals();
        let first = arrivals.len().saturating_sub(count as usize);
        self.answer = text_of_entries(self.alloc, &arrivals[first..])?;
        Ok(())
    }

    fn reading_text(&mut self, text: &[u8]) -> Result<(), AllocError>
        ensures answer { OnOk result (self.new.answer ≡ reading_text_of text.now) }
        ensures core { self.new.core ≡ self.old.core }
        ensures watched { self.new.watched ≡ self.old.watched }
        ensures unchanged { OnErr result (self.new ≡ self.old) }
    {
        self.answer = read_text(self.alloc, &mut self.reader, text)?;
        Ok(())
    }

    fn transfer_text(&mut self, bank: &[u8], tx: &[u8]) -> Result<(), EmbedFault>
        ensures answer { Answers (transfer_answer bank.now tx.now (messages_of self.old.core.arrivals)) result self.new.answer }
        ensures core { self.new.core ≡ self.old.core }
        ensures watched { self.new.watched ≡ self.old.watched }
        ensures unchanged { OnErr result (self.new ≡ self.old) }
    {
        let transfer = transfer_of(bank, tx)?;
        self.showing.show_all(self.alloc, self.core.arrivals())?;
        let text = self.showing.view.transfer_text(&transfer);
        self.answer = text.map_err(AllocError::from)?;
        Ok(())
    }

    fn messages_text(&mut self, bank: &[u8], tx: &[u8]) -> Result<(), EmbedFault>
        ensures answer { Answers (messages_answer bank.now tx.now (messages_of self.old.core.arrivals)) result self.new.answer }
        ensures core { self.new.core ≡ self.old.core }
        ensures watched { self.new.watched ≡ self.old.watched }
        ensures unchanged { OnErr result (self.new ≡ self.old) }
    {
        let transfer = transfer_of(bank, tx)?;
        self.showing.show_all(self.alloc, self.core.arrivals())?;
        let text = self.showing.view.messages_text(&transfer);
        self.answer = text.map_err(AllocError::from)?;
        Ok(())
    }

    fn bank_totals(&mut self, bank: &[u8]) -> Result<(), EmbedFault>
        ensures answer { Answers (bank_answer bank.now (messages_of self.old.core.arrivals)) result self.new.answer }
        ensures core { self.new.core ≡ self.old.core }
        ensures watched { self.new.watched ≡ self.old.watched }
        ensures unchanged { OnErr result (self.new ≡ self.old) }
    {
        let Some(bank) = bank_of(bank) else {
            return Err(EmbedFault::BadArgument(1));
        };
        self.showing.show_all(self.alloc, self.core.arrivals())?;
        let line = self.showing.view.totals_line(&bank);
        self.answer = line.map_err(AllocError::from)?;
        Ok(())
    }

    fn report(&mut self, bank: &[u8], day: &[u8], list: &[u8]) -> Result<(), EmbedFault>
        ensures answer { Answers (report_answer bank.now day.now list.now (messages_of self.old.core.arrivals)) result self.new.answer }
        ensures core { self.new.core ≡ self.old.core }
        ensures watched { self.new.watched ≡ self.old.watched }
        ensures unchanged { OnErr result (self.new ≡ self.old) }
    {
        let Some(bank) = bank_of(bank) else {
            return Err(EmbedFault::BadArgument(1));
        };
        let Some(day) = day_of(day) else {
            return Err(EmbedFault::BadArgument(2));
        };
        let list = List::read(self.alloc, list)?;
        self.showing.show_by_bank(self.alloc, self.core.arrivals())?;
        let (view, by_bank) = (&self.showing.view, &self.showing.shelf.by_bank);
        let rows = report_rows(self.alloc, view, by_bank, &bank, &day, &list)?;
        self.answer = write_report(self.alloc, &rows)?;
        Ok(())
    }

    fn kept_text(&mut self, day: &[u8]) -> Result<(), EmbedFault>
        ensures answer { Answers (kept_answer day.now (messages_of self.old.core.arrivals)) result self.new.answer }
        ensures core { self.new.core ≡ self.old.core }
        ensures watched { self.new.watched ≡ self.old.watched }
        ensures unchanged { OnErr result (self.new ≡ self.old) }
    {
        let Some(day) = day_of(day) else {
            return Err(EmbedFault::BadArgument(1));
        };
        self.showing.show_all(self.alloc, self.core.arrivals())?;
        let messages = self.core.archive().messages();
        let found = split(self.alloc, &self.showing.view, &day, messages);
        let parts = found.map_err(AllocError::from)?;
        self.answer = text_of_messages(self.alloc, &parts.kept)?;
        Ok(())
    }

    fn closed_text(&mut self, day: &[u8]) -> Result<(), EmbedFault>
        ensures answer { Answers (closed_answer day.now (messages_of self.old.core.arrivals)) result self.new.answer }
        ensures core { self.new.core ≡ self.old.core }
        ensures watched { self.new.watched ≡ self.old.watched }
        ensures unchanged { OnErr result (self.new ≡ self.old) }
    {
        let Some(day) = day_of(day) else {
            return Err(EmbedFault::BadArgument(1));
        };
        self.showing.show_all(self.alloc, self.core.arrivals())?;
        let messages = self.core.archive().messages();
        let found = split(self.alloc, &self.showing.view, &day, messages);
        let parts = found.map_err(AllocError::from)?;
        self.answer = text_of_messages(self.alloc, &parts.closed)?;
        Ok(())
    }

    fn changes_text(&mut self) -> Result<(), AllocError>
        ensures answer { OnOk result (self.new.answer ≡ changes_since self.old.watched self.old.core.arrivals) }
        ensures core { self.new.core ≡ self.old.core }
        ensures watched { OnOk result (self.new.watched ≡ Some (length self.old.core.arrivals)) }
        ensures unchanged { OnErr result (self.new ≡ self.old) }
    {
        self.showing.show_all(self.alloc, self.core.arrivals())?;
        self.answer = text_of_changes(self.alloc, &self.showing.watch)?;
        self.showing.watch = Some(Watch {
            asked: self.showing.count,
            changed: Vec::new(self.alloc),
        });
        Ok(())
    }
}
