//! Calls of the site of a place: it opens and closes, takes and accepts, snapshots of it are made, and its counts are copied out.

ghost use Rattle.std.specs.Prelude.{◌≡◌, None, false, IfErr, OnErr, OnOk};
ghost use Rattle.sct_place.specs.Keeping.{IsSeenAlike, seen};
ghost use Rattle.sct_place.specs.Outcomes.{refused_accept, refused_as, refused_lines, refused_take};
ghost use Rattle.sct_place.specs.Places.{Accepts, Counts, HasSite, IsCalled, IsFilledWith, IsSnapshotOf, MakesSnapshot, Opens, Restores, Takes, TakesAs, TakesLines};
ghost use Rattle.sct_embed.specs.declared.faults.EmbedFault.TheVariants as fault;

use crate::kept::{Content, KeptSite};
use crate::outcomes::{AcceptOutcome, CallOutcome, LinesOutcome, TakeOutcome};
use crate::place::Place;
use sct_embed::{EmbedFault, EmbeddedSite};
use std::alloc::{AllocError, Global};

impl Place {
    // Puts a site that was opened into the place.
    fn fill(&mut self, alloc: Global, opened: Result<EmbeddedSite, EmbedFault>) -> CallOutcome
        ensures { IsFilledWith opened self.old.handle.held result self.new.handle.held }
    {
        let site = match opened {
            Ok(site) => site,
            Err(fault) => return CallOutcome::refused(&fault),
        };
        let length = site.answer().len();
        let content = Content::Own(site);
        match Box::new(alloc, KeptSite { content, why: None }) {
            Ok(kept) => {
                self.put_in(kept);
                CallOutcome::done(length)
            }
            Err(_) => CallOutcome::refused(&EmbedFault::Memory),
        }
    }

    /// Opens the site `number` of a group of `group` sites in an empty place. It holds nothing, and its answer is empty.
    /// Refusals: `BadSite` (44), `Memory` (65), `Full` (71).
    pub fn open(&mut self, alloc: Global, number: u16, group: u16) -> CallOutcome
        ensures { Opens number group self.old.handle.held result self.new.handle.held }
    {
        if self.is_full() {
            return CallOutcome::refused(&EmbedFault::Full);
        }
        self.fill(alloc, EmbeddedSite::open(alloc, number, group))
    }

    /// Opens a site that was there before, in an empty place, from its journal and a delta text. The answer has a line for each
    /// refusal. Refusals: `BadSite` (44), `Memory` (65), `Full` (71).
    pub fn restore(
        &mut self,
        alloc: Global,
        number: u16,
        group: u16,
        journal: &[u8],
        text: &[u8],
    ) -> CallOutcome
        ensures { Restores number group journal.now text.now self.old.handle.held result self.new.handle.held }
    {
        if self.is_full() {
            return CallOutcome::refused(&EmbedFault::Full);
        }
        self.fill(
            alloc,
            EmbeddedSite::restore(alloc, number, group, journal, text),
        )
    }

    // Puts a snapshot of a site into the empty place.
    fn fill_with_snapshot(&mut self, alloc: Global, content: &mut Content) -> Result<(), EmbedFault>
        ensures alike { IsSeenAlike content.old content.new }
        ensures made { OnOk result (HasSite (IsSnapshotOf (seen content.old).core) self.new.handle.held) }
        ensures err { IfErr result (λ e. e ≡ fault.Memory) }
        ensures none { OnErr result (self.new ≡ self.old) }
    {
        let snapshot = content.snapshot()?;
        let kept = KeptSite {
            content: Content::Ahead(snapshot),
            why: None,
        };
        let kept = Box::new(alloc, kept).map_err(AllocError::from)?;
        self.put_in(kept);
        Ok(())
    }

    /// Makes a snapshot of what the site holds now, in another place, which is empty. It answers every question as the site would
    /// now, whatever the site takes later, and takes nothing itself. The first question takes in all that it has: O(entries).
    /// The cost is one handle for each 4,096 entries and for each of at most 4,095 more.
    /// Refusals: `Memory` (65), `Empty` (70), `Full` (71) if the other place has a site.
    pub fn snapshot(&mut self, alloc: Global, into: &mut Place) -> CallOutcome
        ensures { MakesSnapshot self.old.handle.held into.old.handle.held result self.new.handle.held into.new.handle.held }
    {
        if into.is_full() && self.is_full() {
            return CallOutcome::refused(&EmbedFault::Full);
        }
        let Some(mut kept) = self.take_out(alloc) else {
            return CallOutcome::refused(&EmbedFault::Empty);
        };
        let done = into.fill_with_snapshot(alloc, &mut kept.content);
        let outcome = CallOutcome::of(&done, 0);
        kept.keep_why(done);
        self.put_in(kept);
        outcome
    }

    /// Ends the site, if there is one, and frees its memory.
    pub fn close(&mut self, alloc: Global)
        ensures { self.new.handle.held ≡ None }
    {
        drop(self.take_out(alloc));
    }

    /// Takes the message that one JSON object is. Refusals: 31 to 38, 46, 56, `Memory` (65), `Empty` (70), `Snapshot` (85).
    pub fn take(&mut self, alloc: Global, json: &[u8]) -> TakeOutcome
        ensures { IsCalled refused_take (Takes json.now) self.old.handle.held result self.new.handle.held }
    {
        let Some(mut kept) = self.take_out(alloc) else {
            return TakeOutcome::refused(&EmbedFault::Empty);
        };
        let done = kept.content.take(json);
        let outcome = TakeOutcome::of(&done);
        kept.keep_why(done);
        self.put_in(kept);
        outcome
    }

    /// Takes the message that one JSON object is, if it may be sent in the name of the banks that a text lists.
    /// Refusals: 31 to 38, 46, 56, `Memory` (65), `Empty` (70), `BadArgument` (73) with 1 for the banks, `NotSender` (81),
    /// `NotOriginator` (82) with the transaction, `NotBeneficiary` (83), `Waits` (84), `Snapshot` (85).
    pub fn take_as(&mut self, alloc: Global, banks: &[u8], json: &[u8]) -> TakeOutcome
        ensures { IsCalled refused_take (TakesAs banks.now json.now) self.old.handle.held result self.new.handle.held }
    {
        let Some(mut kept) = self.take_out(alloc) else {
            return TakeOutcome::refused(&EmbedFault::Empty);
        };
        let done = kept.content.take_for(alloc, banks, json);
        let outcome = TakeOutcome::of(&done);
        kept.keep_why(done);
        self.put_in(kept);
        outcome
    }

    /// Takes the messages of a text, one on each line. The answer has a line for each refused one.
    /// Refusals: `Memory` (65), with some of the first messages taken; `Empty` (70), `Snapshot` (85).
    pub fn take_lines(&mut self, alloc: Global, text: &[u8]) -> LinesOutcome
        ensures { IsCalled refused_lines (TakesLines text.now) self.old.handle.held result self.new.handle.held }
    {
        let Some(mut kept) = self.take_out(alloc) else {
            return LinesOutcome::refused(&EmbedFault::Empty);
        };
        let done = kept.content.take_lines(text);
        let outcome = LinesOutcome::of(&done, kept.content.answer().len());
        kept.keep_why(done);
        self.put_in(kept);
        outcome
    }

    /// Accepts a delta text. Refusals: 41 to 45, `Memory` (65), `Empty` (70), `Snapshot` (85).
    pub fn accept(&mut self, alloc: Global, text: &[u8]) -> AcceptOutcome
        ensures { IsCalled refused_accept (Accepts text.now) self.old.handle.held result self.new.handle.held }
    {
        let Some(mut kept) = self.take_out(alloc) else {
            return AcceptOutcome::refused(&EmbedFault::Empty);
        };
        let done = kept.content.accept(text);
        let outcome = AcceptOutcome::of(&done);
        kept.keep_why(done);
        self.put_in(kept);
        outcome
    }

    /// Writes how many entries of each origin the site holds, that of origin 1 first. At most 1024 are asked for.
    /// Refusals: `BadSite` (44), `Empty` (70); of a snapshot also `Memory` (65).
    pub fn counts(&mut self, alloc: Global, out: &mut [u64]) -> CallOutcome
        ensures called { IsCalled refused_as (Counts out.old out.new) self.old.handle.held result self.new.handle.held }
        ensures unwritten { result.ok ≡ false → out.new ≡ out.old }
    {
        let Some(kept) = self.kept_mut() else {
            return CallOutcome::refused(&EmbedFault::Empty);
        };
        CallOutcome::of(&kept.content.counts(alloc, out), 0)
    }
}
