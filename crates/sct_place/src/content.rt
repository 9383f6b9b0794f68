//! A site or a snapshot of one: what changes a site is refused by a snapshot, and what asks takes in first what the snapshot has.

ghost use Rattle.std.specs.Prelude.{◌≡◌, ◌≢◌, ◌⊎◌, ◌<◌, [], None, length, true, false, IfErr, IfOk, OnErr, OnOk};
ghost use Rattle.sct_delta.specs.declared.fault.DeltaFault.TheVariants as delta;
ghost use Rattle.sct_lines.specs.Lines.{messages_read, refusals_told, told_text_of};
ghost use Rattle.sct_rights.specs.Listing.{banks_in};
ghost use Rattle.sct_embed.specs.Asking.{answer_to_question, watched_after_answer};
ghost use Rattle.sct_embed.specs.Calls.{IsDeltaAccepted, IsTaken, RefusesDelta, RefusesMessage};
ghost use Rattle.sct_embed.specs.Counts.{AreCounts};
ghost use Rattle.sct_place.specs.Keeping.{IsReady, IsSeenAlike, is_snapshot, seen};
ghost use Rattle.sct_place.specs.Places.{IsSnapshotRefused};
ghost use Rattle.sct_embed.specs.Questions.{Answers};
ghost use Rattle.sct_embed.specs.Sending.{IsTakenFor, RefusesFor};
ghost use Rattle.sct_embed.specs.Taking.{ArePartlyTaken, AreTaken};
ghost use Rattle.sct_embed.specs.declared.faults.EmbedFault.TheVariants as fault;

use crate::kept::Content;
use sct_embed::{EmbedFault, EmbeddedSite, Question, TakenLines};
use sct_site::{Accepted, Took};
use sct_snapshot::Snapshot;
use std::alloc::{AllocError, Global};

impl Content {
    /// Takes the message that one JSON object is. Errors: as [`EmbeddedSite::take`]; `Snapshot` (85).
    pub(crate) fn take(&mut self, json: &[u8]) -> Result<Took, EmbedFault>
        ensures taken { IfOk result (λ took. IsTaken (seen self.old).core json.now took (seen self.new).core) }
        ensures answer { (seen self.new).answer ≡ (seen self.old).answer }
        ensures watched { (seen self.new).watched ≡ (seen self.old).watched }
        ensures err { is_snapshot self.old ≡ false → IfErr result (RefusesMessage json.now) }
        ensures snapshot { is_snapshot self.old ≡ true → IsSnapshotRefused result }
        ensures unchanged { OnErr result (self.new ≡ self.old) }
        ensures kind { is_snapshot self.new ≡ is_snapshot self.old }
    {
        match self {
            Content::Own(site) => site.take(json),
            _ => Err(EmbedFault::Snapshot),
        }
    }

    /// The same, if the message may be sent in the name of banks. Errors: as [`EmbeddedSite::take_for`]; `Snapshot` (85).
    pub(crate) fn take_for(
        &mut self,
        alloc: Global,
        banks: &[u8],
        json: &[u8],
    ) -> Result<Took, EmbedFault>
        ensures taken { IfOk result (λ took. IsTakenFor (seen self.old).core (banks_in banks.now) json.now took (seen self.new).core) }
        ensures answer { (seen self.new).answer ≡ (seen self.old).answer }
        ensures watched { (seen self.new).watched ≡ (seen self.old).watched }
        ensures err { is_snapshot self.old ≡ false → IfErr result (RefusesFor (seen self.old).core (banks_in banks.now) json.now) }
        ensures snapshot { is_snapshot self.old ≡ true → IsSnapshotRefused result }
        ensures unchanged { OnErr result (self.new ≡ self.old) }
        ensures kind { is_snapshot self.new ≡ is_snapshot self.old }
    {
        match self {
            Content::Own(site) => site.take_for(alloc, banks, json),
            _ => Err(EmbedFault::Snapshot),
        }
    }

    /// Takes the messages of lines. Errors: `Memory` (65), with some of the first messages taken; `Snapshot` (85).
    pub(crate) fn take_lines(&mut self, text: &[u8]) -> Result<TakenLines, EmbedFault>
        ensures taken { IfOk result (λ taken. AreTaken (seen self.old).core text.now taken (seen self.new).core) }
        ensures told { OnOk result ((seen self.new).answer ≡ told_text_of (refusals_told text.now)) }
        ensures watched { (seen self.new).watched ≡ (seen self.old).watched }
        ensures err { is_snapshot self.old ≡ false → IfErr result (λ e. e ≡ fault.Memory) }
        ensures snapshot { is_snapshot self.old ≡ true → IsSnapshotRefused result }
        ensures partly { OnErr result (ArePartlyTaken (seen self.old).core (messages_read text.now) (seen self.new).core) }
        ensures answer_kept { OnErr result ((seen self.new).answer ≡ (seen self.old).answer) }
        ensures unchanged { is_snapshot self.old ≡ true → self.new ≡ self.old }
        ensures kind { is_snapshot self.new ≡ is_snapshot self.old }
    {
        match self {
            Content::Own(site) => site.take_lines(text),
            _ => Err(EmbedFault::Snapshot),
        }
    }

    /// Accepts a delta. Errors: as [`EmbeddedSite::accept`]; `Snapshot` (85).
    pub(crate) fn accept(&mut self, text: &[u8]) -> Result<Accepted, EmbedFault>
        ensures accepted { IfOk result (λ accepted. IsDeltaAccepted (seen self.old).core text.now accepted (seen self.new).core) }
        ensures answer { (seen self.new).answer ≡ (seen self.old).answer }
        ensures watched { (seen self.new).watched ≡ (seen self.old).watched }
        ensures err { is_snapshot self.old ≡ false → IfErr result (RefusesDelta (seen self.old).core text.now) }
        ensures snapshot { is_snapshot self.old ≡ true → IsSnapshotRefused result }
        ensures unchanged { OnErr result (self.new ≡ self.old) }
        ensures kind { is_snapshot self.new ≡ is_snapshot self.old }
    {
        match self {
            Content::Own(site) => site.accept(text),
            _ => Err(EmbedFault::Snapshot),
        }
    }

    // Has a snapshot take in all that it has. Error: `Memory` (65).
    fn follow(&mut self, alloc: Global) -> Result<(), EmbedFault>
        ensures ready { OnOk result (IsReady self.new) }
        ensures alike { IsSeenAlike self.old self.new }
        ensures err { IfErr result (λ e. e ≡ fault.Memory) }
        ensures snapshot { OnErr result (is_snapshot self.old ≡ true) }
    {
        let site = match self {
            Content::Ahead(snapshot) => EmbeddedSite::of_snapshot(alloc, snapshot)?,
            _ => return Ok(()),
        };
        *self = Content::Followed(site);
        Ok(())
    }

    /// Asks a question. Errors: as [`EmbeddedSite::ask`].
    pub(crate) fn ask(&mut self, alloc: Global, question: Question<'_>) -> Result<(), EmbedFault>
        ensures answer { Answers (answer_to_question question.entry (seen self.old)) result (seen self.new).answer }
        ensures core { (seen self.new).core ≡ (seen self.old).core }
        ensures watched { OnOk result ((seen self.new).watched ≡ watched_after_answer question.entry (seen self.old)) }
        ensures unchanged { OnErr result (seen self.new ≡ seen self.old) }
        ensures kind { is_snapshot self.new ≡ is_snapshot self.old }
    {
        self.follow(alloc)?;
        match self {
            Content::Own(site) => site.ask(question),
            Content::Followed(site) => site.ask(question),
            Content::Ahead(_) => Err(EmbedFault::Memory),
        }
    }

    /// Evaluates what is new. Error: `Memory` (65).
    pub(crate) fn evaluate(&mut self, alloc: Global) -> Result<(), EmbedFault>
        ensures alike { IsSeenAlike self.old self.new }
        ensures err { IfErr result (λ e. e ≡ fault.Memory) }
    {
        self.follow(alloc)?;
        match self {
            Content::Own(site) => site.evaluate(),
            Content::Followed(site) => site.evaluate(),
            Content::Ahead(_) => Err(EmbedFault::Memory),
        }
    }

    /// Writes how many entries of each origin are held. Errors: as [`EmbeddedSite::counts`]; for a snapshot also `Memory` (65).
    pub(crate) fn counts(&mut self, alloc: Global, out: &mut [u64]) -> Result<(), EmbedFault>
        ensures counts { OnOk result (AreCounts (seen self.old).core.arrivals out.new) }
        ensures err { IfErr result (λ e. ((e ≡ fault.Delta delta.BadSite) × (1024 < length out.old)) ⊎ ((e ≡ fault.Memory) × (is_snapshot self.old ≡ true))) }
        ensures unwritten { OnErr result (out.new ≡ out.old) }
        ensures alike { IsSeenAlike self.old self.new }
    {
        if let Err(_) = self.follow(alloc) {
            return Err(EmbedFault::Memory);
        }
        match self {
            Content::Own(site) => site.counts(out),
            Content::Followed(site) => site.counts(out),
            Content::Ahead(_) => Err(EmbedFault::Memory),
        }
    }

    /// The answer: the text that was asked for last.
    pub(crate) fn answer(&self) -> &[u8]
        ensures { result.now ≡ (seen self.now).answer }
    {
        match self {
            Content::Own(site) => site.answer(),
            Content::Followed(site) => site.answer(),
            Content::Ahead(_) => &[],
        }
    }

    /// Has the empty text as the answer.
    pub(crate) fn end_answer(&mut self)
        ensures site { seen self.new ≡ record { core = (seen self.old).core; answer = []; watched = (seen self.old).watched } }
        ensures kind { is_snapshot self.new ≡ is_snapshot self.old }
    {
        match self {
            Content::Own(site) => site.end_answer(),
            Content::Followed(site) => site.end_answer(),
            Content::Ahead(_) => {}
        }
    }

    /// What is held now. The error is that it is out of memory.
    pub(crate) fn snapshot(&mut self) -> Result<Snapshot, AllocError>
        ensures snapshot { IfOk result (λ snapshot. snapshot ≡ (seen self.old).core) }
        ensures alike { IsSeenAlike self.old self.new }
    {
        match self {
            Content::Own(site) => site.snapshot(),
            Content::Followed(site) => site.snapshot(),
            Content::Ahead(snapshot) => snapshot.share(),
        }
    }
}
