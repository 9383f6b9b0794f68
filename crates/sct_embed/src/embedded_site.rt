//! A site of a group, and the text that it was asked for last.

ghost use Rattle.std.specs.Prelude.{◌≡◌, ◌≢◌, ◌<◌, [], None, length, true, false, IfErr, IfOk, OnErr, OnOk};
ghost use Rattle.std.specs.Arc.{arc_value};
ghost use Rattle.sct_delta.specs.declared.fault.DeltaFault.TheVariants as delta;
ghost use Rattle.sct_lines.specs.Lines.{messages_read, refusals_told, told_text_of};
ghost use Rattle.sct_site.specs.Cores.{core_taken, is_open, took_by};
ghost use Rattle.sct_embed.specs.Calls.{IsDeltaAccepted, IsTaken, RefusesDelta, RefusesMessage};
ghost use Rattle.sct_embed.specs.Counts.{AreCounts};
ghost use Rattle.sct_embed.specs.Restoring.{core_restored, restored_text};
ghost use Rattle.sct_embed.specs.Taking.{ArePartlyTaken, AreTaken};
ghost use Rattle.sct_embed.specs.declared.faults.EmbedFault.TheVariants as fault;

use crate::arguments::put_counts;
use crate::faults::EmbedFault;
use crate::showing::Showing;
use crate::taking::{TakenLines, files_offered, take_all};
use sct_delta::{DeltaFault, MOST_SITES, read_delta};
use sct_exchange::{Exchanged, exchange, write_refused_files};
use sct_json::MessageReader;
use sct_lines::{Intake, read_lines_after};
use sct_message::Message;
use sct_site::{Accepted, SiteCore, Took};
use std::alloc::{AllocError, Global};
use std::marker::Model;
use std::sync::Arc;

/// A site of a group, by bytes. It keeps the text that it was asked for last, its answer.
///
/// A view shows the messages that the site holds. It follows them when a question needs it, and then only what is new is
/// evaluated: a question after n takes costs what these touch, and not the whole.
#[derive(Drop)]
pub struct EmbeddedSite {
    pub(crate) alloc: Global,
    pub(crate) core: SiteCore,
    pub(crate) showing: Showing,
    pub(crate) reader: MessageReader,
    pub(crate) answer: Vec<u8>,
}

impl Model for EmbeddedSite {
    ghost use Rattle.sct_embed.specs.Embeddings.{Embedding};
    ghost use Rattle.sct_embed.specs.Showing.{IsShowing, watched_by};

    ghost Value = { Embedding };

    ghost view = { λ s. record { core = s.core; answer = s.answer.items; watched = watched_by s.showing.watch } };

    ghost invariant = { λ s. IsShowing s.showing s.core.arrivals };
}

impl EmbeddedSite {
    /// The site `number` of a group of `group` sites. It holds nothing, and its answer is empty.
    /// Error: `BadSite` (44) if the group does not have 1 to 1024 sites, or does not have this site.
    pub fn open(alloc: Global, number: u16, group: u16) -> Result<EmbeddedSite, EmbedFault>
        ensures ok { IfOk result (λ site. site
            ≡ record { core = record { number = number; group = group; arrivals = [] }; answer = []; watched = None }) }
        ensures opened { OnOk result (is_open number group ≡ true) }
        ensures err { IfErr result (λ e. (e ≡ fault.Delta delta.BadSite) × (is_open number group ≡ false)) }
    {
        Ok(EmbeddedSite {
            alloc,
            core: SiteCore::open(alloc, number, group)?,
            showing: Showing::new(alloc),
            reader: MessageReader::new(alloc),
            answer: Vec::new(alloc),
        })
    }

    /// The site `number` of a group of `group` sites, made anew from its own journal and a delta text, as the command `site`
    /// does it. It takes the messages of the journal, a JSON object on each line. Then it is offered the text, if the text is
    /// not empty. The answer has a line for each refused line of the journal, such as `file 1 line 8: 31`, and one for the
    /// text if it is refused, such as `file 2: 41 3 0 7`. It is empty if nothing is refused.
    /// Errors: `BadSite` (44) as in [`EmbeddedSite::open`]; `Memory` (65).
    pub fn restore(
        alloc: Global,
        number: u16,
        group: u16,
        journal: &[u8],
        text: &[u8],
    ) -> Result<EmbeddedSite, EmbedFault>
        ensures core { IfOk result (λ site. site.core ≡ core_restored number group journal.now text.now) }
        ensures told { IfOk result (λ site. site.answer ≡ restored_text number group journal.now text.now) }
        ensures unwatched { IfOk result (λ site. site.watched ≡ None) }
        ensures opened { OnOk result (is_open number group ≡ true) }
        ensures err { IfErr result (λ e. e ≢ fault.Memory
            → (e ≡ fault.Delta delta.BadSite) × (is_open number group ≡ false)) }
    {
        let Intake { messages, refusals } = read_lines_after(alloc, "file 1 ", journal)?;
        let files = files_offered(alloc, text)?;
        let Exchanged { core, refused } = exchange(alloc, number, group, messages, files)?;
        let (mut refused_text, _) = refusals.into_parts();
        refused_text.push_str(write_refused_files(alloc, &refused)?.as_str())?;
        Ok(EmbeddedSite {
            alloc,
            core,
            showing: Showing::new(alloc),
            reader: MessageReader::new(alloc),
            answer: refused_text.into_bytes(),
        })
    }

    /// How many entries the site holds, of all origins.
    pub fn count(&self) -> usize
        ensures { result ≡ length self.now.core.arrivals }
    {
        self.core.arrivals().len()
    }

    /// The answer: the text that was asked for last.
    pub fn answer(&self) -> &[u8]
        ensures { result.now ≡ self.now.answer }
    {
        &self.answer
    }

    /// Has the empty text as the answer, and frees the memory of the text that it was.
    pub fn end_answer(&mut self)
        ensures { self.new ≡ record { core = self.old.core; answer = []; watched = self.old.watched } }
    {
        self.answer = Vec::new(self.alloc);
    }

    /// Evaluates what is new, so that the next question finds it done. Each answer is what it is without this call.
    /// O(messages that are new, and those of the transfers that they touch). Error: `Memory` (65).
    pub fn evaluate(&mut self) -> Result<(), EmbedFault>
        ensures same { self.new ≡ self.old }
        ensures err { IfErr result (λ e. e ≡ fault.Memory) }
    {
        Ok(self.showing.show_all(self.alloc, self.core.arrivals())?)
    }

    // Has the blocks that snapshots share follow the arrivals.
    pub(crate) fn seal(&mut self)
        ensures { self.new ≡ self.old }
    {
        self.showing.seal(self.core.arrivals());
    }

    // Takes a message. Error: `Memory` (65).
    pub(crate) fn put(&mut self, message: Arc<Message>) -> Result<Took, EmbedFault>
        ensures took { IfOk result (λ took. took ≡ took_by self.old.core (arc_value message)) }
        ensures core { OnOk result (self.new.core ≡ core_taken self.old.core (arc_value message)) }
        ensures answer { self.new.answer ≡ self.old.answer }
        ensures watched { self.new.watched ≡ self.old.watched }
        ensures err { IfErr result (λ e. e ≡ fault.Memory) }
        ensures unchanged { OnErr result (self.new ≡ self.old) }
    {
        let took = self.core.take(message)?;
        self.seal();
        Ok(took)
    }

    /// Takes the message that one JSON object is a form of. The cost is that of the object, and of one addition.
    /// Errors: the first reason why the bytes are a form of no message (31 to 38, 46, 56), or `Memory` (65).
    pub fn take(&mut self, json: &[u8]) -> Result<Took, EmbedFault>
        ensures taken { IfOk result (λ took. IsTaken self.old.core json.now took self.new.core) }
        ensures answer { self.new.answer ≡ self.old.answer }
        ensures watched { self.new.watched ≡ self.old.watched }
        ensures err { IfErr result (RefusesMessage json.now) }
        ensures unchanged { OnErr result (self.new ≡ self.old) }
    {
        let message = Arc::new(self.alloc, self.reader.read(json)?).map_err(AllocError::from)?;
        self.put(message)
    }

    /// Accepts the delta that a text of form 1 or 2 is. The cost is that of the text, and of an addition for each new entry.
    /// Errors: `BadDelta` (45) with the first wrong line of the text; `BadSite` (44), `OwnAhead` (43), `Gap` (41) or `Fork`
    /// (42), the first of these; `Memory` (65).
    pub fn accept(&mut self, text: &[u8]) -> Result<Accepted, EmbedFault>
        ensures accepted { IfOk result (λ accepted. IsDeltaAccepted self.old.core text.now accepted self.new.core) }
        ensures answer { self.new.answer ≡ self.old.answer }
        ensures watched { self.new.watched ≡ self.old.watched }
        ensures err { IfErr result (RefusesDelta self.old.core text.now) }
        ensures unchanged { OnErr result (self.new ≡ self.old) }
    {
        let delta = read_delta(self.alloc, text)?;
        let accepted = self.core.accept(&delta)?;
        self.seal();
        Ok(accepted)
    }

    /// Writes how many entries of each origin the site holds, that of origin 1 first. `out` may have any length up to 1024.
    /// Error: `BadSite` (44) if it is longer; then nothing is written.
    pub fn counts(&self, out: &mut [u64]) -> Result<(), EmbedFault>
        ensures counts { OnOk result (AreCounts self.now.core.arrivals out.new) }
        ensures err { IfErr result (λ e. (e ≡ fault.Delta delta.BadSite) × (1024 < length out.old)) }
        ensures unwritten { OnErr result (out.new ≡ out.old) }
    {
        if out.len() > MOST_SITES as usize {
            return Err(EmbedFault::Delta(DeltaFault::BadSite));
        }
        put_counts(self.core.vector(), out);
        Ok(())
    }

    /// Takes the messages of a text, one on each line, and has as the answer a line for each refused one, such as
    /// `line 8: 36 InstgAgt 1`. O(bytes of the text), and one addition for each message.
    /// Error: `Memory` (65). Some of the first messages may be taken then; the text can be taken again.
    pub fn take_lines(&mut self, text: &[u8]) -> Result<TakenLines, EmbedFault>
        ensures taken { IfOk result (λ taken. AreTaken self.old.core text.now taken self.new.core) }
        ensures told { OnOk result (self.new.answer ≡ told_text_of (refusals_told text.now)) }
        ensures watched { self.new.watched ≡ self.old.watched }
        ensures err { IfErr result (λ e. e ≡ fault.Memory) }
        ensures partly { OnErr result (ArePartlyTaken self.old.core (messages_read text.now) self.new.core) }
        ensures answer_kept { OnErr result (self.new.answer ≡ self.old.answer) }
    {
        let intake = read_lines_after(self.alloc, "", text)?;
        let before = self.core.arrivals().len();
        take_all(&mut self.core, &intake.messages)?;
        let fresh = self.core.arrivals().len() - before;
        let repeats = intake.messages.len() - fresh;
        let (refused_text, refused) = intake.refusals.into_parts();
        self.answer = refused_text.into_bytes();
        self.seal();
        Ok(TakenLines {
            fresh: fresh as u64,
            repeats: repeats as u64,
            refused,
        })
    }
}
