//! A site of a group is made of its journal and of deltas, and what is wanted of it is written.
ghost use Rattle.std.specs.Prelude.{◌≡◌, ◌≢◌, ◌∷◌, ◌+◌, Err, false, map, string_bytes, IfErr, IfOk, OnOk};
ghost use Rattle.sct_delta.specs.DeltaText.{delta_in};
ghost use Rattle.sct_delta.specs.Entries.{messages_of};
ghost use Rattle.sct_delta.specs.Vectors.{count_in};
ghost use Rattle.sct_digest.specs.Digests.{digests_text};
ghost use Rattle.sct_exchange.specs.Sites.{cut_text};
ghost use Rattle.sct_commands.specs.Exchanging.{count_by_exchange, is_possible, text_by_exchange, told_by_exchange, vector_line, wanted_text, AreReadAs, IsGathered, IsReadAs};
ghost use Rattle.sct_commands.specs.Fault.{failed_reads};
ghost use Rattle.sct_commands.specs.Places.{wanted_of};
ghost use Rattle.sct_commands.specs.Stream.{EndsFile, EndsFiles};
ghost use Rattle.sct_commands.specs.declared.fault.ProgramFault.TheVariants as fault;
ghost use Rattle.sct_set.specs.Archive.{archive_text_of};
ghost use Rattle.sct_set.specs.Pieces.{joined};

use crate::answers::{ProgramAnswer, one_piece};
use crate::fault::ProgramFault;
use crate::files::read_file;
use crate::jobs::Release;
use crate::places::{SiteCommand, Wanting};
use sct_delta::{DeltaFault, Vector};
use sct_digest::Digests;
use sct_exchange::{DeltaFile, Exchanged, exchange, write_cut, write_held, write_refused_files};
use sct_lines::{Intake, Refusals, read_file_lines};
use sct_message::Message;
use sct_set::SortedArchive;
use sct_site::SiteCore;
use sct_streams::{FileReading, Files};
use std::alloc::{AllocError, Global};
use std::sync::Arc;
use std::sync::ledger::Ledger;
use std::thread::Threads;

/// What a command on one site needs, after its files are read.
#[derive(Drop)]
pub struct Gathered {
    /// What is wanted of the site.
    pub wanting: Wanting,
    /// The number of the site, from 1.
    pub site: u16,
    /// How many sites the group has.
    pub sites: u16,
    /// The messages of the journal, in its order.
    pub messages: Vec<Arc<Message>>,
    /// The refused lines of the journal.
    pub refusals: Refusals,
    /// What each delta file is read as, in the order given.
    pub deltas: Vec<DeltaFile>,
}

// What the text of a delta file is read as. Error: out of memory.
fn delta_of(alloc: Global, text: &[u8]) -> Result<DeltaFile, AllocError>
    ensures { IfOk result (λ file. file ≡ delta_in text.now) }
{
    match sct_exchange::read_file(alloc, text) {
        Ok(file) => Ok(file),
        Err(_) => Err(AllocError),
    }
}

// Reads the delta file at a path. Its bytes are dropped. Errors: those of [`read_file`].
fn read_delta<R: Files, L: Ledger>(
    alloc: Global,
    files: &R,
    reading: &mut FileReading<R::File, L>,
    path: &str,
) -> Result<DeltaFile, ProgramFault>
    ensures read { IfOk result (IsReadAs (R.gives files.now) path.now) }
    ensures faults { IfErr result (EndsFile (R.gives files.now path.now)) }
    ensures quiet { OnOk result (reading.new.failures ≡ reading.old.failures) }
    ensures counted { IfErr result (λ e. reading.new.failures ≡ reading.old.failures + failed_reads e) }
{
    let text = read_file(alloc, files, reading, path)?;
    Ok(delta_of(alloc, &text)?)
}

// Reads the delta files at the paths, one after another.
fn read_deltas<R: Files, L: Ledger>(
    alloc: Global,
    files: &R,
    reading: &mut FileReading<R::File, L>,
    paths: &[&str],
) -> Result<Vec<DeltaFile>, ProgramFault>
    ensures read { IfOk result (λ deltas. AreReadAs (R.gives files.now) (map (λ path. path.now) paths.now) deltas.items) }
    ensures faults { IfErr result (EndsFiles (R.gives files.now) (map (λ path. path.now) paths.now)) }
    ensures quiet { OnOk result (reading.new.failures ≡ reading.old.failures) }
    ensures counted { IfErr result (λ e. reading.new.failures ≡ reading.old.failures + failed_reads e) }
{
    let mut deltas = Vec::new(alloc);
    for path in paths {
        deltas
            .push(read_delta(alloc, files, reading, path)?)
            .map_err(AllocError::from)?;
    }
    Ok(deltas)
}

/// Reads the journal and the delta files of a command on one site, each at its own path. The first file that cannot be
/// read ends the program: `Read` (62), `TooLong` (60) or `Memory` (65). The lines of the journal are read in as many
/// threads as there are processors. Of each file the messages are kept, and its bytes are dropped.
pub fn gather<T: Threads + Sync, R: Files, L: Ledger>(
    rt: &T,
    alloc: Global,
    files: &R,
    reading: &mut FileReading<R::File, L>,
    command: SiteCommand<'_>,
) -> Result<Gathered, ProgramFault>
    ensures gathered { IfOk result (IsGathered (R.gives files.now) command.entry) }
    ensures faults { IfErr result (EndsFiles (R.gives files.now)
        (command.entry.journal.now ∷ map (λ path. path.now) command.entry.deltas.items)) }
    ensures quiet { OnOk result (reading.new.failures ≡ reading.old.failures) }
    ensures counted { IfErr result (λ e. reading.new.failures ≡ reading.old.failures + failed_reads e) }
{
    let journal = read_file(alloc, files, reading, command.journal)?;
    let Intake { messages, refusals } = read_file_lines(rt, alloc, "file 1 ", &journal)?;
    drop(journal);
    let deltas = read_deltas(alloc, files, reading, &command.deltas)?;
    Ok(Gathered {
        wanting: command.wanting,
        site: command.site,
        sites: command.sites,
        messages,
        refusals,
        deltas,
    })
}

// The archive text of what a site holds, in pieces. The pieces are written in as many threads as there are processors.
// Error: out of memory.
fn held_pieces<T: Threads + Sync>(
    rt: &T,
    alloc: Global,
    release: Release,
    core: &SiteCore,
) -> Result<Vec<Vec<u8>>, AllocError>
    ensures { IfOk result (λ pieces. joined pieces.items ≡ archive_text_of (messages_of core.now.arrivals)) }
{
    let ordered = SortedArchive::of(rt, alloc, core.archive().messages())?;
    let pieces = ordered.text_in_pieces(rt)?;
    release.let_go(ordered);
    Ok(pieces)
}

// The text of a site's version vector, with a line feed. Error: out of memory.
fn vector_line(alloc: Global, core: &SiteCore) -> Result<Vec<u8>, AllocError>
    ensures { IfOk result (λ text. text.items ≡ vector_line core.now.arrivals) }
{
    let mut text = write_held(alloc, core)?;
    text.push('\n')?;
    Ok(text.into_bytes())
}

// The line of each origin with the digest of what a site holds of it. Error: out of memory.
fn digests_text(alloc: Global, core: &SiteCore) -> Result<Vec<u8>, AllocError>
    ensures { IfOk result (λ text. text.items ≡ digests_text core.now.arrivals) }
{
    let text = Digests::new(alloc).text(alloc, core)?;
    Ok(text.into_bytes())
}

// The delta text of what a site holds above a version vector. Error: out of memory.
fn delta_text(alloc: Global, core: &SiteCore, have: &Vector) -> Result<Vec<u8>, AllocError>
    ensures { IfOk result (λ text. text.items ≡ cut_text (count_in have.now) core.now.arrivals) }
{
    match write_cut(alloc, core, have) {
        Ok(text) => Ok(text),
        Err(_) => Err(AllocError),
    }
}

// The text that is wanted of a site, in pieces. Error: out of memory.
fn wanted_pieces<T: Threads + Sync>(
    rt: &T,
    alloc: Global,
    release: Release,
    wanting: &Wanting,
    core: &SiteCore,
) -> Result<Vec<Vec<u8>>, AllocError>
    ensures { IfOk result (λ pieces. joined pieces.items ≡ wanted_text (wanted_of wanting.now) core.now.arrivals) }
{
    let text = match wanting {
        Wanting::Messages => return held_pieces(rt, alloc, release, core),
        Wanting::Vector => vector_line(alloc, core)?,
        Wanting::Digests => digests_text(alloc, core)?,
        Wanting::Delta(have) => delta_text(alloc, core, have)?,
    };
    one_piece(alloc, text)
}

/// Makes the site of its journal and deltas. The answer is what is wanted of it, and the refused lines of the journal with the refused
/// files. `release` says what becomes of the site afterwards.
/// Errors: `Usage` (64) if the group has no such site; `Memory` (65).
pub fn answer_of_site<T: Threads + Sync>(
    rt: &T,
    alloc: Global,
    release: Release,
    gathered: Gathered,
) -> Result<ProgramAnswer, ProgramFault>
    ensures text { IfOk result (λ answer. joined answer.pieces.items ≡ text_by_exchange gathered) }
    ensures told { IfOk result (λ answer. string_bytes answer.refusals ≡ told_by_exchange gathered) }
    ensures refused { IfOk result (λ answer. answer.refused ≡ count_by_exchange gathered) }
    ensures usage { result ≡ Err fault.Usage → is_possible gathered ≡ false }
    ensures faults { IfErr result (λ e. e ≢ fault.Usage → e ≡ fault.Memory) }
{
    let Gathered {
        wanting,
        site,
        sites,
        messages,
        refusals,
        deltas,
    } = gathered;
    let Exchanged { core, refused } = match exchange(alloc, site, sites, messages, deltas) {
        Ok(exchanged) => exchanged,
        Err(DeltaFault::BadSite) => return Err(ProgramFault::Usage),
        Err(_) => return Err(ProgramFault::Memory),
    };
    let pieces = wanted_pieces(rt, alloc, release, &wanting, &core)?;
    release.let_go(core);
    let (mut refused_text, lines) = refusals.into_parts();
    refused_text.push_str(write_refused_files(alloc, &refused)?.as_str())?;
    Ok(ProgramAnswer {
        pieces,
        refusals: refused_text,
        refused: lines + refused.len() as u64,
    })
}
