//! One site, from the bytes of its input to its core.

ghost use Rattle.std.specs.List.{All};
ghost use Rattle.std.specs.Prelude.{◌≡◌, [], Err, length, IfErr, IfOk, IfSome, OnOk, string_bytes};
ghost use Rattle.sct_desk.specs.Openings.{IsNewQuery};
ghost use Rattle.sct_lines.specs.Lines.{messages_read, refusals_told};
ghost use Rattle.sct_message.specs.Sets.{messages_in};
ghost use Rattle.sct_set.specs.Contents.{contents_of};
ghost use Rattle.sct_workers.specs.Files.{file_front, told_of_file};
ghost use Rattle.sct_workers.specs.Filling.{IsFilled};
ghost use Rattle.sct_workers.specs.Holds.{EndsWhere, IsClosingFault, SiteEndsWhere};
ghost use Rattle.sct_workers.specs.Kept.{AllShown};
ghost use Rattle.sct_workers.specs.Stands.{Stands};
ghost use Rattle.sct_workers.specs.declared.fault.SiteFault.TheVariants as site;

use crate::fault::{SiteFault, WorkFault};
use crate::filled::Filled;
use crate::gate::Gate;
use crate::kept::{Kept, Takes};
use crate::run::{MemberSite, Run};
use crate::workers::{Channels, run_workers};
use sct_desk::{Desk, DeskFault, Query, Site};
use sct_lines::{Intake, read_lines_after};
use sct_message::Message;
use sct_site::{History, SiteCore, Track};
use std::alloc::{AllocError, Global};
use std::marker::Brand;
use std::sync::{Arc, Wait};
use std::thread::Threads;

// One of the queries of a desk.
fn pop_query<J: Site>(mut queries: Vec<Query>) -> Option<Query>
    requires { All (IsNewQuery J.book J.number) queries.items }
    ensures { IfSome result (IsNewQuery J.book J.number) }
{
    queries.pop()
}

// Opens the desk of a site with its one query.
#[tactic(auto, using(crate::proofs::Holding::opening_ends))]
fn open_desk<'a, J: Site, G, R: Wait>(
    run: &Run<'a, G, R>,
    history: History,
    track: Track,
    member: MemberSite,
) -> Result<(Desk<J, &'a R>, Query), WorkFault>
    requires history { history ≡ J.book }
    requires track { (track.book ≡ J.book) × (track.log ≡ []) }
    requires site { (member.number ≡ J.number) × (member.group ≡ J.group) }
    ensures query { IfOk result (λ d. (d.1.book ≡ J.book) × (d.1.site ≡ J.number)) }
    ensures ends { IfErr result (EndsWhere (λ point. ⊥)) }
{
    let (desk, queries) = Desk::<J, &'a R>::open(
        run.rt,
        run.alloc,
        history,
        track,
        member.number,
        member.group,
        1,
    )?;
    match pop_query::<J>(queries) {
        Some(query) => Ok((desk, query)),
        None => Err(WorkFault::from(DeskFault::NoPlace)),
    }
}

// Closes the desk of a site with the receipts of its workers, if none of them failed.
fn close_desk<J: Site + Takes, H: Wait + Drop>(
    desk: Desk<J, H>,
    kept: Result<Kept<J>, WorkFault>,
) -> Result<SiteCore, SiteFault>
    requires { IfOk kept (λ kept. AllShown J.messages kept.receipts.items) }
    ensures core { IfOk result (Stands J.number J.group J.messages) }
    ensures working { IfErr kept (λ reason. result ≡ Err (site.Working reason)) }
    ensures closing { OnOk kept (IfErr result IsClosingFault) }
{
    match kept?.close(desk) {
        Ok(core) => Ok(core),
        Err(fault) => Err(SiteFault::Closing(fault)),
    }
}

// Runs the workers of a site on its messages, and closes its desk.
#[tactic(auto, using(crate::proofs::Holding::no_gate, crate::proofs::Holding::closed_ends))]
fn run_site<J: Site + Takes + Send + Sync, G: Gate + Sync, R: Threads + Wait + Sync>(
    run: &Run<'_, G, R>,
    history: History,
    track: Track,
    member: MemberSite,
    messages: &[Arc<Message>],
    channels: Channels,
) -> Result<SiteCore, SiteFault>
    requires history { history ≡ J.book }
    requires track { (track.book ≡ J.book) × (track.log ≡ []) }
    requires site { (member.number ≡ J.number) × (member.group ≡ J.group) }
    requires messages { J.messages ≡ contents_of (messages_in messages.now) }
    ensures core { IfOk result (Stands J.number J.group J.messages) }
    ensures ends { IfErr result (SiteEndsWhere (G.may_hold run.now.gate.now)) }
{
    let (desk, query) = open_desk::<J, G, R>(run, history, track, member)?;
    let kept = run_workers(run, &desk, query, member.number, messages, channels);
    close_desk(desk, kept)
}

// The text before each line that reports a refused line of the input of this number, such as `file 2 `.
fn front_of(alloc: Global, number: u16) -> Result<String, AllocError>
    ensures { IfOk result (λ front. string_bytes front ≡ file_front number) }
{
    format!(in alloc; "file {number} ")
}

// The messages of an input, and its refused lines.
fn read_input(alloc: Global, number: u16, input: &[u8]) -> Result<Intake, AllocError>
    ensures messages { IfOk result (λ intake. messages_in intake.messages.items ≡ messages_read input.now) }
    ensures told { IfOk result (λ intake. intake.refusals.text ≡ told_of_file number input.now) }
    ensures refused { IfOk result (λ intake. intake.refusals.count ≡ length (refusals_told input.now)) }
{
    let front = front_of(alloc, number)?;
    read_lines_after(alloc, front.as_str(), input)
}

/// Fills a site from its input. The input is read in this thread, before the desk is opened.
pub(crate) fn fill_site<G: Gate + Sync, R: Threads + Wait + Sync>(
    run: &Run<'_, G, R>,
    member: MemberSite,
    input: &[u8],
    channels: Channels,
) -> Result<Filled, SiteFault>
    ensures filled { IfOk result (IsFilled member.number member.group input.now) }
    ensures ends { IfErr result (SiteEndsWhere (G.may_hold run.now.gate.now)) }
{
    let Ok(intake) = read_input(run.alloc, member.number, input) else {
        return Err(SiteFault::Working(WorkFault::Memory));
    };
    let Intake { messages, refusals } = intake;
    let (history, track) = History::open();
    let core = run_site::<Brand, G, R>(run, history, track, member, &messages, channels)?;
    Ok(Filled { core, refusals })
}
