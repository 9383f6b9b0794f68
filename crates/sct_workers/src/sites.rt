//! All sites of a run.

ghost use Rattle.std.specs.Prelude.{◌≡◌, ◌<◌, ◌≤◌, ◌+◌, [], Err, Some, IfErr, IfOk, length, vec_capacity, vec_len};
ghost use Rattle.std.specs.List.{slice_get};
ghost use Rattle.sct_delta.specs.Sites.{most_sites};
ghost use Rattle.sct_workers.specs.declared.fault.WorkFault.TheVariants as fault;
ghost use Rattle.sct_workers.specs.Each.{AtEach};
ghost use Rattle.sct_workers.specs.Files.{bytes_of};
ghost use Rattle.sct_workers.specs.Filling.{AreFilled, IsFilled};
ghost use Rattle.sct_workers.specs.Holds.{EndsWhere, SiteEndsWhere};
ghost use Rattle.sct_workers.specs.Reported.{AnswersTo};

use crate::fault::{SiteFault, WorkFault};
use crate::filled::{Filled, Sites};
use crate::gate::Gate;
use crate::reporting::collect_sites;
use crate::run::{MemberSite, Run};
use crate::senders::NewEntry;
use crate::site_work::fill_site;
use crate::workers::Channels;
use crossbeam_channel::{Receiver, Sender};
use sct_delta::{DeltaFault, MOST_SITES};
use std::alloc::{AllocError, Global};
use std::sync::Wait;
use std::thread;
use std::thread::{Promise, PromisedHandle, Scope, Threads};

// Copies of all senders, except the one at this place.
fn other_senders(
    alloc: Global,
    senders: &[Sender<NewEntry>],
    own: usize,
) -> Result<Vec<Sender<NewEntry>>, AllocError> {
    let mut others = Vec::new(alloc);
    for (place, sender) in senders.iter().enumerate() {
        if place != own {
            others.push(sender.clone()?)?;
        }
    }
    Ok(others)
}

// `count` channels: the ends to send to, and the ends to receive from.
fn open_channels(
    alloc: Global,
    count: usize,
) -> Result<(Vec<Sender<NewEntry>>, Vec<Receiver<NewEntry>>), AllocError>
    ensures { IfOk result (λ ends. vec_len ends.1 ≡ count) }
{
    let mut senders = Vec::new(alloc);
    let mut inboxes = Vec::new(alloc);
    for _ in 0..count {
        let (sender, inbox) = crossbeam_channel::unbounded(alloc)?;
        senders.push(sender)?;
        inboxes.push(inbox)?;
    }
    Ok((senders, inboxes))
}

// The channel ends of `count` sites, each with senders to all others.
fn channels_of_sites(alloc: Global, count: usize) -> Result<Vec<Channels>, AllocError>
    ensures { IfOk result (λ all. vec_len all ≡ count) }
{
    let (senders, inboxes) = open_channels(alloc, count)?;
    let mut all = Vec::new(alloc);
    for inbox in inboxes {
        let others = other_senders(alloc, &senders, all.len())?;
        all.push(Channels { inbox, others })?;
    }
    Ok(all)
}

/// The promise of a site's thread: the site was filled from the input. A worker was held only at a point at which the
/// gate may hold it. A call was refused only with the number of a refusal.
#[derive(Drop)]
pub(crate) struct Fills<'a, G: Gate> {
    gate: &'a G,
    member: MemberSite,
    input: &'a [u8],
}

impl<'a, G: Gate> Promise<Result<Filled, SiteFault>> for Fills<'a, G> {
    ghost kept_by = { λ p r.
        IfOk r (IsFilled p.member.number p.member.group p.input.now) × IfErr r (SiteEndsWhere (G.may_hold p.gate.now)) };
}

type Child<'a, G> = PromisedHandle<Result<Filled, SiteFault>, Fills<'a, G>>;

// Starts a site. Error: `NoWorker` (67) if no thread can be started for it.
fn start_site<'s, E, G: Gate + Sync, R: Threads + Wait + Sync>(
    run: &Run<'s, G, R>,
    scope: &Scope<'s, E>,
    member: MemberSite,
    input: &'s [u8],
    channels: Channels,
) -> Result<Child<'s, G>, WorkFault>
    ensures gate { IfOk result (λ child. child.promise.gate.now ≡ run.now.gate.now) }
    ensures site { IfOk result (λ child. (child.promise.member.number ≡ member.number)
        × (child.promise.member.group ≡ member.group)) }
    ensures input { IfOk result (λ child. child.promise.input.now ≡ input.now) }
    ensures none { IfErr result (λ e. e ≡ fault.NoWorker) }
{
    let Run { rt, alloc, gate } = *run;
    let started = scope.spawn_with(
        Fills {
            gate,
            member,
            input,
        },
        move || -> Result<Filled, SiteFault>
            ensures { IfOk result (IsFilled member.number member.group input.entry.now)
                × IfErr result (SiteEndsWhere (G.may_hold gate.entry.now)) }
        { fill_site(&Run { rt, alloc, gate }, member, input, channels) },
    );
    match started {
        Ok(child) => Ok(child),
        Err(_) => Err(WorkFault::NoWorker),
    }
}

// Starts one site for each input, numbered from 1. Error: `NoWorker` (67) if a thread cannot be started.
fn start_sites<'s, E, G: Gate + Sync, R: Threads + Wait + Sync>(
    run: &Run<'s, G, R>,
    scope: &Scope<'s, E>,
    inputs: &'s [Vec<u8>],
    channels: Vec<Channels>,
    room: Vec<Child<'s, G>>,
) -> Result<Vec<Child<'s, G>>, WorkFault>
    requires few { length inputs.now ≤ most_sites }
    requires channels { vec_len channels ≡ length inputs.now }
    requires room { (room.items ≡ []) × (length inputs.now ≤ vec_capacity room) }
    ensures len { IfOk result (λ children. length children.items ≡ length inputs.now) }
    ensures sites { IfOk result (λ children.
        AtEach (λ at child. (child.promise.member.number ≡ at + 1)
        × (child.promise.member.group ≡ length inputs.now)) children.items) }
    ensures inputs { IfOk result (λ children.
        AtEach (λ at child. slice_get (bytes_of inputs.now) at ≡ Some child.promise.input.now) children.items) }
    ensures gate { IfOk result
        (λ children. AtEach (λ at child. child.promise.gate.now ≡ run.now.gate.now) children.items) }
    ensures none { IfErr result (λ e. e ≡ fault.NoWorker) }
{
    let group = inputs.len() as u16;
    let mut children = room;
    for own in channels {
        let place = children.len();
        let member = MemberSite {
            number: place as u16 + 1,
            group,
        };
        let child = start_site(run, scope, member, &inputs[place], own)?;
        children.push_reserved(child);
    }
    Ok(children)
}

// Waits for all sites, in the order of their inputs, and collects their answers.
fn join_sites<'s, G: Gate, R: Threads>(
    run: &Run<'_, G, R>,
    inputs: &[Vec<u8>],
    children: Vec<Child<'s, G>>,
    room: Vec<Result<Filled, SiteFault>>,
) -> Vec<Result<Filled, SiteFault>>
    requires len { length children.items ≡ length inputs.now }
    requires sites { AtEach
        (λ at child. (child.promise.member.number ≡ at + 1)
        × (child.promise.member.group ≡ length inputs.now)) children.items }
    requires inputs { AtEach
        (λ at child. slice_get (bytes_of inputs.now) at ≡ Some child.promise.input.now) children.items }
    requires gate { AtEach (λ at child. child.promise.gate.now ≡ run.now.gate.now) children.items }
    requires room { (room.items ≡ []) × (length inputs.now ≤ vec_capacity room) }
    ensures len { length result.items ≡ length inputs.now }
    ensures filled { AtEach (AnswersTo (length inputs.now) (bytes_of inputs.now)) result.items }
    ensures ends { AtEach (λ place answer. IfErr answer (SiteEndsWhere (G.may_hold run.now.gate.now))) result.items }
{
    let mut answers = room;
    for child in children {
        answers.push_reserved(child.join(run.rt));
    }
    answers
}

// Fills one site from each input, numbered from 1. At most 1024 inputs make a group.
#[tactic(auto, using(crate::proofs::Holding::no_gate, crate::proofs::ReportLemmas::reported_ends))]
fn fill_each<G: Gate + Sync, R: Threads + Wait + Sync>(
    run: &Run<'_, G, R>,
    inputs: &[Vec<u8>],
) -> Result<Sites, WorkFault>
    requires { length inputs.now ≤ most_sites }
    ensures filled { IfOk result (AreFilled (length inputs.now) (bytes_of inputs.now)) }
    ensures ends { IfErr result (EndsWhere (G.may_hold run.now.gate.now)) }
{
    let Run { rt, alloc, gate } = *run;
    let channels = channels_of_sites(alloc, inputs.len())?;
    let answers = Vec::with_capacity(alloc, inputs.len())?;
    thread::scope(
        thread::scope_env(),
        rt,
        move |scope| -> Result<Sites, WorkFault>
            requires { (length inputs.now ≤ most_sites) × (vec_len channels ≡ length inputs.now)
                × ((answers.items ≡ []) × (length inputs.now ≤ vec_capacity answers)) }
            ensures { IfOk result (AreFilled (length inputs.entry.now) (bytes_of inputs.entry.now))
                × IfErr result (EndsWhere (G.may_hold gate.entry.now)) }
        {
            let run = Run { rt, alloc, gate };
            let children = Vec::with_capacity(alloc, inputs.len())?;
            let children = start_sites(&run, scope, inputs, channels, children)?;
            let answers = join_sites(&run, inputs, children, answers);
            match collect_sites(alloc, inputs, answers) {
                Ok(sites) => Ok(sites),
                Err(fault) => Err(fault.reason()),
            }
        },
    )
}

/// Fills one site from each input, numbered from 1, each on threads of its own. The workers of the sites
/// exchange what they take. Whatever came through the channels, each core holds all messages of its
/// input, and its own entries have only these.
/// Each line that reports a refused line of an input begins with the number of the input, as in `file 2 line 1: 31`.
///
/// Error: `Refused` (66) with 44 if there are more than 1024 inputs, and then no thread is started.
///
/// Otherwise the call returns after all workers have ended. Errors of workers come first, in this order: `NoWorker` (67),
/// `Memory` (65), `Held` (61), and `Refused` (66) with the least number. If no worker failed, the first site whose desk
/// is not closed is reported: `Refused` (66) with 53 or 54.
pub fn fill_sites<G: Gate + Sync, R: Threads + Wait + Sync>(
    rt: &R,
    alloc: Global,
    gate: &G,
    inputs: &[Vec<u8>],
) -> Result<Sites, WorkFault>
    ensures filled { IfOk result (AreFilled (length inputs.now) (bytes_of inputs.now)) }
    ensures many { most_sites < length inputs.now → result ≡ Err (fault.Refused 44) }
    ensures ends { IfErr result (EndsWhere (G.may_hold gate.now)) }
{
    if inputs.len() > MOST_SITES as usize {
        return Err(WorkFault::from(DeltaFault::BadSite));
    }
    fill_each(&Run { rt, alloc, gate }, inputs)
}
