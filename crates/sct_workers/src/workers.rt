//! The three workers of a site.

ghost use Rattle.std.specs.Prelude.{◌≡◌, ◌⊎◌, Err, IfErr, IfOk, IsOk, OnOk};
ghost use Rattle.sct_message.specs.Sets.{messages_in};
ghost use Rattle.sct_workers.specs.Kept.{AllShown};
ghost use Rattle.sct_workers.specs.declared.fault.WorkFault.TheVariants as fault;
ghost use Rattle.sct_set.specs.Contents.{contents_of};
ghost use Rattle.sct_workers.specs.Holds.{ComesFirst, EndsWhere, WorkerEndsWhere};

use crate::exchange_worker::accept_entries;
use crate::fault::{WorkFault, worse_of_workers};
use crate::gate::Gate;
use crate::intake_worker::take_messages;
use crate::kept::{Kept, Takes};
use crate::query_worker::answer_notes;
use crate::run::Run;
use crate::senders::{NewEntry, Senders};
use crossbeam_channel::{Receiver, Sender};
use sct_desk::{Desk, Query, Site};
use sct_message::Message;
use std::marker::PhantomData;
use std::sync::{Arc, Wait};
use std::thread;
use std::thread::{Promise, PromisedHandle, SpawnError, Threads};

/// The channel ends of a site: where it receives entries, and where it sends them to each other site.
#[derive(Drop)]
pub(crate) struct Channels {
    pub(crate) inbox: Receiver<NewEntry>,
    pub(crate) others: Vec<Sender<NewEntry>>,
}

/// The promise of a worker's thread. The worker is held only at a point at which the gate may hold it. A call is refused
/// only with the number of a refusal. The worker does not end with `NoWorker` (67).
#[derive(Drop)]
struct EndsAtGate<'a, J: Site + Takes, G: Gate> {
    gate: &'a G,
    of: PhantomData<J>,
}

impl<'a, J: Site + Takes, G: Gate> Promise<Result<Kept<J>, WorkFault>> for EndsAtGate<'a, J, G> {
    ghost kept_by = { λ p r. IfErr r (WorkerEndsWhere (G.may_hold p.gate.now)) };
}

// Waits for a worker and returns its receipts. Error: `NoWorker` (67) only if no thread was started for it.
#[tactic(auto, using(crate::proofs::Holding::worker_ends))]
fn join_worker<'a, J: Site + Takes, G: Gate, F: Drop, R: Threads>(
    run: &Run<'_, G, R>,
    started: Result<
        PromisedHandle<Result<Kept<J>, WorkFault>, EndsAtGate<'a, J, G>>,
        SpawnError<F>,
    >,
) -> Result<Kept<J>, WorkFault>
    requires { IfOk started (λ child. child.promise.gate.now ≡ run.now.gate.now) }
    ensures ends { IfErr result (EndsWhere (G.may_hold run.now.gate.now)) }
    ensures started { OnOk started.entry (IfErr result (WorkerEndsWhere (G.may_hold run.now.gate.now))) }
    ensures none { IfErr started.entry (λ none. result ≡ Err fault.NoWorker) }
{
    match started {
        Ok(child) => child.join(run.rt),
        Err(_) => Err(WorkFault::NoWorker),
    }
}

// The receipts of two workers, or the fault of least rank.
#[tactic(auto, using(crate::proofs::MoreKept::all_shown_more))]
fn combine<J: Site + Takes>(
    first: Result<Kept<J>, WorkFault>,
    second: Result<Kept<J>, WorkFault>,
) -> Result<Kept<J>, WorkFault>
    requires { IfOk first (λ kept. AllShown J.messages kept.receipts.items) }
    ensures shown { IfOk result (λ kept. AllShown J.messages kept.receipts.items) }
    ensures lost { OnOk result (IsOk first × IsOk second) }
    ensures least { IfErr result (λ e. ComesFirst e first × ComesFirst e second) }
    ensures one { IfErr result (λ e. (e ≡ fault.Memory) ⊎ ((first ≡ Err e) ⊎ (second ≡ Err e))) }
{
    match (first, second) {
        (Ok(kept), Ok(more)) => Ok(kept.append(more)?),
        (Ok(_), Err(fault)) => Err(fault),
        (Err(fault), Ok(_)) => Err(fault),
        (Err(one), Err(other)) => Err(worse_of_workers(one, other)),
    }
}

// The receipts of the three workers of a site, or the fault of least rank.
#[tactic(auto, using(crate::proofs::ReportLemmas::before_both))]
fn combine_all<J: Site + Takes>(
    taken: Result<Kept<J>, WorkFault>,
    accepted: Result<Kept<J>, WorkFault>,
    answered: Result<Kept<J>, WorkFault>,
) -> Result<Kept<J>, WorkFault>
    requires { IfOk taken (λ kept. AllShown J.messages kept.receipts.items) }
    ensures shown { IfOk result (λ kept. AllShown J.messages kept.receipts.items) }
    ensures lost { OnOk result (IsOk taken × (IsOk accepted × IsOk answered)) }
    ensures least { IfErr result (λ e. ComesFirst e taken × (ComesFirst e accepted × ComesFirst e answered)) }
    ensures one { IfErr result (λ e. (e ≡ fault.Memory)
        ⊎ ((taken ≡ Err e) ⊎ ((accepted ≡ Err e) ⊎ (answered ≡ Err e)))) }
{
    combine(combine(taken, accepted), answered)
}

/// Runs the three workers of a site, on this thread and two more. Returns all their receipts, which show all messages,
/// or the fault of least rank. Error: `NoWorker` (67) if a thread cannot be started.
pub(crate) fn run_workers<
    J: Site + Takes + Send + Sync,
    H: Wait + Drop + Send + Sync,
    G: Gate + Sync,
    R: Threads + Wait + Sync,
>(
    run: &Run<'_, G, R>,
    desk: &Desk<J, H>,
    query: Query,
    site: u16,
    messages: &[Arc<Message>],
    channels: Channels,
) -> Result<Kept<J>, WorkFault>
    requires query { (query.book ≡ J.book) × (query.site ≡ J.number) }
    requires site { site ≡ J.number }
    requires messages { J.messages ≡ contents_of (messages_in messages.now) }
    ensures shown { IfOk result (λ kept. AllShown J.messages kept.receipts.items) }
    ensures ends { IfErr result (EndsWhere (G.may_hold run.now.gate.now)) }
{
    let (note_sender, notes) = crossbeam_channel::unbounded(run.alloc)?;
    let Channels { inbox, others } = channels;
    let senders = Senders {
        notes: note_sender,
        entries: others,
    };
    let Run { rt, alloc, gate } = *run;
    thread::scope(
        thread::scope_env(),
        rt,
        move |scope| -> Result<Kept<J>, WorkFault>
            requires { (query.book ≡ J.book) × (query.site ≡ J.number) × (site ≡ J.number)
                × (J.messages ≡ contents_of (messages_in messages.now)) }
            ensures { IfOk result (λ kept. AllShown J.messages kept.receipts.items)
                × IfErr result (EndsWhere (G.may_hold gate.entry.now)) }
        {
            let accepts = scope.spawn_with(
                EndsAtGate {
                    gate,
                    of: PhantomData::<J>,
                },
                move || -> Result<Kept<J>, WorkFault>
                    requires { site ≡ J.number }
                    ensures { IfErr result (WorkerEndsWhere (G.may_hold gate.entry.now)) }
                { accept_entries(&Run { rt, alloc, gate }, desk, site, inbox) },
            );
            let asked = scope.spawn_with(
                EndsAtGate {
                    gate,
                    of: PhantomData::<J>,
                },
                move || -> Result<Kept<J>, WorkFault>
                    requires { (query.book ≡ J.book) × (query.site ≡ J.number) × (site ≡ J.number) }
                    ensures { IfErr result (WorkerEndsWhere (G.may_hold gate.entry.now)) }
                { answer_notes::<J, G, R>(&Run { rt, alloc, gate }, query, site, notes) },
            );
            let run = Run { rt, alloc, gate };
            let taken = if accepts.is_ok() && asked.is_ok() {
                take_messages(&run, desk, site, messages, senders)
            } else {
                drop(senders);
                Err(WorkFault::NoWorker)
            };
            let accepted = join_worker(&run, accepts);
            let answered = join_worker(&run, asked);
            combine_all::<J>(taken, accepted, answered)
        },
    )
}
