//! Histories: lists of events, starting from a world without entries.

ghost use Rattle.std.specs.Prelude.{◌≡◌, ◌≢◌, ◌++◌, ◌∷◌, [], ℕ, false, All, OnOk, IfOk, IfErr};
ghost use Rattle.sct_delta.specs.Entries.{messages_of};
ghost use Rattle.sct_delta.specs.declared.fault.DeltaFault.TheVariants as delta;
ghost use Rattle.sct_reconcile.specs.Reports.{report_of};
ghost use Rattle.sct_set.specs.Archive.{archive_text_of, contradicted_identities};
ghost use Rattle.sct_view.specs.StatusText.{status_text_of};
ghost use Rattle.sct_view.specs.TotalsText.{totals_text_of};
ghost use Rattle.sct_world.specs.Faults.{IsNoForkOutcome};
ghost use Rattle.sct_world.specs.Histories.{outcome_of, outcomes_of, world_after, world_after_all};
ghost use Rattle.sct_world.specs.Laws.{history, taken_in, IsNoPlace};
ghost use Rattle.sct_world.specs.States.{empty_world, is_size, is_no_site, held_at};
ghost use Rattle.sct_world.specs.Taken.{taken_at};
ghost use Rattle.sct_world.specs.declared.fault.WorldFault.TheVariants as fault;

use crate::answers::Answers;
use crate::event::{Event, Outcome};
use crate::fault::WorldFault;
use crate::world::World;
use sct_element::{Bic, Day};
use sct_message::Identity;
use sct_reconcile::{List, Report};
use std::alloc::{AllocError, Global};
use std::thread::Threads;

/// A world after a list of events, with the outcome of each event.
#[derive(Drop)]
pub struct Ran {
    pub world: World,
    pub outcomes: Vec<Outcome>,
}

/// The answers of a site after a list of events.
#[derive(Drop)]
pub struct AnswersAfter {
    /// The three texts of the messages that the site holds.
    pub answers: Answers,
    /// The contradicted identities, in ascending order. The site holds two different messages of each.
    pub contradictions: Vec<Identity>,
}

// The outcome of an event. Out of memory is not an outcome but an error.
fn outcome(world: &mut World, event: &Event) -> Result<Outcome, AllocError>
    ensures ok { IfOk result (λ outcome. outcome ≡ outcome_of world.old event.now) }
    ensures world { OnOk result (world.new ≡ world_after world.old event.now) }
    ensures no_fork { IfOk result (λ outcome. IsNoForkOutcome outcome) }
{
    match world.step(event) {
        Ok(step) => Ok(Outcome::Done(step)),
        Err(refusal) => {
            if refusal.is_memory() {
                return Err(AllocError);
            }
            Ok(Outcome::Refused(refusal))
        }
    }
}

// Appends the outcome of an event.
fn push_outcome(
    world: &mut World,
    outcomes: &mut Vec<Outcome>,
    event: &Event,
) -> Result<(), AllocError>
    ensures world { OnOk result (world.new ≡ world_after world.old event.now) }
    ensures outcomes { OnOk result (outcomes.new.items
        ≡ outcomes.old.items ++ outcome_of world.old event.now ∷ []) }
    ensures no_fork { OnOk result (IsNoForkOutcome (outcome_of world.old event.now)) }
{
    outcomes.push(outcome(world, event)?)?;
    Ok(())
}

/// Runs events, one after another, in a new world of `sites` sites.
/// Each event has an outcome, whether done or refused.
/// Errors: `BadSite` (44) if `sites` is not 1 to 1024; out of memory (40).
///
/// The clause `exactly` is the promise of convergence: the messages that a site holds after the events are exactly
/// those that it took or accepted, as events, outcomes and deltas say.
pub fn run(alloc: Global, sites: u16, events: &[Event]) -> Result<Ran, WorldFault>
    ensures world { IfOk result (λ ran. ran.world ≡ world_after_all (empty_world sites) events.now) }
    ensures outcomes { IfOk result (λ ran. ran.outcomes.items ≡ outcomes_of (empty_world sites) events.now) }
    ensures exactly { IfOk result (λ ran. (site : ℕ) → is_no_site ran.world site ≡ false
        → messages_of (held_at ran.world site) ≡ taken_at site ran.world.deltas events.now ran.outcomes.items) }
    ensures no_fork { IfOk result (λ ran. All IsNoForkOutcome ran.outcomes.items) }
    ensures err { IfErr result (λ refusal. refusal ≢ fault.Delta delta.Memory
        → (refusal ≡ fault.BadSite) × (is_size sites ≡ false)) }
{
    let mut world = World::open(alloc, sites)?;
    let mut outcomes = Vec::new(alloc);
    for event in events {
        push_outcome(&mut world, &mut outcomes, event)?;
    }
    Ok(Ran { world, outcomes })
}

/// Runs events in a new world of `sites` sites, and returns the answers of one of the sites.
/// Errors: `BadSite` (44) if `sites` is not 1 to 1024, or if the world does not have this site; out of memory (40).
///
/// This is the whole promise of convergence. The texts and the contradictions are those of exactly the
/// messages that the site took or accepted. The program does not call it; users of the library can.
pub fn answers_after(
    alloc: Global,
    sites: u16,
    events: &[Event],
    site: u16,
) -> Result<AnswersAfter, WorldFault>
    ensures archive { IfOk result (λ after. after.answers.archive.items
        ≡ archive_text_of (taken_in sites events.now site)) }
    ensures statuses { IfOk result (λ after. after.answers.statuses.items
        ≡ status_text_of (taken_in sites events.now site)) }
    ensures totals { IfOk result (λ after. after.answers.totals.items
        ≡ totals_text_of (taken_in sites events.now site)) }
    ensures contradictions { IfOk result (λ after. after.contradictions.items
        ≡ contradicted_identities (taken_in sites events.now site)) }
    ensures there { OnOk result (is_no_site (history sites events.now) site ≡ false) }
    ensures err { IfErr result (λ refusal. refusal ≢ fault.Delta delta.Memory
        → (refusal ≡ fault.BadSite) × IsNoPlace sites events.now site) }
{
    let ran = run(alloc, sites, events)?;
    let answers = ran.world.answers(site)?;
    let contradictions = ran.world.contradictions(site)?;
    Ok(AnswersAfter {
        answers,
        contradictions,
    })
}

/// Runs events in a new world of `sites` sites, and returns a site's report on a bank's list for a settlement day. The
/// report is that of exactly the messages that the site took or accepted. The errors are those of `answers_after`.
/// The program does not call it; users of the library can.
pub fn report_after<R: Threads + Sync>(
    rt: &R,
    alloc: Global,
    sites: u16,
    events: &[Event],
    site: u16,
    bank: &Bic,
    day: &Day,
    list: &List,
) -> Result<Report, WorldFault>
    ensures report { IfOk result (λ report. report
        ≡ report_of (taken_in sites events.now site) bank.now day.now list.now) }
    ensures there { OnOk result (is_no_site (history sites events.now) site ≡ false) }
    ensures err { IfErr result (λ refusal. refusal ≢ fault.Delta delta.Memory
        → (refusal ≡ fault.BadSite) × IsNoPlace sites events.now site) }
{
    let ran = run(alloc, sites, events)?;
    ran.world.report(rt, site, bank, day, list)
}
