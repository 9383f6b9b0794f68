//! A world: the sites of one group, and the deltas that they cut.

ghost use Rattle.std.specs.Prelude.{◌≡◌, ◌≢◌, ◌<◌, ℕ, [], true, false, Ok, Err, filter, length, replicate, slice_index_or, if◌then◌else◌, OnOk, OnErr, IfOk, IfErr};
ghost use Rattle.sct_delta.specs.Entries.{held_from, messages_of, IsDelta};
ghost use Rattle.sct_delta.specs.Vectors.{count_in};
ghost use Rattle.sct_reconcile.specs.Reports.{report_of};
ghost use Rattle.sct_set.specs.Archive.{archive_text_of, contradicted_identities};
ghost use Rattle.sct_view.specs.StatusText.{status_text_of};
ghost use Rattle.sct_view.specs.TotalsText.{totals_text_of};
ghost use Rattle.sct_delta.specs.declared.fault.DeltaFault.TheVariants as delta;
ghost use Rattle.sct_site.specs.Cores.{is_above};
ghost use Rattle.sct_world.specs.declared.event.Event.TheVariants as event;
ghost use Rattle.sct_world.specs.declared.fault.WorldFault.TheVariants as fault;
ghost use Rattle.sct_world.specs.Inside.{cores_from};
ghost use Rattle.sct_world.specs.States.{is_size};

use crate::answers::{Answers, answers_of, report_on};
use crate::event::{Event, Step, site_of, step_taken};
use crate::fault::WorldFault;
use sct_delta::{Delta, DeltaFault, MOST_SITES, Vector};
use sct_element::{Bic, Day};
use sct_message::{Identity, Message};
use sct_reconcile::{List, Report};
use sct_set::Archive;
use sct_site::{LogRange, SiteCore, entries_in};
use std::alloc::{AllocError, Global};
use std::marker::Model;
use std::sync::Arc;
use std::thread::Threads;

/// A delta that was cut, as ranges of the logs of the site that cut it. Logs only grow, so the ranges keep its entries.
#[derive(Drop)]
pub struct KeptDelta {
    pub site: u16,
    pub ranges: Vec<LogRange>,
}

/// The sites 1 to n of one group, and every delta that they cut.
#[derive(Drop)]
pub struct World {
    alloc: Global,
    cores: Vec<SiteCore>,
    deltas: Vec<KeptDelta>,
}

impl Model for World {
    ghost use Rattle.sct_world.specs.States.{State};
    ghost use Rattle.sct_world.specs.Inside.{deltas_kept, state_of, IsKeeping};

    ghost Value = { State };

    ghost view = { λ w. state_of w.cores.items (deltas_kept w.cores.items w.deltas.items) };

    ghost invariant = { λ w. IsKeeping w.cores.items w.deltas.items };
}

// The sites numbered from 1, each without entries.
fn open_cores(alloc: Global, sites: u16) -> Result<Vec<SiteCore>, DeltaFault>
    requires { is_size sites ≡ true }
    ensures ok { IfOk result (λ cores. cores.items ≡ cores_from 1 sites (replicate sites [])) }
    ensures size { is_size sites ≡ true }
    ensures err { IfErr result (λ refusal. refusal ≡ delta.Memory) }
{
    let mut cores = Vec::new(alloc);
    for number in 0..sites {
        let core = SiteCore::open(alloc, number + 1, sites)?;
        cores.push(core)?;
    }
    Ok(cores)
}

impl World {
    ghost use Rattle.sct_world.specs.Faults.{IsNoForkFault};
    ghost use Rattle.sct_world.specs.Histories.{step_of, step_at, world_after, after_at};
    ghost use Rattle.sct_world.specs.States.{empty_world, is_no_site, held_at};

    /// A world of 1 to 1024 sites, without entries or deltas. Errors: `BadSite` (44) for any
    /// other number of sites; out of memory (40). O(sites).
    pub fn open(alloc: Global, sites: u16) -> Result<World, WorldFault>
        ensures ok { IfOk result (λ world. world ≡ empty_world sites) }
        ensures size { OnOk result (is_size sites ≡ true) }
        ensures err { IfErr result (λ refusal. refusal ≢ fault.Delta delta.Memory
            → (refusal ≡ fault.BadSite) × (is_size sites ≡ false)) }
    {
        if sites == 0 || sites > MOST_SITES {
            return Err(WorldFault::BadSite);
        }
        match open_cores(alloc, sites) {
            Ok(cores) => Ok(World {
                alloc,
                cores,
                deltas: Vec::new(alloc),
            }),
            Err(refusal) => Err(WorldFault::Delta(refusal)),
        }
    }

    /// How many sites the world has.
    pub fn sites(&self) -> u16
        ensures count { result ≡ length self.now.held }
        ensures size { is_size result ≡ true }
    {
        self.cores.len() as u16
    }

    /// The archive of a site. Error: `BadSite` (44) if the world does not have this site.
    pub fn archive(&self, site: u16) -> Result<&Archive, WorldFault>
        ensures ok { IfOk result (λ archive. archive.now ≡ messages_of (held_at self.now site)) }
        ensures there { OnOk result (is_no_site self.now site ≡ false) }
        ensures err { IfErr result (λ refusal. (refusal ≡ fault.BadSite) × (is_no_site self.now site ≡ true)) }
    {
        if self.is_no_site(site) {
            return Err(WorldFault::BadSite);
        }
        let core = &self.cores[(site - 1) as usize];
        Ok(core.archive())
    }

    /// The answers of a site about the messages that it holds. Errors: `BadSite` (44) if the world does not have this
    /// site; out of memory (40). Its view is built anew at each call, and sorts all transfers.
    pub fn answers(&self, site: u16) -> Result<Answers, WorldFault>
        ensures archive { IfOk result (λ answers. answers.archive.items
            ≡ archive_text_of (messages_of (held_at self.now site))) }
        ensures statuses { IfOk result (λ answers. answers.statuses.items
            ≡ status_text_of (messages_of (held_at self.now site))) }
        ensures totals { IfOk result (λ answers. answers.totals.items
            ≡ totals_text_of (messages_of (held_at self.now site))) }
        ensures there { OnOk result (is_no_site self.now site ≡ false) }
        ensures err { IfErr result (λ refusal. refusal
            ≡ (if is_no_site self.now site then fault.BadSite else fault.Delta delta.Memory)) }
    {
        let Ok(archive) = self.archive(site) else {
            return Err(WorldFault::BadSite);
        };
        Ok(answers_of(self.alloc, archive)?)
    }

    /// The contradicted identities of a site, in ascending order. The site holds two different messages of each.
    /// Errors: `BadSite` (44) if the world does not have this site; out of memory (40).
    pub fn contradictions(&self, site: u16) -> Result<Vec<Identity>, WorldFault>
        ensures identities { IfOk result (λ identities. identities.items
            ≡ contradicted_identities (messages_of (held_at self.now site))) }
        ensures there { OnOk result (is_no_site self.now site ≡ false) }
        ensures err { IfErr result (λ refusal. refusal
            ≡ (if is_no_site self.now site then fault.BadSite else fault.Delta delta.Memory)) }
    {
        let Ok(archive) = self.archive(site) else {
            return Err(WorldFault::BadSite);
        };
        Ok(archive.contradictions().map_err(AllocError::from)?)
    }

    /// The report on a bank's list for a settlement day, over the messages that a site holds. Errors: `BadSite` (44) if
    /// the world does not have this site; out of memory (40). Its view is built anew at each call.
    /// The program does not call it; users of the library can.
    pub fn report<R: Threads + Sync>(
        &self,
        rt: &R,
        site: u16,
        bank: &Bic,
        day: &Day,
        list: &List,
    ) -> Result<Report, WorldFault>
        ensures report { IfOk result (λ report. report
            ≡ report_of (messages_of (held_at self.now site)) bank.now day.now list.now) }
        ensures there { OnOk result (is_no_site self.now site ≡ false) }
        ensures err { IfErr result (λ refusal. refusal
            ≡ (if is_no_site self.now site then fault.BadSite else fault.Delta delta.Memory)) }
    {
        let Ok(archive) = self.archive(site) else {
            return Err(WorldFault::BadSite);
        };
        Ok(report_on(rt, self.alloc, archive, bank, day, list)?)
    }

    // Whether the world does not have this site.
    fn is_no_site(&self, site: u16) -> bool
        ensures { result ≡ is_no_site self.now site }
    {
        site < 1 || (site as usize) > self.cores.len()
    }

    fn take(&mut self, site: u16, message: &Arc<Message>) -> Result<Step, AllocError>
        requires { is_no_site self.old site ≡ false }
        ensures answer { IfOk result (λ step. step_at self.old (event.Take site message.now) ≡ Ok step) }
        ensures ok { OnOk result (self.new ≡ after_at self.old (event.Take site message.now)) }
        ensures unchanged { OnErr result (self.new ≡ self.old) }
    {
        let message = message.clone()?;
        let took = match self.cores[(site - 1) as usize].take(message) {
            Ok(took) => took,
            Err(_) => return Err(AllocError),
        };
        Ok(step_taken(took))
    }

    fn cut(&mut self, site: u16, vector: &Vector) -> Result<Step, AllocError>
        requires { is_no_site self.old site ≡ false }
        ensures answer { IfOk result (λ step. step_at self.old (event.Cut site vector.now) ≡ Ok step) }
        ensures ok { OnOk result (self.new ≡ after_at self.old (event.Cut site vector.now)) }
        ensures unchanged { OnErr result (self.new ≡ self.old) }
    {
        let ranges = match self.cores[(site - 1) as usize].cut_ranges(vector) {
            Ok(ranges) => ranges,
            Err(_) => return Err(AllocError),
        };
        let entries = entries_in(&ranges);
        let number = self.deltas.len() as u64 + 1;
        self.deltas.push(KeptDelta { site, ranges })?;
        Ok(Step::Cut {
            delta: number,
            entries,
        })
    }

    // The entries of the delta at a place that are numbered above a site's vector. In a world these are the ones that the
    // site does not hold.
    fn new_entries(&self, place: usize, site: u16) -> Result<Delta, DeltaFault>
        requires cut { place < length self.now.deltas }
        requires there { is_no_site self.now site ≡ false }
        ensures ok { IfOk result (λ delta. delta ≡ filter
            (is_above (λ origin. held_from origin (held_at self.now site))) (slice_index_or self.now.deltas place [])) }
        ensures shape { OnOk result (IsDelta (slice_index_or self.now.deltas place [])) }
        ensures err { IfErr result (λ refusal. refusal ≡ delta.Memory) }
    {
        let kept = &self.deltas[place];
        let giver = &self.cores[(kept.site - 1) as usize];
        giver.cut_within(&kept.ranges, self.cores[(site - 1) as usize].vector())
    }

    fn hand(&mut self, number: u64, site: u16) -> Result<Step, WorldFault>
        requires { is_no_site self.old site ≡ false }
        ensures answer { IfOk result (λ step. step_at self.old (event.Hand number site) ≡ Ok step) }
        ensures ok { OnOk result (self.new ≡ after_at self.old (event.Hand number site)) }
        ensures refused { IfErr result (λ refusal. refusal ≢ fault.Delta delta.Memory
            → step_at self.old (event.Hand number site) ≡ Err refusal) }
        ensures no_fork { IfErr result (λ refusal. IsNoForkFault refusal) }
        ensures unchanged { OnErr result (self.new ≡ self.old) }
    {
        if number == 0 || number > self.deltas.len() as u64 {
            return Err(WorldFault::NoSuchDelta);
        }
        let delta = match self.new_entries((number - 1) as usize, site) {
            Ok(delta) => delta,
            Err(refusal) => return Err(WorldFault::Delta(refusal)),
        };
        let accepted = match self.cores[(site - 1) as usize].accept(&delta) {
            Ok(accepted) => accepted,
            Err(refusal) => return Err(WorldFault::Delta(refusal)),
        };
        Ok(Step::Accepted {
            fresh: accepted.fresh,
        })
    }

    /// Runs one event. A refused event leaves the world unchanged. The first of these errors is returned, and 40 may come
    /// in place of 41:
    /// - `BadSite` (44): the world does not have this site;
    /// - `NoSuchDelta` (47): no delta of this number was cut;
    /// - `Delta(Gap)` (41): the site refuses the delta for a gap; in a world no site refuses one with 42 to 45;
    /// - `Delta(Memory)` (40).
    ///
    /// A take costs what the site's `take` costs. A delta is kept as ranges of logs, so a cut costs two look-ups for each
    /// site of the world, whatever it cuts. A hand costs one look-up for each origin of the delta, and the site's `accept`
    /// of the entries that are new to it.
    #[tactic(auto, unfolding(crate::specs::Histories::step_of, crate::specs::Histories::world_after))]
    pub fn step(&mut self, event: &Event) -> Result<Step, WorldFault>
        ensures answer { IfOk result (λ step. step_of self.old event.now ≡ Ok step) }
        ensures ok { OnOk result (self.new ≡ world_after self.old event.now) }
        ensures refused { IfErr result (λ refusal. refusal ≢ fault.Delta delta.Memory
            → step_of self.old event.now ≡ Err refusal) }
        ensures no_fork { IfErr result (λ refusal. IsNoForkFault refusal) }
        ensures unchanged { OnErr result (self.new ≡ self.old) }
    {
        if self.is_no_site(site_of(event)) {
            return Err(WorldFault::BadSite);
        }
        match event {
            Event::Take { site, message } => Ok(self.take(*site, message)?),
            Event::Cut { site, vector } => Ok(self.cut(*site, vector)?),
            Event::Hand { delta, site } => self.hand(*delta, *site),
        }
    }
}
