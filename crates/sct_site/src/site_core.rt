//! The core of one site.

ghost use Rattle.std.specs.Prelude.{◌≡◌, ◌≢◌, ◌∷◌, ◌++◌, ◌<◌, ◌≤◌, ◌^◌, ℕ, [], true, false, None, vec_len, vec_capacity, filter, length, nat_eq, nat_lt, IsOk, OnOk, OnErr, IfOk, IfErr, MatchOption};
ghost use Rattle.std.specs.Arc.{arc_value};
ghost use Rattle.std.specs.FinSet as set;
ghost use Rattle.sct_message.specs.Sets.{messages_in};
ghost use Rattle.sct_delta.specs.Entries.{IsArrivals, IsDelta, held_from, log_of, messages_of};
ghost use Rattle.sct_delta.specs.Logs.{HasRoom, HoldSame, KeepsEmptyIfDue, KeepsNoEmpty};
ghost use Rattle.sct_delta.specs.Refusals.{has_site};
ghost use Rattle.sct_delta.specs.Vectors.{count_in};
ghost use Rattle.sct_delta.specs.declared.fault.DeltaFault.TheVariants as fault;
ghost use Rattle.sct_site.specs.Cores.{Core, IsSite, core_pushed, is_open, took_by, arrivals_taken, refusal_by, fresh_entries, arrivals_joined, entries_above, is_above, logs_of};
ghost use Rattle.sct_site.specs.Ranges.{in_range, in_ranges, size_of, HaveEntries, ReachEnds};

use crate::answers::{Accepted, Took};
use crate::ranges::{LogRange, push_range};
use sct_delta::{Delta, DeltaFault, Entry, Logs, Vector, messages_in};
use sct_message::Message;
use sct_set::{Added, Archive};
use std::alloc::{AllocError, Global};
use std::marker::Model;
use std::sync::Arc;

// Makes room for one more entry of an origin, in its log and among the arrivals. Returns whether the archive was found
// to hold the message instead. It is asked only if there is no room, since a message that is held needs none, and no memory.
fn is_held_without_room(
    archive: &Archive,
    logs: &mut Logs,
    arrivals: &mut Vec<Entry>,
    origin: u16,
    message: &Message,
) -> Result<bool, DeltaFault>
    requires { has_site logs.old.group origin ≡ true }
    ensures group { logs.new.group ≡ logs.old.group }
    ensures same { HoldSame logs.new logs.old }
    ensures entries { arrivals.new.items ≡ arrivals.old.items }
    ensures held { IfOk result (λ held. held ≡ true → set.contains archive.now message.now ≡ true) }
    ensures repeat { set.contains archive.now message.now ≡ true → IsOk result }
    ensures room { IfOk result (λ held. held ≡ false → HasRoom logs.new origin) }
    ensures place { IfOk result (λ held. held ≡ false → vec_len arrivals.new < vec_capacity arrivals.new) }
    ensures kept { OnOk result (set.contains archive.now message.now ≡ true
        → KeepsNoEmpty logs.old → KeepsNoEmpty logs.new) }
    ensures due { OnOk result ((due : ℕ → ℕ) → 1 ≤ due origin → KeepsEmptyIfDue due logs.old
        → KeepsEmptyIfDue due logs.new) }
    ensures filled { OnErr result (KeepsNoEmpty logs.old → KeepsNoEmpty logs.new) }
    ensures err { IfErr result (λ refusal. refusal ≡ fault.Memory) }
{
    if arrivals.len() < arrivals.capacity() && logs.has_room(origin) {
        return Ok(false);
    }
    if archive.holds(message) {
        return Ok(true);
    }
    arrivals.reserve(1)?;
    logs.room(origin)?;
    Ok(false)
}

/// The core of one site of a group: the messages that it took under its own numbers, and the entries of others that it
/// accepted. Its number belongs to this site for the site's lifetime; a new site takes a new number.
#[derive(Drop)]
pub struct SiteCore {
    alloc: Global,
    number: u16,
    group: u16,
    logs: Logs,
    arrivals: Vec<Entry>,
    archive: Archive,
}

impl Model for SiteCore {
    ghost use Rattle.sct_site.specs.Cores.{Core};
    ghost use Rattle.sct_site.specs.Inside.{IsCore};

    ghost Value = { Core };

    ghost view = { λ c. record { number = c.number; group = c.group; arrivals = c.arrivals.items } };

    ghost invariant = { λ c. IsCore c.number c.group c.logs c.arrivals.items c.archive };
}

impl SiteCore {
    /// The site `number` of a group of `group` sites, without entries. Error: `BadSite` (44) if the group does not have
    /// 1 to 1024 sites, or does not have this site.
    pub fn open(alloc: Global, number: u16, group: u16) -> Result<SiteCore, DeltaFault>
        ensures ok { IfOk result (λ core. core ≡ record { number = number; group = group; arrivals = [] }) }
        ensures site { OnOk result (is_open number group ≡ true) }
        ensures err { IfErr result (λ refusal. (refusal ≡ fault.BadSite) × (is_open number group ≡ false)) }
    {
        if number == 0 || number > group {
            return Err(DeltaFault::BadSite);
        }
        Ok(SiteCore {
            alloc,
            number,
            group,
            logs: Logs::new(alloc, group)?,
            arrivals: Vec::new(alloc),
            archive: Archive::new(alloc),
        })
    }

    /// The number of the site, from 1.
    pub fn number(&self) -> u16
        ensures { result ≡ self.now.number }
    {
        self.number
    }

    /// How many sites the group has.
    pub fn group(&self) -> u16
        ensures { result ≡ self.now.group }
    {
        self.group
    }

    /// The version vector: how many entries of each origin the site holds. O(1).
    pub fn vector(&self) -> &Vector
        ensures { (origin : ℕ) → count_in result.now origin ≡ held_from origin self.now.arrivals }
    {
        self.logs.vector()
    }

    /// The messages that the site holds, as a set.
    pub fn archive(&self) -> &Archive
        ensures { result.now ≡ messages_of self.now.arrivals }
    {
        &self.archive
    }

    /// All entries that the site holds, in the order in which they came. Those of one delta are in the delta's order.
    pub fn arrivals(&self) -> &[Entry]
        ensures arrivals { result.now ≡ self.now.arrivals }
        ensures order { IsArrivals result.now }
        ensures site { is_open self.now.number self.now.group ≡ true }
    {
        &self.arrivals
    }

    /// The messages of the entries of an origin, in the order of their numbers. O(log origins).
    pub fn log(&self, origin: u16) -> &[Arc<Message>]
        ensures { messages_in result.now ≡ log_of origin self.now.arrivals }
    {
        self.logs.log(origin)
    }

    /// Takes a message. It becomes the next own entry, unless the site holds it from any origin.
    /// Error: `Memory` (40), with the site unchanged. A repeat asks for no memory. The cost is one look-up in the archive and
    /// one addition in the logs. If there is no room for one more entry, it is two look-ups.
    pub fn take(&mut self, message: Arc<Message>) -> Result<Took, DeltaFault>
        ensures answer { IfOk result (λ took. took ≡ took_by self.old (arc_value message)) }
        ensures number { self.new.number ≡ self.old.number }
        ensures group { self.new.group ≡ self.old.group }
        ensures ok { OnOk result (self.new.arrivals ≡ arrivals_taken self.old (arc_value message)) }
        ensures err { IfErr result (λ refusal. refusal ≡ fault.Memory) }
        ensures unchanged { OnErr result (self.new ≡ self.old) }
    {
        let held = message.clone()?;
        let logged = message.clone()?;
        let repeat = is_held_without_room(
            &self.archive,
            &mut self.logs,
            &mut self.arrivals,
            self.number,
            &message,
        )?;
        if repeat {
            return Ok(Took::Repeat);
        }
        let Ok(added) = self.archive.add(held) else {
            self.logs.drop_empty();
            return Err(DeltaFault::Memory);
        };
        if added == Added::Repeat {
            return Ok(Took::Repeat);
        }
        let n = self.logs.push_reserved(self.number, logged);
        self.arrivals.push_reserved(Entry {
            origin: self.number,
            n,
            message,
        });
        Ok(Took::Taken { n })
    }

    /// Puts in a message as the next entry of an origin, whether or not it is held under another number. So a site is made that holds
    /// what another one does. Errors: `BadSite` (44) if the group does not have the origin; `Memory` (40). Then the site is
    /// unchanged. The cost is one look-up in the archive and one addition in the logs.
    pub fn push(&mut self, origin: u16, message: Arc<Message>) -> Result<(), DeltaFault>
        ensures ok { OnOk result (self.new ≡ core_pushed self.old origin (arc_value message)) }
        ensures err { IfErr result (λ refusal. refusal ≢ fault.Memory → (refusal ≡ fault.BadSite) × (has_site self.old.group origin ≡ false)) }
        ensures unchanged { OnErr result (self.new ≡ self.old) }
    {
        let held = message.clone()?;
        let logged = message.clone()?;
        self.arrivals.reserve(1)?;
        self.logs.room(origin)?;
        if let Err(_) = self.archive.add(held) {
            self.logs.drop_empty();
            return Err(DeltaFault::Memory);
        }
        let n = self.logs.push_reserved(origin, logged);
        self.arrivals.push_reserved(Entry { origin, n, message });
        Ok(())
    }

    /// Why the site does not accept a delta, as by [`SiteCore::accept`]. None if it does. It does not allocate.
    /// O(entries of the delta).
    pub fn refusal(&self, delta: &Delta) -> Option<DeltaFault>
        ensures { result ≡ refusal_by self.now delta.now }
    {
        self.logs.fits(self.number, delta).err()
    }

    /// Accepts another site's delta. The entries that the site does not hold are added, in the delta's order.
    /// If the delta is refused, nothing changes. The first of these errors is returned:
    /// - `BadSite` (44): the group does not have an origin of the delta;
    /// - `OwnAhead` (43): an entry of the own origin is above the own count;
    /// - `Gap` (41): the least number of an origin is past the next one;
    /// - `Fork` (42): a number of the delta is held with another message;
    /// - `Memory` (40).
    ///
    /// The cost is that of the delta's entries. A held entry is compared once, and a new one is added to the archive.
    pub fn accept(&mut self, delta: &Delta) -> Result<Accepted, DeltaFault>
        ensures answer { IfOk result (λ accepted. accepted.fresh
            ≡ length (fresh_entries self.old.arrivals delta.now)) }
        ensures number { self.new.number ≡ self.old.number }
        ensures group { self.new.group ≡ self.old.group }
        ensures ok { OnOk result (self.new.arrivals ≡ arrivals_joined self.old.arrivals delta.now) }
        ensures accepted { OnOk result (refusal_by self.old delta.now ≡ None) }
        ensures err { IfErr result (λ refusal. MatchOption (refusal_by self.old delta.now)
            (refusal ≡ fault.Memory) (λ first. refusal ≡ first)) }
        ensures unchanged { OnErr result (self.new ≡ self.old) }
        ensures site { IsSite self.old }
    {
        let fresh = self.logs.fresh(self.number, delta)?;
        let messages = messages_in(self.alloc, fresh.entries())?;
        self.arrivals.reserve(fresh.entries().len())?;
        self.logs.reserve(&fresh)?;
        if let Err(_) = self.archive.add_all(&messages) {
            self.logs.drop_empty();
            return Err(DeltaFault::Memory);
        }
        let mut entries = fresh.into_entries();
        let count = entries.len() as u64;
        self.logs.append_all(&entries, messages);
        self.arrivals.append(&mut entries)?;
        Ok(Accepted { fresh: count })
    }

    /// The entries numbered above `vector`, of every origin, as a delta. Error: `Memory` (40).
    /// O(entries cut), plus one look at each origin.
    pub fn cut(&self, vector: &Vector) -> Result<Delta, DeltaFault>
        ensures cut { IfOk result (λ delta. delta ≡ entries_above (count_in vector.now) self.now.arrivals) }
        ensures shape { IfOk result (λ delta. IsDelta delta) }
        ensures err { IfErr result (λ refusal. refusal ≡ fault.Memory) }
        ensures site { IsSite self.now }
    {
        self.logs.cut(vector)
    }

    /// The entries that `cut` has, as ranges of the site's logs, each with an entry. Logs only grow, so the ranges keep
    /// these entries. Error: `Memory` (40). The cost is one look-up for each origin that the site holds entries of.
    pub fn cut_ranges(&self, vector: &Vector) -> Result<Vec<LogRange>, DeltaFault>
        requires { IsSite self.now }
        ensures cut { IfOk result (λ ranges. in_ranges (logs_of self.now.arrivals) ranges.items
            ≡ entries_above (count_in vector.now) self.now.arrivals) }
        ensures shape { IfOk result (λ ranges. IsDelta (in_ranges (logs_of self.now.arrivals) ranges.items)) }
        ensures ends { IfOk result (λ ranges. ReachEnds (logs_of self.now.arrivals) ranges.items) }
        ensures filled { IfOk result (λ ranges. HaveEntries ranges.items) }
        ensures few { IfOk result (λ ranges. size_of ranges.items < 2 ^ 64) }
        ensures err { IfErr result (λ refusal. refusal ≡ fault.Memory) }
    {
        // Read only so that its range is known.
        let _entries = self.arrivals.len();
        let held = self.logs.vector().counts();
        let mut ranges = Vec::new(self.alloc);
        for (origin, count) in held {
            push_range(&mut ranges, *origin, vector.get(*origin), *count)?;
        }
        Ok(ranges)
    }

    // Appends the entries of a range that are numbered above `have`.
    fn push_within(
        &self,
        out: &mut Vec<Entry>,
        range: &LogRange,
        have: u64,
    ) -> Result<(), AllocError>
        ensures { OnOk result (out.new.items
            ≡ out.old.items ++ filter (λ entry. nat_lt have entry.n) (in_range (logs_of self.now.arrivals) range.now)) }
    {
        let origin = range.origin;
        let mut n = range.above.max(have);
        while n < range.upto {
            let message = match self.logs.get(origin, n + 1) {
                Some(message) => message,
                None => return Ok(()),
            };
            out.push(Entry {
                origin,
                n: n + 1,
                message: message.clone()?,
            })?;
            n += 1;
        }
        Ok(())
    }

    /// The entries of ranges of the site's logs that are numbered above `vector`, as a delta that shares their
    /// messages. The entries of the ranges are a delta. Error: `Memory` (40).
    /// The cost is one look-up for each range, and that of the entries of the result.
    pub fn cut_within(&self, ranges: &[LogRange], vector: &Vector) -> Result<Delta, DeltaFault>
        requires { IsDelta (in_ranges (logs_of self.now.arrivals) ranges.now) }
        ensures ok { IfOk result (λ delta. delta
            ≡ filter (is_above (count_in vector.now)) (in_ranges (logs_of self.now.arrivals) ranges.now)) }
        ensures err { IfErr result (λ refusal. refusal ≡ fault.Memory) }
    {
        let mut out = Vec::new(self.alloc);
        for range in ranges {
            self.push_within(&mut out, range, vector.get(range.origin))?;
        }
        Delta::of(out)
    }
}
