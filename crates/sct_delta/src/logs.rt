//! The logs of one site: one log for each origin, with the vector that counts their entries.

ghost use Rattle.std.specs.Prelude.{◌≡◌, ◌≢◌, ◌≤◌, ◌<◌, ◌^◌, ◌+◌, ℕ, [], None, true, false, length, nat_eq, nat_lt, if◌then◌else◌, OnOk, OnErr, IfOk, IfErr, IsOk, MatchOption, option_map};
ghost use Rattle.std.specs.Arc.{arc_value};
ghost use Rattle.std.specs.Option.{option_copied};
ghost use Rattle.sct_message.specs.Sets.{messages_in};
ghost use Rattle.sct_delta.specs.Entries.{entries_from, log_of, numbered, IsDelta};
ghost use Rattle.sct_delta.specs.Vectors.{count_in};
ghost use Rattle.sct_delta.specs.Refusals.{appended, first_refusal, fresh_in, has_site, is_new, message_at, refusal_at, vector_of, IsCut};
ghost use Rattle.sct_delta.specs.Sites.{is_group};

use crate::delta::Delta;
use crate::entry::Entry;
use crate::fault::DeltaFault;
use crate::shelf::Shelf;
use crate::sites::is_site;
use crate::vector::Vector;
use sct_message::Message;
use std::alloc::{AllocError, Global};
use std::marker::Model;
use std::sync::Arc;

/// The entries that one site holds. For each origin of the group these are the numbers 1 to some count.
#[derive(Drop)]
pub struct Logs {
    group: u16,
    shelf: Shelf,
    vector: Vector,
}

impl Model for Logs {
    ghost use Rattle.sct_delta.specs.Logs.{HeldLogs};
    ghost use Rattle.sct_delta.specs.Inside.{held_logs, AreLogs};

    ghost Value = { HeldLogs };

    ghost view = { λ l. held_logs l.group l.shelf l.vector };

    ghost invariant = { λ l. AreLogs l.group l.shelf l.vector };
}

#[tactic(auto, using(crate::proofs::LogsLemmas::log_is, crate::proofs::LogsLemmas::room_is))]
impl Logs {
    ghost use Rattle.sct_delta.specs.declared.fault.DeltaFault.TheVariants as fault;
    ghost use Rattle.sct_delta.specs.Logs.{log_in, room_at, HasRoom, HoldSame, IsOfGroup, KeepsEmptyIfDue, KeepsNoEmpty};

    /// Empty logs for a group of 1 to 1024 sites. Error: `BadSite` (44) for any other size.
    pub fn new(alloc: Global, group: u16) -> Result<Logs, DeltaFault>
        ensures empty { IfOk result (λ logs. (origin : ℕ) → log_in logs origin ≡ []) }
        ensures group { IfOk result (λ logs. logs.group ≡ group) }
        ensures ok { OnOk result (is_group group ≡ true) }
        ensures filled { IfOk result KeepsNoEmpty }
        ensures err { IfErr result (λ refusal. (refusal ≡ fault.BadSite) × (is_group group ≡ false)) }
    {
        if !is_site(group) {
            return Err(DeltaFault::BadSite);
        }
        Ok(Logs {
            group,
            shelf: Shelf::new(alloc),
            vector: Vector::empty(alloc),
        })
    }

    /// The version vector: how many entries of each origin are held. O(1).
    pub fn vector(&self) -> &Vector
        ensures { (origin : ℕ) → count_in result.now origin ≡ vector_of (log_in self.now) origin }
    {
        &self.vector
    }

    /// The message of an entry, whose number counts from 1. None if no such entry is held. O(log origins).
    pub fn get(&self, origin: u16, n: u64) -> Option<&Arc<Message>>
        ensures { option_map arc_value (option_copied result) ≡ message_at (log_in self.now origin) n }
    {
        self.shelf.get(origin, n)
    }

    /// The messages held of an origin, in the order of their numbers. O(log origins).
    pub fn log(&self, origin: u16) -> &[Arc<Message>]
        ensures { messages_in result.now ≡ log_in self.now origin }
    {
        self.shelf.log(origin)
    }

    // Whether no entry is held under the number of this one. It looks at no message.
    pub(crate) fn is_new(&self, entry: &Entry) -> bool
        ensures { result ≡ is_new (log_in self.now) entry.now }
    {
        self.get(entry.origin, entry.n).is_none()
    }

    /// The entries of a delta that are not held, in its order, as a delta that shares their messages.
    /// A delta that the site `own` does not accept is refused as by `fits`. Further error: `Memory` (40).
    /// The numbers of each origin go on where the logs end.
    /// O(entries of the delta). A held entry is compared once.
    pub fn fresh(&self, own: u16, delta: &Delta) -> Result<Delta, DeltaFault>
        ensures ok { IfOk result (λ fresh. fresh ≡ fresh_in (log_in self.now) delta.now) }
        ensures goes_on { IfOk result (λ fresh. (origin : ℕ) → entries_from origin fresh
            ≡ numbered origin (vector_of (log_in self.now) origin + 1) (log_of origin fresh)) }
        ensures fits { OnOk result (first_refusal own self.now.group (log_in self.now) delta.now ≡ None) }
        ensures err { IfErr result (λ refusal. MatchOption
            (first_refusal own self.now.group (log_in self.now) delta.now)
            (refusal ≡ fault.Memory) (λ first. refusal ≡ first)) }
        ensures inside { IsOfGroup self.now }
    {
        let mut fresh = Vec::new(self.shelf.allocator());
        self.fits(own, delta)?;
        for entry in delta.entries() {
            if self.is_new(entry) {
                fresh.push(entry.clone()?)?;
            }
        }
        Ok(Delta::of_shape(fresh))
    }

    /// The entries numbered above `vector`, of every origin, as a delta. Error: `Memory` (40).
    /// O(entries cut), plus one look at each origin.
    pub fn cut(&self, vector: &Vector) -> Result<Delta, DeltaFault>
        ensures cut { IfOk result (λ delta. IsCut (log_in self.now) (count_in vector.now) delta) }
        ensures shape { IfOk result (λ delta. IsDelta delta) }
        ensures err { IfErr result (λ refusal. refusal ≡ fault.Memory) }
        ensures inside { IsOfGroup self.now }
    {
        let entries = self.shelf.above(vector)?;
        Ok(Delta::of_shape(entries))
    }

    // How many entries of the origin are held.
    pub(crate) fn count(&self, origin: u16) -> u64
        ensures { result ≡ vector_of (log_in self.now) origin }
    {
        self.shelf.count(origin)
    }

    // Whether the group has such a site.
    pub(crate) fn has_site(&self, site: u16) -> bool
        ensures { result ≡ has_site self.now.group site }
    {
        0 < site && site <= self.group
    }

    // Makes room for `places` more messages of an origin, whether or not the group has it.
    pub(crate) fn room_for(&mut self, origin: u16, places: usize) -> Result<(), AllocError>
        ensures group { self.new.group ≡ self.old.group }
        ensures same { HoldSame self.new self.old }
        ensures keeps { (k : ℕ) → room_at self.old k ≤ room_at self.new k }
        ensures ok { OnOk result (places ≤ room_at self.new origin) }
        ensures few { OnOk result (places < 2 ^ 63) }
        ensures there { places ≤ room_at self.old origin → 1 ≤ places → IsOk result }
        ensures due { OnOk result ((due : ℕ → ℕ) → 1 ≤ due origin → KeepsEmptyIfDue due self.old
            → KeepsEmptyIfDue due self.new) }
    {
        self.vector.room(origin)?;
        self.shelf.room(origin, places)?;
        Ok(())
    }

    /// Drops the logs and counts of origins that hold no message, with the room in them.
    /// It does not allocate. O(origins).
    pub fn drop_empty(&mut self)
        ensures group { self.new.group ≡ self.old.group }
        ensures same { HoldSame self.new self.old }
        ensures filled { KeepsNoEmpty self.new }
    {
        self.shelf.drop_empty();
        self.vector.drop_zeros();
    }

    /// Whether there is room for one more message of the origin: a `push` at that origin then does not allocate.
    /// O(log origins).
    pub fn has_room(&self, origin: u16) -> bool
        ensures { result ≡ nat_lt 0 (room_at self.now origin) }
    {
        self.vector.names(origin) && self.shelf.places(origin) > 0
    }

    /// Makes room for one more message of the origin, so that a `push` at that origin does not
    /// allocate. The entries held stay as they are.
    /// Errors: `BadSite` (44) if the group does not have the origin; `Memory` (40), and the logs then keep
    /// nothing for an origin that holds no message. After 44 the logs are as they were.
    /// The room lasts until a `push` of the origin. A `join`, `drop_empty`, and a call that is refused by `Memory` take it away
    /// from an origin that holds no message. O(log origins).
    pub fn room(&mut self, origin: u16) -> Result<(), DeltaFault>
        ensures group { self.new.group ≡ self.old.group }
        ensures same { HoldSame self.new self.old }
        ensures ok { OnOk result (HasRoom self.new origin) }
        ensures site { OnOk result (has_site self.old.group origin ≡ true) }
        ensures err { IfErr result (λ refusal. refusal ≡ refusal_at self.old.group origin) }
        ensures as_it_was { IfErr result (λ refusal. refusal ≢ fault.Memory → self.new ≡ self.old) }
        ensures there { HasRoom self.old origin → IfErr result (λ refusal. refusal ≢ fault.Memory) }
        ensures due { OnOk result ((due : ℕ → ℕ) → 1 ≤ due origin → KeepsEmptyIfDue due self.old
            → KeepsEmptyIfDue due self.new) }
        ensures filled { IfErr result (λ refusal. refusal ≡ fault.Memory → KeepsNoEmpty self.new) }
    {
        if !self.has_site(origin) {
            return Err(DeltaFault::BadSite);
        }
        if let Err(_) = self.room_for(origin, 1) {
            self.drop_empty();
            return Err(DeltaFault::Memory);
        }
        Ok(())
    }

    /// Appends a message as the next entry of its origin. Returns the number of that entry. It does not
    /// allocate right after `room` of the origin.
    /// Errors: `BadSite` (44) if the group does not have the origin, and the logs are then as they were; `Memory` (40), and
    /// they then keep nothing for an origin that holds no message. The entries held are then unchanged. O(log origins).
    pub fn push(&mut self, origin: u16, message: Arc<Message>) -> Result<u64, DeltaFault>
        ensures group { self.new.group ≡ self.old.group }
        ensures answer { IfOk result (λ n. n ≡ vector_of (log_in self.old) origin + 1) }
        ensures ok { OnOk result ((k : ℕ) → log_in self.new k
            ≡ appended (log_in self.old) origin (arc_value message) k) }
        ensures site { OnOk result (has_site self.old.group origin ≡ true) }
        ensures err { IfErr result (λ refusal. refusal ≡ refusal_at self.old.group origin) }
        ensures unchanged { OnErr result (HoldSame self.new self.old) }
        ensures as_it_was { IfErr result (λ refusal. refusal ≢ fault.Memory → self.new ≡ self.old) }
        ensures room { HasRoom self.old origin → IfErr result (λ refusal. refusal ≢ fault.Memory) }
        ensures kept { OnOk result (KeepsNoEmpty self.old → KeepsNoEmpty self.new) }
        ensures filled { IfErr result (λ refusal. refusal ≡ fault.Memory → KeepsNoEmpty self.new) }
    {
        self.room(origin)?;
        Ok(self.push_reserved(origin, message))
    }

    /// Appends a message as the next entry of its origin, a site of the group that has room for it. Returns the number
    /// of that entry. It does not allocate. O(log origins).
    pub fn push_reserved(&mut self, origin: u16, message: Arc<Message>) -> u64
        requires site { has_site self.old.group origin ≡ true }
        requires room { HasRoom self.old origin }
        ensures group { self.new.group ≡ self.old.group }
        ensures answer { result ≡ vector_of (log_in self.old) origin + 1 }
        ensures logs { (k : ℕ) → log_in self.new k ≡ appended (log_in self.old) origin (arc_value message) k }
        ensures keeps { (k : ℕ) → room_at self.old k ≤ room_at self.new k + (if nat_eq origin k then 1 else 0) }
        ensures due { (due later : ℕ → ℕ) → KeepsEmptyIfDue due self.old
            → ((k : ℕ) → nat_eq origin k ≡ false → due k ≤ later k) → KeepsEmptyIfDue later self.new }
    {
        let n = self.shelf.push_reserved(origin, message);
        self.vector.set_reserved(origin, n);
        n
    }
}
