//! Joins the delta of another site into the logs.

ghost use Rattle.std.specs.Prelude.{◌≡◌, ◌≢◌, ◌≤◌, ◌+◌, ◌++◌, ℕ, None, false, map, length, OnOk, OnErr, IfOk, IfErr, IsOk, MatchOption};

use crate::delta::Delta;
use crate::entry::Entry;
use crate::fault::DeltaFault;
use crate::logs::Logs;
use sct_message::Message;
use std::alloc::AllocError;
use std::sync::Arc;

impl Logs {
    ghost use Rattle.std.specs.List.{list_any};
    ghost use Rattle.sct_message.specs.Sets.{messages_in};
    ghost use Rattle.sct_delta.specs.declared.fault.DeltaFault.TheVariants as fault;
    ghost use Rattle.sct_delta.specs.Entries.{held_from, log_of};
    ghost use Rattle.sct_delta.specs.Logs.{log_in, room_at, HasRoomFor, HoldSame, KeepsEmptyIfDue, KeepsNoEmpty};
    ghost use Rattle.sct_delta.specs.Refusals.{first_refusal, fresh_in, is_outside, joined};

    // Makes room for the entries of a delta. If out of memory, some of the room may have been made.
    fn room_for_each(&mut self, delta: &Delta) -> Result<(), AllocError>
        ensures group { self.new.group ≡ self.old.group }
        ensures same { HoldSame self.new self.old }
        ensures ok { OnOk result (HasRoomFor self.new delta.now) }
        ensures there { HasRoomFor self.old delta.now → IsOk result }
        ensures due { OnOk result (KeepsNoEmpty self.old
            → KeepsEmptyIfDue (λ origin. held_from origin delta.now) self.new) }
    {
        let mut previous = 0;
        let mut places = 0;
        for entry in delta.entries() {
            if entry.origin != previous {
                previous = entry.origin;
                places = 0;
            }
            places += 1;
            self.room_for(entry.origin, places)?;
        }
        Ok(())
    }

    /// Makes room for the entries of a delta, so that joining it does not allocate. The entries held stay as they are.
    /// Error: `Memory` (40); the logs then keep nothing for an origin that holds no message. O(entries of the delta).
    /// The room lasts until its entries come, by `append_all` or `join`. A `join`, `drop_empty`, and a call that is refused by
    /// `Memory` take it away from an origin that holds no message.
    pub fn reserve(&mut self, delta: &Delta) -> Result<(), DeltaFault>
        ensures group { self.new.group ≡ self.old.group }
        ensures same { HoldSame self.new self.old }
        ensures ok { OnOk result (HasRoomFor self.new delta.now) }
        ensures err { IfErr result (λ refusal. refusal ≡ fault.Memory) }
        ensures there { HasRoomFor self.old delta.now → IsOk result }
        ensures due { OnOk result (KeepsNoEmpty self.old
            → KeepsEmptyIfDue (λ origin. held_from origin delta.now) self.new) }
        ensures filled { OnErr result (KeepsNoEmpty self.new) }
    {
        if let Err(_) = self.room_for_each(delta) {
            self.drop_empty();
            return Err(DeltaFault::Memory);
        }
        Ok(())
    }

    /// Appends the messages of entries, each to the log of its origin. There is room for all of them, so it does not
    /// allocate. O(entries).
    pub fn append_all(&mut self, entries: &[Entry], messages: Vec<Arc<Message>>)
        requires messages { messages_in messages.items ≡ map (λ entry. entry.message) entries.now }
        requires room { HasRoomFor self.old entries.now }
        requires inside { list_any (is_outside self.old.group) entries.now ≡ false }
        ensures group { self.new.group ≡ self.old.group }
        ensures logs { (origin : ℕ) → log_in self.new origin
            ≡ log_in self.old origin ++ log_of origin entries.now }
        ensures filled { KeepsEmptyIfDue (λ origin. held_from origin entries.now) self.old
            → KeepsNoEmpty self.new }
    {
        let mut place = 0;
        for message in messages {
            let entry = &entries[place];
            self.push_reserved(entry.origin, message);
            place += 1;
        }
    }

    // Appends each entry to the log of its origin. There is room for all of them.
    fn append_each(&mut self, entries: Vec<Entry>)
        requires room { HasRoomFor self.old entries.items }
        requires inside { list_any (is_outside self.old.group) entries.items ≡ false }
        ensures group { self.new.group ≡ self.old.group }
        ensures logs { (origin : ℕ) → log_in self.new origin
            ≡ log_in self.old origin ++ log_of origin entries.items }
    {
        for entry in entries {
            self.push_reserved(entry.origin, entry.message);
        }
    }

    /// Joins a delta that fits the site `own`. Returns how many of its entries were not held. It does not
    /// allocate right after `reserve` of the delta.
    /// A delta that does not fit is refused as by `fits`, and dropped: the logs are then as they were. Further error:
    /// `Memory` (40). The entries held are then unchanged. After a join, and after that error, the logs keep nothing for an
    /// origin that holds no message. O(entries of the delta and origins).
    /// The program does not call it; users of the library can.
    pub fn join(&mut self, own: u16, delta: Delta) -> Result<u64, DeltaFault>
        ensures group { self.new.group ≡ self.old.group }
        ensures answer { IfOk result (λ fresh. fresh ≡ length (fresh_in (log_in self.old) delta)) }
        ensures ok { OnOk result ((origin : ℕ) → log_in self.new origin
            ≡ joined (log_in self.old) delta origin) }
        ensures fits { OnOk result (first_refusal own self.old.group (log_in self.old) delta ≡ None) }
        ensures err { IfErr result (λ refusal. MatchOption
            (first_refusal own self.old.group (log_in self.old) delta)
            (refusal ≡ fault.Memory) (λ first. refusal ≡ first)) }
        ensures unchanged { OnErr result (HoldSame self.new self.old) }
        ensures room { HasRoomFor self.old delta → IfErr result (λ refusal. refusal ≢ fault.Memory) }
        ensures same { IfErr result (λ refusal. refusal ≢ fault.Memory → self.new ≡ self.old) }
        ensures filled { IfErr result (λ refusal. refusal ≡ fault.Memory → KeepsNoEmpty self.new) }
        ensures kept { OnOk result (KeepsNoEmpty self.new) }
    {
        self.fits(own, &delta)?;
        self.reserve(&delta)?;
        let mut entries = delta.into_entries();
        entries.retain(|entry| self.is_new(entry));
        let fresh = entries.len() as u64;
        self.append_each(entries);
        self.drop_empty();
        Ok(fresh)
    }
}
