//! What an intake worker sends: a note to the query worker of its site, and entries to the other sites.

ghost use Rattle.std.specs.Arc.{arc_value};
ghost use Rattle.std.specs.Prelude.{◌≡◌, ◌≤◌, [], IfSome};
ghost use Rattle.sct_set.specs.Contents.{contents_of};
ghost use Rattle.sct_workers.specs.Exchanging.{IsEntryOf, IsNumbered};
ghost use Rattle.sct_workers.specs.Kept.{IsFirstOfOne, Keeps};

use crate::kept::Takes;
use crossbeam_channel::Sender;
use sct_delta::Entry;
use sct_desk::{Receipt, Site};
use sct_message::{Message, TransferKey};
use sct_site::Took;
use std::marker::PhantomData;
use std::sync::{Arc, Wait};

/// A receipt of the site's desk that added no own entry, and a transfer to query after the receipt is learned: the first
/// one of a message that the site takes.
#[derive(Drop)]
pub(crate) struct Note<J: Site + Takes> {
    pub(crate) receipt: Receipt,
    pub(crate) transfer: TransferKey,
    of: PhantomData<J>,
    ghost keeps: { Keeps J.book J.number J.group (contents_of []) receipt },
    ghost first: { ∥ IsFirstOfOne J.messages transfer ∥₁ },
}

impl<J: Site + Takes> Note<J> {
    /// A note of a receipt and a transfer.
    pub(crate) fn of(receipt: Receipt, transfer: TransferKey) -> Note<J>
        requires keeps { Keeps J.book J.number J.group (contents_of []) receipt }
        requires first { ∥ IsFirstOfOne J.messages transfer ∥₁ }
        ensures receipt { result.receipt ≡ receipt }
        ensures transfer { result.transfer ≡ transfer }
    {
        Note {
            receipt,
            transfer,
            of: PhantomData,
        }
    }

    /// The receipt.
    pub(crate) fn into_receipt(self) -> Receipt
        ensures same { result ≡ self.receipt }
        ensures keeps { Keeps J.book J.number J.group (contents_of []) result }
    {
        let Note { receipt, .. } = self;
        receipt
    }
}

/// An entry that a site took. Its number is at least 1.
#[derive(Drop)]
pub(crate) struct NewEntry {
    entry: Entry,
    ghost numbered: { 1 ≤ entry.n },
}

impl NewEntry {
    /// The entry of a message that a site took. None for a repeat, and if the message cannot be shared.
    pub(crate) fn of(site: u16, took: &Took, message: &Arc<Message>) -> Option<NewEntry>
        requires { IsNumbered took.now }
        ensures { IfSome result (λ one. IsEntryOf site took.now (arc_value message.now) one.entry) }
    {
        let Took::Taken { n } = took else {
            return None;
        };
        let message = message.clone().ok()?;
        Some(NewEntry {
            entry: Entry {
                origin: site,
                n: *n,
                message,
            },
        })
    }

    /// The entry.
    pub(crate) fn into_entry(self) -> Entry
        ensures same { result ≡ self.entry }
        ensures numbered { 1 ≤ result.n }
    {
        let NewEntry { entry } = self;
        entry
    }
}

/// The ends of channels to the query worker of the site and to the exchange workers of the other sites. Those
/// workers end after these ends are dropped.
#[derive(Drop)]
pub(crate) struct Senders<J: Site + Takes> {
    pub(crate) notes: Sender<Note<J>>,
    pub(crate) entries: Vec<Sender<NewEntry>>,
}

impl<J: Site + Takes> Senders<J> {
    // Sends a receipt and a transfer to the query worker. Returns the receipt if that fails, which is not a fault.
    pub(crate) fn send_note<R: Wait>(
        &self,
        rt: &R,
        receipt: Receipt,
        transfer: TransferKey,
    ) -> Option<Receipt>
        requires keeps { Keeps J.book J.number J.group (contents_of []) receipt }
        requires first { ∥ IsFirstOfOne J.messages transfer ∥₁ }
        ensures { IfSome result (Keeps J.book J.number J.group (contents_of [])) }
    {
        match self.notes.send(rt, Note::of(receipt, transfer)) {
            Ok(()) => None,
            Err(refused) => Some(refused.into_inner().into_receipt()),
        }
    }

    // Sends the entry of a message that the site took to the other sites. A repeat has no entry. An entry that cannot
    // be sent is left out, which is not a fault.
    pub(crate) fn send_entry<R: Wait>(&self, rt: &R, site: u16, took: &Took, message: &Arc<Message>)
        requires site { site ≡ J.number }
        requires numbered { IsNumbered took.now }
    {
        for sender in &self.entries {
            if let Some(entry) = NewEntry::of(site, took, message) {
                let _ = sender.send(rt, entry);
            }
        }
    }
}
