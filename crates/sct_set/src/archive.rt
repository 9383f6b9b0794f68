//! A set of messages.

ghost use Rattle.std.specs.Prelude.{◌≡◌, ◌+◌, option_map, OnOk, OnErr, IfOk};
ghost use Rattle.std.specs.Arc.{arc_value};
ghost use Rattle.std.specs.FinSet as set;
ghost use Rattle.std.specs.List.{list_any};
ghost use Rattle.std.specs.Option.{option_copied, option_to_list};
ghost use Rattle.sct_message.specs.Order.{message_order};
ghost use Rattle.sct_set.specs.Contents.{contents_of, HasNoRepeat};
ghost use Rattle.sct_set.specs.Drafts.{drafts_in};

use crate::added::Added;
use crate::arrivals::Arrivals;
use crate::fault::SetFault;
use crate::text::archive_text;
use sct_message::{Identity, Message};
use std::alloc::Global;
use std::marker::Model;
use std::sync::Arc;

/// Messages, each held once, whatever their identities are.
#[derive(Drop)]
pub struct Archive {
    arrivals: Arrivals,
}

impl Model for Archive {
    ghost use Rattle.std.specs.FinSet as set;
    ghost use Rattle.sct_message.specs.contracts.messages.Message as message;
    ghost use Rattle.sct_message.specs.Order.{message_order};
    ghost use Rattle.sct_set.specs.Contents.{HasNoRepeat};

    ghost Value = { set.FinSet message_order };

    ghost coded = { set.code message.the_row.coded };

    ghost view = { λ a. set.from_list a.arrivals };

    ghost invariant = { λ a. HasNoRepeat a.arrivals };
}

impl Archive {
    ghost use Rattle.sct_set.specs.Archive.{added_of, archive_text_of, AreReadAgain};
    ghost use Rattle.sct_set.specs.Contradictions.{contradicted_identities, is_disputed, undisputed_of};

    /// An empty archive, which grows with this allocator.
    pub fn new(alloc: Global) -> Self
        ensures { result ≡ set.empty }
    {
        Archive {
            arrivals: Arrivals::new(alloc),
        }
    }

    /// How many messages are held.
    pub fn len(&self) -> usize
        ensures { result ≡ set.len self.now }
    {
        self.arrivals.len()
    }

    /// Whether the message is held. Expected O(1) in the number of messages held.
    pub fn holds(&self, message: &Message) -> bool
        ensures { result ≡ set.contains self.now message.now }
    {
        self.arrivals.holds(message)
    }

    /// The messages held, each once. Their order is not specified.
    pub fn messages(&self) -> &[Arc<Message>]
        ensures held { contents_of (drafts_in result.now) ≡ self.now }
        ensures once { HasNoRepeat (drafts_in result.now) }
    {
        self.arrivals.messages()
    }

    /// Whether a different message of the same identity is held. If so, the identity is
    /// contradicted, or would be with this message. O(messages of that identity).
    pub fn disputes(&self, message: &Message) -> bool
        ensures { result ≡ is_disputed self.now message.now }
    {
        self.arrivals.disputes(message)
    }

    /// The message of an identity, or none if there is no such message or the identity is contradicted.
    /// O(messages of that identity).
    pub fn undisputed(&self, identity: &Identity) -> Option<&Arc<Message>>
        ensures { option_to_list (option_map arc_value (option_copied result)) ≡ undisputed_of self.now identity.now }
    {
        let Some(first) = self.arrivals.of(identity).first() else {
            return None;
        };
        if self.disputes(first) {
            return None;
        }
        Some(first)
    }

    /// Adds a message. Returns `Repeat` if it is held already, `Against` if another of
    /// its identity is held, else `Fresh`.
    /// Error: `Memory` (39), with the archive unchanged. Expected O(1) in the number of messages held.
    pub fn add(&mut self, message: Arc<Message>) -> Result<Added, SetFault>
        ensures answer { IfOk result (λ added. added ≡ added_of self.old (arc_value message)) }
        ensures ok { OnOk result (self.new ≡ set.insert self.old (arc_value message)) }
        ensures err { OnErr result (self.new ≡ self.old) }
    {
        Ok(self.arrivals.add(&message)?)
    }

    /// Adds each message of a list. Returns by how many messages the archive has grown.
    /// Error: `Memory` (39), with the archive unchanged. Expected O(messages of the list).
    pub fn add_all(&mut self, messages: &[Arc<Message>]) -> Result<u64, SetFault>
        ensures ok { OnOk result (self.new ≡ set.union self.old (contents_of (drafts_in messages.now))) }
        ensures count { IfOk result (λ fresh. set.len self.new ≡ set.len self.old + fresh) }
        ensures err { OnErr result (self.new ≡ self.old) }
    {
        Ok(self.arrivals.add_all(messages)?)
    }

    /// Adds each message of another archive. Returns by how many messages this archive has grown.
    /// Error: `Memory` (39), with this archive unchanged. Expected O(messages of the other archive).
    pub fn merge(&mut self, other: &Archive) -> Result<u64, SetFault>
        ensures ok { OnOk result (self.new ≡ set.union self.old other.now) }
        ensures count { IfOk result (λ fresh. set.len self.new ≡ set.len self.old + fresh) }
        ensures err { OnErr result (self.new ≡ self.old) }
    {
        Ok(self.arrivals.add_all(other.messages())?)
    }

    /// Whether an identity is contradicted: whether two different messages held have it. O(1).
    pub fn has_contradictions(&self) -> bool
        ensures { result ≡ list_any (is_disputed self.now) (set.items self.now) }
    {
        self.arrivals.has_contradictions()
    }

    /// The contradicted identities, ascending, each once: those that two different messages held have.
    /// Error: `Memory` (39). O(c log c), for c messages held that are not the first of their identity to arrive.
    pub fn contradictions(&self) -> Result<Vec<Identity>, SetFault>
        ensures { IfOk result (λ identities. identities.items ≡ contradicted_identities self.now) }
    {
        Ok(self.arrivals.contradictions()?)
    }

    /// The archive text in bytes: the written text of each message held, sorted by identity and
    /// then by text, with a line feed after each.
    /// Error: `Memory` (39). O(n log n) in the number of messages held.
    pub fn text(&self) -> Result<Vec<u8>, SetFault>
        ensures text { IfOk result (λ text. text.items ≡ archive_text_of self.now) }
        ensures again { IfOk result (λ text. AreReadAgain self.now) }
    {
        Ok(archive_text(&self.arrivals)?)
    }
}
