//! The messages of an archive in the order of their arrival, with two indexes: one by identity, and one by digest of
//! the messages that are not the first of their identity.

ghost use Rattle.std.specs.Prelude.{◌≡◌, ◌≤◌, ◌++◌, ◌∷◌, ◌-◌, ◌+◌, ℕ, [], List, true, false, not, is_some, map, nat_eq, length, take, if◌then◌else◌, IfOk, OnOk, OnErr};
ghost use Rattle.std.specs.Arc.{arc_value};
ghost use Rattle.std.specs.FinSet as set;
ghost use Rattle.std.specs.List.{list_any};
ghost use Rattle.indexmap.specs.IndexMap.{get, IsUnique};
ghost use Rattle.sct_message.specs.declared.draft.Draft.{Draft as DraftOf};
ghost use Rattle.sct_message.specs.Keys.{identity_of};
ghost use Rattle.sct_message.specs.Order.{same_identity, same_message};
ghost use Rattle.sct_set.specs.Archive.{added_of};
ghost use Rattle.sct_set.specs.Buckets.{bucket, HasNoEmptyList};
ghost use Rattle.sct_set.specs.Contents.{contents_of, HasNoRepeat};
ghost use Rattle.sct_set.specs.Contradictions.{contradicted_identities, is_disputed};
ghost use Rattle.sct_set.specs.Digest.{digest_of};
ghost use Rattle.sct_set.specs.Drafts.{against_in, drafts_alike, drafts_in, drafts_of, finds, IsIndexBy};
ghost use Rattle.sct_set.specs.Filing.{identities_filed, is_first_in, with_new};
ghost use Rattle.sct_set.specs.declared.arrivals.Filing.TheVariants as front;

use crate::added::Added;
use crate::buckets::{Bucket, file, items_at, unfile};
use indexmap::IndexMap;
use indexmap::map::Entry;
use sct_message::{Identity, Message, keys_are_ordered};
use std::alloc::{AllocError, Global};
use std::hash::{FoldHasher, Hash, Hasher};
use std::marker::Model;
use std::sync::Arc;

type ByIdentity = IndexMap<Identity, Bucket<Arc<Message>>>;

type ByDigest = IndexMap<u64, Bucket<Arc<Message>>>;

// The digest of a message's elements: equal for equal messages, and mostly different for different ones.
#[tactic(auto, unfolding(crate::specs::Digest::digest_of))]
fn digest(message: &Message) -> u64
    ensures { result ≡ digest_of message.now }
{
    let mut hasher = FoldHasher::default();
    message.hash(&mut hasher);
    hasher.finish()
}

// Whether a message is one of these messages.
fn is_among(message: &Message, messages: &[Arc<Message>]) -> bool
    ensures { result ≡ list_any (λ held. same_message (arc_value held) message.now) messages.now }
{
    messages.iter().any(|held| **held == *message)
}

// Whether one of these messages differs from `message`.
fn is_another_among(message: &Message, messages: &[Arc<Message>]) -> bool
    ensures { result ≡ list_any (λ held. not (same_message (arc_value held) message.now)) messages.now }
{
    messages.iter().any(|held| **held != *message)
}

// Whether a message is the first of these messages.
fn is_first(message: &Message, messages: &[Arc<Message>]) -> bool
    ensures { result ≡ is_first_in message.now (drafts_in messages.now) }
{
    match messages.first() {
        Some(first) => **first == *message,
        None => false,
    }
}

// Appends a handle to a message. If out of memory, nothing changes.
fn push_handle(messages: &mut Vec<Arc<Message>>, message: &Arc<Message>) -> Result<(), AllocError>
    ensures ok { OnOk result (drafts_in messages.new.items
        ≡ drafts_in messages.old.items ++ arc_value message.now ∷ []) }
    ensures err { OnErr result (messages.new.items ≡ messages.old.items) }
{
    let handle = message.clone()?;
    messages.push(handle)?;
    Ok(())
}

/// How a message compares with the first message of its identity.
#[derive(Drop)]
pub(crate) enum Filing {
    /// It is the first, and was filed.
    Filed,
    /// The first is the same message. Nothing was filed.
    Same,
    /// The first is another message. Nothing was filed.
    Other,
}

// Files a message under a key that has no list, with one look-up. If out of memory, no list is changed.
fn file_at_front<K: Eq + Hash + Drop>(
    index: &mut IndexMap<K, Bucket<Arc<Message>>>,
    key: K,
    message: &Arc<Message>,
) -> Result<Filing, AllocError>
    ensures filed { IfOk result (λ at. at ≡ front.Filed → (k : K) → drafts_in (bucket K.eq index.new k)
        ≡ (if K.eq key k then arc_value message.now ∷ [] else drafts_in (bucket K.eq index.old k))) }
    ensures none { IfOk result (λ at. at ≡ front.Filed → bucket K.eq index.old key ≡ []) }
    ensures same { IfOk result (λ at. at ≡ front.Same
        → is_first_in (arc_value message.now) (drafts_in (bucket K.eq index.old key)) ≡ true) }
    ensures other { IfOk result (λ at. at ≡ front.Other
        → is_first_in (arc_value message.now) (drafts_in (bucket K.eq index.old key)) ≡ false) }
    ensures found { IfOk result (λ at. at ≡ front.Other → is_some (get K.eq index.old key) ≡ true) }
    ensures kept_same { IfOk result (λ at. at ≡ front.Same → index.new.entries ≡ index.old.entries) }
    ensures kept_other { IfOk result (λ at. at ≡ front.Other → index.new.entries ≡ index.old.entries) }
    ensures err { OnErr result (index.new.entries ≡ index.old.entries) }
    ensures no_empty { HasNoEmptyList K.eq index.old → HasNoEmptyList K.eq index.new }
{
    match index.entry(key)? {
        Entry::Occupied(entry) => {
            if is_first(message, entry.get().items()) {
                Ok(Filing::Same)
            } else {
                Ok(Filing::Other)
            }
        }
        Entry::Vacant(entry) => {
            let handle = match message.clone() {
                Ok(handle) => handle,
                Err(refused) => {
                    entry.into_key();
                    return Err(refused);
                }
            };
            entry.insert(Bucket::of(handle));
            Ok(Filing::Filed)
        }
    }
}

// Files a message as the first of its identity, with one look-up. If out of memory, the index holds what it held.
fn file_first(index: &mut ByIdentity, message: &Arc<Message>) -> Result<Filing, AllocError>
    ensures filed { IfOk result (λ at. at ≡ front.Filed → (ds : List DraftOf)
        → IsIndexBy identity_of same_identity index.old ds
        → IsIndexBy identity_of same_identity index.new (ds ++ arc_value message.now ∷ [])) }
    ensures none { IfOk result (λ at. at ≡ front.Filed → (ds : List DraftOf)
        → IsIndexBy identity_of same_identity index.old ds → finds (identity_of (arc_value message.now)) ds ≡ false) }
    ensures same { IfOk result (λ at. at ≡ front.Same → (ds : List DraftOf)
        → IsIndexBy identity_of same_identity index.old ds
        → is_first_in (arc_value message.now) (drafts_of (identity_of (arc_value message.now)) ds) ≡ true) }
    ensures other { IfOk result (λ at. at ≡ front.Other → (ds : List DraftOf)
        → IsIndexBy identity_of same_identity index.old ds
        → is_first_in (arc_value message.now) (drafts_of (identity_of (arc_value message.now)) ds) ≡ false) }
    ensures found { IfOk result (λ at. at ≡ front.Other → (ds : List DraftOf)
        → IsIndexBy identity_of same_identity index.old ds → finds (identity_of (arc_value message.now)) ds ≡ true) }
    ensures kept_same { IfOk result (λ at. at ≡ front.Same → index.new.entries ≡ index.old.entries) }
    ensures kept_other { IfOk result (λ at. at ≡ front.Other → index.new.entries ≡ index.old.entries) }
    ensures err { OnErr result (index.new.entries ≡ index.old.entries) }
{
    keys_are_ordered();
    let at = file_at_front(index, message.identity(), message)?;
    Ok(at)
}

// Files a message after the others of its identity. If out of memory, the index holds what it held.
fn file_by_identity(
    alloc: Global,
    index: &mut ByIdentity,
    message: &Arc<Message>,
) -> Result<(), AllocError>
    ensures ok { OnOk result ((ds : List DraftOf) → IsIndexBy identity_of same_identity index.old ds
        → IsIndexBy identity_of same_identity index.new (ds ++ arc_value message.now ∷ [])) }
    ensures err { OnErr result ((ds : List DraftOf) → IsIndexBy identity_of same_identity index.old ds
        → IsIndexBy identity_of same_identity index.new ds) }
{
    keys_are_ordered();
    let handle = message.clone()?;
    file(alloc, index, message.identity(), handle)?;
    Ok(())
}

// Files a message after the others of its digest. If out of memory, the index holds what it held.
fn file_by_digest(
    alloc: Global,
    index: &mut ByDigest,
    message: &Arc<Message>,
) -> Result<(), AllocError>
    ensures ok { OnOk result ((ds : List DraftOf) → IsIndexBy digest_of nat_eq index.old ds
        → IsIndexBy digest_of nat_eq index.new (ds ++ arc_value message.now ∷ [])) }
    ensures err { OnErr result ((ds : List DraftOf) → IsIndexBy digest_of nat_eq index.old ds
        → IsIndexBy digest_of nat_eq index.new ds) }
{
    let handle = message.clone()?;
    file(alloc, index, digest(message), handle)?;
    Ok(())
}

// Appends the identity of each message.
fn push_identities(
    identities: &mut Vec<Identity>,
    messages: &[Arc<Message>],
) -> Result<(), AllocError>
    ensures { OnOk result (identities.new.items ≡ identities.old.items ++ map identity_of (drafts_in messages.now)) }
{
    for message in messages {
        identities.push(message.identity())?;
    }
    Ok(())
}

// The identity of each message that is filed by its digest.
fn identities_filed(alloc: Global, index: &ByDigest) -> Result<Vec<Identity>, AllocError>
    ensures identities { IfOk result (λ found. found.items ≡ identities_filed index.now.entries) }
    ensures unique { IfOk result (λ found. IsUnique nat_eq index.now) }
{
    let mut found = Vec::new(alloc);
    for (_, messages) in index {
        push_identities(&mut found, messages.items())?;
    }
    Ok(found)
}

// Whether there are messages of an identity.
fn has_identity(index: &ByIdentity, identity: &Identity) -> bool
    ensures { (ds : List DraftOf) → IsIndexBy identity_of same_identity index.now ds → result ≡ finds identity.now ds }
{
    keys_are_ordered();
    !items_at(index, identity).is_empty()
}

// Removes a message, which must be the last one filed.
fn unfile_by_identity(index: &mut ByIdentity, message: &Message)
    ensures { (ds : List DraftOf) → IsIndexBy identity_of same_identity index.old (ds ++ message.now ∷ [])
        → IsIndexBy identity_of same_identity index.new ds }
{
    keys_are_ordered();
    unfile(index, &message.identity());
}

// Removes a message, which must be the last one filed, if it was not the first of its identity.
fn unfile_by_digest(index: &mut ByDigest, against: bool, message: &Message)
    ensures { (ds : List DraftOf) → against ≡ finds (identity_of message.now) ds
        → IsIndexBy digest_of nat_eq index.old (against_in (ds ++ message.now ∷ []))
        → IsIndexBy digest_of nat_eq index.new (against_in ds) }
{
    if against {
        unfile(index, &digest(message));
    }
}

/// Messages in the order of their arrival.
#[derive(Drop)]
pub(crate) struct Arrivals {
    alloc: Global,
    messages: Vec<Arc<Message>>,
    by_identity: ByIdentity,
    by_digest: ByDigest,
}

impl Model for Arrivals {
    ghost use Rattle.std.specs.Prelude.{List};
    ghost use Rattle.sct_message.specs.declared.draft.Draft.{Draft};
    ghost use Rattle.sct_set.specs.Drafts.{drafts_in, AreIndexes};

    ghost Value = { List Draft };

    ghost view = { λ t. drafts_in t.messages.items };

    ghost invariant = { λ t. AreIndexes t.by_identity t.by_digest (drafts_in t.messages.items) };
}

impl Arrivals {
    /// No messages. The list grows with this allocator.
    pub(crate) fn new(alloc: Global) -> Self
        ensures { result ≡ [] }
    {
        Arrivals {
            alloc,
            messages: Vec::new(alloc),
            by_identity: IndexMap::new(alloc),
            by_digest: IndexMap::new(alloc),
        }
    }

    /// The allocator with which the list grows.
    pub(crate) fn allocator(&self) -> Global {
        self.alloc
    }

    /// How many messages there are.
    pub(crate) fn len(&self) -> usize
        ensures { result ≡ length self.now }
    {
        self.messages.len()
    }

    /// The messages, in the order of their arrival.
    pub(crate) fn messages(&self) -> &[Arc<Message>]
        ensures { drafts_in result.now ≡ self.now }
    {
        &self.messages
    }

    /// The messages of an identity, in the order of arrival.
    pub(crate) fn of(&self, identity: &Identity) -> &[Arc<Message>]
        ensures { drafts_in result.now ≡ drafts_of identity.now self.now }
    {
        keys_are_ordered();
        items_at(&self.by_identity, identity)
    }

    // The messages with the digest of this message, without the first message of each identity.
    fn of_digest(&self, message: &Message) -> &[Arc<Message>]
        ensures { drafts_in result.now ≡ drafts_alike (digest_of message.now) (against_in self.now) }
    {
        items_at(&self.by_digest, &digest(message))
    }

    /// Whether a message is held: as the first of its identity, or among those that are not the first of theirs.
    pub(crate) fn holds(&self, message: &Message) -> bool
        ensures { result ≡ set.contains (contents_of self.now) message.now }
    {
        let Some(first) = self.of(&message.identity()).first() else {
            return false;
        };
        **first == *message || is_among(message, self.of_digest(message))
    }

    /// Whether a different message with the identity of this one has arrived.
    pub(crate) fn disputes(&self, message: &Message) -> bool
        ensures { result ≡ is_disputed (contents_of self.now) message.now }
    {
        is_another_among(message, self.of(&message.identity()))
    }

    /// Whether two different messages have one identity. O(1).
    pub(crate) fn has_contradictions(&self) -> bool
        requires { HasNoRepeat self.now }
        ensures { result ≡ list_any (is_disputed (contents_of self.now)) (set.items (contents_of self.now)) }
    {
        !self.by_digest.is_empty()
    }

    // Appends a message of an identity that has messages. If out of memory, nothing changes.
    fn push_against(&mut self, message: &Arc<Message>) -> Result<(), AllocError>
        requires { finds (identity_of (arc_value message.now)) self.old ≡ true }
        ensures ok { OnOk result (self.new ≡ self.old ++ arc_value message.now ∷ []) }
        ensures err { OnErr result (self.new ≡ self.old) }
    {
        let handle = message.clone()?;
        self.messages.reserve(1)?;
        file_by_identity(self.alloc, &mut self.by_identity, message)?;
        if let Err(refused) = file_by_digest(self.alloc, &mut self.by_digest, message) {
            unfile_by_identity(&mut self.by_identity, message);
            return Err(refused);
        }
        self.messages.push_reserved(handle);
        Ok(())
    }

    // Appends a message that is not the first of its identity, unless it is held. If out of memory, nothing changes.
    fn add_behind(&mut self, message: &Arc<Message>) -> Result<Added, AllocError>
        requires found { finds (identity_of (arc_value message.now)) self.old ≡ true }
        requires other { is_first_in (arc_value message.now)
            (drafts_of (identity_of (arc_value message.now)) self.old) ≡ false }
        ensures answer { IfOk result (λ added. added ≡ added_of (contents_of self.old) (arc_value message.now)) }
        ensures ok { OnOk result (self.new ≡ with_new self.old (arc_value message.now)) }
        ensures err { OnErr result (self.new ≡ self.old) }
    {
        if is_among(message, self.of_digest(message)) {
            return Ok(Added::Repeat);
        }
        self.push_against(message)?;
        Ok(Added::Against)
    }

    /// Appends a message, unless it is held. A message that is the first of its identity is looked up once.
    /// If out of memory, nothing changes.
    pub(crate) fn add(&mut self, message: &Arc<Message>) -> Result<Added, AllocError>
        ensures answer { IfOk result (λ added. added ≡ added_of (contents_of self.old) (arc_value message.now)) }
        ensures ok { OnOk result (self.new ≡ with_new self.old (arc_value message.now)) }
        ensures err { OnErr result (self.new ≡ self.old) }
    {
        match file_first(&mut self.by_identity, message)? {
            Filing::Filed => {
                if let Err(refused) = push_handle(&mut self.messages, message) {
                    unfile_by_identity(&mut self.by_identity, message);
                    return Err(refused);
                }
                Ok(Added::Fresh)
            }
            Filing::Same => Ok(Added::Repeat),
            Filing::Other => self.add_behind(message),
        }
    }

    // Makes room for more messages in one step, if they are more than there are. Else the room grows by doubling.
    fn reserve(&mut self, more: usize) -> Result<(), AllocError>
        ensures { self.new ≡ self.old }
    {
        if more > self.len() {
            self.messages.reserve(more)?;
            self.by_identity.reserve(more)?;
        }
        Ok(())
    }

    /// Appends the messages that are not held. Returns how many these are. If out of memory, none is appended.
    pub(crate) fn add_all(&mut self, messages: &[Arc<Message>]) -> Result<u64, AllocError>
        requires { HasNoRepeat self.old }
        ensures ok { OnOk result (
            contents_of self.new ≡ set.union (contents_of self.old) (contents_of (drafts_in messages.now))) }
        ensures no_repeat { HasNoRepeat self.new }
        ensures count { IfOk result (λ fresh. length self.new ≡ length self.old + fresh) }
        ensures err { OnErr result (self.new ≡ self.old) }
    {
        let before = self.len();
        self.reserve(messages.len())?;
        for message in messages {
            if let Err(refused) = self.add(message) {
                self.truncate(before);
                return Err(refused);
            }
        }
        Ok((self.len() - before) as u64)
    }

    // Removes the last message.
    fn pop(&mut self)
        ensures { self.new ≡ take (length self.old - 1) self.old }
    {
        let Some(last) = self.messages.pop() else {
            return;
        };
        unfile_by_identity(&mut self.by_identity, &last);
        let against = has_identity(&self.by_identity, &last.identity());
        unfile_by_digest(&mut self.by_digest, against, &last);
    }

    // Keeps the first `len` messages and removes the others.
    fn truncate(&mut self, len: usize)
        ensures { self.new ≡ take len self.old }
    {
        'cut: while self.len() > len {
            self.pop();
        }
    }

    /// The contradicted identities, ascending, each once: those that two different messages have.
    /// O(c log c), for c messages that are not the first of their identity.
    pub(crate) fn contradictions(&self) -> Result<Vec<Identity>, AllocError>
        requires { HasNoRepeat self.now }
        ensures { IfOk result (λ identities. identities.items ≡ contradicted_identities (contents_of self.now)) }
    {
        keys_are_ordered();
        let mut identities = identities_filed(self.alloc, &self.by_digest)?;
        identities.sort()?;
        identities.dedup();
        Ok(identities)
    }
}
