//! The chain of digests of one origin's messages: each is that of the messages before it and of one more.

ghost use Rattle.std.specs.Prelude.{◌≡◌, ◌≤◌, ◌<◌, ◌+◌, List, length, take, IfOk, OnOk};
ghost use Rattle.sct_message.specs.Sets.{messages_in};
ghost use Rattle.sct_message.specs.declared.draft.Draft.{Draft};
ghost use Rattle.sct_digest.specs.Digests.{digest_after, digest_of, next_digest};
ghost use Rattle.sct_digest.specs.Keeping.{IsKept};

use sct_json::write_message;
use sct_message::Message;
use sha2::{Digest, Sha256};
use std::alloc::{AllocError, Global};
use std::sync::Arc;

// The digest after one message.
fn next_digest(alloc: Global, before: &[u8; 32], message: &Message) -> Result<[u8; 32], AllocError>
    ensures { IfOk result (λ digest. digest ≡ next_digest before.now message.now) }
{
    // Writing a message can fail only for memory.
    let Ok(text) = write_message(alloc, message) else {
        return Err(AllocError);
    };
    let mut hasher = Sha256::new();
    hasher.update(before.as_slice());
    hasher.update(text.as_slice());
    hasher.update(b"\n".as_slice());
    Ok(hasher.finalize())
}

// The digest after messages.
fn digest_after(
    alloc: Global,
    before: [u8; 32],
    messages: &[Arc<Message>],
) -> Result<[u8; 32], AllocError>
    ensures { IfOk result (λ digest. digest ≡ digest_after before (messages_in messages.now)) }
{
    let mut digest = before;
    for message in messages {
        digest = next_digest(alloc, &digest, message)?;
    }
    Ok(digest)
}

// After how many messages a digest is kept.
const STEP: usize = 1024;

/// The digests that are kept of one origin's messages: that of the first ones, as many as were looked at, and that of each
/// 1,024 of them.
#[derive(Drop)]
pub(crate) struct Chain {
    // How many messages were looked at.
    pub(crate) count: usize,
    // Their digest.
    pub(crate) newest: [u8; 32],
    // The digest of the first 1,024 messages, of the first 2,048, and so on.
    pub(crate) marks: Vec<[u8; 32]>,
}

impl Chain {
    /// The chain of no messages.
    pub(crate) fn new(alloc: Global) -> Chain
        ensures { (log : List Draft) → IsKept result log }
    {
        Chain {
            count: 0,
            newest: [0u8; 32],
            marks: Vec::new(alloc),
        }
    }

    // Looks at the next message.
    fn step(&mut self, alloc: Global, log: &[Arc<Message>]) -> Result<(), AllocError>
        requires kept { IsKept self.old (messages_in log.now) }
        requires more { self.old.count < length log.now }
        ensures kept { IsKept self.new (messages_in log.now) }
        ensures one { OnOk result (self.new.count ≡ self.old.count + 1) }
    {
        let newest = next_digest(alloc, &self.newest, &log[self.count])?;
        let count = self.count + 1;
        if count - STEP * self.marks.len() == STEP {
            self.marks.push(newest)?;
        }
        self.newest = newest;
        self.count = count;
        Ok(())
    }

    /// Looks at the messages of a log that it did not look at yet. O(these messages). If out of memory, what it looked at is
    /// kept.
    pub(crate) fn follow(&mut self, alloc: Global, log: &[Arc<Message>]) -> Result<(), AllocError>
        requires { IsKept self.old (messages_in log.now) }
        ensures kept { IsKept self.new (messages_in log.now) }
        ensures all { OnOk result (self.new.count ≡ length log.now) }
    {
        while self.count < log.len() {
            self.step(alloc, log)?;
        }
        Ok(())
    }

    // The last digest kept that is of at most so many messages, and of how many it is.
    fn nearest(&self, count: usize) -> (usize, [u8; 32])
        ensures within { result.0 ≤ count }
        ensures digest { (log : List Draft) → IsKept self.now log → result.1 ≡ digest_of (take result.0 log) }
    {
        if self.count <= count {
            return (self.count, self.newest);
        }
        let marks = (count / STEP).min(self.marks.len());
        if marks == 0 {
            return (0, [0u8; 32]);
        }
        (STEP * marks, self.marks[marks - 1])
    }

    /// The digest of the first messages of a log. O(1,024) if the chain follows the log.
    pub(crate) fn digest(
        &self,
        alloc: Global,
        log: &[Arc<Message>],
        count: usize,
    ) -> Result<[u8; 32], AllocError>
        requires kept { IsKept self.now (messages_in log.now) }
        requires held { count ≤ length log.now }
        ensures { IfOk result (λ digest. digest ≡ digest_of (take count (messages_in log.now))) }
    {
        let (from, digest) = self.nearest(count);
        let (first, _) = log.split_at(count);
        let (_, rest) = first.split_at(from);
        digest_after(alloc, digest, rest)
    }
}
