//! An entry: a message under the number that its origin gave it.

ghost use Rattle.std.specs.Prelude.{◌≡◌, map, IfOk};
ghost use Rattle.sct_message.specs.Sets.{messages_in};

use sct_message::Message;
use std::alloc::{AllocError, Global};
use std::marker::Model;
use std::sync::Arc;

/// A message with the number that its origin gave it. The origin is the site that took the
/// message, and numbers its messages from 1.
/// Copies of an entry share the message.
#[derive(Drop)]
pub struct Entry {
    pub origin: u16,
    pub n: u64,
    pub message: Arc<Message>,
}

impl Model for Entry {
    ghost use Rattle.std.specs.Arc.{arc_value};
    ghost use Rattle.sct_delta.specs.Entries.{Placed};

    ghost Value = { Placed };

    ghost view = { λ e. record { origin = e.origin; n = e.n; message = arc_value e.message } };
}

impl Entry {
    // A copy that shares the message.
    pub(crate) fn clone(&self) -> Result<Entry, AllocError>
        ensures { IfOk result (λ entry. entry ≡ self.now) }
    {
        Ok(Entry {
            origin: self.origin,
            n: self.n,
            message: self.message.clone()?,
        })
    }
}

/// The messages of the entries, in their order, shared. The only error is that it is out of memory. O(entries).
pub fn messages_in(alloc: Global, entries: &[Entry]) -> Result<Vec<Arc<Message>>, AllocError>
    ensures { IfOk result (λ messages. messages_in messages.items ≡ map (λ entry. entry.message) entries.now) }
{
    let mut messages = Vec::new(alloc);
    for entry in entries {
        messages.push(entry.message.clone()?)?;
    }
    Ok(messages)
}
