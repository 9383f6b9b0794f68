//! The case of a transfer, evaluated from all its messages.

ghost use Rattle.std.specs.Prelude.{◌≡◌, false, filter, not, IfOk};
ghost use Rattle.std.specs.Arc.{arc_value};
ghost use Rattle.std.specs.FinSet as set;
ghost use Rattle.std.specs.List.{list_any};
ghost use Rattle.std.specs.Option.{option_copied};
ghost use Rattle.sct_message.specs.Ascending.{ascending};
ghost use Rattle.sct_message.specs.Order.{message_order};
ghost use Rattle.sct_message.specs.Sets.{messages_in, in_order, is_contradicted};
ghost use Rattle.sct_message.specs.Transfers.{is_on};
ghost use Rattle.sct_view.specs.Changes.{with_fresh};
ghost use Rattle.sct_view.specs.Kept.{case_of, kept_in};

use crate::by_transfer::{identities, in_order};
use crate::case::Case;
use sct_case::transfer_status;
use sct_message::{Message, TransferKey};
use sct_set::Archive;
use std::alloc::{AllocError, Global};
use std::sync::Arc;

/// Messages, separated by whether their identity is contradicted.
#[derive(Drop)]
pub(crate) struct Parted {
    pub(crate) clean: Vec<Arc<Message>>,
    pub(crate) contradicted: Vec<Arc<Message>>,
}

/// Whether an archive, with the fresh messages if there are any, contradicts the identity of a message.
fn is_disputed(held: &Archive, fresh: Option<&Archive>, message: &Message) -> bool
    ensures { result ≡ is_contradicted (with_fresh held.now (option_copied fresh.entry)) message.now }
{
    match fresh {
        Some(fresh) => held.disputes(message) || fresh.disputes(message),
        None => held.disputes(message),
    }
}

/// Whether an archive, with the fresh messages if there are any, may contradict an identity. O(1).
fn may_contradict(held: &Archive, fresh: Option<&Archive>) -> bool
    ensures { result ≡ false → list_any (is_contradicted (with_fresh held.now (option_copied fresh.entry)))
        (set.items (with_fresh held.now (option_copied fresh.entry))) ≡ false }
{
    match fresh {
        Some(_) => true,
        None => held.has_contradictions(),
    }
}

/// Whether an archive, with the fresh messages, contradicts the identity of one of the messages, which it holds.
/// If it cannot contradict an identity, no message is looked up.
fn is_some_disputed(held: &Archive, fresh: Option<&Archive>, messages: &[Arc<Message>]) -> bool
    requires { list_any (is_contradicted (with_fresh held.now (option_copied fresh)))
        (set.items (with_fresh held.now (option_copied fresh))) ≡ false
        → list_any (λ m. is_contradicted (with_fresh held.now (option_copied fresh)) (arc_value m)) messages.now ≡ false }
    ensures { result ≡ list_any (λ m. is_contradicted (with_fresh held.now (option_copied fresh.entry)) (arc_value m)) messages.now }
{
    may_contradict(held, fresh)
        && messages
            .iter()
            .any(|message| is_disputed(held, fresh, message))
}

/// The messages, separated by whether an archive, with the fresh messages, contradicts their identity.
/// Each part keeps the order of the list.
fn separate(
    alloc: Global,
    held: &Archive,
    fresh: Option<&Archive>,
    messages: &[Arc<Message>],
) -> Result<Parted, AllocError>
    ensures clean { IfOk result (λ parted. messages_in parted.clean.items
        ≡ filter (λ m. not (is_contradicted (with_fresh held.now (option_copied fresh.entry)) m)) (messages_in messages.now)) }
    ensures contradicted { IfOk result (λ parted. messages_in parted.contradicted.items
        ≡ filter (is_contradicted (with_fresh held.now (option_copied fresh.entry))) (messages_in messages.now)) }
{
    let mut clean = Vec::new(alloc);
    let mut contradicted = Vec::new(alloc);
    for message in messages {
        if is_disputed(held, fresh, message) {
            contradicted.push(message.clone()?)?;
        } else {
            clean.push(message.clone()?)?;
        }
    }
    Ok(Parted {
        clean,
        contradicted,
    })
}

/// The same as [`separate`], for messages that are held. If no identity is contradicted, the list itself has the clean messages.
fn part(
    alloc: Global,
    held: &Archive,
    fresh: Option<&Archive>,
    messages: Vec<Arc<Message>>,
) -> Result<Parted, AllocError>
    requires { list_any (is_contradicted (with_fresh held.now (option_copied fresh)))
        (set.items (with_fresh held.now (option_copied fresh))) ≡ false
        → list_any (is_contradicted (with_fresh held.now (option_copied fresh))) (messages_in messages.items) ≡ false }
    ensures clean { IfOk result (λ parted. messages_in parted.clean.items
        ≡ filter (λ m. not (is_contradicted (with_fresh held.now (option_copied fresh.entry)) m)) (messages_in messages.items)) }
    ensures contradicted { IfOk result (λ parted. messages_in parted.contradicted.items
        ≡ filter (is_contradicted (with_fresh held.now (option_copied fresh.entry))) (messages_in messages.items)) }
{
    if is_some_disputed(held, fresh, &messages) {
        return separate(alloc, held, fresh, &messages);
    }
    Ok(Parted {
        clean: messages,
        contradicted: Vec::new(alloc),
    })
}

/// The case of a transfer in the messages of an archive, with the fresh messages if there are any.
/// `messages` are all messages on the transfer, in any order.
pub(crate) fn evaluate(
    alloc: Global,
    held: &Archive,
    fresh: Option<&Archive>,
    transfer: &TransferKey,
    messages: &[Arc<Message>],
) -> Result<Case, AllocError>
    requires { ascending message_order (messages_in messages.now)
        ≡ filter (is_on transfer.now) (in_order (with_fresh held.now (option_copied fresh))) }
    ensures { IfOk result (λ case. kept_in case ≡ case_of (with_fresh held.now (option_copied fresh.entry)) transfer.now) }
{
    let sorted = in_order(alloc, messages)?;
    let parted = part(alloc, held, fresh, sorted)?;
    let asides = identities(alloc, &parted.contradicted)?;
    let status = transfer_status(alloc, transfer, &parted.clean, &asides)?;
    Ok(Case {
        clean: parted.clean,
        contradicted: parted.contradicted,
        status,
    })
}
