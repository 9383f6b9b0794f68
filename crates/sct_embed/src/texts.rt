//! Texts of what a site holds: the lines of entries, of an archive and of identities.

ghost use Rattle.std.specs.Prelude.{◌≡◌, ◌≤◌, [], ◌++◌, length, take, IfOk, OnOk, string_bytes};
ghost use Rattle.std.specs.List.{flat_map};
ghost use Rattle.sct_message.specs.Sets.{messages_in};
ghost use Rattle.sct_set.specs.Archive.{archive_text_of, line_of};
ghost use Rattle.sct_set.specs.Contents.{contents_of};
ghost use Rattle.sct_delta.specs.Entries.{IsArrivals};
ghost use Rattle.sct_embed.specs.Asking.{lines_of_entries, own_above};
ghost use Rattle.sct_embed.specs.Questions.{identity_line};

use sct_delta::Entry;
use sct_json::write_message;
use sct_message::{Identity, Message};
use sct_set::Archive;
use std::alloc::{AllocError, Global};
use std::sync::Arc;

/// Appends the line of a message, as the archive text has it.
pub(crate) fn push_line(
    alloc: Global,
    text: &mut Vec<u8>,
    message: &Message,
) -> Result<(), AllocError>
    ensures { OnOk result (text.new.items ≡ text.old.items ++ line_of message.now) }
{
    // Writing a message can fail only for memory.
    let Ok(written) = write_message(alloc, message) else {
        return Err(AllocError);
    };
    text.extend_from_slice(&written)?;
    text.push(b'\n')?;
    Ok(())
}

/// The line of the message of each entry.
pub(crate) fn text_of_entries(alloc: Global, entries: &[Entry]) -> Result<Vec<u8>, AllocError>
    ensures { IfOk result (λ text. text.items ≡ lines_of_entries entries.now) }
{
    let mut text = Vec::new(alloc);
    for entry in entries {
        push_line(alloc, &mut text, &entry.message)?;
    }
    Ok(text)
}

/// The place before which no own entry is numbered above a count: after the last own entry that is not above it, or 0.
/// O(entries after that place).
fn place_after(number: u16, above: u64, arrivals: &[Entry]) -> usize
    requires { IsArrivals arrivals.now }
    ensures within { result ≤ length arrivals.now }
    ensures none { own_above number above (take result arrivals.now) ≡ [] }
{
    let mut at = arrivals.len();
    while at > 0 {
        let entry = &arrivals[at - 1];
        if entry.origin == number && entry.n <= above {
            return at;
        }
        at -= 1;
    }
    0
}

/// The line of the message of each entry of an origin that is numbered above a count.
/// O(entries that came after the last of the origin that is not above the count).
pub(crate) fn text_of_own_entries(
    alloc: Global,
    number: u16,
    above: u64,
    arrivals: &[Entry],
) -> Result<Vec<u8>, AllocError>
    requires { IsArrivals arrivals.now }
    ensures { IfOk result (λ text. text.items ≡ lines_of_entries (own_above number above arrivals.now)) }
{
    let first = place_after(number, above, arrivals);
    let mut text = Vec::new(alloc);
    for entry in &arrivals[first..] {
        if entry.origin == number && entry.n > above {
            push_line(alloc, &mut text, &entry.message)?;
        }
    }
    Ok(text)
}

/// The archive text of messages, which may be in any order and may repeat.
#[tactic(auto, using(crate::proofs::SetLemmas::all_added))]
pub(crate) fn text_of_messages(
    alloc: Global,
    messages: &[Arc<Message>],
) -> Result<Vec<u8>, AllocError>
    ensures { IfOk result (λ text. text.items ≡ archive_text_of (contents_of (messages_in messages.now))) }
{
    let mut archive = Archive::new(alloc);
    archive.add_all(messages)?;
    Ok(archive.text()?)
}

// Appends the line of an identity.
#[tactic(auto, unfolding(crate::specs::Questions::identity_line))]
fn push_identity(text: &mut String, identity: &Identity) -> Result<(), AllocError>
    ensures { OnOk result (string_bytes text.new ≡ string_bytes text.old ++ identity_line identity.now) }
{
    text.push_str(identity.sender.text())?;
    text.push_str("|")?;
    text.push_str(identity.kind.text())?;
    text.push_str("|")?;
    text.push_str(identity.msg_id.text())?;
    text.push('\n')?;
    Ok(())
}

/// Appends the line of each identity.
pub(crate) fn push_identities(text: &mut String, identities: &[Identity]) -> Result<(), AllocError>
    ensures { OnOk result (string_bytes text.new
        ≡ string_bytes text.old ++ flat_map identity_line identities.now) }
{
    for identity in identities {
        push_identity(text, identity)?;
    }
    Ok(())
}
