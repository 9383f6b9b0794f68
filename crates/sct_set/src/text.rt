//! The archive text.

ghost use Rattle.std.specs.Prelude.{◌≡◌, ◌*◌, ◌≤◌, ◌++◌, ◌∷◌, [], All, length, map, refl, IfOk, OnOk};
ghost use Rattle.std.specs.Arc.{arc_value};
ghost use Rattle.std.specs.List.{flat_map};
ghost use Rattle.sct_json.specs.Writing.{written_text};
ghost use Rattle.sct_message.specs.Ascending.{ascending};
ghost use Rattle.sct_message.specs.Keys.{identity_of};
ghost use Rattle.sct_message.specs.Order.{identity_order};
ghost use Rattle.sct_set.specs.Archive.{archive_text_of, line_of, line_order, AreReadAgain, IsReadAgain};
ghost use Rattle.sct_set.specs.Contents.{contents_of};
ghost use Rattle.sct_set.specs.Drafts.{drafts_in, drafts_of};
ghost use Rattle.sct_set.specs.Groups.{AreWritten};

use crate::arrivals::Arrivals;
use sct_json::write_message;
use sct_message::{Identity, Message, keys_are_ordered};
use std::alloc::{AllocError, Global};
use std::cmp::Ordering;
use std::marker::Model;
use std::sync::Arc;

// An estimate: most lines are shorter.
const BYTES_OF_A_LINE: usize = 640;

// A message with the keys by which its line in the archive text is sorted: its identity and its written text.
#[derive(Drop)]
struct Line {
    identity: Identity,
    text: Vec<u8>,
    message: Arc<Message>,
}

impl Model for Line {
    ghost use Rattle.std.specs.Prelude.{◌≡◌};
    ghost use Rattle.std.specs.Arc.{arc_value};
    ghost use Rattle.sct_message.specs.declared.draft.Draft.{Draft};
    ghost use Rattle.sct_message.specs.Keys.{identity_of};
    ghost use Rattle.sct_json.specs.Writing.{written_text};
    ghost use Rattle.sct_set.specs.Archive.{IsReadAgain};

    ghost Value = { Draft };

    ghost view = { λ l. arc_value l.message };

    ghost invariant = { λ l. (l.identity ≡ identity_of (arc_value l.message))
        × (l.text.items ≡ written_text (arc_value l.message)) × IsReadAgain (arc_value l.message) };
}

impl Line {
    // The line of a message, which it shares.
    fn of(alloc: Global, message: &Arc<Message>) -> Result<Self, AllocError>
        ensures { IfOk result (λ line. line ≡ arc_value message.now) }
    {
        // Writing a message can fail only for memory.
        let Ok(text) = write_message(alloc, message) else {
            return Err(AllocError);
        };
        Ok(Line {
            identity: message.identity(),
            text,
            message: message.clone()?,
        })
    }

    // The written text of the message, without a line feed.
    fn text(&self) -> &[u8]
        ensures written { result.now ≡ written_text self.now }
        ensures again { IsReadAgain self.now }
    {
        &self.text
    }
}

impl PartialEq for Line {
    ghost use Rattle.std.specs.Cmp.{partial_equiv_from_equiv, eq_by_cmp_equiv};
    ghost use Rattle.std.specs.Ordering.{eq_by_cmp};
    ghost use Rattle.sct_set.specs.LineOrder.{line_order_total};

    ghost eq = { eq_by_cmp line_order };

    ghost laws = { partial_equiv_from_equiv (eq_by_cmp_equiv line_order_total) };

    fn eq(&self, other: &Self) -> bool {
        self.cmp(other).is_eq()
    }
}

impl Eq for Line {
    ghost use Rattle.std.specs.Cmp.{eq_by_cmp_equiv};
    ghost use Rattle.sct_set.specs.LineOrder.{line_order_total};

    ghost laws = { eq_by_cmp_equiv line_order_total };
}

impl PartialOrd for Line {
    ghost use Rattle.std.specs.Prelude.{Some};
    ghost use Rattle.std.specs.Cmp.{po};
    ghost use Rattle.sct_set.specs.LineOrder.{line_order_total};

    ghost partial_cmp = { λ a b. Some (line_order a b) };

    ghost laws = { po line_order_total (λ a b. refl) };

    fn partial_cmp(&self, other: &Self) -> Option<Ordering> {
        Some(self.cmp(other))
    }
}

impl Ord for Line {
    ghost use Rattle.sct_set.specs.LineOrder.{line_order_total};

    ghost cmp = { line_order };

    ghost total = { line_order_total };

    ghost matches_partial_cmp = { λ a b. refl };

    ghost matches_eq = { λ a b. refl };

    fn cmp(&self, other: &Self) -> Ordering {
        keys_are_ordered();
        let by_identity = self.identity.cmp(&other.identity);
        if by_identity.is_ne() {
            return by_identity;
        }
        let by_text = self.text.cmp(&other.text);
        if by_text.is_ne() {
            return by_text;
        }
        self.message.cmp(&other.message)
    }
}

// The identity of each of the messages.
pub(crate) fn identities_of(
    alloc: Global,
    messages: &[Arc<Message>],
) -> Result<Vec<Identity>, AllocError>
    ensures { IfOk result (λ found. found.items ≡ map identity_of (drafts_in messages.now)) }
{
    let mut found = Vec::with_capacity(alloc, messages.len())?;
    for message in messages {
        found.push(message.identity())?;
    }
    Ok(found)
}

// The identities of the messages, ascending, each once.
fn identities(arrivals: &Arrivals) -> Result<Vec<Identity>, AllocError>
    ensures { IfOk result (λ found. found.items ≡ ascending identity_order (map identity_of arrivals.now)) }
{
    keys_are_ordered();
    let mut found = identities_of(arrivals.allocator(), arrivals.messages())?;
    found.sort()?;
    found.dedup();
    Ok(found)
}

// The messages with their written texts, in the order of the archive text.
fn lines_in_order(alloc: Global, messages: &[Arc<Message>]) -> Result<Vec<Line>, AllocError>
    ensures { IfOk result (λ lines. lines.items ≡ ascending line_order (drafts_in messages.now)) }
{
    let mut lines = lines_of(alloc, messages)?;
    lines.sort()?;
    lines.dedup();
    Ok(lines)
}

// The messages with their written texts.
fn lines_of(alloc: Global, messages: &[Arc<Message>]) -> Result<Vec<Line>, AllocError>
    ensures { IfOk result (λ lines. lines.items ≡ drafts_in messages.now) }
{
    let mut lines = Vec::new(alloc);
    for message in messages {
        let line = Line::of(alloc, message)?;
        lines.push(line)?;
    }
    Ok(lines)
}

// Appends a written text and a line feed.
fn push_line(text: &mut Vec<u8>, written: &[u8]) -> Result<(), AllocError>
    ensures { OnOk result (text.new.items ≡ text.old.items ++ written.now ++ 10 ∷ []) }
{
    text.extend_from_slice(written)?;
    text.push(b'\n')?;
    Ok(())
}

// Appends the lines one after another.
fn push_all(text: &mut Vec<u8>, lines: &[Line]) -> Result<(), AllocError>
    ensures text { OnOk result (text.new.items ≡ text.old.items ++ flat_map line_of lines.now) }
    ensures again { OnOk result (All IsReadAgain lines.now) }
{
    for line in lines {
        push_line(text, line.text())?;
    }
    Ok(())
}

// Appends the line of a message.
fn push_message(alloc: Global, text: &mut Vec<u8>, message: &Message) -> Result<(), AllocError>
    ensures text { OnOk result (text.new.items ≡ text.old.items ++ line_of message.now) }
    ensures again { OnOk result (IsReadAgain message.now) }
{
    // Writing a message can fail only for memory.
    let Ok(written) = write_message(alloc, message) else {
        return Err(AllocError);
    };
    push_line(text, &written)
}

// Appends the lines of the messages of one identity, in the order of the archive text.
// One message alone is not compared.
fn push_messages(
    alloc: Global,
    text: &mut Vec<u8>,
    messages: &[Arc<Message>],
) -> Result<(), AllocError>
    ensures text { OnOk result (text.new.items
        ≡ text.old.items ++ flat_map line_of (ascending line_order (drafts_in messages.now))) }
    ensures again { OnOk result (All IsReadAgain (ascending line_order (drafts_in messages.now))) }
{
    if let [message] = messages {
        push_message(alloc, text, message)?;
        return Ok(());
    }
    let lines = lines_in_order(alloc, messages)?;
    push_all(text, &lines)
}

// Room in bytes for the lines of these identities. Most lines are shorter. A text that grows would be copied.
fn room_for(identities: &[Identity]) -> usize
    ensures { result ≤ length identities.now * 640 }
{
    identities.len().saturating_mul(BYTES_OF_A_LINE)
}

// The lines of the messages of these identities, one identity after another.
pub(crate) fn lines_by(arrivals: &Arrivals, identities: &[Identity]) -> Result<Vec<u8>, AllocError>
    ensures { IfOk result (λ text. AreWritten arrivals.now identities.now text.items) }
{
    let mut text = Vec::with_capacity(arrivals.allocator(), room_for(identities))?;
    for identity in identities {
        push_messages(arrivals.allocator(), &mut text, arrivals.of(identity))?;
    }
    Ok(text)
}

/// The archive text: the written text of each message, sorted by identity and
/// then by text, with a line feed after each.
pub(crate) fn archive_text(arrivals: &Arrivals) -> Result<Vec<u8>, AllocError>
    ensures text { IfOk result (λ text. text.items ≡ archive_text_of (contents_of arrivals.now)) }
    ensures again { IfOk result (λ text. AreReadAgain (contents_of arrivals.now)) }
{
    let identities = identities(arrivals)?;
    lines_by(arrivals, &identities)
}
