//! Messages split into those that are kept and those that are closed.

ghost use Rattle.std.specs.Prelude.{◌≡◌, length, not, IfOk};
ghost use Rattle.sct_message.specs.Sets.{messages_in};
ghost use Rattle.sct_set.specs.Contents.{contents_of};
ghost use Rattle.sct_keep.specs.Keep.{closed_of, kept_of};
ghost use Rattle.sct_keep.specs.Marks.{AreLabelled, is_marked};

use crate::marks::marks_of;
use crate::ties::groups_of;
use sct_case::CaseFault;
use sct_element::Day;
use sct_message::Message;
use sct_view::View;
use std::alloc::{AllocError, Global};
use std::sync::Arc;

/// Messages that are kept and messages that are closed. No clause says in which order.
#[derive(Drop)]
pub struct KeptAndClosed {
    /// What stays: the messages with a tie to a transfer that is not done.
    pub kept: Vec<Arc<Message>>,
    /// The rest.
    pub closed: Vec<Arc<Message>>,
}

// Whether a label is marked.
fn is_marked(marks: &[bool], label: usize) -> bool
    ensures { result ≡ is_marked marks.now label }
{
    label < marks.len() && marks[label]
}

// The messages whose labels are marked, and the others.
fn split_by(
    alloc: Global,
    messages: &[Arc<Message>],
    labels: &[usize],
    marks: &[bool],
) -> Result<KeptAndClosed, AllocError>
    requires labels { length labels.now ≡ length messages.now }
    ensures kept { IfOk result (λ split. AreLabelled (messages_in messages.now) labels.now
        (is_marked marks.now) (messages_in split.kept.items)) }
    ensures closed { IfOk result (λ split. AreLabelled (messages_in messages.now) labels.now
        (λ label. not (is_marked marks.now label)) (messages_in split.closed.items)) }
{
    let mut kept = Vec::new(alloc);
    let mut closed = Vec::new(alloc);
    for number in 0..messages.len() {
        let message = messages[number].clone()?;
        if is_marked(marks, labels[number]) {
            kept.push(message)?;
        } else {
            closed.push(message)?;
        }
    }
    Ok(KeptAndClosed { kept, closed })
}

/// Splits messages by a day, `YYYY-MM-DD`, into what is kept and what is closed. They are the messages of the view, in any
/// order, and may repeat. `Archive::add_all` and `SortedArchive::of` make the archive of a part, which writes its text.
/// Error: `Memory` (39). Nothing that was passed is changed.
/// Near linear in the messages and their transfers. It allocates 17 bytes for each message, a list of the transfers, and two
/// maps: of identities and of transfers.
pub fn split(
    alloc: Global,
    view: &View,
    day: &Day,
    messages: &[Arc<Message>],
) -> Result<KeptAndClosed, CaseFault>
    requires { contents_of (messages_in messages.now) ≡ view.now }
    ensures kept { IfOk result (λ split. contents_of (messages_in split.kept.items) ≡ kept_of day.now view.now) }
    ensures closed { IfOk result (λ split. contents_of (messages_in split.closed.items)
        ≡ closed_of view.now (kept_of day.now view.now)) }
{
    let groups = groups_of(alloc, messages)?;
    let marks = marks_of(alloc, view, day, messages, &groups)?;
    Ok(split_by(alloc, messages, &groups.labels, &marks)?)
}
