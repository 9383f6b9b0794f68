//! The transfers that changed since changes were asked for.

ghost use Rattle.std.specs.Prelude.{◌≡◌, ◌++◌, IfOk, OnOk, string_bytes};
ghost use Rattle.std.specs.List.{flat_map};
ghost use Rattle.sct_message.specs.Ascending.{ascending};
ghost use Rattle.sct_message.specs.Order.{transfer_order};
ghost use Rattle.sct_message.specs.Sets.{messages_in};
ghost use Rattle.sct_set.specs.Contents.{contents_of};
ghost use Rattle.sct_view.specs.Touched.{touched_in};
ghost use Rattle.sct_embed.specs.Questions.{transfer_line};
ghost use Rattle.sct_embed.specs.Showing.{IsLater, text_of_changes};

use sct_message::{Message, TransferKey};
use sct_view::View;
use std::alloc::{AllocError, Global};
use std::sync::Arc;

/// What changed since changes were asked for last.
#[derive(Drop)]
pub(crate) struct Watch {
    /// How many arrivals there were then.
    pub(crate) asked: usize,
    /// The transfers that changed since, ascending, each once.
    pub(crate) changed: Vec<TransferKey>,
}

// Appends copies of the transfers.
fn push_copies(found: &mut Vec<TransferKey>, transfers: &[TransferKey]) -> Result<(), AllocError>
    ensures { OnOk result (found.new.items ≡ found.old.items ++ transfers.now) }
{
    for transfer in transfers {
        found.push(transfer.copy())?;
    }
    Ok(())
}

impl Watch {
    /// What changed also after the view is joined with messages.
    pub(crate) fn after(
        &self,
        alloc: Global,
        view: &View,
        messages: &[Arc<Message>],
    ) -> Result<Watch, AllocError>
        ensures asked { IfOk result (λ watch. watch.asked ≡ self.now.asked) }
        ensures changed { IfOk result (λ watch. watch.changed.items ≡ ascending transfer_order
            (self.now.changed.items ++ touched_in view.now (contents_of (messages_in messages.now)))) }
    {
        let mut changed = Vec::new(alloc);
        push_copies(&mut changed, &self.changed)?;
        push_copies(&mut changed, &view.touched(messages)?)?;
        changed.sort()?;
        changed.dedup();
        Ok(Watch {
            asked: self.asked,
            changed,
        })
    }
}

/// What changed also after the view is joined with messages; nothing is kept before changes were asked for.
pub(crate) fn watch_after(
    watch: &Option<Watch>,
    alloc: Global,
    view: &View,
    messages: &[Arc<Message>],
) -> Result<Option<Watch>, AllocError>
    ensures { IfOk result (IsLater watch.now view.now (contents_of (messages_in messages.now))) }
{
    match watch {
        Some(watch) => Ok(Some(watch.after(alloc, view, messages)?)),
        None => Ok(None),
    }
}

/// The text of what changed: a line for each transfer.
pub(crate) fn text_of_changes(alloc: Global, watch: &Option<Watch>) -> Result<Vec<u8>, AllocError>
    ensures { IfOk result (λ text. text.items ≡ text_of_changes watch.now) }
{
    let mut text = String::new(alloc);
    if let Some(watch) = watch {
        push_transfers(&mut text, &watch.changed)?;
    }
    Ok(text.into_bytes())
}

// Appends the line of a transfer.
fn push_transfer(text: &mut String, transfer: &TransferKey) -> Result<(), AllocError>
    ensures { OnOk result (string_bytes text.new ≡ string_bytes text.old ++ transfer_line transfer.now) }
{
    text.push_str(transfer.debtor_agent.text())?;
    text.push_str("|")?;
    text.push_str(transfer.tx.text())?;
    text.push('\n')?;
    Ok(())
}

/// Appends the line of each transfer.
pub(crate) fn push_transfers(text: &mut String, transfers: &[TransferKey]) -> Result<(), AllocError>
    ensures { OnOk result (string_bytes text.new
        ≡ string_bytes text.old ++ flat_map transfer_line transfers.now) }
{
    for transfer in transfers {
        push_transfer(text, transfer)?;
    }
    Ok(())
}
