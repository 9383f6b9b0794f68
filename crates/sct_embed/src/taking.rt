//! A site takes the messages of many lines; and the delta files that it is restored from.

ghost use Rattle.std.specs.Prelude.{◌≡◌, IfErr, IfOk, OnErr, OnOk};
ghost use Rattle.sct_delta.specs.declared.fault.DeltaFault.TheVariants as fault;
ghost use Rattle.sct_message.specs.Sets.{messages_in};
ghost use Rattle.sct_exchange.specs.Journals.{core_taking};
ghost use Rattle.sct_exchange.specs.Rounds.{files_in};
ghost use Rattle.sct_embed.specs.Restoring.{offered};
ghost use Rattle.sct_embed.specs.Taking.{ArePartlyTaken};

use sct_delta::DeltaFault;
use sct_exchange::{DeltaFile, read_file};
use sct_message::Message;
use sct_site::SiteCore;
use std::alloc::Global;
use std::sync::Arc;

/// How many lines of a text were taken, repeated or refused. Blank lines do not count.
#[derive(Clone, Copy, Debug, PartialEq, Eq)]
pub struct TakenLines {
    /// The messages that are new. They are the last own entries.
    pub fresh: u64,
    /// The messages that the site held already, or that the text has again.
    pub repeats: u64,
    /// The lines that are a form of no message.
    pub refused: u64,
}

/// The site takes messages, one after another. Error: `Memory` (40), with some of the messages taken.
pub(crate) fn take_all(core: &mut SiteCore, messages: &[Arc<Message>]) -> Result<(), DeltaFault>
    ensures ok { OnOk result (core.new ≡ core_taking core.old (messages_in messages.now)) }
    ensures err { IfErr result (λ e. e ≡ fault.Memory) }
    ensures partly { OnErr result (ArePartlyTaken core.old (messages_in messages.now) core.new) }
{
    for message in messages {
        core.take(message.clone()?)?;
    }
    Ok(())
}

/// The delta files that a text is offered as: one, or none if the text is empty. Error: `Memory` (40).
pub(crate) fn files_offered(alloc: Global, text: &[u8]) -> Result<Vec<DeltaFile>, DeltaFault>
    ensures files { IfOk result (λ files. files.items ≡ files_in (offered text.now)) }
    ensures err { IfErr result (λ refusal. refusal ≡ fault.Memory) }
{
    let mut files = Vec::new(alloc);
    if !text.is_empty() {
        files.push(read_file(alloc, text)?)?;
    }
    Ok(files)
}
