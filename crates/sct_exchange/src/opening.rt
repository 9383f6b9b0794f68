//! A site is made anew from its journal and the files that it was given.

ghost use Rattle.std.specs.Prelude.{◌≡◌, true, IfOk, IfErr, OnOk, if◌then◌else◌};
ghost use Rattle.sct_message.specs.Sets.{messages_in};
ghost use Rattle.sct_delta.specs.declared.fault.DeltaFault.TheVariants as fault;
ghost use Rattle.sct_site.specs.Cores.{is_open};
ghost use Rattle.sct_exchange.specs.Journals.{core_taking, opened};
ghost use Rattle.sct_exchange.specs.Rounds.{exchanged, refused_by};

use crate::refused::RefusedFile;
use crate::rounds::{offer_in_rounds, refusals};
use crate::texts::DeltaFile;
use sct_delta::DeltaFault;
use sct_message::Message;
use sct_site::SiteCore;
use std::alloc::Global;
use std::sync::Arc;

/// A site after an exchange.
#[derive(Drop)]
pub struct Exchanged {
    /// The site, with the messages of its journal and the entries of the deltas that it accepted.
    pub core: SiteCore,
    /// The files that it refuses as it ends, in the order of the files.
    pub refused: Vec<RefusedFile>,
}

// The site takes messages, one after another. Error: `Memory` (40), with some of the messages taken.
fn take_all(core: &mut SiteCore, messages: Vec<Arc<Message>>) -> Result<(), DeltaFault>
    ensures ok { OnOk result (core.new ≡ core_taking core.old (messages_in messages.items)) }
    ensures err { IfErr result (λ refusal. refusal ≡ fault.Memory) }
{
    for message in messages {
        core.take(message)?;
    }
    Ok(())
}

/// Opens the site `number` of a group of `group` sites. It takes the messages of its journal. Then it is offered the files in
/// rounds: each round goes once through those that are not accepted yet, in their order, and the rounds end after one that
/// accepts none. The files count from 2.
///
/// Errors: `BadSite` (44) if the group does not have 1 to 1024 sites, or does not have this site; `Memory` (40). No part of
/// the site is left then.
///
/// Each message costs one take, and each accepted delta one accept. Each round looks at most twice at the entries of the
/// files that are left, and allocates only a list of these.
pub fn exchange(
    alloc: Global,
    number: u16,
    group: u16,
    messages: Vec<Arc<Message>>,
    files: Vec<DeltaFile>,
) -> Result<Exchanged, DeltaFault>
    ensures core { IfOk result (λ ended. ended.core
        ≡ (exchanged (core_taking (opened number group) (messages_in messages.items)) files.items).core) }
    ensures refused { IfOk result (λ ended. ended.refused.items ≡ refused_by ended.core
        (exchanged (core_taking (opened number group) (messages_in messages.items)) files.items).left) }
    ensures site { OnOk result (is_open number group ≡ true) }
    ensures err { IfErr result (λ refusal. refusal
        ≡ (if is_open number group then fault.Memory else fault.BadSite)) }
{
    let mut core = SiteCore::open(alloc, number, group)?;
    take_all(&mut core, messages)?;
    let left = offer_in_rounds(alloc, &mut core, files)?;
    let refused = refusals(alloc, &core, &left)?;
    Ok(Exchanged { core, refused })
}
