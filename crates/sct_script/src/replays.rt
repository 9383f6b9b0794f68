//! The answer to a script: the outcomes of its events, and then the answers of each site.
ghost use Rattle.std.specs.Prelude.{◌≡◌, ◌≢◌, ◌++◌, ℕ, [], ◌∷◌, false, true, IfErr, IfOk, string_bytes, OnOk};
ghost use Rattle.sct_delta.specs.Entries.{messages_of};
ghost use Rattle.sct_delta.specs.declared.fault.DeltaFault.TheVariants as delta;
ghost use Rattle.sct_world.specs.Happenings.{happenings_of};
ghost use Rattle.sct_world.specs.Laws.{history, taken_in};
ghost use Rattle.sct_world.specs.States.{held_at, is_no_site, is_size};
ghost use Rattle.sct_world.specs.declared.fault.WorldFault.TheVariants as fault;
ghost use Rattle.sct_script.specs.Replays.{outcomes_text, replay_text, replayed_site_text, site_head, sites_text};

use crate::outcomes::outcomes_text;
use sct_world::laws::histories_go_by_values;
use sct_world::{Event, Ran, World, WorldFault, run};
use std::alloc::{AllocError, Global};

// The head line of a site.
fn head_of(alloc: Global, site: u16) -> Result<String, AllocError>
    ensures { IfOk result (λ head. string_bytes head ≡ site_head site) }
{
    format!(in alloc; "S|{site}\n")
}

// Appends the head line of a site, and its answers about the messages that it holds.
#[tactic(auto, unfolding(crate::specs::Replays::replayed_site_text))]
fn push_site(alloc: Global, text: &mut Vec<u8>, world: &World, site: u16) -> Result<(), WorldFault>
    ensures text { OnOk result (text.new.items ≡ text.old.items ++ replayed_site_text (site, held_at world.now site)) }
    ensures err { IfErr result (λ refusal. refusal ≢ fault.Delta delta.Memory
        → is_no_site world.now site ≡ true) }
{
    let head = head_of(alloc, site)?;
    let answers = world.answers(site)?;
    text.extend_from_slice(head.as_bytes())?;
    text.extend_from_slice(&answers.archive)?;
    text.extend_from_slice(&answers.statuses)?;
    text.extend_from_slice(&answers.totals)?;
    Ok(())
}

// Appends the head line and the answers of each site.
fn push_sites(alloc: Global, text: &mut Vec<u8>, world: &World) -> Result<(), WorldFault>
    ensures text { OnOk result (text.new.items ≡ text.old.items ++ sites_text world.now) }
    ensures err { IfErr result (λ refusal. refusal ≡ fault.Delta delta.Memory) }
{
    for place in 0..world.sites() {
        push_site(alloc, text, world, place + 1)?;
    }
    Ok(())
}

// The outcomes of the events, followed by the answers of each site.
fn text_of(alloc: Global, ran: &Ran) -> Result<Vec<u8>, WorldFault>
    ensures text { IfOk result (λ text. text.items
        ≡ outcomes_text ran.now.outcomes.items ++ sites_text ran.now.world) }
    ensures err { IfErr result (λ refusal. refusal ≡ fault.Delta delta.Memory) }
{
    let mut text = outcomes_text(alloc, &ran.outcomes)?.into_bytes();
    push_sites(alloc, &mut text, &ran.world)?;
    Ok(text)
}

/// Runs events in a new world of `sites` sites, and returns the text of the replay: a line for each
/// event, with its number from 1 and its outcome. Then, for each site, a line with its number, its
/// archive text, its status text and its totals text.
///
/// Convergence is `text` with `exactly`: the text has the answers of what each site holds, and a site holds exactly the messages
/// that it took or accepted, as events, outcomes and deltas say.
/// Errors: `BadSite` (44) if `sites` is not 1 to 1024; out of memory (40).
#[tactic(auto, unfolding(crate::specs::Replays::replay_text))]
pub fn replay(alloc: Global, sites: u16, events: &[Event]) -> Result<Vec<u8>, WorldFault>
    ensures text { IfOk result (λ text. text.items ≡ replay_text sites (happenings_of events.now)) }
    ensures exactly { OnOk result ((site : ℕ) → is_no_site (history sites events.now) site ≡ false
        → messages_of (held_at (history sites events.now) site) ≡ taken_in sites events.now site) }
    ensures err { IfErr result (λ refusal. refusal ≢ fault.Delta delta.Memory
        → (refusal ≡ fault.BadSite) × (is_size sites ≡ false)) }
{
    histories_go_by_values();
    let ran = run(alloc, sites, events)?;
    text_of(alloc, &ran)
}
