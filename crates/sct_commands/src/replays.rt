//! The answer to a script.
ghost use Rattle.std.specs.Prelude.{◌≡◌, ◌≢◌, None, true, length, IfErr, IfOk, IsSome, OnOk, string_bytes};
ghost use Rattle.sct_script.specs.Replays.{replay_of, replay_text};
ghost use Rattle.sct_script.specs.Scripts.{event_refusals_text, event_refusals_told, sites_told};
ghost use Rattle.sct_set.specs.Pieces.{joined};
ghost use Rattle.sct_world.specs.Happenings.{happenings_of};
ghost use Rattle.sct_world.specs.States.{is_size};
ghost use Rattle.sct_commands.specs.declared.fault.ProgramFault.TheVariants as fault;

use crate::answers::{ProgramAnswer, one_piece};
use crate::fault::ProgramFault;
use crate::jobs::Release;
use sct_script::{Script, read_script, replay};
use std::alloc::{AllocError, Global};

// The replay of a script. Its number of sites is one that a world can have, so that the only error is out of memory.
fn replay_text(alloc: Global, script: &Script) -> Result<Vec<u8>, AllocError>
    requires { is_size script.now.sites ≡ true }
    ensures { IfOk result (λ text. text.items
        ≡ replay_text script.now.sites (happenings_of script.now.events.items)) }
{
    match replay(alloc, script.sites, &script.events) {
        Ok(text) => Ok(text),
        Err(_) => Err(AllocError),
    }
}

/// The answer to an input that is a script: the outcomes of its events, the answers of each site, and the refused
/// lines. `release` says what becomes of the events afterwards.
/// Errors: `Usage` (64) if the input is not a script; `Memory` (65).
pub fn answer_of_script(
    alloc: Global,
    release: Release,
    input: &[u8],
) -> Result<ProgramAnswer, ProgramFault>
    ensures text { IfOk result (λ answer. joined answer.pieces.items ≡ replay_of input.now) }
    ensures told { IfOk result (λ answer. string_bytes answer.refusals ≡ event_refusals_text (event_refusals_told input.now)) }
    ensures refused { IfOk result (λ answer. answer.refused ≡ length (event_refusals_told input.now)) }
    ensures script { OnOk result (IsSome (sites_told input.now)) }
    ensures faults { IfErr result (λ e. e ≢ fault.Memory → (e ≡ fault.Usage) × (sites_told input.now ≡ None)) }
{
    let script = read_script(alloc, input)?;
    let text = replay_text(alloc, &script)?;
    let pieces = one_piece(alloc, text)?;
    let Script {
        events,
        refusals,
        ..
    } = script;
    release.let_go(events);
    Ok(ProgramAnswer::of(pieces, refusals))
}
