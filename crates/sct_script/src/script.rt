//! A script: its number of sites, its events, and its refused lines.
ghost use Rattle.std.specs.Prelude.{◌≡◌, ◌≢◌, ◌+◌, ◌<◌, ◌≤◌, ◌++◌, ◌∷◌, [], ◌^◌, None, Some, length, true, option_and_then, IfErr, IfOk, IfSome, MatchOption, OnOk};
ghost use Rattle.sct_lines.specs.Lines.{lines_of, numbered_from};
ghost use Rattle.sct_world.specs.Happenings.{happenings_of};
ghost use Rattle.sct_world.specs.States.{is_size};
ghost use Rattle.sct_script.specs.declared.fault.ScriptFault.TheVariants as fault;
ghost use Rattle.sct_script.specs.Scripts.{
  event_refusals_among,
  event_refusals_text,
  event_refusals_told,
  happenings_among,
  happenings_told,
  script_lines,
  sites_told,
  size_in,
  size_named,
};

use crate::event::read_event;
use crate::fault::ScriptFault;
use sct_delta::{MOST_SITES, after_prefix, number_of};
use sct_lines::{Refusals, first_line, is_blank_line};
use sct_world::Event;
use std::alloc::{AllocError, Global};

/// A script as it was read: the number of its sites, the events in their order, and the refused lines.
#[derive(Drop)]
pub struct Script {
    pub sites: u16,
    pub events: Vec<Event>,
    pub refusals: Refusals,
}

// The number of sites, or none if a world cannot have this number.
fn size_named(number: u64) -> Option<u16>
    ensures size { result ≡ size_named number }
    ensures right { IfSome result (λ sites. is_size sites ≡ true) }
{
    if number == 0 || number > MOST_SITES as u64 {
        return None;
    }
    Some(number as u16)
}

// The number of sites in a first line, or none if the line does not give one.
#[tactic(auto, unfolding(crate::specs::Scripts::size_in))]
fn size_of(line: &[u8]) -> Option<u16>
    ensures size { result ≡ size_in line.now }
    ensures right { IfSome result (λ sites. is_size sites ≡ true) }
{
    let number = after_prefix(line, b"sites ")?;
    let number = number_of(number)?;
    size_named(number)
}

// The first line that is not blank: its number, the line, and the text after it. None if there is none.
fn first_written_line(input: &[u8]) -> Option<(u64, &[u8], &[u8])>
    ensures lines { MatchOption result (script_lines input.now ≡ [])
        (λ first. script_lines input.now
        ≡ (first.0, first.1.now) ∷ numbered_from (first.0 + 1) (lines_of first.2.now)) }
    ensures counted { IfSome result (λ first. first.0 + length first.2.now ≤ length input.now) }
{
    let mut number = 0;
    let mut rest = input;
    while let Some((line, after)) = first_line(rest) {
        number += 1;
        if !is_blank_line(line) {
            return Some((number, line, after));
        }
        rest = after;
    }
    None
}

impl Script {
    // A script of `sites` sites and no lines.
    fn new(alloc: Global, sites: u16) -> Script
        ensures sites { result.sites ≡ sites }
        ensures events { happenings_of result.events.items ≡ [] }
        ensures told { result.refusals.text ≡ [] }
        ensures refused { result.refusals.count ≡ 0 }
    {
        Script {
            sites,
            events: Vec::new(alloc),
            refusals: Refusals::none(alloc),
        }
    }

    // Adds one line: its event, or its refusal. A blank line adds nothing.
    #[tactic(auto, using(crate::proofs::ScriptLemmas::one_line))]
    fn take(&mut self, alloc: Global, number: u64, line: &[u8]) -> Result<(), AllocError>
        ensures sites { self.new.sites ≡ self.old.sites }
        ensures events { OnOk result (happenings_of self.new.events.items
            ≡ happenings_of self.old.events.items ++ happenings_among (numbered_from number (line.now ∷ []))) }
        ensures told { OnOk result (self.new.refusals.text
            ≡ self.old.refusals.text
            ++ event_refusals_text (event_refusals_among (numbered_from number (line.now ∷ [])))) }
        ensures refused { OnOk result (self.new.refusals.count
            ≡ self.old.refusals.count + length (event_refusals_among (numbered_from number (line.now ∷ [])))) }
    {
        if is_blank_line(line) {
            return Ok(());
        }
        match read_event(alloc, line)? {
            Ok(event) => self.events.push(event)?,
            Err(fault) => self.refusals.push(alloc, "", number, &fault)?,
        }
        Ok(())
    }
}

// Reads the lines of a text that follows the line numbered `before`.
fn read_lines(alloc: Global, sites: u16, before: u64, text: &[u8]) -> Result<Script, AllocError>
    requires { before + length text.now < 2 ^ 64 }
    ensures sites { IfOk result (λ script. script.sites ≡ sites) }
    ensures events { IfOk result (λ script. happenings_of script.events.items
        ≡ happenings_among (numbered_from (before + 1) (lines_of text.now))) }
    ensures told { IfOk result (λ script. script.refusals.text
        ≡ event_refusals_text (event_refusals_among (numbered_from (before + 1) (lines_of text.now)))) }
    ensures refused { IfOk result (λ script. script.refusals.count
        ≡ length (event_refusals_among (numbered_from (before + 1) (lines_of text.now)))) }
{
    let mut script = Script::new(alloc, sites);
    let mut number = before;
    let mut rest = text;
    while let Some((line, after)) = first_line(rest) {
        number += 1;
        script.take(alloc, number, line)?;
        rest = after;
    }
    Ok(script)
}

/// Reads a script. Its first line that is not blank gives the number of sites, 1 to 1024. Each further line that is not
/// blank is an event, or is refused. A refused line is not an error of the call.
/// Errors: `NoScript` (64) if the first line does not give the number of sites, or if there is none; `Memory`
/// (40), which says nothing about the input.
#[tactic(auto, unfolding(crate::specs::Scripts::sites_told))]
pub fn read_script(alloc: Global, input: &[u8]) -> Result<Script, ScriptFault>
    ensures sites { IfOk result (λ script. sites_told input.now ≡ Some script.sites) }
    ensures size { IfOk result (λ script. is_size script.sites ≡ true) }
    ensures events { IfOk result (λ script. happenings_of script.events.items ≡ happenings_told input.now) }
    ensures told { IfOk result (λ script. script.refusals.text ≡ event_refusals_text (event_refusals_told input.now)) }
    ensures refused { IfOk result (λ script. script.refusals.count ≡ length (event_refusals_told input.now)) }
    ensures no_script { IfErr result (λ e. e ≢ fault.Memory
        → (e ≡ fault.NoScript) × (sites_told input.now ≡ None)) }
{
    let Some((number, line, rest)) = first_written_line(input) else {
        return Err(ScriptFault::NoScript);
    };
    let Some(sites) = size_of(line) else {
        return Err(ScriptFault::NoScript);
    };
    let script = read_lines(alloc, sites, number, rest)?;
    Ok(script)
}
