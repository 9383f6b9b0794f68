//! The outcomes of events, one line each.
ghost use Rattle.std.specs.Prelude.{◌≡◌, ◌++◌, IfOk, string_bytes};
ghost use Rattle.sct_script.specs.Replays.{delta_fault_text, outcome_line, outcome_text, outcomes_text, step_text, world_fault_text};

use sct_delta::{DeltaFault, push_fault};
use sct_world::{Outcome, Step, WorldFault};
use std::alloc::{AllocError, Global};
use std::fmt::Write;

/// Appends the number of a site's refusal and its fields, with a bar between each two, as in `41|1|0|2`. The error is that
/// it is out of memory.
#[tactic(auto, unfolding(crate::specs::Replays::delta_fault_text))]
pub fn push_delta_fault(text: &mut String, fault: &DeltaFault) -> Result<(), AllocError>
    ensures { IfOk result (λ _. string_bytes text.new ≡ string_bytes text.old ++ delta_fault_text fault.now) }
{
    push_fault(text, fault, "|")
}

// Appends the number of a world's refusal and its fields.
#[tactic(auto, unfolding(crate::specs::Replays::world_fault_text))]
fn push_world_fault(text: &mut String, fault: &WorldFault) -> Result<(), AllocError>
    ensures { IfOk result (λ _. string_bytes text.new ≡ string_bytes text.old ++ world_fault_text fault.now) }
{
    match fault {
        WorldFault::BadSite => text.push_str("44"),
        WorldFault::NoSuchDelta => text.push_str("47"),
        WorldFault::Delta(refusal) => push_delta_fault(text, refusal),
    }
}

// Appends a step and its numbers.
#[tactic(auto, unfolding(crate::specs::Replays::step_text))]
fn push_step(text: &mut String, step: &Step) -> Result<(), AllocError>
    ensures { IfOk result (λ _. string_bytes text.new ≡ string_bytes text.old ++ step_text step.now) }
{
    match step {
        Step::Taken { n } => write!(text, "TAKEN|{n}"),
        Step::Repeat => text.push_str("REPEAT"),
        Step::Cut { delta, entries } => write!(text, "CUT|{delta}|{entries}"),
        Step::Accepted { fresh } => write!(text, "ACCEPTED|{fresh}"),
    }
}

// Appends the outcome of an event.
#[tactic(auto, unfolding(crate::specs::Replays::outcome_text))]
fn push_outcome(text: &mut String, outcome: &Outcome) -> Result<(), AllocError>
    ensures { IfOk result (λ _. string_bytes text.new ≡ string_bytes text.old ++ outcome_text outcome.now) }
{
    match outcome {
        Outcome::Done(step) => push_step(text, step),
        Outcome::Refused(refusal) => {
            text.push_str("REFUSED|")?;
            push_world_fault(text, refusal)
        }
    }
}

// Appends the line of an event: its number and its outcome.
#[tactic(auto, unfolding(crate::specs::Replays::outcome_line))]
fn push_line(text: &mut String, number: u64, outcome: &Outcome) -> Result<(), AllocError>
    ensures { IfOk result (λ _. string_bytes text.new
        ≡ string_bytes text.old ++ outcome_line (number, outcome.now)) }
{
    write!(text, "E|{number}|")?;
    push_outcome(text, outcome)?;
    text.push('\n')
}

/// The text of outcomes: a line for each event, with its number from 1 and its outcome. The error is that it is out of memory.
pub fn outcomes_text(alloc: Global, outcomes: &[Outcome]) -> Result<String, AllocError>
    ensures { IfOk result (λ text. string_bytes text ≡ outcomes_text outcomes.now) }
{
    let mut text = String::new(alloc);
    let mut number = 0;
    for outcome in outcomes {
        number += 1;
        push_line(&mut text, number, outcome)?;
    }
    Ok(text)
}
