//! The events of a world, their steps and their outcomes.

ghost use Rattle.std.specs.Prelude.{◌≡◌};
ghost use Rattle.sct_world.specs.Histories.{step_taken, site_of};

use crate::fault::WorldFault;
use sct_delta::Vector;
use sct_message::Message;
use sct_site::Took;
use std::sync::Arc;

/// An event at one site of a world. Sites and deltas are numbered from 1.
#[derive(Drop)]
pub enum Event {
    /// The site takes a message.
    Take { site: u16, message: Arc<Message> },
    /// The site cuts a delta of the entries above a vector.
    Cut { site: u16, vector: Vector },
    /// The site is handed a delta that was cut: at any later time, again, or out of order.
    Hand { delta: u64, site: u16 },
}

/// The effect of an event that was not refused.
#[derive(Debug, Drop, PartialEq, Eq)]
pub enum Step {
    /// The message is the site's own entry of this number.
    Taken { n: u64 },
    /// The site held the message already.
    Repeat,
    /// The delta of this number was cut. It has `entries` entries.
    Cut { delta: u64, entries: u64 },
    /// The delta was accepted. `fresh` of its entries were new to the site.
    Accepted { fresh: u64 },
}

/// The outcome of an event.
#[derive(Debug, Drop, PartialEq, Eq)]
pub enum Outcome {
    Done(Step),
    /// The event was refused. The world is unchanged.
    Refused(WorldFault),
}

/// The step of a take.
pub(crate) fn step_taken(took: Took) -> Step
    ensures { result ≡ step_taken took }
{
    match took {
        Took::Taken { n } => Step::Taken { n },
        Took::Repeat => Step::Repeat,
    }
}

/// The site at which an event happens.
pub(crate) fn site_of(event: &Event) -> u16
    ensures { result ≡ site_of event.now }
{
    match event {
        Event::Take { site, .. } => *site,
        Event::Cut { site, .. } => *site,
        Event::Hand { site, .. } => *site,
    }
}
