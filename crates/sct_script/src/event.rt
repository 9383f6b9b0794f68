//! One line of a script: its fields, and its event or why the line is refused.
ghost use Rattle.std.specs.Prelude.{◌≡◌, IfOk, option_map};
ghost use Rattle.sct_script.specs.Events.{
  cut_event_in,
  hand_event_in,
  happening_in,
  site_before_space,
  site_named,
  site_number_in,
  take_event_in,
  told_by,
};

use crate::fault::LineFault;
use sct_delta::{after_prefix, number_before_space, number_of, read_vector};
use sct_lines::read_line;
use sct_world::Event;
use std::alloc::{AllocError, Global};
use std::sync::Arc;

// The site of this number, or none if the number is not below 65,536.
fn site_named(number: u64) -> Option<u16>
    ensures { result ≡ site_named number }
{
    u16::try_from(number).ok()
}

/// The site that a text names, whether or not the world has it. None if the text is not a number below 65,536.
#[tactic(auto, unfolding(crate::specs::Events::site_number_in))]
pub fn site_of(text: &[u8]) -> Option<u16>
    ensures { result ≡ site_number_in text.now }
{
    let number = number_of(text)?;
    site_named(number)
}

/// The site before the first space of a text, and the bytes after that space. None if no
/// number below 65,536 comes before a space.
#[tactic(auto, unfolding(crate::specs::Events::site_before_space))]
pub fn site_before_space(text: &[u8]) -> Option<(u16, &[u8])>
    ensures { option_map (λ field. (field.0, field.1.now)) result ≡ site_before_space text.now }
{
    let (number, rest) = number_before_space(text)?;
    let site = site_named(number)?;
    Some((site, rest))
}

// Reads the rest of a take: a site, and a JSON text of the message.
fn read_take(alloc: Global, text: &[u8]) -> Result<Result<Event, LineFault>, AllocError>
    ensures { IfOk result (λ read. told_by read ≡ take_event_in text.now) }
{
    let Some((site, json)) = site_before_space(text) else {
        return Ok(Err(LineFault::NoEvent));
    };
    let message = match read_line(alloc, json)? {
        Ok(message) => message,
        Err(fault) => return Ok(Err(LineFault::Message(fault))),
    };
    let message = Arc::new(alloc, message)?;
    Ok(Ok(Event::Take { site, message }))
}

// Reads the rest of a cut: a site, and a version vector.
fn read_cut(alloc: Global, text: &[u8]) -> Result<Result<Event, LineFault>, AllocError>
    ensures { IfOk result (λ read. told_by read ≡ cut_event_in text.now) }
{
    let Some((site, text)) = site_before_space(text) else {
        return Ok(Err(LineFault::NoEvent));
    };
    let Some(vector) = read_vector(alloc, text)? else {
        return Ok(Err(LineFault::NoEvent));
    };
    Ok(Ok(Event::Cut { site, vector }))
}

// Reads the rest of a hand: the number of a delta, and the site that it is handed to.
fn read_hand(text: &[u8]) -> Result<Event, LineFault>
    ensures { told_by result ≡ hand_event_in text.now }
{
    let Some((delta, text)) = number_before_space(text) else {
        return Err(LineFault::NoEvent);
    };
    let Some(site) = site_of(text) else {
        return Err(LineFault::NoEvent);
    };
    Ok(Event::Hand { delta, site })
}

/// The event of a line, or why the line is refused. The outer error is that it is out of memory.
#[tactic(auto, unfolding(crate::specs::Events::happening_in))]
pub fn read_event(alloc: Global, line: &[u8]) -> Result<Result<Event, LineFault>, AllocError>
    ensures { IfOk result (λ read. told_by read ≡ happening_in line.now) }
{
    if let Some(text) = after_prefix(line, b"take ") {
        return read_take(alloc, text);
    }
    if let Some(text) = after_prefix(line, b"cut ") {
        return read_cut(alloc, text);
    }
    if let Some(text) = after_prefix(line, b"hand ") {
        return Ok(read_hand(text));
    }
    Ok(Err(LineFault::NoEvent))
}
