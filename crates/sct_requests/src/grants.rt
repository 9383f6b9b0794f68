//! Requests in the name of banks.
ghost use Rattle.std.specs.Prelude.{◌≡◌, Some, true, IfOk, OnOk};
ghost use Rattle.sct_journal.specs.Kept.{IsLine};
ghost use Rattle.sct_rights.specs.Listing.{banks_in};
ghost use Rattle.sct_json.specs.Reading.{message_in};
ghost use Rattle.sct_requests.specs.Grants.{answer_as, answer_to_request, answer_to_sender, as_parts, banks_text, core_requested, granted_to, is_as_line, is_plain, line_of_request, line_sent};
ghost use Rattle.sct_requests.specs.Steps.{core_given};

use crate::steps::{Reply, give, is_delta_line, is_question_line};
use crate::words::two_parts;
use sct_element::Bic;
use sct_embed::{EmbedFault, EmbeddedSite};
use sct_json::JsonFault;
use sct_lines::is_blank_line;
use sct_rights::read_banks;
use std::alloc::{AllocError, Global};

// Whether a line is a request in the name of banks: it begins with `as `.
fn is_as_line(line: &[u8]) -> bool
    ensures { result ≡ is_as_line line.now }
{
    line.starts_with(b"as ")
}

// Whether a line is to be a message: it is no delta, no question, no request in the name of banks, and not blank.
fn is_plain(line: &[u8]) -> bool
    ensures { result ≡ is_plain line.now }
{
    !is_delta_line(line) && !is_question_line(line) && !is_as_line(line) && !is_blank_line(line)
}

// The banks and the line of a request in the name of banks.
fn as_parts(request: &[u8]) -> (&[u8], &[u8])
    requires { is_as_line request.now ≡ true }
    ensures banks { result.0.now ≡ banks_text request.now }
    ensures line { result.1.now ≡ line_sent request.now }
{
    let (_, words) = request.split_at(3);
    match two_parts(words) {
        Some(parts) => parts,
        None => (words, &[]),
    }
}

/// The line that a request has for the journal: without the banks in whose name it is.
pub(crate) fn line_of_request(request: &[u8]) -> &[u8]
    requires { IsLine request.now }
    ensures value { result.now ≡ line_of_request request.now }
    ensures line { IsLine result.now }
{
    if !is_as_line(request) {
        return request;
    }
    let (_, line) = as_parts(request);
    line
}

// The site is given a line that is to be a message, in the name of banks.
fn send(site: &mut EmbeddedSite, banks: &[Bic], line: &[u8]) -> Result<Reply, AllocError>
    requires { is_plain line.now ≡ true }
    ensures core { OnOk result (site.new.core ≡ core_given site.old.core (granted_to site.old.core (Some banks.now) line.now)) }
    ensures answer { IfOk result (λ answer. answer ≡ answer_to_sender site.old.core banks.now (message_in line.now)) }
    ensures watched { site.new.watched ≡ site.old.watched }
{
    match site.take_as(banks, line) {
        Ok(took) => Ok(Reply::Took(took)),
        Err(EmbedFault::Message(fault)) => Ok(Reply::Unread(fault)),
        Err(EmbedFault::Withheld(reason)) => Ok(Reply::Withheld(reason)),
        Err(_) => Err(AllocError),
    }
}

// The site is given a request in the name of banks.
fn give_as(alloc: Global, site: &mut EmbeddedSite, request: &[u8]) -> Result<Reply, AllocError>
    requires { is_as_line request.now ≡ true }
    ensures core { OnOk result (site.new.core
        ≡ core_given site.old.core (granted_to site.old.core (banks_in (banks_text request.now)) (line_sent request.now))) }
    ensures answer { IfOk result (λ answer. answer
        ≡ answer_as site.old.core (banks_in (banks_text request.now)) (line_sent request.now)) }
    ensures watched { site.new.watched ≡ site.old.watched }
{
    let (banks, line) = as_parts(request);
    let Some(banks) = read_banks(alloc, banks)? else {
        return Ok(Reply::WrongBanks);
    };
    if !is_plain(line) {
        return Ok(Reply::Unread(JsonFault::NotJson));
    }
    send(site, &banks, line)
}

/// The site is given a request: one in the name of banks, or another line.
#[tactic(auto, unfolding(crate::specs::Grants::granted, crate::specs::Grants::answer_to_request))]
pub(crate) fn give_request(
    alloc: Global,
    site: &mut EmbeddedSite,
    request: &[u8],
) -> Result<Reply, AllocError>
    ensures core { OnOk result (site.new.core ≡ core_requested site.old.core request.now) }
    ensures answer { IfOk result (λ answer. answer ≡ answer_to_request site.old.core request.now) }
    ensures watched { site.new.watched ≡ site.old.watched }
{
    if is_as_line(request) {
        give_as(alloc, site, request)
    } else {
        give(alloc, site, request)
    }
}
