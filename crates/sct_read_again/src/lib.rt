//! A law of the JSON form of messages, on which the laws of hubs rest: what a site writes of a message that it read is read again.
#![tactic(auto)]

ghost use Rattle.sct_read_again.specs.ReadAgain.{MessagesAreReadAgain};

use sct_element::amounts_are_exact;
use sct_message::all_rules_hold_where_none_is_broken;
use sct_reason::reasons_are_exact;

/// A message that was read is read again from its written form.
pub fn messages_are_read_again()
    ensures { MessagesAreReadAgain }
{
    all_rules_hold_where_none_is_broken();
    amounts_are_exact();
    reasons_are_exact();
}
