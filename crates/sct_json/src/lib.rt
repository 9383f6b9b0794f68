//! The JSON form of interbank messages: one object to one message, one written text for each message. The object is flat,
//! but a recall message may have a list of objects, one for each transaction.
//!
//! [`read_message`] takes the bytes of one JSON object and returns the message of which it is a form, or the
//! first reason why it is a form of none. [`write_message`] returns the one written form of a message.
#![tactic(auto)]

mod cancellation_request;
mod credit_transfer;
mod elements;
mod extra_key;
mod faults;
mod head;
mod keys;
mod laws;
mod members;
mod object;
mod original;
mod payment_return;
mod plain;
mod plain_message;
mod reading;
mod recall_list;
mod resolution;
mod status_report;
mod status_request;
mod tables;
mod transaction;
mod writing;

pub use faults::{ExtraKey, JsonFault, KeyFault};
pub use keys::Key;
pub use laws::{
    a_text_is_written_for_one_message, a_written_text_is_one_line,
    an_object_is_a_form_of_one_message, an_object_is_read_where_it_is_a_form,
    bytes_are_read_where_they_stand_for_a_form, names_that_were_read_ascend,
    no_message_is_refused_for_its_name, reading_never_wants_memory,
    the_extra_key_told_is_the_least, the_keys_of_a_written_text_ascend,
    the_place_reported_is_the_first,
};
pub use reading::{MessageReader, read_message};
pub use writing::write_message;
