//! Messages of texts.

use sct_json::read_message;
use sct_message::Message;
use std::alloc::Global;
use std::sync::Arc;
use std::test::Fail;

// Appends the message of a text.
fn push_message(alloc: Global, messages: &mut Vec<Arc<Message>>, text: &str) -> Result<(), Fail> {
    let message = read_message(alloc, text.as_bytes())?;
    messages.push(Arc::new(alloc, message)?)?;
    Ok(())
}

/// The messages of the texts.
pub(crate) fn messages_of(alloc: Global, texts: &[&str]) -> Result<Vec<Arc<Message>>, Fail> {
    let mut messages = Vec::new(alloc);
    for text in texts {
        push_message(alloc, &mut messages, text)?;
    }
    Ok(messages)
}
