//! Trials of a view, line by line.

use anyhow::Result;
use sct_json::{JsonFault, read_message, write_message};
use sct_message::Message;
use sct_view::{Applied, View};
use std::alloc::Global;
use std::io::{BufRead, Write};
use std::sync::Arc;

/// A view, and the messages of the batch read so far.
#[derive(Drop)]
struct ViewTrial {
    alloc: Global,
    view: View,
    batch: Vec<Arc<Message>>,
}

impl ViewTrial {
    // A view of no message, with an empty batch.
    fn new(alloc: Global) -> ViewTrial {
        ViewTrial {
            alloc,
            view: View::new(alloc),
            batch: Vec::new(alloc),
        }
    }

    // Starts again.
    fn begin(&mut self) -> Result<Vec<u8>> {
        *self = ViewTrial::new(self.alloc);
        Ok(format!(in self.alloc; "new\n")?.into_bytes())
    }

    // Starts a batch, and returns what the batch before changed.
    fn next(&mut self, applied: &Applied) -> Result<Vec<u8>> {
        self.batch = Vec::new(self.alloc);
        Ok(format!(in self.alloc; "{} {}\n", applied.fresh, applied.touched)?.into_bytes())
    }

    // Applies the batch, and returns what it changed.
    fn apply(&mut self) -> Result<Vec<u8>> {
        let applied = self.view.apply(&self.batch)?;
        self.next(&applied)
    }

    // Applies the batch, and returns what it changed, or the number of the fault if it is out of memory.
    fn attempt(&mut self) -> Result<Vec<u8>> {
        match self.view.apply(&self.batch) {
            Ok(applied) => self.next(&applied),
            Err(fault) => Ok(format!(in self.alloc; "{}\n", fault.number())?.into_bytes()),
        }
    }

    // Returns both texts of the view.
    fn tell(&self) -> Result<Vec<u8>> {
        let mut text = self.view.status_text()?;
        text.extend_from_slice(&self.view.totals_text()?)?;
        Ok(text)
    }

    // Appends a message to the batch.
    fn push(&mut self, line: &str) -> Result<Vec<u8>> {
        let message = read_message(self.alloc, line.as_bytes())?;
        self.batch.push(Arc::new(self.alloc, message)?)?;
        Ok(Vec::new(self.alloc))
    }

    // Returns the number of a fault, and the call that met it.
    fn fault(&self, call: &str, fault: &JsonFault) -> Result<Vec<u8>> {
        Ok(format!(in self.alloc; "{call} {}\n", fault.number())?.into_bytes())
    }

    // Reads a message and writes it, and returns its written form, or the fault.
    fn form(&self, text: &str) -> Result<Vec<u8>> {
        let message = match read_message(self.alloc, text.as_bytes()) {
            Ok(message) => message,
            Err(fault) => return self.fault("unread", &fault),
        };
        match write_message(self.alloc, &message) {
            Ok(mut written) => {
                written.push(b'\n')?;
                Ok(written)
            }
            Err(fault) => self.fault("unwritten", &fault),
        }
    }

    // Does what a line says, and returns the text to be printed.
    fn answer(&mut self, line: &str) -> Result<Vec<u8>> {
        match line {
            "" => self.apply(),
            "try" => self.attempt(),
            "new" => self.begin(),
            "tell" => self.tell(),
            _ => match line.strip_prefix("form ") {
                Some(text) => self.form(text),
                None => self.push(line),
            },
        }
    }
}

/// Prints the answer to each line on a view.
pub fn try_views<B: BufRead + Drop, W: Write>(alloc: Global, reader: B, out: &mut W) -> Result<()> {
    let mut trial = ViewTrial::new(alloc);
    for line in reader.lines(alloc) {
        out.write_all(&trial.answer(&line?)?)?;
    }
    Ok(())
}
