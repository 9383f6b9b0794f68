//! Trials of an archive, line by line.

use anyhow::Result;
use sct_json::read_message;
use sct_message::Message;
use sct_set::Archive;
use std::alloc::Global;
use std::io::{BufRead, Write};
use std::sync::Arc;

/// An archive, and the list of the messages read so far.
#[derive(Drop)]
struct ArchiveTrial {
    alloc: Global,
    archive: Archive,
    list: Vec<Arc<Message>>,
}

impl ArchiveTrial {
    // Adds the list, and returns how many of its messages were fresh, or the number of the fault if it is out of memory.
    fn add(&mut self) -> Result<Vec<u8>> {
        let text = match self.archive.add_all(&self.list) {
            Ok(fresh) => format!(in self.alloc; "added {fresh}\n")?,
            Err(fault) => format!(in self.alloc; "{}\n", fault.number())?,
        };
        Ok(text.into_bytes())
    }

    // How many messages of the list the archive holds.
    fn held(&self) -> usize {
        self.list
            .iter()
            .filter(|message| self.archive.holds(message))
            .count()
    }

    // Returns how many messages the archive holds, how many of the list it holds, and its text.
    fn tell(&self) -> Result<Vec<u8>> {
        let mut text = format!(in self.alloc;
            "{} {}\n",
            self.archive.len(),
            self.held()
        )?.into_bytes();
        text.extend_from_slice(&self.archive.text()?)?;
        Ok(text)
    }

    // Appends a message to the list.
    fn push(&mut self, line: &str) -> Result<Vec<u8>> {
        let message = read_message(self.alloc, line.as_bytes())?;
        self.list.push(Arc::new(self.alloc, message)?)?;
        Ok(Vec::new(self.alloc))
    }

    // Does what a line says, and returns the text to be printed.
    fn answer(&mut self, line: &str) -> Result<Vec<u8>> {
        match line {
            "add" => self.add(),
            "tell" => self.tell(),
            _ => self.push(line),
        }
    }
}

/// Prints the answer to each line on an archive.
pub fn try_archives<B: BufRead + Drop, W: Write>(
    alloc: Global,
    reader: B,
    out: &mut W,
) -> Result<()> {
    let mut trial = ArchiveTrial {
        alloc,
        archive: Archive::new(alloc),
        list: Vec::new(alloc),
    };
    for line in reader.lines(alloc) {
        out.write_all(&trial.answer(&line?)?)?;
    }
    Ok(())
}
