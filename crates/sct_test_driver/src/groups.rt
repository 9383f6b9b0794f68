//! Trials of groups of sites that are settled, line by line.

use anyhow::{Result, bail};
use sct_delta::{Delta, DeltaFault, Entry, Vector, after_prefix, number_before_space, write_delta};
use sct_json::read_message;
use sct_script::{push_delta_fault, site_before_space, site_of};
use sct_site::SiteCore;
use sct_world::settle;
use std::alloc::Global;
use std::io::{BufRead, Write};
use std::sync::Arc;

// The number and the group of a site.
fn begun_in(text: &[u8]) -> Option<(u16, u16)> {
    let (number, rest) = site_before_space(text)?;
    let group = site_of(rest)?;
    Some((number, group))
}

// The delta of the one entry that an origin, a number and a JSON text describe.
fn delta_in(alloc: Global, text: &[u8]) -> Result<Delta> {
    let Some((origin, text)) = site_before_space(text) else {
        bail!("no origin of an entry");
    };
    let Some((n, json)) = number_before_space(text) else {
        bail!("no number of an entry");
    };
    let message = Arc::new(alloc, read_message(alloc, json)?)?;
    let mut entries = Vec::new(alloc);
    entries.push(Entry { origin, n, message })?;
    Ok(Delta::of(entries)?)
}

// Appends the number of a site and what it holds, by its logs and by its archive.
fn push_held(alloc: Global, text: &mut Vec<u8>, site: &SiteCore) -> Result<()> {
    let head = format!(in alloc; "C|{}\n", site.number())?;
    let whole = site.cut(&Vector::of(alloc, &[])?)?;
    text.extend_from_slice(head.as_bytes())?;
    text.extend_from_slice(&write_delta(alloc, &whole)?)?;
    text.extend_from_slice(&site.archive().text()?)?;
    Ok(())
}

/// Sites described line by line. The last one takes messages and entries.
#[derive(Drop)]
struct GroupTrial {
    alloc: Global,
    sites: Vec<SiteCore>,
}

impl GroupTrial {
    // Begins a site.
    fn open(&mut self, text: &[u8]) -> Result<()> {
        let Some((number, group)) = begun_in(text) else {
            bail!("no site");
        };
        self.sites.push(SiteCore::open(self.alloc, number, group)?)?;
        Ok(())
    }

    // Makes the last site take a message.
    fn take(&mut self, json: &[u8]) -> Result<()> {
        let message = Arc::new(self.alloc, read_message(self.alloc, json)?)?;
        let Some(site) = self.sites.last_mut() else {
            bail!("no site yet");
        };
        site.take(message)?;
        Ok(())
    }

    // Makes the last site accept an entry.
    fn hold(&mut self, text: &[u8]) -> Result<()> {
        let delta = delta_in(self.alloc, text)?;
        let Some(site) = self.sites.last_mut() else {
            bail!("no site yet");
        };
        site.accept(&delta)?;
        Ok(())
    }

    // Settles the sites, and returns how it ended.
    fn settle(&mut self) -> Result<String> {
        let mut text = String::new(self.alloc);
        match settle(self.alloc, &mut self.sites) {
            Ok(()) => text.push_str("SETTLED")?,
            Err(DeltaFault::Memory) => bail!("out of memory"),
            Err(refusal) => {
                text.push_str("REFUSED|")?;
                push_delta_fault(&mut text, &refusal)?;
            }
        }
        text.push('\n')?;
        Ok(text)
    }

    // Settles the sites, returns how it ended and what each site then holds, and starts again without sites.
    fn end(&mut self) -> Result<Vec<u8>> {
        let mut text = self.settle()?.into_bytes();
        for site in &self.sites {
            push_held(self.alloc, &mut text, site)?;
        }
        self.sites = Vec::new(self.alloc);
        Ok(text)
    }

    // Does what a line says, unless it is `settle`.
    fn tell(&mut self, line: &[u8]) -> Result<()> {
        if let Some(text) = after_prefix(line, b"site ") {
            return self.open(text);
        }
        if let Some(text) = after_prefix(line, b"take ") {
            return self.take(text);
        }
        if let Some(text) = after_prefix(line, b"hold ") {
            return self.hold(text);
        }
        bail!("no line of a group")
    }

    // Does what a line says, and returns the text to be printed.
    fn answer(&mut self, line: &[u8]) -> Result<Vec<u8>> {
        if line == b"settle".as_slice() {
            return self.end();
        }
        self.tell(line)?;
        Ok(Vec::new(self.alloc))
    }
}

/// Prints the answer to each line on a group.
pub fn try_groups<B: BufRead + Drop, W: Write>(
    alloc: Global,
    reader: B,
    out: &mut W,
) -> Result<()> {
    let mut trial = GroupTrial {
        alloc,
        sites: Vec::new(alloc),
    };
    for line in reader.lines(alloc) {
        out.write_all(&trial.answer(line?.as_bytes())?)?;
    }
    Ok(())
}
