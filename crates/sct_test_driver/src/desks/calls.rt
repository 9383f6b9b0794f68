//! Calls of one desk, line by line.

ghost use Rattle.std.specs.Prelude.{◌≡◌, [], IfSome};
ghost use Rattle.sct_desk.specs.Tilings.{AreOurs};

use super::asking::{findings_text, recall_text, status_text, totals_text};
use super::other::{learn_other, opened_text};
use super::texts::{accepted_text, cut_text, fault_text, receipt_text, taken_text};
use anyhow::{Result, bail};
use sct_delta::{Delta, Entry, Vector};
use sct_desk::{Desk, Query, Receipt, Site};
use sct_json::read_message;
use sct_message::Message;
use sct_site::{History, Track};
use std::alloc::Global;
use std::io::{BufRead, Write};
use std::marker::Brand;
use std::sync::{Arc, Wait};

// The message as an entry of site 2.
fn delta_of(alloc: Global, n: u64, message: Arc<Message>) -> Result<Delta> {
    let mut entries = Vec::new(alloc);
    entries.push(Entry {
        origin: 2,
        n,
        message,
    })?;
    Ok(Delta::of(entries)?)
}

// Opens a desk with the group and the places that the two numbers give.
fn open_text<W: Wait>(rt: &W, alloc: Global, numbers: &str) -> Result<String> {
    let Some((group, places)) = numbers.split_once(' ') else {
        bail!("a group, and how many places");
    };
    opened_text(rt, alloc, group.parse()?, places.parse()?)
}

// The last of a desk's receipts.
fn last_of<J: Site>(receipts: &[Receipt]) -> Option<&Receipt>
    requires { AreOurs J.book J.number receipts.now }
    ensures { IfSome result (λ receipt. receipt.now.site ≡ J.number → receipt.now.book ≡ J.book) }
{
    receipts.last()
}

/// A desk and its query, the receipts of its calls, and the message to be taken next.
#[derive(Drop)]
struct DeskTrial<J: Site, H: Wait + Drop> {
    alloc: Global,
    desk: Desk<J, H>,
    query: Query,
    receipts: Vec<Receipt>,
    message: Option<Arc<Message>>,
    ghost ours: { AreOurs J.book J.number receipts.items },
    ghost asks: { (query.site ≡ 1) × (query.book ≡ J.book) },
    ghost first: { 1 ≡ J.number },
}

impl<J: Site, H: Wait + Drop> DeskTrial<J, H> {
    // Reads a message.
    fn read(&mut self, json: &[u8]) -> Result<String> {
        let message = read_message(self.alloc, json)?;
        self.message = Some(Arc::new(self.alloc, message)?);
        Ok(format!(in self.alloc; "read\n")?)
    }

    // Takes the message.
    fn take<W: Wait>(&mut self, rt: &W) -> Result<String> {
        let Some(message) = &self.message else {
            bail!("no message yet");
        };
        let (took, receipt) = match self.desk.take(rt, self.alloc, message.clone()?) {
            Ok(taken) => taken,
            Err(fault) => return fault_text(self.alloc, &fault),
        };
        let text = taken_text(self.alloc, &took, &receipt)?;
        self.receipts.push(receipt)?;
        Ok(text)
    }

    // Makes the query learn the last receipt.
    fn learn(&mut self) -> Result<String> {
        let Some(receipt) = last_of::<J>(&self.receipts) else {
            bail!("no receipt yet");
        };
        self.query.learn(receipt);
        Ok(format!(in self.alloc; "learned\n")?)
    }

    // Makes the query learn the receipt of another site's desk that takes the message.
    fn learn_other<W: Wait>(&mut self, rt: &W) -> Result<String> {
        let Some(message) = &self.message else {
            bail!("no message yet");
        };
        let message = message.clone()?;
        learn_other(rt, self.alloc, message, &mut self.query)
    }

    // Publishes the pending arrivals.
    fn publish<W: Wait>(&mut self, rt: &W) -> Result<String> {
        let receipt = match self.desk.publish(rt, self.alloc) {
            Ok(receipt) => receipt,
            Err(fault) => return fault_text(self.alloc, &fault),
        };
        let text = receipt_text(self.alloc, &receipt)?;
        self.receipts.push(receipt)?;
        Ok(text)
    }

    // Accepts the message as the entry of site 2 with this number.
    fn accept<W: Wait>(&mut self, rt: &W, n: u64) -> Result<String> {
        let Some(message) = &self.message else {
            bail!("no message yet");
        };
        let delta = delta_of(self.alloc, n, message.clone()?)?;
        let (answer, receipt) = match self.desk.accept(rt, self.alloc, &delta) {
            Ok(accepted) => accepted,
            Err(fault) => return fault_text(self.alloc, &fault),
        };
        let text = accepted_text(self.alloc, &answer, &receipt)?;
        self.receipts.push(receipt)?;
        Ok(text)
    }

    // Cuts all entries of the site.
    fn cut<W: Wait>(&mut self, rt: &W) -> Result<String> {
        let vector = Vector::of(self.alloc, &[])?;
        let (delta, receipt) = match self.desk.cut(rt, self.alloc, &vector) {
            Ok(cut) => cut,
            Err(fault) => return fault_text(self.alloc, &fault),
        };
        let text = cut_text(self.alloc, &delta, &receipt)?;
        self.receipts.push(receipt)?;
        Ok(text)
    }

    // Does what a line of two words says, or reads a message.
    fn answer_words<W: Wait>(&mut self, rt: &W, line: &str) -> Result<String> {
        match line.split_once(' ') {
            Some(("accept", n)) => self.accept(rt, n.parse()?),
            Some(("recall", cxl)) => recall_text(self.alloc, &mut self.query, cxl),
            Some(("open", numbers)) => open_text(rt, self.alloc, numbers),
            _ => self.read(line.as_bytes()),
        }
    }

    // Does what a line says.
    fn answer<W: Wait>(&mut self, rt: &W, line: &str) -> Result<String> {
        match line {
            "" => Ok(String::new(self.alloc)),
            "take" => self.take(rt),
            "learn" => self.learn(),
            "other" => self.learn_other(rt),
            "cut" => self.cut(rt),
            "publish" => self.publish(rt),
            "ask" => status_text(self.alloc, &mut self.query),
            "findings" => findings_text(self.alloc, &mut self.query),
            "totals" => totals_text(self.alloc, &mut self.query),
            words => self.answer_words(rt, words),
        }
    }

    // Closes the desk with all receipts.
    fn close(self) -> Result<String> {
        let DeskTrial {
            alloc,
            desk,
            receipts,
            ..
        } = self;
        match desk.close(receipts) {
            Ok(core) => Ok(format!(in alloc; "closed {}\n", core.arrivals().len())?),
            Err(refusal) => fault_text(alloc, &refusal.fault),
        }
    }
}

// A desk of site 1 without events.
fn open<'a, J: Site, R: Wait>(
    rt: &'a R,
    alloc: Global,
    history: History,
    track: Track,
    group: u16,
) -> Result<DeskTrial<J, &'a R>>
    requires history { history ≡ J.book }
    requires track { (track.book ≡ J.book) × (track.log ≡ []) }
    requires site { (1 ≡ J.number) × (group ≡ J.group) }
{
    let Ok((desk, mut queries)) = Desk::<J, &'a R>::open(rt, alloc, history, track, 1, group, 1)
    else {
        bail!("no desk");
    };
    let Some(query) = queries.pop() else {
        bail!("no query");
    };
    Ok(DeskTrial {
        alloc,
        desk,
        query,
        receipts: Vec::new(alloc),
        message: None,
    })
}

// Does what the lines say at a new desk, closes it, and prints the answers.
fn try_lines<J: Site, R: Wait, B: BufRead + Drop, W: Write>(
    rt: &R,
    alloc: Global,
    history: History,
    track: Track,
    group: u16,
    reader: B,
    out: &mut W,
) -> Result<()>
    requires history { history ≡ J.book }
    requires track { (track.book ≡ J.book) × (track.log ≡ []) }
    requires site { (1 ≡ J.number) × (group ≡ J.group) }
{
    let mut trial = open::<J, R>(rt, alloc, history, track, group)?;
    for line in reader.lines(alloc) {
        let text = trial.answer(rt, &line?)?;
        out.write_all(text.as_bytes())?;
    }
    out.write_all(trial.close()?.as_bytes())?;
    Ok(())
}

/// Does what the lines say at a new desk of a group, closes it, and prints the answers.
pub fn try_calls<R: Wait, B: BufRead + Drop, W: Write>(
    rt: &R,
    alloc: Global,
    group: u16,
    reader: B,
    out: &mut W,
) -> Result<()> {
    let (history, track) = History::open();
    try_lines::<Brand, R, B, W>(rt, alloc, history, track, group, reader, out)
}
