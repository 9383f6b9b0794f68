//! A test program. It does what standard input says at archives, views, groups of sites and desks, and prints
//! the answers. Its first word says at which.
//!
//! `archives`: lines. A message, in its JSON form, goes into the list. `add` adds the list to the archive, and prints
//! `added` and how many of its messages were fresh; but if it is out of memory it prints the number of the fault. `tell`
//! prints how many messages the archive holds, how many of the list it holds, and the archive text.
//!
//! `views`: lines. A message, in its JSON form, goes into the batch. An empty line applies the batch to the view,
//! and prints how many of its messages were fresh and how many transfers it touched. `try` does the same; but if
//! it is out of memory for the batch it prints the number of the fault, and the batch stays. `tell` prints the
//! status text and the totals text of the view. `new` starts with a view of no message and an empty batch, and
//! prints `new`. `form <JSON text>` reads a message, and prints its written form, or else `unread` and the number
//! of the fault, or `unwritten` and that number.
//!
//! `groups`: lines. `site <number> <group>` begins a site. `take <JSON text>` makes the last site take a message, and
//! `hold <origin> <number> <JSON text>` makes it accept that one entry. `settle` settles the sites, prints how it ended
//! and what each site then holds, as a delta text and as an archive text, and starts again without sites.
//!
//! `group N`: lines, which are done at one desk of site 1 in a group of N sites. An empty line does nothing. The other
//! lines:
//! - a JSON text is read as the message, and `read` is printed;
//! - `take` takes the message, and prints `taken` and its number, or `repeat`, and the
//!   receipt: its from, count and carried;
//! - `accept N` hands the message over as entry N of site 2, and prints `accepted` and how many were fresh, or
//!   `refused` and the number of the fault, and the receipt;
//! - `cut` cuts all, and prints each entry as its origin and number, and the receipt;
//! - `publish` publishes, and prints the receipt;
//! - `learn` makes the query learn the last receipt, and prints `learned`;
//! - `other` makes the query learn the receipt of a new desk of site 2 that takes the message, and prints that receipt;
//! - `ask` prints the status of the transfer T1 of BANKDEFF;
//! - `findings` prints the number of findings on that transfer;
//! - `recall ID` prints the status of the recall ID of that transfer;
//! - `totals` prints how many transfers BANKDEFF sent, and how many cents;
//! - `open GROUP PLACES` opens another desk, and prints `opened` and how many queries it has.
//!
//! The answers of the query end with the number of arrivals that they are based on. At the end the desk is closed with
//! all receipts, and `closed` is printed with the number of arrivals. If a desk refuses, the number of the fault is
//! printed in place of an answer, and the position of the fault.
//!
//! `times N`: one thread takes N credit transfers, each of a transfer of its own, while another thread asks for the
//! last of them until it is known. It prints the nanoseconds of each take, of each of these answers, and of the
//! same number of answers after the last take.
//!
//! A line that the program cannot read ends it.
#![tactic(auto)]

mod archives;
mod desks;
mod groups;
mod views;

use anyhow::{Result, bail};
use archives::try_archives;
use desks::try_desks;
use groups::try_groups;
use std::alloc::Global;
use std::env;
use std::io::{BufRead, BufReader, BufWriter, Write};
use std::sync::Wait;
use std::thread::Threads;
use std::time::Clock;
use views::try_views;

// Does what the words say.
fn try_words<R: Threads + Wait + Clock + Sync, B: BufRead + Drop, W: Write>(
    rt: &R,
    alloc: Global,
    words: &[String],
    reader: B,
    out: &mut W,
) -> Result<()> {
    match words {
        [_, word] => match word.as_str() {
            "archives" => try_archives(alloc, reader, out),
            "views" => try_views(alloc, reader, out),
            "groups" => try_groups(alloc, reader, out),
            _ => bail!("no trial of that name"),
        },
        [_, word, number] => try_desks(rt, alloc, word.as_str(), number.parse()?, reader, out),
        _ => bail!("a word says what is tried, and a number after it if it is desks"),
    }
}

fn main(rt: HostRuntime) -> Result<()> {
    let alloc = rt.alloc();
    let words: Vec<String> = env::args(&rt)?.collect(alloc)?;
    let reader = BufReader::new(alloc, rt.reader())?;
    let mut out = BufWriter::new(alloc, rt.stdout())?;
    try_words(&rt, alloc, &words, reader, &mut out)?;
    out.flush()?;
    Ok(())
}
